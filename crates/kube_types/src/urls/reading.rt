//! Parses a URL.
ghost use Rattle.std.specs.Prelude.{◌≡◌, ◌≤◌, ◌<◌, None, IfOk, IfErr, string_bytes};
ghost use Rattle.std.specs.Result.{result_ok};
ghost use Rattle.url.specs.Parser.{parse_url};
ghost use Rattle.kube_types_refused.specs.declared.Refused.TheVariants.{Memory, TooLarge};
ghost use Rattle.kube_types.specs.Url.Reading.{full_text, refusal_of};

use kube_types_refused::Refused;
use std::alloc::{AllocError, Global};
use url::{ParseError, Url};

/// The refusal for an error of the parser, or None if the error isn't a refusal.
fn refusal(error: ParseError) -> Option<Refused>
    ensures { result ≡ refusal_of error }
{
    match error {
        ParseError::OutOfMemory => Some(Refused::Memory),
        ParseError::Overflow => Some(Refused::TooLarge),
        _ => None,
    }
}

/// The least length in bytes of a text whose URL may be too large: `url` holds texts of less than 4
/// GB, which is sixteen times as long, and never writes one byte as sixteen.
const LEAST_TOO_LARGE: usize = 268_435_456;

/// The refusal reported for a text of this length: a short text is never too large.
fn exact_refusal(refused: Refused, length: usize) -> Refused
    ensures large { result ≡ TooLarge → 268_435_456 ≤ length }
    ensures short { length < 268_435_456 → result ≡ Memory }
    ensures same { 268_435_456 ≤ length → result ≡ refused }
{
    if length < LEAST_TOO_LARGE {
        return Refused::Memory;
    }
    refused
}

/// The text that is parsed: for a path, `http://localhost` is put in front of it.
pub(crate) fn full_text(alloc: Global, text: &str) -> Result<String, AllocError>
    ensures answer { IfOk result (λ full. string_bytes full ≡ full_text text.now) }
{
    if text.starts_with('/') {
        Ok(format!(in alloc; "http://localhost{text}")?)
    } else {
        Ok(String::from_str(alloc, text)?)
    }
}

/// Parses a URL by the URL Standard, or returns None if the text isn't
/// one. `length` is the length of the text that the caller was given.
pub(crate) fn parsed(alloc: Global, text: &str, length: usize) -> Result<Option<Url>, Refused>
    ensures url { IfOk result (λ url. url ≡ result_ok (parse_url None text.now)) }
    ensures large { IfErr result (λ e. e ≡ TooLarge → 268_435_456 ≤ length) }
{
    match Url::parse(alloc, text) {
        Ok(url) => Ok(Some(url)),
        Err(error) => match refusal(error) {
            Some(refused) => Err(exact_refusal(refused, length)),
            None => Ok(None),
        },
    }
}
