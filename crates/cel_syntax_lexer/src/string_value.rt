//! The values of strings and bytes.

ghost use Rattle.std.specs.Prelude.{◌≡◌, MatchResult, option_map, IfOk};
ghost use Rattle.kube_types.specs.Refused.TheVariants.{Memory};
ghost use Rattle.cel_value.specs.View.{view};
ghost use Rattle.cel_syntax_lexer.specs.StringValues as spec;

use crate::content::Content;
use crate::escape::unescape;
use cel_value::Value;
use kube_types::Refused;
use std::alloc::{AllocError, Global};
use std::rc::Rc;

/// The part of a spelling between these quotes.
#[tactic(auto, unfolding(crate::specs::StringValues::between))]
fn between<'a>(quotes: &[u8], spelling: &'a [u8]) -> Option<&'a [u8]>
    ensures { option_map (λ body. body.now) result ≡ spec.between quotes.now spelling.now }
{
    let rest = spelling.strip_prefix(quotes)?;
    rest.strip_suffix(quotes)
}

/// The part of a spelling between its quotes, which are tripled or single.
#[tactic(auto, unfolding(crate::specs::StringValues::body_of))]
fn body_of(spelling: &[u8]) -> Option<&[u8]>
    ensures { option_map (λ body. body.now) result ≡ spec.body_of spelling.now }
{
    if let Some(body) = between(b"'''", spelling) {
        return Some(body);
    }
    if let Some(body) = between(b"\"\"\"", spelling) {
        return Some(body);
    }
    if let Some(body) = between(b"'", spelling) {
        return Some(body);
    }
    between(b"\"", spelling)
}

/// Returns the bytes that a spelling denotes, raw or with
/// escapes. Returns None if an escape is invalid.
#[tactic(auto, unfolding(crate::specs::StringValues::content_bytes))]
fn content_bytes(
    alloc: Global,
    content: Content,
    spelling: &[u8],
) -> Result<Option<Vec<u8>>, AllocError>
    ensures { IfOk result
        (λ made. option_map (λ bytes. bytes.items) made ≡ spec.content_bytes content spelling.now) }
{
    match spelling {
        [b'r' | b'R', raw @ ..] => match body_of(raw) {
            Some(body) => Ok(Some(body.to_vec(alloc)?)),
            None => Ok(None),
        },
        _ => match body_of(spelling) {
            Some(body) => unescape(alloc, content, body),
            None => Ok(None),
        },
    }
}

/// Returns the value of these bytes, or None if they should be a string and aren't UTF-8.
#[tactic(auto, using(crate::proofs::Texts::is_text, crate::proofs::Texts::no_text))]
fn content_value(alloc: Global, content: Content, made: Vec<u8>) -> Result<Option<Value>, Refused>
    ensures { MatchResult result
        (λ value. option_map view value ≡ spec.content_value content made.items)
        (λ refused. refused ≡ Memory) }
{
    match content {
        Content::Text => match String::from_utf8(made) {
            Ok(text) => Ok(Some(Value::from_text(alloc, text)?)),
            Err(_) => Ok(None),
        },
        Content::Bytes => Ok(Some(Value::Bytes(Rc::new(alloc, made)?))),
    }
}

/// Splits off the prefix `b`: returns the kind of the literal and the rest of its spelling.
fn split_content(spelling: &[u8]) -> (Content, &[u8])
    ensures content { result.0 ≡ spec.content_of spelling.now }
    ensures rest { result.1.now ≡ spec.after_content spelling.now }
{
    match spelling {
        [b'b' | b'B', rest @ ..] => (Content::Bytes, rest),
        _ => (Content::Text, spelling),
    }
}

/// Returns the value of a quoted literal, or None if one of its escapes is invalid.
#[tactic(auto, unfolding(crate::specs::StringValues::quoted_value))]
pub(crate) fn quoted(alloc: Global, spelling: &[u8]) -> Result<Option<Value>, Refused>
    ensures { MatchResult result
        (λ value. option_map view value ≡ spec.quoted_value spelling.now)
        (λ refused. refused ≡ Memory) }
{
    let (content, rest) = split_content(spelling);
    match content_bytes(alloc, content, rest)? {
        Some(made) => content_value(alloc, content, made),
        None => Ok(None),
    }
}
