//! URIs, by RFC 3986.
ghost use Rattle.std.specs.Prelude.{◌≡◌};
ghost use Rattle.std.specs.List.{list_all};
ghost use Rattle.kube_types_formats.specs.Uris.{is_scheme_byte, is_scheme, uri_fault};

use crate::fault::Fault;
use crate::offsets::first_offset;

/// Reports whether all bytes may follow the first letter of a scheme.
fn is_scheme_rest(text: &[u8]) -> bool
    ensures { result ≡ list_all is_scheme_byte text.now }
{
    text.iter().all(|byte| byte.is_ascii_alphanumeric() || matches!(*byte, b'+' | b'-' | b'.'))
}

/// Reports whether the text is a scheme.
fn is_scheme(text: &[u8]) -> bool
    ensures { result ≡ is_scheme text.now }
{
    match text {
        [first, rest @ ..] => first.is_ascii_alphabetic() && is_scheme_rest(rest),
        [] => false,
    }
}

/// The fault of the text as a URI, if any.
#[tactic(auto, unfolding(crate::specs::Uris::uri_fault))]
pub(crate) fn uri_fault(text: &[u8]) -> Option<Fault>
    ensures { result ≡ uri_fault text.now }
{
    if text.is_empty() {
        return Some(Fault::Empty);
    }
    match first_offset(b":", text) {
        None => Some(Fault::NoScheme),
        Some(colon) => {
            if is_scheme(&text[..colon]) {
                None
            } else {
                Some(Fault::InvalidScheme)
            }
        }
    }
}
