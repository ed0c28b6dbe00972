//! `jsonpatch.escapeKey` and `strings.quote`: strings with certain characters escaped.
ghost use Rattle.std.specs.Prelude.{◌≡◌, ◌++◌, IfOk, OnOk, option_map, string_bytes};
ghost use Rattle.cel_value.specs.View.{view};
ghost use Rattle.cel_semantics.specs.Outcome.{outcome_view};
ghost use Rattle.kube_functions_strings.specs.Escapes as spec;

use crate::answers::text_answer;
use cel_semantics::operators::{Answer, no_such_overload};
use cel_value::{Refused, Value};
use std::alloc::{AllocError, Global};

/// Which characters are escaped, and how.
#[derive(Clone, Copy, Debug, PartialEq, Eq)]
pub enum Escaping {
    /// `~` and `/`, in a key of a JSON Pointer.
    Pointer,
    /// Quotation marks, backslashes and seven control characters, in a quoted text.
    Quoted,
}

impl Escaping {
    fn escape(self, character: char) -> Option<&'static str>
        ensures { option_map (λ s. s.now) result ≡ spec.escape_of self character }
    {
        match self {
            Escaping::Pointer => match character {
                '~' => Some("~0"),
                '/' => Some("~1"),
                _ => None,
            },
            Escaping::Quoted => match character {
                '"' => Some("\\\""),
                '\\' => Some("\\\\"),
                '\u{7}' => Some("\\a"),
                '\u{8}' => Some("\\b"),
                '\u{c}' => Some("\\f"),
                '\n' => Some("\\n"),
                '\r' => Some("\\r"),
                '\t' => Some("\\t"),
                '\u{b}' => Some("\\v"),
                _ => None,
            },
        }
    }
}

fn push_escaped(out: &mut String, form: Escaping, character: char) -> Result<(), AllocError>
    ensures { OnOk result (string_bytes out.new
        ≡ string_bytes out.old ++ spec.escaped_character form character) }
{
    match form.escape(character) {
        Some(escape) => out.push_str(escape),
        None => out.push(character),
    }
}

// Appends the text to `out`, each character escaped.
fn push_all_escaped(out: &mut String, form: Escaping, text: &str) -> Result<(), AllocError>
    ensures { OnOk result (string_bytes out.new ≡ string_bytes out.old ++ spec.escaped_text form text.now) }
{
    for character in text.chars() {
        push_escaped(out, form, character)?;
    }
    Ok(())
}

fn escaped_text(alloc: Global, form: Escaping, text: &str) -> Result<String, AllocError>
    ensures { IfOk result (λ t. string_bytes t ≡ spec.escaped_text form text.now) }
{
    let mut out = String::new(alloc);
    push_all_escaped(&mut out, form, text)?;
    Ok(out)
}

fn quoted_text(alloc: Global, text: &str) -> Result<String, AllocError>
    ensures { IfOk result (λ t. string_bytes t ≡ spec.quoted_text text.now) }
{
    let mut out = String::from_str(alloc, "\"")?;
    push_all_escaped(&mut out, Escaping::Quoted, text)?;
    out.push_str("\"")?;
    Ok(out)
}

/// Returns the string as a key of a JSON Pointer: `~0` for each `~` and `~1` for each `/`.
///
/// # Errors
/// [`Refused::Memory`] if memory is refused.
pub fn escape_key(alloc: Global, value: &Value) -> Result<Answer, Refused>
    ensures value { IfOk result (λ r. outcome_view r ≡ spec.escaped_key (view value.now)) }
{
    match value.as_str() {
        Some(text) => text_answer(alloc, escaped_text(alloc, Escaping::Pointer, text)?),
        None => Ok(Err(no_such_overload(alloc, "jsonpatch.escapeKey")?)),
    }
}

/// Returns the string in quotation marks, with a
/// backslash escape for each character that needs one.
///
/// # Errors
/// [`Refused::Memory`] if memory is refused.
pub fn quote(alloc: Global, value: &Value) -> Result<Answer, Refused>
    ensures value { IfOk result (λ r. outcome_view r ≡ spec.quote (view value.now)) }
{
    match value.as_str() {
        Some(text) => text_answer(alloc, quoted_text(alloc, text)?),
        None => Ok(Err(no_such_overload(alloc, "strings.quote")?)),
    }
}
