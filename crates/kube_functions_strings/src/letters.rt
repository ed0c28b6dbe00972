//! `lowerAscii`, `upperAscii`, `reverse` and `trim`: strings in
//! another letter case, reversed, or without surrounding white space.
ghost use Rattle.std.specs.Prelude.{◌≡◌, IfOk, string_bytes};
ghost use Rattle.cel_value.specs.View.{view};
ghost use Rattle.cel_semantics.specs.Outcome.{outcome_view};
ghost use Rattle.kube_functions_strings.specs.Letters as spec;

use crate::answers::{characters, text_answer};
use cel_semantics::operators::{Answer, no_such_overload};
use cel_value::{Refused, Value};
use std::alloc::{AllocError, Global};

/// Returns the string with its ASCII letters in lower case.
///
/// # Errors
/// [`Refused::Memory`] if memory is refused.
pub fn lower_ascii(alloc: Global, value: &Value) -> Result<Answer, Refused>
    ensures value { IfOk result (λ r. outcome_view r ≡ spec.lower_ascii (view value.now)) }
{
    match value.as_str() {
        Some(text) => text_answer(alloc, text.to_ascii_lowercase(alloc)?),
        None => Ok(Err(no_such_overload(alloc, "lowerAscii")?)),
    }
}

/// Returns the string with its ASCII letters in upper case.
///
/// # Errors
/// [`Refused::Memory`] if memory is refused.
pub fn upper_ascii(alloc: Global, value: &Value) -> Result<Answer, Refused>
    ensures value { IfOk result (λ r. outcome_view r ≡ spec.upper_ascii (view value.now)) }
{
    match value.as_str() {
        Some(text) => text_answer(alloc, text.to_ascii_uppercase(alloc)?),
        None => Ok(Err(no_such_overload(alloc, "upperAscii")?)),
    }
}

fn reversed_text(alloc: Global, text: &str) -> Result<String, AllocError>
    ensures { IfOk result (λ t. string_bytes t ≡ spec.reversed_text text.now) }
{
    let characters = characters(alloc, text)?;
    characters.iter().rev().copied().collect(alloc)
}

/// Returns the string with its characters in reverse order.
///
/// # Errors
/// [`Refused::Memory`] if memory is refused.
pub fn reverse(alloc: Global, value: &Value) -> Result<Answer, Refused>
    ensures value { IfOk result (λ r. outcome_view r ≡ spec.reverse_outcome (view value.now)) }
{
    match value.as_str() {
        Some(text) => text_answer(alloc, reversed_text(alloc, text)?),
        None => Ok(Err(no_such_overload(alloc, "reverse")?)),
    }
}

/// Returns the string without leading and trailing white space.
///
/// # Errors
/// [`Refused::Memory`] if memory is refused.
pub fn trim(alloc: Global, value: &Value) -> Result<Answer, Refused>
    ensures value { IfOk result (λ r. outcome_view r ≡ spec.trim_outcome (view value.now)) }
{
    match value.as_str() {
        Some(text) => text_answer(alloc, String::from_str(alloc, text.trim())?),
        None => Ok(Err(no_such_overload(alloc, "trim")?)),
    }
}
