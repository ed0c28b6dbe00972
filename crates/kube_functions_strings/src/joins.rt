//! `join`: the strings of a list joined into one.
ghost use Rattle.std.specs.Prelude.{◌≡◌, IfOk, map, option_map, string_bytes};
ghost use Rattle.cel_value.specs.View.{view};
ghost use Rattle.cel_semantics.specs.Outcome.{outcome_view};
ghost use Rattle.kube_functions_strings.specs.Joins as spec;
ghost use Rattle.kube_functions_strings.specs.Pieces.{text_with_separators};

use crate::answers::{function_fault, text_answer};
use cel_semantics::operators::{Answer, no_such_overload};
use cel_value::{Kind, Refused, Value};
use std::alloc::{AllocError, Global};

// The texts of the values, or the kind of the first value that isn't a string.
fn texts_of<'a>(alloc: Global, items: &'a [Value]) -> Result<Result<Vec<&'a str>, Kind>, AllocError>
    ensures { IfOk result (λ r. spec.texts_view r ≡ spec.texts_of (map view items.now)) }
{
    let mut texts = Vec::new(alloc);
    for item in items {
        match item.as_str() {
            Some(text) => texts.push(text)?,
            None => return Ok(Err(item.type_of())),
        }
    }
    Ok(Ok(texts))
}

/// Joins texts, with another text between them.
pub(crate) fn joined(alloc: Global, texts: &[&str], between: &str) -> Result<String, AllocError>
    ensures { IfOk result (λ t. string_bytes t
        ≡ text_with_separators between.now (map (λ s. s.now) texts.now)) }
{
    let text = texts.join(alloc, between)?;
    Ok(text)
}

fn joined_items(alloc: Global, items: &[Value], between: &str) -> Result<Answer, Refused>
    ensures value { IfOk result
        (λ r. outcome_view r ≡ spec.joined_or_fault between.now (spec.texts_of (map view items.now))) }
{
    match texts_of(alloc, items)? {
        Ok(texts) => text_answer(alloc, joined(alloc, texts.as_slice(), between)?),
        Err(kind) => {
            let message = format!(in alloc; "cannot join a value of kind {kind}")?;
            function_fault(alloc, "join", message)
        }
    }
}

fn items_of(value: &Value) -> Option<&[Value]>
    ensures { option_map (λ v. map view v.now) result ≡ spec.listed_in (view value.now) }
{
    match value.as_list() {
        Some(items) => Some(items.as_slice()),
        None => None,
    }
}

fn separator_of(separator: Option<&Value>) -> Option<&str>
    ensures { option_map (λ s. s.now) result
        ≡ spec.separator_in (option_map (λ v. view v.now) separator.entry) }
{
    match separator {
        Some(value) => value.as_str(),
        None => Some(""),
    }
}

/// Joins the strings of a list, with a separator between them
/// if one is given. An item that isn't a string is an error.
///
/// # Errors
/// [`Refused::Memory`] if memory is refused.
pub fn join(alloc: Global, value: &Value, separator: Option<&Value>) -> Result<Answer, Refused>
    ensures value { IfOk result (λ r. outcome_view r
        ≡ spec.join (view value.now) (option_map (λ v. view v.now) separator.entry)) }
{
    match items_of(value) {
        Some(items) => match separator_of(separator) {
            Some(between) => joined_items(alloc, items, between),
            None => Ok(Err(no_such_overload(alloc, "join")?)),
        },
        None => Ok(Err(no_such_overload(alloc, "join")?)),
    }
}
