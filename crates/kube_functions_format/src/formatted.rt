//! `format`, and the text of a value under `%s`.
ghost use Rattle.std.specs.Prelude.{◌≡◌, IfOk, map, option_map};
ghost use Rattle.cel_value.specs.Texts as texts;
ghost use Rattle.cel_value.specs.View.{view};
ghost use Rattle.cel_semantics.specs.Outcome.{outcome_view};
ghost use Rattle.cel_semantics.specs.Ranges.{items_list};
ghost use Rattle.cel_value.specs.Parts.{items_in};
ghost use Rattle.kube_functions_format.specs.Formatted as spec;
ghost use Rattle.kube_functions_format.specs.Progress.{shown_view};

use crate::filling::filled_text;
use cel_semantics::operators::{Answer, no_such_overload};
use cel_value::{ExecutionError, Kind, Refused, Value};
use std::alloc::Global;

fn items_of(value: &Value) -> Option<&[Value]>
    ensures { option_map (λ v. map view v.now) result ≡ option_map items_list (items_in (view value.now)) }
{
    match value.as_list() {
        Some(items) => Some(items.as_slice()),
        None => None,
    }
}

fn string_answer(alloc: Global, text: Result<String, ExecutionError>) -> Result<Answer, Refused>
    ensures value { IfOk result (λ r. outcome_view r ≡ spec.as_string (shown_view text)) }
{
    match text {
        Ok(text) => Ok(Ok(Value::from_text(alloc, text)?)),
        Err(fault) => Ok(Err(fault)),
    }
}

/// Replaces each verb of a format string by the text of the next
/// item of a list, or returns the first error from the left.
///
/// `%s` prints the text of a value, `%d` a decimal number, and `%o`, `%b`, `%x` and `%X` digits in
/// base 8, 2 and 16; `%%` is a percent sign. A precision, which is a dot and digits after the
/// percent sign, has no effect (documentation of CEL-Go, "Strings").
///
/// # Errors
/// [`Refused::Memory`] if memory is refused.
pub fn format(alloc: Global, text: &Value, list: &Value) -> Result<Answer, Refused>
    ensures value { IfOk result (λ r. outcome_view r ≡ spec.format_of (view text.now) (view list.now)) }
{
    match text.as_str() {
        Some(text) => match items_of(list) {
            Some(items) => string_answer(alloc, filled_text(alloc, text, items)?),
            None => Ok(Err(no_such_overload(alloc, "format")?)),
        },
        None => Ok(Err(no_such_overload(alloc, "format")?)),
    }
}

/// Returns the text of a value under `%s`, or the kind of the first part of it that has no text.
///
/// # Errors
/// [`Refused::Memory`] if memory is refused.
pub fn printed(alloc: Global, value: &Value) -> Result<Result<String, Kind>, Refused>
    ensures value { IfOk result (λ r. texts.printed_view r ≡ texts.printed_text (view value.now)) }
{
    value.text(alloc)
}
