//! Conversions between bools and strings.
ghost use Rattle.std.specs.Prelude.{◌≡◌, IfOk, Ok};
ghost use Rattle.cel_value.specs.Data as plain;
ghost use Rattle.cel_value.specs.View.{view};
ghost use Rattle.cel_semantics.specs.Outcome.{outcome_view};
ghost use Rattle.kube_server_values.specs.Bools as spec;

use cel_semantics::operators::{Answer, no_such_overload};
use cel_stdlib::faults::function_error;
use cel_value::{Refused, Value};
use std::alloc::Global;

fn bool_in(text: &str) -> Option<bool>
    ensures { result ≡ spec.bool_in_text text.now }
{
    match text {
        "1" | "t" | "T" | "TRUE" | "true" | "True" => Some(true),
        "0" | "f" | "F" | "FALSE" | "false" | "False" => Some(false),
        _ => None,
    }
}

fn bool_from_text(alloc: Global, text: &str) -> Result<Answer, Refused>
    ensures value { IfOk result (λ r. outcome_view r ≡ spec.bool_of (plain.text text.now)) }
{
    match bool_in(text) {
        Some(b) => Ok(Ok(Value::Bool(b))),
        None => Ok(Err(function_error(alloc, "bool", "invalid bool text")?)),
    }
}

/// Converts a bool or a string to a bool.
///
/// # Errors
/// [`Refused::Memory`] if memory is refused.
pub fn bool(alloc: Global, value: &Value) -> Result<Answer, Refused>
    ensures value { IfOk result (λ r. outcome_view r ≡ spec.bool_of (view value.now)) }
{
    match value {
        Value::Bool(b) => Ok(Ok(Value::Bool(*b))),
        Value::String(text) => bool_from_text(alloc, text.as_str()),
        _ => Ok(Err(no_such_overload(alloc, "bool")?)),
    }
}

/// Converts a bool to a string.
///
/// # Errors
/// [`Refused::Memory`] if memory is refused.
pub fn bool_string(alloc: Global, b: bool) -> Result<Answer, Refused>
    ensures value { IfOk result (λ r. outcome_view r ≡ Ok (spec.string_of_bool b)) }
{
    Ok(Ok(Value::of_str(alloc, if b { "true" } else { "false" })?))
}
