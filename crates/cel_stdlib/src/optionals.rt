//! `hasValue` and `value` of optionals.
ghost use Rattle.std.specs.Prelude.{◌≡◌, IfOk, is_some};
ghost use Rattle.cel_value.specs.Find.{first_item};
ghost use Rattle.cel_value.specs.View.{view};
ghost use Rattle.cel_semantics.specs.Outcome.{outcome_view};
ghost use Rattle.cel_stdlib.specs.Optionals as spec;

use crate::faults::function_error;
use cel_semantics::operators::{Answer, no_such_overload};
use cel_value::{OptionalValue, Refused, Value};
use std::alloc::Global;

fn is_there(optional: &OptionalValue) -> bool
    ensures { result ≡ is_some (first_item optional.now) }
{
    optional.value().is_some()
}

/// Reports whether an optional holds a value.
pub(crate) fn has_value(alloc: Global, value: &Value) -> Result<Answer, Refused>
    ensures value { IfOk result (λ r. outcome_view r ≡ spec.has_value (view value.now)) }
{
    match value {
        Value::Optional(optional) => Ok(Ok(Value::Bool(is_there(optional)))),
        _ => Ok(Err(no_such_overload(alloc, "hasValue")?)),
    }
}

fn value_held(alloc: Global, optional: &OptionalValue) -> Result<Answer, Refused>
    ensures value { IfOk result (λ r. outcome_view r ≡ spec.value_held optional.now) }
{
    match optional.value() {
        Some(value) => Ok(Ok(value.try_clone()?)),
        None => Ok(Err(function_error(alloc, "value", "optional has no value")?)),
    }
}

/// Returns the value that an optional holds. An empty optional is an error.
pub(crate) fn value(alloc: Global, value: &Value) -> Result<Answer, Refused>
    ensures value { IfOk result (λ r. outcome_view r ≡ spec.value_of (view value.now)) }
{
    match value {
        Value::Optional(optional) => value_held(alloc, optional),
        _ => Ok(Err(no_such_overload(alloc, "value")?)),
    }
}
