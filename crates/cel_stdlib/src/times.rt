//! The conversions `timestamp` and `duration`.
ghost use Rattle.std.specs.Prelude.{◌≡◌, IfOk};
ghost use Rattle.cel_value.specs.Data as plain;
ghost use Rattle.cel_value.specs.View.{view};
ghost use Rattle.cel_semantics.specs.Outcome.{outcome_view};
ghost use Rattle.cel_stdlib.specs.Conversions as spec;

use crate::faults::function_error;
use cel_semantics::operators::{Answer, no_such_overload};
use cel_value::{Duration, Refused, Timestamp, Value};
use std::alloc::Global;

fn timestamp_from_text(alloc: Global, text: &str) -> Result<Answer, Refused>
    ensures value { IfOk result (λ r. outcome_view r ≡ spec.timestamp_of (plain.text text.now)) }
{
    match Timestamp::read(text) {
        Some(moment) => Ok(Ok(Value::Timestamp(moment))),
        None => Ok(Err(function_error(alloc, "timestamp", "invalid timestamp")?)),
    }
}

fn duration_from_text(alloc: Global, text: &str) -> Result<Answer, Refused>
    ensures value { IfOk result (λ r. outcome_view r ≡ spec.duration_of (plain.text text.now)) }
{
    match Duration::read(text) {
        Some(length) => Ok(Ok(Value::Duration(length))),
        None => Ok(Err(function_error(alloc, "duration", "invalid duration")?)),
    }
}

/// Converts a timestamp or a string to a timestamp.
pub(crate) fn timestamp(alloc: Global, value: &Value) -> Result<Answer, Refused>
    ensures value { IfOk result (λ r. outcome_view r ≡ spec.timestamp_of (view value.now)) }
{
    match value {
        Value::Timestamp(moment) => Ok(Ok(Value::Timestamp(*moment))),
        Value::String(text) => timestamp_from_text(alloc, text.as_str()),
        _ => Ok(Err(no_such_overload(alloc, "timestamp")?)),
    }
}

/// Converts a duration or a string to a duration.
pub(crate) fn duration(alloc: Global, value: &Value) -> Result<Answer, Refused>
    ensures value { IfOk result (λ r. outcome_view r ≡ spec.duration_of (view value.now)) }
{
    match value {
        Value::Duration(length) => Ok(Ok(Value::Duration(*length))),
        Value::String(text) => duration_from_text(alloc, text.as_str()),
        _ => Ok(Err(no_such_overload(alloc, "duration")?)),
    }
}
