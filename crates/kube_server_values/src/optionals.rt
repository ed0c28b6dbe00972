//! Optional values.
ghost use Rattle.std.specs.Prelude.{◌≡◌, IfOk, Ok};
ghost use Rattle.cel_value.specs.View.{view};
ghost use Rattle.cel_value.specs.Instants.{instant};
ghost use Rattle.cel_semantics.specs.Outcome.{outcome_view};
ghost use Rattle.kube_server_values.specs.Optionals as spec;

use crate::limits::limit;
use cel_semantics::operators::{Answer, no_such_overload};
use cel_value::{OptionalValue, Refused, Timestamp, Value};
use std::alloc::Global;

/// Returns an optional of a value.
///
/// # Errors
/// [`Refused::Memory`] if memory is refused.
pub fn some_of(alloc: Global, value: &Value) -> Result<Answer, Refused>
    ensures value { IfOk result (λ r. outcome_view r ≡ Ok (spec.some_of (view value.now))) }
{
    Ok(Ok(Value::Optional(OptionalValue::of(alloc, value.try_clone()?)?)))
}

/// Returns the optional without a value.
pub fn none_of_all() -> Answer
    ensures { outcome_view result ≡ Ok spec.none_of_all }
{
    Ok(Value::Optional(OptionalValue::none()))
}

fn is_zero(value: &Value) -> bool
    ensures { result ≡ spec.is_zero (view value.now) }
{
    match value {
        Value::Null => true,
        Value::Bool(b) => !*b,
        Value::Int(n) => *n == 0,
        Value::UInt(n) => *n == 0,
        Value::String(text) => text.as_str().is_empty(),
        Value::Bytes(bytes) => bytes.as_slice().is_empty(),
        Value::List(items) => items.is_empty(),
        Value::Map(entries) => entries.len() == 0,
        Value::Duration(duration) => duration.nanoseconds == 0,
        _ => false,
    }
}

// Whether it is the first instant of the epoch of Unix or of the year 1.
fn is_first(moment: Timestamp) -> bool
    ensures { result ≡ spec.is_first (instant moment) }
{
    moment.nanoseconds == 0 && (moment.seconds == 0 || moment.seconds == -62_135_596_800)
}

fn may_be_zero(value: &Value) -> bool
    ensures { result ≡ spec.may_be_zero (view value.now) }
{
    match value {
        Value::Timestamp(moment) => is_first(*moment),
        Value::Optional(optional) => optional.value().is_none(),
        _ => false,
    }
}

/// Returns an optional of a value that is no zero value, and the optional without a value for a
/// zero value.
///
/// # Errors
/// [`Refused::Memory`] if memory is refused.
pub fn some_of_nonzero(alloc: Global, value: &Value) -> Result<Answer, Refused>
    ensures value { IfOk result (λ r. outcome_view r ≡ spec.some_of_nonzero (view value.now)) }
{
    if may_be_zero(value) {
        limit(alloc, "optional.ofNonZeroValue of such a value")
    } else if is_zero(value) {
        Ok(none_of_all())
    } else {
        some_of(alloc, value)
    }
}

fn held_or(alloc: Global, first: &OptionalValue, second: &Value) -> Result<Answer, Refused>
    ensures value { IfOk result (λ r. outcome_view r ≡ spec.held_or first.now (view second.now)) }
{
    match (first.value(), second) {
        (None, Value::Optional(second)) => Ok(Ok(Value::Optional(second.try_clone()?))),
        (Some(_), Value::Optional(_)) => Ok(Ok(Value::Optional(first.try_clone()?))),
        _ => Ok(Err(no_such_overload(alloc, "or")?)),
    }
}

/// `or`: returns the first of two optionals that holds a value, and else the second one.
///
/// # Errors
/// [`Refused::Memory`] if memory is refused.
pub fn or_optional(alloc: Global, first: &Value, second: &Value) -> Result<Answer, Refused>
    ensures value { IfOk result
        (λ r. outcome_view r ≡ spec.or_optional (view first.now) (view second.now)) }
{
    match first {
        Value::Optional(first) => held_or(alloc, first, second),
        _ => Ok(Err(no_such_overload(alloc, "or")?)),
    }
}

fn held_or_value(optional: &OptionalValue, other: &Value) -> Result<Answer, Refused>
    ensures value { IfOk result
        (λ r. outcome_view r ≡ spec.held_or_value optional.now (view other.now)) }
{
    match optional.value() {
        Some(value) => Ok(Ok(value.try_clone()?)),
        None => Ok(Ok(other.try_clone()?)),
    }
}

/// `orValue`: returns the value that an optional holds, and another one if it holds none.
///
/// # Errors
/// [`Refused::Memory`] if memory is refused.
pub fn or_value(alloc: Global, optional: &Value, other: &Value) -> Result<Answer, Refused>
    ensures value { IfOk result
        (λ r. outcome_view r ≡ spec.or_value (view optional.now) (view other.now)) }
{
    match optional {
        Value::Optional(optional) => held_or_value(optional, other),
        _ => Ok(Err(no_such_overload(alloc, "orValue")?)),
    }
}
