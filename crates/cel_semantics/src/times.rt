//! Sums and differences of timestamps and durations.
ghost use Rattle.std.specs.Prelude.{◌≡◌, ◌+ℤ◌, ◌-ℤ◌, IfOk};
ghost use Rattle.cel_value.specs.Data.{timestamp, duration};
ghost use Rattle.cel_value.specs.View.{view};
ghost use Rattle.cel_value.specs.Instants.{instant};
ghost use Rattle.cel_semantics.specs.Arithmetic.{or_overflow, timestamp_or_overflow, duration_or_overflow, sum_of, difference_of};
ghost use Rattle.cel_semantics.specs.Outcome.{outcome_view};

use crate::operators::{Answer, no_such_overload};
use cel_value::{Duration, ExecutionError, Refused, Timestamp, Value};
use std::alloc::Global;

fn checked_timestamp(moment: Option<Timestamp>) -> Answer
    ensures { outcome_view result ≡ or_overflow (λ t. timestamp (instant t) t.offset_minutes) moment }
{
    match moment {
        Some(moment) => Ok(Value::Timestamp(moment)),
        None => Err(ExecutionError::Overflow),
    }
}

fn checked_duration(length: Option<Duration>) -> Answer
    ensures { outcome_view result ≡ or_overflow (λ d. duration d.nanoseconds) length }
{
    match length {
        Some(length) => Ok(Value::Duration(length)),
        None => Err(ExecutionError::Overflow),
    }
}

#[tactic(auto, using(crate::proofs::Instants::timestamp_checked))]
fn later(start: Timestamp, length: Duration) -> Answer
    ensures { outcome_view result
        ≡ timestamp_or_overflow (instant start +ℤ length.nanoseconds) start.offset_minutes }
{
    checked_timestamp(start.checked_add(length))
}

#[tactic(auto, using(crate::proofs::Instants::timestamp_checked))]
fn earlier(end: Timestamp, length: Duration) -> Answer
    ensures { outcome_view result
        ≡ timestamp_or_overflow (instant end -ℤ length.nanoseconds) end.offset_minutes }
{
    checked_timestamp(end.checked_sub(length))
}

#[tactic(auto, using(crate::proofs::Instants::duration_checked))]
fn between(end: Timestamp, start: Timestamp) -> Answer
    ensures { outcome_view result ≡ duration_or_overflow (instant end -ℤ instant start) }
{
    checked_duration(end.since(start))
}

#[tactic(auto, using(crate::proofs::Instants::duration_checked))]
fn add_durations(length: Duration, more: Duration) -> Answer
    ensures { outcome_view result ≡ duration_or_overflow (length.nanoseconds +ℤ more.nanoseconds) }
{
    checked_duration(length.checked_add(more))
}

#[tactic(auto, using(crate::proofs::Instants::duration_checked))]
fn subtract_durations(length: Duration, less: Duration) -> Answer
    ensures { outcome_view result ≡ duration_or_overflow (length.nanoseconds -ℤ less.nanoseconds) }
{
    checked_duration(length.checked_sub(less))
}

/// Adds a value to a timestamp.
pub(crate) fn add_to_timestamp(
    alloc: Global,
    start: Timestamp,
    right: &Value,
) -> Result<Answer, Refused>
    ensures value { IfOk result
        (λ r. outcome_view r ≡ sum_of (timestamp (instant start) start.offset_minutes) (view right.now)) }
{
    match right {
        Value::Duration(length) => Ok(later(start, *length)),
        _ => Ok(Err(no_such_overload(alloc, "+")?)),
    }
}

/// Adds a value to a duration.
pub(crate) fn add_to_duration(
    alloc: Global,
    length: Duration,
    right: &Value,
) -> Result<Answer, Refused>
    ensures value { IfOk result
        (λ r. outcome_view r ≡ sum_of (duration length.nanoseconds) (view right.now)) }
{
    match right {
        Value::Timestamp(start) => Ok(later(*start, length)),
        Value::Duration(more) => Ok(add_durations(length, *more)),
        _ => Ok(Err(no_such_overload(alloc, "+")?)),
    }
}

/// Subtracts a value from a timestamp.
pub(crate) fn subtract_from_timestamp(
    alloc: Global,
    end: Timestamp,
    right: &Value,
) -> Result<Answer, Refused>
    ensures value { IfOk result
        (λ r. outcome_view r ≡ difference_of (timestamp (instant end) end.offset_minutes) (view right.now)) }
{
    match right {
        Value::Timestamp(start) => Ok(between(end, *start)),
        Value::Duration(length) => Ok(earlier(end, *length)),
        _ => Ok(Err(no_such_overload(alloc, "-")?)),
    }
}

/// Subtracts a value from a duration.
pub(crate) fn subtract_from_duration(
    alloc: Global,
    length: Duration,
    right: &Value,
) -> Result<Answer, Refused>
    ensures value { IfOk result
        (λ r. outcome_view r ≡ difference_of (duration length.nanoseconds) (view right.now)) }
{
    match right {
        Value::Duration(less) => Ok(subtract_durations(length, *less)),
        _ => Ok(Err(no_such_overload(alloc, "-")?)),
    }
}
