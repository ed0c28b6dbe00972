//! Conversions between ints and times.
ghost use Rattle.std.specs.Prelude.{◌≡◌, IfOk, Err, pos};
ghost use Rattle.cel_value.specs.Instants.{instant};
ghost use Rattle.cel_semantics.specs.Outcome.{outcome_view};
ghost use Rattle.kube_server_times.specs.Conversions as spec;
ghost use Rattle.kube_server_times.specs.Limits.{int_limit};

use crate::limits::int_limit;
use cel_semantics::operators::Answer;
use cel_value::{ExecutionError, Refused, Timestamp, Value};
use std::alloc::Global;

const FIRST_SECOND: i64 = -62_135_596_800;

const LAST_SECOND: i64 = 253_402_300_799;

/// Returns the seconds of a timestamp since 1970-01-01T00:00:00Z, rounded down.
pub fn int_of_timestamp(moment: Timestamp) -> Answer
    ensures { outcome_view result ≡ spec.int_of_timestamp (instant moment) }
{
    Ok(Value::Int(moment.seconds))
}

/// Returns the error of `int` of a duration, which isn't answered.
///
/// # Errors
/// [`Refused::Memory`] if memory is refused.
pub fn int_of_duration(alloc: Global) -> Result<Answer, Refused>
    ensures value { IfOk result (λ r. outcome_view r ≡ Err int_limit) }
{
    Ok(Err(int_limit(alloc)?))
}

/// Returns the timestamp at a second since 1970-01-01T00:00:00Z. A second
/// outside of the years 1 to 9999 is an overflow.
pub fn timestamp_at(second: i64) -> Answer
    ensures { outcome_view result ≡ spec.timestamp_at second }
{
    if FIRST_SECOND <= second && second <= LAST_SECOND {
        Ok(Value::Timestamp(Timestamp {
            seconds: second,
            nanoseconds: 0,
            offset_minutes: 0,
        }))
    } else {
        Err(ExecutionError::Overflow)
    }
}
