//! The texts of timestamps and durations as CEL-Go prints them.
ghost use Rattle.std.specs.Prelude.{◌≡◌, ◌<◌, ◌/◌, ◌%◌, ◌++◌, IfOk, Ok, OnOk, string_bytes, unsigned_abs};
ghost use Rattle.cel_value.specs.Data as plain;
ghost use Rattle.cel_value.specs.Instants.{instant};
ghost use Rattle.cel_value.specs.TimestampTexts.{offset_text};
ghost use Rattle.cel_semantics.specs.Outcome.{outcome_view};
ghost use Rattle.kube_server_times.specs.Texts as spec;

use crate::decimals::write_nanoseconds;
use crate::limits::rounding_limit;
use cel_semantics::operators::Answer;
use cel_value::{Duration, Refused, Timestamp, Value};
use std::alloc::{AllocError, Global};
use std::fmt::Write;

// The bytes of a date and a time to the second.
const DATE_AND_TIME: usize = 19;

/// Returns the local date and time to the second, and then the offset in digits.
fn whole_second(alloc: Global, moment: Timestamp) -> Result<(String, String), Refused>
    ensures second { IfOk result (λ p. string_bytes p.0
        ≡ spec.local_second_text moment.seconds moment.offset_minutes) }
    ensures offset { IfOk result (λ p. string_bytes p.1 ≡ offset_text moment.offset_minutes) }
{
    let whole = Timestamp {
        seconds: moment.seconds,
        nanoseconds: 0,
        offset_minutes: moment.offset_minutes,
    };
    let mut text = whole.text(alloc)?;
    let offset = text.split_off(DATE_AND_TIME)?;
    Ok((text, offset))
}

fn write_zone(minutes: i16, offset: &str, out: &mut String) -> Result<(), AllocError>
    requires { offset.now ≡ offset_text minutes }
    ensures { OnOk result (string_bytes out.new ≡ string_bytes out.old ++ spec.zone_text minutes) }
{
    if minutes == 0 {
        out.push('Z')
    } else {
        out.push_str(offset)
    }
}

fn moment_text(alloc: Global, moment: Timestamp) -> Result<String, Refused>
    ensures value { IfOk result (λ t. string_bytes t
        ≡ spec.moment_text moment.seconds moment.nanoseconds moment.offset_minutes) }
{
    let (mut text, offset) = whole_second(alloc, moment)?;
    write_nanoseconds(moment.nanoseconds, &mut text)?;
    write_zone(moment.offset_minutes, offset.as_str(), &mut text)?;
    Ok(text)
}

/// Returns the text of a timestamp.
///
/// # Errors
/// [`Refused::Memory`] if memory is refused.
pub fn timestamp_string(alloc: Global, moment: Timestamp) -> Result<Answer, Refused>
    ensures value { IfOk result (λ r. outcome_view r
        ≡ Ok (plain.text (spec.timestamp_text (instant moment) moment.offset_minutes))) }
{
    Ok(Ok(Value::from_text(alloc, moment_text(alloc, moment)?)?))
}

fn is_exact(seconds: u64, nanoseconds: u32) -> bool
    ensures { result ≡ spec.is_exact seconds nanoseconds }
{
    nanoseconds == 0 || nanoseconds % 1_953_125 == 0 && seconds < 1_000_000
}

fn seconds_of(duration: Duration) -> u64
    ensures { result ≡ unsigned_abs duration.nanoseconds / 1_000_000_000 }
{
    duration.nanoseconds.unsigned_abs() / 1_000_000_000
}

fn nanoseconds_of(duration: Duration) -> u32
    ensures value { result ≡ unsigned_abs duration.nanoseconds % 1_000_000_000 }
    ensures below { result < 1_000_000_000 }
{
    (duration.nanoseconds.unsigned_abs() % 1_000_000_000) as u32
}

fn duration_text(alloc: Global, duration: Duration) -> Result<String, AllocError>
    ensures { IfOk result (λ t. string_bytes t ≡ spec.duration_text duration.nanoseconds) }
{
    let mut text = String::new(alloc);
    if duration.nanoseconds < 0 {
        text.push('-')?;
    }
    write!(text, "{}", seconds_of(duration))?;
    write_nanoseconds(nanoseconds_of(duration), &mut text)?;
    text.push('s')?;
    Ok(text)
}

/// Returns the text of a duration: its seconds, if a server prints them exactly.
///
/// # Errors
/// [`Refused::Memory`] if memory is refused.
pub fn duration_string(alloc: Global, duration: Duration) -> Result<Answer, Refused>
    ensures value { IfOk result (λ r. outcome_view r ≡ spec.duration_string duration.nanoseconds) }
{
    if is_exact(seconds_of(duration), nanoseconds_of(duration)) {
        Ok(Ok(Value::from_text(alloc, duration_text(alloc, duration)?)?))
    } else {
        Ok(Err(rounding_limit(alloc, "string")?))
    }
}
