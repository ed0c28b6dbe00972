//! Getters of timestamps and durations.
ghost use Rattle.std.specs.Prelude.{◌≡◌, ◌<◌, ◌^◌, Err, IfOk, option_map};
ghost use Rattle.std.specs.Option.{option_map_or};
ghost use Rattle.cel_value.specs.Data as plain;
ghost use Rattle.cel_value.specs.Faults.{no_overload};
ghost use Rattle.cel_value.specs.View.{view};
ghost use Rattle.cel_value.specs.Instants.{instant};
ghost use Rattle.cel_semantics.specs.Outcome.{outcome_view};
ghost use Rattle.kube_server_times.specs.Fields as fields;
ghost use Rattle.kube_server_times.specs.Spans as spec;

use crate::calendar::{field_at, instant, is_shown, local_nanosecond};
use crate::field::Field;
use crate::limits::{rounding_limit, zone_limit};
use crate::zones::minutes_ahead;
use cel_semantics::operators::{Answer, no_such_overload};
use cel_value::{Duration, Refused, Timestamp, Value};
use std::alloc::Global;

fn field_shown(alloc: Global, zone: &str, field: Field, local: i128) -> Result<Answer, Refused>
    ensures value { IfOk result (λ r. outcome_view r ≡ fields.field_shown zone.now field local) }
{
    if is_shown(local) {
        Ok(Ok(Value::Int(field_at(field, local))))
    } else {
        Ok(Err(zone_limit(alloc, zone)?))
    }
}

fn field_in_zone(
    alloc: Global,
    field: Field,
    moment: Timestamp,
    zone: &str,
) -> Result<Answer, Refused>
    ensures value { IfOk result
        (λ r. outcome_view r ≡ fields.field_in_zone field (instant moment) zone.now) }
{
    match minutes_ahead(zone) {
        Some(minutes) => field_shown(
            alloc,
            zone,
            field,
            local_nanosecond(instant(moment), minutes),
        ),
        None => Ok(Err(zone_limit(alloc, zone)?)),
    }
}

fn field_of_timestamp(
    alloc: Global,
    field: Field,
    name: &str,
    moment: Timestamp,
    zone: Option<&Value>,
) -> Result<Answer, Refused>
    ensures value { IfOk result (λ r. outcome_view r ≡ spec.getter field name.now
        (plain.timestamp (instant moment) moment.offset_minutes) (option_map (λ v. view v.now) zone.entry)) }
{
    match zone {
        None => field_in_zone(alloc, field, moment, ""),
        Some(zone) => match zone.as_str() {
            Some(zone) => field_in_zone(alloc, field, moment, zone),
            None => Ok(Err(no_such_overload(alloc, name)?)),
        },
    }
}

fn unit_of(field: Field) -> Option<u64>
    ensures { result ≡ spec.unit_of field }
{
    match field {
        Field::Hours => Some(3_600_000_000_000),
        Field::Minutes => Some(60_000_000_000),
        Field::Seconds => Some(1_000_000_000),
        Field::Milliseconds => Some(1_000_000),
        _ => None,
    }
}

fn may_round_up(field: Field, duration: Duration, unit: u64) -> bool
    requires some { 0 < unit }
    requires few { unit < 2 ^ 62 }
    ensures { result ≡ spec.may_round_up field duration.nanoseconds unit }
{
    match field {
        Field::Milliseconds => false,
        _ => unit < duration.nanoseconds.unsigned_abs() % unit + 1_000,
    }
}

fn units_in(
    alloc: Global,
    field: Field,
    name: &str,
    duration: Duration,
    unit: u64,
) -> Result<Answer, Refused>
    requires some { 0 < unit }
    requires few { unit < 2 ^ 62 }
    ensures value { IfOk result
        (λ r. outcome_view r ≡ spec.units_in field name.now duration.nanoseconds unit) }
{
    if may_round_up(field, duration, unit) {
        Ok(Err(rounding_limit(alloc, name)?))
    } else {
        Ok(Ok(Value::Int(duration.nanoseconds / unit as i64)))
    }
}

fn field_of_duration(
    alloc: Global,
    field: Field,
    name: &str,
    duration: Duration,
) -> Result<Answer, Refused>
    ensures value { IfOk result (λ r. outcome_view r
        ≡ option_map_or (spec.units_in field name.now duration.nanoseconds) (spec.unit_of field)
        (Err (no_overload name.now))) }
{
    match unit_of(field) {
        Some(unit) => units_in(alloc, field, name, duration, unit),
        None => Ok(Err(no_such_overload(alloc, name)?)),
    }
}

/// Returns a field of a timestamp, in UTC or by the clock of a zone, or of a duration. `name` is the
/// getter's name in errors.
///
/// # Errors
/// [`Refused::Memory`] if memory is refused.
pub fn getter(
    alloc: Global,
    field: Field,
    name: &str,
    value: &Value,
    zone: Option<&Value>,
) -> Result<Answer, Refused>
    ensures value { IfOk result (λ r. outcome_view r ≡ spec.getter field name.now
        (view value.now) (option_map (λ v. view v.now) zone.entry)) }
{
    match (value, zone) {
        (Value::Timestamp(moment), _) => field_of_timestamp(alloc, field, name, *moment, zone),
        (Value::Duration(duration), None) => field_of_duration(alloc, field, name, *duration),
        _ => Ok(Err(no_such_overload(alloc, name)?)),
    }
}
