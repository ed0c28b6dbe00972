//! Calls that an API server answers in another way than `kube_functions`.
ghost use Rattle.std.specs.Prelude.{◌≡◌, IfOk, option_map};
ghost use Rattle.cel_value.specs.Data as plain;
ghost use Rattle.cel_value.specs.View.{view};
ghost use Rattle.cel_value.specs.Instants.{instant};
ghost use Rattle.cel_semantics.specs.Outcome.{outcome_view};
ghost use Rattle.kube_server_functions.specs.Changed as spec;

use crate::operands::Operands;
use crate::texts::{changed_for_text, split_by_nothing};
use cel_semantics::operators::Answer;
use cel_value::{Duration, Refused, Timestamp, Value};
use kube_server_times::conversions::{int_of_duration, int_of_timestamp, timestamp_at};
use kube_server_times::texts::{duration_string, timestamp_string};
use kube_server_values::bools::bool_string;
use std::alloc::Global;

#[tactic(auto, unfolding(crate::specs::Changed::shown_timestamp))]
fn shown_timestamp(alloc: Global, moment: Timestamp) -> Result<Answer, Refused>
    ensures value { IfOk result (λ r. outcome_view r
        ≡ spec.shown_timestamp (instant moment) moment.offset_minutes) }
{
    timestamp_string(alloc, moment)
}

#[tactic(auto, unfolding(crate::specs::Changed::shown_duration))]
fn shown_duration(alloc: Global, duration: Duration) -> Result<Answer, Refused>
    ensures value { IfOk result (λ r. outcome_view r ≡ spec.shown_duration duration.nanoseconds) }
{
    duration_string(alloc, duration)
}

fn of_timestamp(alloc: Global, name: &str, moment: Timestamp) -> Result<Option<Answer>, Refused>
    ensures value { IfOk result (λ r. option_map outcome_view r
        ≡ spec.changed_for name.now (plain.timestamp (instant moment) moment.offset_minutes)) }
{
    match name {
        "string" => Ok(Some(shown_timestamp(alloc, moment)?)),
        "int" => Ok(Some(int_of_timestamp(moment))),
        _ => Ok(None),
    }
}

fn of_duration(alloc: Global, name: &str, duration: Duration) -> Result<Option<Answer>, Refused>
    ensures value { IfOk result (λ r. option_map outcome_view r
        ≡ spec.changed_for name.now (plain.duration duration.nanoseconds)) }
{
    match name {
        "string" => Ok(Some(shown_duration(alloc, duration)?)),
        "int" => Ok(Some(int_of_duration(alloc)?)),
        _ => Ok(None),
    }
}

fn of_value(alloc: Global, name: &str, value: &Value) -> Result<Option<Answer>, Refused>
    ensures value { IfOk result
        (λ r. option_map outcome_view r ≡ spec.changed_for name.now (view value.now)) }
{
    match value {
        Value::Timestamp(moment) => of_timestamp(alloc, name, *moment),
        Value::Duration(duration) => of_duration(alloc, name, *duration),
        Value::Bool(b) => match name {
            "string" => Ok(Some(bool_string(alloc, *b)?)),
            _ => Ok(None),
        },
        Value::String(text) => changed_for_text(alloc, name, text.as_str()),
        Value::Int(n) => match name {
            "timestamp" => Ok(Some(timestamp_at(*n))),
            _ => Ok(None),
        },
        _ => Ok(None),
    }
}

fn of_split(
    alloc: Global,
    name: &str,
    value: &Value,
    separator: &Value,
    limit: Option<&Value>,
) -> Result<Option<Answer>, Refused>
    ensures value { IfOk result (λ r. option_map outcome_view r
        ≡ spec.changed_split name.now (view value.now) (view separator.now)
        (option_map (λ v. view v.now) limit.entry)) }
{
    match (value, separator) {
        (Value::String(text), Value::String(separator)) => {
            if name == "split" && separator.as_str() == "" {
                Ok(Some(split_by_nothing(alloc, text.as_str(), limit)?))
            } else {
                Ok(None)
            }
        }
        _ => Ok(None),
    }
}

fn of_two(
    alloc: Global,
    name: &str,
    value: &Value,
    second: Option<&Value>,
    third: Option<&Value>,
) -> Result<Option<Answer>, Refused>
    ensures value { IfOk result (λ r. option_map outcome_view r
        ≡ spec.changed_for_two name.now (view value.now) (option_map (λ v. view v.now) second.entry)
        (option_map (λ v. view v.now) third.entry)) }
{
    match second {
        Some(second) => of_split(alloc, name, value, second, third),
        None => Ok(None),
    }
}

/// Returns the answer of a function with these operands, if an API server gives another
/// one than `kube_functions`.
///
/// # Errors
/// [`Refused::Memory`] if memory is refused.
pub(crate) fn changed(
    alloc: Global,
    name: &str,
    operands: Operands<'_>,
) -> Result<Option<Answer>, Refused>
    ensures value { IfOk result (λ r. option_map outcome_view r ≡ spec.changed name.now
        (option_map (λ v. view v.now) operands.entry.first)
        (option_map (λ v. view v.now) operands.entry.second)
        (option_map (λ v. view v.now) operands.entry.third)) }
{
    match operands.first {
        Some(first) => match of_value(alloc, name, first)? {
            Some(answer) => Ok(Some(answer)),
            None => of_two(alloc, name, first, operands.second, operands.third),
        },
        None => Ok(None),
    }
}
