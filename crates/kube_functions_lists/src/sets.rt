//! `sets.contains`, `sets.equivalent` and `sets.intersects`: lists as sets of their items.
ghost use Rattle.std.specs.Prelude.{◌≡◌, IfOk, map};
ghost use Rattle.cel_value.specs.View.{view};
ghost use Rattle.cel_semantics.specs.Outcome.{outcome_view};
ghost use Rattle.kube_functions_lists.specs.Sets as spec;

use crate::items::items_of;
use crate::members::Members;
use cel_semantics::operators::{Answer, no_such_overload};
use cel_value::{Refused, Value};
use std::alloc::Global;

/// Reports whether the value equals an item.
pub(crate) fn is_in(items: &[Value], value: &Value) -> bool
    ensures { result ≡ spec.is_in (map view items.now) (view value.now) }
{
    for item in items {
        if *value == *item {
            return true;
        }
    }
    false
}

fn has_all(alloc: Global, items: &[Value], others: &[Value]) -> Result<bool, Refused>
    ensures value { IfOk result (λ b. b ≡ spec.has_all (map view items.now) (map view others.now)) }
{
    let members = Members::of(alloc, items, others.len())?;
    for other in others {
        if !members.has(other)? {
            return Ok(false);
        }
    }
    Ok(true)
}

fn have_same(alloc: Global, items: &[Value], others: &[Value]) -> Result<bool, Refused>
    ensures value { IfOk result (λ b. b ≡ spec.have_same (map view items.now) (map view others.now)) }
{
    Ok(has_all(alloc, items, others)? && has_all(alloc, others, items)?)
}

fn have_common(alloc: Global, items: &[Value], others: &[Value]) -> Result<bool, Refused>
    ensures value { IfOk result (λ b. b ≡ spec.have_common (map view items.now) (map view others.now)) }
{
    let members = Members::of(alloc, items, others.len())?;
    for other in others {
        if members.has(other)? {
            return Ok(true);
        }
    }
    Ok(false)
}

/// Reports whether every item of the second list is in the first.
///
/// # Errors
/// [`Refused::Memory`] if memory is refused.
pub fn contains(alloc: Global, value: &Value, other: &Value) -> Result<Answer, Refused>
    ensures value { IfOk result (λ r. outcome_view r ≡ spec.contains (view value.now) (view other.now)) }
{
    match items_of(value) {
        Some(items) => match items_of(other) {
            Some(others) => Ok(Ok(Value::Bool(has_all(alloc, items, others)?))),
            None => Ok(Err(no_such_overload(alloc, "sets.contains")?)),
        },
        None => Ok(Err(no_such_overload(alloc, "sets.contains")?)),
    }
}

/// Reports whether each of two lists contains all items of the other.
///
/// # Errors
/// [`Refused::Memory`] if memory is refused.
pub fn equivalent(alloc: Global, value: &Value, other: &Value) -> Result<Answer, Refused>
    ensures value { IfOk result (λ r. outcome_view r ≡ spec.equivalent (view value.now) (view other.now)) }
{
    match items_of(value) {
        Some(items) => match items_of(other) {
            Some(others) => Ok(Ok(Value::Bool(have_same(alloc, items, others)?))),
            None => Ok(Err(no_such_overload(alloc, "sets.equivalent")?)),
        },
        None => Ok(Err(no_such_overload(alloc, "sets.equivalent")?)),
    }
}

/// Reports whether two lists have an item in common.
///
/// # Errors
/// [`Refused::Memory`] if memory is refused.
pub fn intersects(alloc: Global, value: &Value, other: &Value) -> Result<Answer, Refused>
    ensures value { IfOk result (λ r. outcome_view r ≡ spec.intersects (view value.now) (view other.now)) }
{
    match items_of(value) {
        Some(items) => match items_of(other) {
            Some(others) => Ok(Ok(Value::Bool(have_common(alloc, items, others)?))),
            None => Ok(Err(no_such_overload(alloc, "sets.intersects")?)),
        },
        None => Ok(Err(no_such_overload(alloc, "sets.intersects")?)),
    }
}
