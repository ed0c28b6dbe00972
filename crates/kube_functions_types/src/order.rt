//! The order of quantities and the order of versions.
ghost use Rattle.std.specs.Prelude.{◌≡◌, IfOk};
ghost use Rattle.cel_value.specs.Data as plain;
ghost use Rattle.cel_value.specs.View.{view};
ghost use Rattle.cel_semantics.specs.Outcome.{outcome_view};
ghost use Rattle.kube_types.specs.Quantity.Shown.{number};
ghost use Rattle.kube_types.specs.Version.Shown.{parts};
ghost use Rattle.kube_functions_types.specs.Order as spec;

use crate::answers::wrong_kind;
use cel_semantics::Answer;
use cel_value::{Refused, Value};
use kube_types::{KubeQuantity, KubeSemver};
use std::alloc::Global;
use std::cmp::Ordering;

// Compares a quantity with a value. None if the value isn't a quantity.
fn quantity_order(quantity: &KubeQuantity, other: &Value) -> Option<Ordering>
    ensures { result ≡ spec.order_of (plain.quantity (number quantity.now)) (view other.now) }
{
    match other {
        Value::Quantity(other) => Some(quantity.cmp(other.as_ref())),
        _ => None,
    }
}

// Compares a version with a value. None if the value isn't a version.
fn version_order(version: &KubeSemver, other: &Value) -> Option<Ordering>
    ensures { result ≡ spec.order_of (plain.semver (parts version.now)) (view other.now) }
{
    match other {
        Value::Semver(other) => Some(version.cmp(other.as_ref())),
        _ => None,
    }
}

// Compares two quantities or two versions. None if the values are of other kinds.
fn order(value: &Value, other: &Value) -> Option<Ordering>
    ensures { result ≡ spec.order_of (view value.now) (view other.now) }
{
    match value {
        Value::Quantity(quantity) => quantity_order(quantity.as_ref(), other),
        Value::Semver(version) => version_order(version.as_ref(), other),
        _ => None,
    }
}

/// `isGreaterThan`: reports whether a quantity or a version is greater than another one.
///
/// # Errors
/// [`Refused::Memory`] if memory is refused.
pub fn is_greater_than(alloc: Global, value: &Value, other: &Value) -> Result<Answer, Refused>
    ensures value { IfOk result
        (λ r. outcome_view r ≡ spec.is_greater_than (view value.now) (view other.now)) }
{
    match order(value, other) {
        Some(order) => Ok(Ok(Value::Bool(order.is_gt()))),
        None => wrong_kind(alloc, "isGreaterThan"),
    }
}

/// `isLessThan`: reports whether a quantity or a version is less than another one.
///
/// # Errors
/// [`Refused::Memory`] if memory is refused.
pub fn is_less_than(alloc: Global, value: &Value, other: &Value) -> Result<Answer, Refused>
    ensures value { IfOk result (λ r. outcome_view r ≡ spec.is_less_than (view value.now) (view other.now)) }
{
    match order(value, other) {
        Some(order) => Ok(Ok(Value::Bool(order.is_lt()))),
        None => wrong_kind(alloc, "isLessThan"),
    }
}

fn order_number(order: Ordering) -> i64
    ensures { result ≡ spec.number_of order }
{
    match order {
        Ordering::Less => -1,
        Ordering::Equal => 0,
        Ordering::Greater => 1,
    }
}

/// `compareTo`: returns -1, 0 or 1 if a quantity or a
/// version is less than another one, equal to it or greater.
///
/// # Errors
/// [`Refused::Memory`] if memory is refused.
pub fn compare_to(alloc: Global, value: &Value, other: &Value) -> Result<Answer, Refused>
    ensures value { IfOk result (λ r. outcome_view r ≡ spec.compare_to (view value.now) (view other.now)) }
{
    match order(value, other) {
        Some(order) => Ok(Ok(Value::Int(order_number(order)))),
        None => wrong_kind(alloc, "compareTo"),
    }
}
