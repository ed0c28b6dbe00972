//! `min`, `max`, `isSorted` and `sort`.
ghost use Rattle.std.specs.Prelude.{◌≡◌, ◌∷◌, true, is_some, IfOk, map};
ghost use Rattle.std.specs.List.{list_all};
ghost use Rattle.cel_value.specs.Same.{comparison};
ghost use Rattle.cel_value.specs.Faults.{fault_view};
ghost use Rattle.cel_value.specs.View.{view};
ghost use Rattle.cel_semantics.specs.Outcome.{outcome_view};
ghost use Rattle.cel_stdlib.specs.Extremes.{different_types};
ghost use Rattle.kube_functions_lists.specs.Orders as spec;

use crate::items::{copies, items_of, list_of};
use cel_semantics::operators::{Answer, no_such_overload};
use cel_stdlib::extremes::{Extreme, extreme_of};
use cel_stdlib::faults::function_error;
use cel_value::{ExecutionError, Refused, Value};
use std::alloc::Global;
use std::cmp::Ordering;

/// Returns the first of a list's least items. An empty list
/// is an error, and so are items that can't be compared.
///
/// # Errors
/// [`Refused::Memory`] if memory is refused.
pub fn min(alloc: Global, value: &Value) -> Result<Answer, Refused>
    ensures value { IfOk result (λ r. outcome_view r ≡ spec.min (view value.now)) }
{
    match items_of(value) {
        Some(items) => extreme_of(alloc, Extreme::Least, items),
        None => Ok(Err(no_such_overload(alloc, "min")?)),
    }
}

/// Returns the first of a list's greatest items. An empty
/// list is an error, and so are items that can't be compared.
///
/// # Errors
/// [`Refused::Memory`] if memory is refused.
pub fn max(alloc: Global, value: &Value) -> Result<Answer, Refused>
    ensures value { IfOk result (λ r. outcome_view r ≡ spec.max (view value.now)) }
{
    match items_of(value) {
        Some(items) => extreme_of(alloc, Extreme::Greatest, items),
        None => Ok(Err(no_such_overload(alloc, "max")?)),
    }
}

fn different_types(alloc: Global) -> Result<ExecutionError, Refused>
    ensures value { IfOk result (λ e. fault_view e ≡ different_types) }
{
    function_error(alloc, "compare", "cannot compare values of different types")
}

fn order_from(alloc: Global, first: &Value, rest: &[Value]) -> Result<Answer, Refused>
    ensures value { IfOk result (λ r. outcome_view r ≡ spec.order_of (view first.now ∷ map view rest.now)) }
{
    let mut last = first;
    for value in rest {
        match last.compare(value) {
            Some(order) => {
                if !order.is_le() {
                    return Ok(Ok(Value::Bool(false)));
                }
            }
            None => return Ok(Err(different_types(alloc)?)),
        }
        last = value;
    }
    Ok(Ok(Value::Bool(true)))
}

fn order_of(alloc: Global, items: &[Value]) -> Result<Answer, Refused>
    ensures value { IfOk result (λ r. outcome_view r ≡ spec.order_of (map view items.now)) }
{
    match items {
        [] => Ok(Ok(Value::Bool(true))),
        [first, rest @ ..] => order_from(alloc, first, rest),
    }
}

/// Reports whether the items of a list are in ascending order. The first two neighbours that aren't
/// decide: the result is false if they are out of order, and an error if they can't be compared.
///
/// # Errors
/// [`Refused::Memory`] if memory is refused.
pub fn is_sorted(alloc: Global, value: &Value) -> Result<Answer, Refused>
    ensures value { IfOk result (λ r. outcome_view r ≡ spec.is_sorted (view value.now)) }
{
    match items_of(value) {
        Some(items) => order_of(alloc, items),
        None => Ok(Err(no_such_overload(alloc, "isSorted")?)),
    }
}

// The class of values that compare with one another, as
// a number from 1, or 0 if the value compares with none.
fn class_number(value: &Value) -> u8
    ensures { result ≡ spec.class_number (view value.now) }
{
    match value {
        Value::Bool(_) => 1,
        Value::Int(_) => 2,
        Value::UInt(_) => 2,
        Value::String(_) => 3,
        Value::Bytes(_) => 4,
        Value::Timestamp(_) => 5,
        Value::Duration(_) => 6,
        Value::Null => 0,
        Value::Float => 0,
        Value::List(_) => 0,
        Value::Map(_) => 0,
        Value::Optional(_) => 0,
        Value::Ip(_) => 0,
        Value::Cidr(_) => 0,
        Value::Quantity(_) => 0,
        Value::Semver(_) => 0,
        Value::Url(_) => 0,
        Value::Format(_) => 0,
    }
}

// Orders all values: sorting asks for a total order, although only values of one class are sorted.
fn order_of_all(value: &Value, other: &Value) -> Ordering
    ensures { result ≡ spec.order_of_all (view value.now) (view other.now) }
{
    match value.compare(other) {
        Some(order) => order,
        None => class_number(value).cmp(&class_number(other)),
    }
}

fn compares_with_all(value: &Value, others: &[Value]) -> bool
    ensures { result ≡ list_all (λ d. is_some (comparison (view value.now) d)) (map view others.now) }
{
    for other in others {
        if value.compare(other).is_none() {
            return false;
        }
    }
    true
}

// Comparing with the first is enough: values that compare with one value compare with each other.
fn have_order_from(first: &Value, rest: &[Value]) -> bool
    ensures { result ≡ spec.have_order (view first.now ∷ map view rest.now) }
{
    compares_with_all(first, rest)
}

fn have_order(items: &[Value]) -> bool
    ensures { result ≡ spec.have_order (map view items.now) }
{
    match items {
        [] => true,
        [first, rest @ ..] => have_order_from(first, rest),
    }
}

fn ascending(alloc: Global, items: &[Value]) -> Result<Vec<Value>, Refused>
    requires { spec.have_order (map view items.now) ≡ true }
    ensures value { IfOk result (λ v. map view v.items ≡ spec.ascending (map view items.now)) }
{
    let mut values = copies(alloc, items)?;
    values.sort_by(|value, other| order_of_all(value, other))?;
    Ok(values)
}

fn sort_items(alloc: Global, items: &[Value]) -> Result<Answer, Refused>
    ensures value { IfOk result (λ r. outcome_view r ≡ spec.sort_of_items (map view items.now)) }
{
    if have_order(items) {
        list_of(alloc, ascending(alloc, items)?)
    } else {
        Ok(Err(different_types(alloc)?))
    }
}

/// Returns the items of a list in ascending order. Equal items
/// keep their order. Items that can't be compared are an error.
///
/// # Errors
/// [`Refused::Memory`] if memory is refused.
pub fn sort(alloc: Global, value: &Value) -> Result<Answer, Refused>
    ensures value { IfOk result (λ r. outcome_view r ≡ spec.sort (view value.now)) }
{
    match items_of(value) {
        Some(items) => sort_items(alloc, items),
        None => Ok(Err(no_such_overload(alloc, "sort")?)),
    }
}
