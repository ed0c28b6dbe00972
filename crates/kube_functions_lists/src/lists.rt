//! `slice`, `first`, `last`, `reverse` and `distinct`.
ghost use Rattle.std.specs.Prelude.{◌≡◌, pos, length, IfOk, OnOk, Ok, Err, Some, None, map, reverse, option_map, string_bytes};
ghost use Rattle.cel_value.specs.Faults.{fault_view};
ghost use Rattle.cel_value.specs.View.{view};
ghost use Rattle.cel_semantics.specs.Outcome.{outcome_view};
ghost use Rattle.kube_functions_lists.specs.Hashed.{Knows, among};
ghost use Rattle.kube_functions_lists.specs.Lists as spec;

use crate::items::{as_ints, copies, items_of, list_of};
use crate::keyed::Known;
use cel_semantics::operators::{Answer, no_such_overload};
use cel_stdlib::faults::function_error;
use cel_value::{ExecutionError, OptionalValue, Refused, Value};
use std::alloc::{AllocError, Global};

fn slice_message(alloc: Global, start: i64, end: i64, length: usize) -> Result<String, AllocError>
    ensures { IfOk result (λ s. string_bytes s ≡ spec.slice_message start end length) }
{
    Ok(format!(in alloc; "slice({start}, {end}) out of range for list of length {length}")?)
}

fn slice_fault(
    alloc: Global,
    start: i64,
    end: i64,
    length: usize,
) -> Result<ExecutionError, Refused>
    ensures value { IfOk result (λ e. fault_view e ≡ spec.slice_fault start end length) }
{
    let message = slice_message(alloc, start, end, length)?;
    function_error(alloc, "slice", message.as_str())
}

fn part_within(items: &[Value], start: usize, end: usize) -> Option<&[Value]>
    ensures { option_map (λ s. map view s.now) result
        ≡ spec.part_between (map view items.now) (pos start) (pos end) }
{
    if end < start || items.len() < end {
        return None;
    }
    let (front, _) = items.split_at(end);
    let (_, part) = front.split_at(start);
    Some(part)
}

// The items from `start` up to `end`, or None if these aren't two indices of the list in ascending
// order. The length of the list is allowed as an index.
fn part(items: &[Value], start: i64, end: i64) -> Option<&[Value]>
    ensures { option_map (λ s. map view s.now) result ≡ spec.part_between (map view items.now) start end }
{
    if start < 0 || end < 0 {
        None
    } else {
        part_within(items, start as usize, end as usize)
    }
}

fn slice_outcome(alloc: Global, items: &[Value], start: i64, end: i64) -> Result<Answer, Refused>
    ensures value { IfOk result (λ r. outcome_view r ≡ spec.slice_outcome (map view items.now) start end) }
{
    match part(items, start, end) {
        Some(part) => list_of(alloc, copies(alloc, part)?),
        None => Ok(Err(slice_fault(alloc, start, end, items.len())?)),
    }
}

/// Returns the items of a list from index `start` up to, but without, index `end`. Indices outside
/// the list or in the wrong order are an error.
///
/// # Errors
/// [`Refused::Memory`] if memory is refused.
pub fn slice(alloc: Global, value: &Value, start: &Value, end: &Value) -> Result<Answer, Refused>
    ensures value { IfOk result
        (λ r. outcome_view r ≡ spec.slice (view value.now) (view start.now) (view end.now)) }
{
    match items_of(value) {
        Some(items) => match as_ints(start, end) {
            Some((start, end)) => slice_outcome(alloc, items, start, end),
            None => Ok(Err(no_such_overload(alloc, "slice")?)),
        },
        None => Ok(Err(no_such_overload(alloc, "slice")?)),
    }
}

fn optional_of(alloc: Global, item: Option<&Value>) -> Result<Answer, Refused>
    ensures value { IfOk result
        (λ r. outcome_view r ≡ Ok (spec.as_optional (option_map (λ v. view v.now) item.entry))) }
{
    match item {
        Some(value) => Ok(Ok(Value::Optional(OptionalValue::of(alloc, value.try_clone()?)?))),
        None => Ok(Ok(Value::Optional(OptionalValue::none()))),
    }
}

fn first_of(items: &[Value]) -> Option<&Value>
    ensures { option_map (λ v. view v.now) result ≡ spec.first_of (map view items.now) }
{
    match items {
        [] => None,
        [first, ..] => Some(first),
    }
}

fn last_of(items: &[Value]) -> Option<&Value>
    ensures { option_map (λ v. view v.now) result ≡ spec.last_of (map view items.now) }
{
    items.last()
}

/// Returns the first item of a list as an optional, which is empty if the list is.
///
/// # Errors
/// [`Refused::Memory`] if memory is refused.
pub fn first(alloc: Global, value: &Value) -> Result<Answer, Refused>
    ensures value { IfOk result (λ r. outcome_view r ≡ spec.first (view value.now)) }
{
    match items_of(value) {
        Some(items) => optional_of(alloc, first_of(items)),
        None => Ok(Err(no_such_overload(alloc, "first")?)),
    }
}

/// Returns the last item of a list as an optional, which is empty if the list is.
///
/// # Errors
/// [`Refused::Memory`] if memory is refused.
pub fn last(alloc: Global, value: &Value) -> Result<Answer, Refused>
    ensures value { IfOk result (λ r. outcome_view r ≡ spec.last (view value.now)) }
{
    match items_of(value) {
        Some(items) => optional_of(alloc, last_of(items)),
        None => Ok(Err(no_such_overload(alloc, "last")?)),
    }
}

fn reversed(alloc: Global, items: &[Value]) -> Result<Vec<Value>, Refused>
    ensures value { IfOk result (λ v. map view v.items ≡ reverse (map view items.now)) }
{
    let mut values = copies(alloc, items)?;
    values.as_mut_slice().reverse();
    Ok(values)
}

/// Returns the items of a list in reverse order.
///
/// # Errors
/// [`Refused::Memory`] if memory is refused.
pub fn reverse(alloc: Global, value: &Value) -> Result<Answer, Refused>
    ensures value { IfOk result (λ r. outcome_view r ≡ spec.reverse (view value.now)) }
{
    match items_of(value) {
        Some(items) => list_of(alloc, reversed(alloc, items)?),
        None => Ok(Err(no_such_overload(alloc, "reverse")?)),
    }
}

fn push_new<'a>(
    kept: &mut Vec<Value>,
    known: &mut Known<'a>,
    item: &'a Value,
) -> Result<(), Refused>
    requires { Knows known.old (among kept.old.items) }
    ensures pushed { OnOk result (map view kept.new.items
        ≡ spec.with_new (map view kept.old.items) (view item.now)) }
    ensures known { OnOk result (Knows known.new (among kept.new.items)) }
{
    if known.add_new(kept.as_slice(), item)? {
        kept.push(item.try_clone()?)?;
    }
    Ok(())
}

fn distinct_items(alloc: Global, items: &[Value]) -> Result<Vec<Value>, Refused>
    ensures value { IfOk result (λ v. map view v.items ≡ spec.distinct_items (map view items.now)) }
{
    let mut kept = Vec::new(alloc);
    let mut known = Known::new(alloc);
    for item in items {
        push_new(&mut kept, &mut known, item)?;
    }
    Ok(kept)
}

/// Returns the items of a list without those that equal an earlier one.
///
/// # Errors
/// [`Refused::Memory`] if memory is refused.
pub fn distinct(alloc: Global, value: &Value) -> Result<Answer, Refused>
    ensures value { IfOk result (λ r. outcome_view r ≡ spec.distinct (view value.now)) }
{
    match items_of(value) {
        Some(items) => list_of(alloc, distinct_items(alloc, items)?),
        None => Ok(Err(no_such_overload(alloc, "distinct")?)),
    }
}
