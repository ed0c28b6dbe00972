//! `indexOf` and `lastIndexOf`: the index of a value in a list.
ghost use Rattle.std.specs.Prelude.{◌≡◌, IfOk, map};
ghost use Rattle.std.specs.List.{position_from};
ghost use Rattle.cel_value.specs.Same.{same};
ghost use Rattle.cel_value.specs.View.{view};
ghost use Rattle.cel_semantics.specs.Outcome.{outcome_view};
ghost use Rattle.kube_functions_lists.specs.Indices as spec;

use crate::items::items_of;
use cel_semantics::operators::{Answer, no_such_overload};
use cel_value::{ExecutionError, Refused, Value};
use std::alloc::Global;

fn first_index_of(items: &[Value], value: &Value) -> Option<usize>
    ensures { result ≡ position_from (λ d. same d (view value.now)) 0 (map view items.now) }
{
    let mut index = 0;
    for item in items {
        if *item == *value {
            return Some(index);
        }
        index += 1;
    }
    None
}

fn last_index_of_value(items: &[Value], value: &Value) -> Option<usize>
    ensures { result ≡ spec.last_position_from (λ d. same d (view value.now)) 0 (map view items.now) }
{
    let mut last = None;
    let mut index = 0;
    for item in items {
        if *item == *value {
            last = Some(index);
        }
        index += 1;
    }
    last
}

fn index_or_none(index: Option<usize>) -> Answer
    ensures { outcome_view result ≡ spec.index_or_none index }
{
    match index {
        Some(index) => match i64::try_from(index) {
            Ok(n) => Ok(Value::Int(n)),
            Err(_) => Err(ExecutionError::Overflow),
        },
        None => Ok(Value::Int(-1)),
    }
}

/// Returns the index of the first item that equals a value, or -1 if there is none.
///
/// # Errors
/// [`Refused::Memory`] if memory is refused.
pub fn index_of(alloc: Global, value: &Value, item: &Value) -> Result<Answer, Refused>
    ensures value { IfOk result (λ r. outcome_view r ≡ spec.index_of (view value.now) (view item.now)) }
{
    match items_of(value) {
        Some(items) => Ok(index_or_none(first_index_of(items, item))),
        None => Ok(Err(no_such_overload(alloc, "indexOf")?)),
    }
}

/// Returns the index of the last item that equals a value, or -1 if there is none.
///
/// # Errors
/// [`Refused::Memory`] if memory is refused.
pub fn last_index_of(alloc: Global, value: &Value, item: &Value) -> Result<Answer, Refused>
    ensures value { IfOk result (λ r. outcome_view r ≡ spec.last_index_of (view value.now) (view item.now)) }
{
    match items_of(value) {
        Some(items) => Ok(index_or_none(last_index_of_value(items, item))),
        None => Ok(Err(no_such_overload(alloc, "lastIndexOf")?)),
    }
}
