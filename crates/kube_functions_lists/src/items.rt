//! Items of lists, and lists made of items.
ghost use Rattle.std.specs.Prelude.{◌≡◌, ◌∷◌, ◌++◌, [], IfOk, OnOk, Ok, map, option_map};
ghost use Rattle.cel_value.specs.View.{view};
ghost use Rattle.cel_semantics.specs.Outcome.{outcome_view};
ghost use Rattle.kube_functions_lists.specs.Lists.{items_if_list, as_list, ints_in};

use cel_semantics::operators::Answer;
use cel_value::{Refused, Value};
use std::alloc::{AllocError, Global};

/// The items of a list, or None if the value isn't a list.
pub(crate) fn items_of(value: &Value) -> Option<&[Value]>
    ensures { option_map (λ s. map view s.now) result ≡ items_if_list (view value.now) }
{
    match value.as_list() {
        Some(items) => Some(items.as_slice()),
        None => None,
    }
}

/// Appends an item to a list.
// Appending within the capacity takes only a few stores, so it is inlined.
#[inline(always)]
pub(crate) fn push_item(items: &mut Vec<Value>, item: Value) -> Result<(), AllocError>
    ensures { OnOk result (items.new.items ≡ items.old.items ++ item ∷ []) }
{
    if items.capacity() <= items.len() {
        items.reserve(1)?;
    }
    items.push_reserved(item);
    Ok(())
}

/// Returns a copy of the items. Large values are shared, not copied.
pub(crate) fn copies(alloc: Global, items: &[Value]) -> Result<Vec<Value>, Refused>
    ensures value { IfOk result (λ v. map view v.items ≡ map view items.now) }
{
    let mut copied = Vec::with_capacity(alloc, items.len())?;
    for item in items {
        copied.push(item.try_clone()?)?;
    }
    Ok(copied)
}

/// The list of these items, as an answer.
pub(crate) fn list_of(alloc: Global, items: Vec<Value>) -> Result<Answer, Refused>
    ensures value { IfOk result (λ r. outcome_view r ≡ Ok (as_list (map view items.items))) }
{
    Ok(Ok(Value::from_items(alloc, items)?))
}

/// The ints of two values, or None if either isn't an int.
pub(crate) fn as_ints(value: &Value, other: &Value) -> Option<(i64, i64)>
    ensures { result ≡ ints_in (view value.now) (view other.now) }
{
    match value.as_int() {
        Some(m) => match other.as_int() {
            Some(n) => Some((m, n)),
            None => None,
        },
        None => None,
    }
}
