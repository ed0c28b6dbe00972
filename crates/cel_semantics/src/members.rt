//! Members of maps and items of lists.
ghost use Rattle.std.specs.Prelude.{◌≡◌, IfOk, Ok, Err, option_map, is_some};
ghost use Rattle.std.specs.Option.{option_map_or};
ghost use Rattle.cel_value.specs.Faults.{fault_view, no_key, out_of_bounds};
ghost use Rattle.cel_value.specs.Find.{find};
ghost use Rattle.cel_value.specs.Keys.{key_view};
ghost use Rattle.cel_value.specs.View.{view};
ghost use Rattle.cel_semantics.specs.Members.{selection, has_member, key_of, not_key, nth_item, list_indexed, map_indexed, not_indexed, index_outcome, is_item, is_key, membership};
ghost use Rattle.cel_semantics.specs.Outcome.{outcome_view};

pub use crate::maps::put;
use crate::operators::{Answer, double_fault, no_such_overload};
use cel_value::build::find_entry;
use cel_value::{ExecutionError, Key, List, Map, Refused, Value};
use std::alloc::Global;

fn member(entries: &Map, key: &Key) -> Result<Answer, Refused>
    ensures value { IfOk result (λ r. outcome_view r
        ≡ option_map_or Ok (find (key_view key.now) entries.now) (Err (no_key (key_view key.now)))) }
{
    match find_entry(entries, key) {
        Some(value) => Ok(Ok(value.try_clone()?)),
        None => Ok(Err(ExecutionError::NoSuchKey(key.try_clone()?))),
    }
}

fn has_entry(entries: &Map, key: &Key) -> bool
    ensures { result ≡ is_some (find (key_view key.now) entries.now) }
{
    find_entry(entries, key).is_some()
}

/// Returns the member of a map at a key.
///
/// # Errors
/// Only [`Refused::Memory`], if memory is refused.
pub fn select(alloc: Global, key: &Key, value: &Value) -> Result<Answer, Refused>
    ensures value { IfOk result (λ r. outcome_view r ≡ selection (key_view key.now) (view value.now)) }
{
    match value {
        Value::Map(entries) => member(entries, key),
        _ => Ok(Err(no_such_overload(alloc, ".")?)),
    }
}

/// Reports whether a map has a member at a key.
///
/// # Errors
/// Only [`Refused::Memory`], if memory is refused.
pub fn has(alloc: Global, key: &Key, value: &Value) -> Result<Answer, Refused>
    ensures value { IfOk result (λ r. outcome_view r ≡ has_member (key_view key.now) (view value.now)) }
{
    match value {
        Value::Map(entries) => Ok(Ok(Value::Bool(has_entry(entries, key)))),
        _ => Ok(Err(no_such_overload(alloc, "has")?)),
    }
}

/// Returns the value as a key, or None if its kind can't be one.
pub(crate) fn key_from(value: &Value) -> Result<Option<Key>, Refused>
    ensures value { IfOk result (λ k. option_map key_view k ≡ key_of (view value.now)) }
{
    match value {
        Value::Bool(b) => Ok(Some(Key::Bool(*b))),
        Value::Int(n) => Ok(Some(Key::Int(*n))),
        Value::UInt(n) => Ok(Some(Key::Uint(*n))),
        Value::String(text) => Ok(Some(Key::String(text.clone()?))),
        _ => Ok(None),
    }
}

fn nth(items: &List, position: u64) -> Option<&Value>
    ensures { option_map (λ v. view v.now) result ≡ nth_item position items.now }
{
    items.as_slice().get(position as usize)
}

fn item(items: &List, position: u64) -> Result<Answer, Refused>
    ensures value { IfOk result (λ r. outcome_view r
        ≡ option_map_or Ok (nth_item position items.now) (Err out_of_bounds)) }
{
    match nth(items, position) {
        Some(value) => Ok(Ok(value.try_clone()?)),
        None => Ok(Err(ExecutionError::IndexOutOfBounds)),
    }
}

fn index_list(alloc: Global, items: &List, index: &Value) -> Result<Answer, Refused>
    ensures value { IfOk result (λ r. outcome_view r ≡ list_indexed items.now (view index.now)) }
{
    match index {
        Value::Int(n) => {
            if *n < 0 {
                Ok(Err(ExecutionError::IndexOutOfBounds))
            } else {
                item(items, *n as u64)
            }
        }
        Value::UInt(n) => item(items, *n),
        Value::Float => Ok(Err(double_fault(alloc)?)),
        _ => Ok(Err(no_such_overload(alloc, "[]")?)),
    }
}

/// Returns the error for a value that can't be a key.
pub(crate) fn refuse_key(alloc: Global, value: &Value) -> Result<ExecutionError, Refused>
    ensures value { IfOk result (λ e. fault_view e ≡ not_key (view value.now)) }
{
    match value {
        Value::Float => double_fault(alloc),
        _ => Ok(ExecutionError::UnsupportedKey),
    }
}

#[tactic(auto, using(crate::proofs::MapCopies::indexed_at_none))]
fn index_map(alloc: Global, entries: &Map, index: &Value) -> Result<Answer, Refused>
    ensures value { IfOk result (λ r. outcome_view r ≡ map_indexed entries.now (view index.now)) }
{
    match key_from(index)? {
        Some(key) => member(entries, &key),
        None => Ok(Err(refuse_key(alloc, index)?)),
    }
}

fn refuse_index(alloc: Global, index: &Value) -> Result<Answer, Refused>
    ensures value { IfOk result (λ r. outcome_view r ≡ not_indexed (view index.now)) }
{
    match index {
        Value::Float => Ok(Err(double_fault(alloc)?)),
        _ => Ok(Err(no_such_overload(alloc, "[]")?)),
    }
}

/// Returns the item of a list or the member of a map at an index.
///
/// # Errors
/// Only [`Refused::Memory`], if memory is refused.
pub fn index(alloc: Global, value: &Value, index: &Value) -> Result<Answer, Refused>
    ensures value { IfOk result (λ r. outcome_view r ≡ index_outcome (view value.now) (view index.now)) }
{
    match value {
        Value::List(items) => index_list(alloc, items.as_ref(), index),
        Value::Map(entries) => index_map(alloc, entries, index),
        _ => refuse_index(alloc, index),
    }
}

fn is_among(value: &Value, items: &List) -> bool
    ensures { result ≡ is_item (view value.now) items.now }
{
    for other in items.as_slice() {
        if *value == *other {
            return true;
        }
    }
    false
}

fn is_key_of(value: &Value, entries: &Map) -> Result<bool, Refused>
    ensures value { IfOk result (λ b. b ≡ is_key entries.now (key_of (view value.now))) }
{
    match key_from(value)? {
        Some(key) => Ok(has_entry(entries, &key)),
        None => Ok(false),
    }
}

/// Reports whether a value is an item of a list or a key of a map.
#[inline(always)]
pub(crate) fn is_in(alloc: Global, value: &Value, range: &Value) -> Result<Answer, Refused>
    ensures value { IfOk result (λ r. outcome_view r ≡ membership (view value.now) (view range.now)) }
{
    match range {
        Value::List(items) => Ok(Ok(Value::Bool(is_among(value, items.as_ref())))),
        Value::Map(entries) => Ok(Ok(Value::Bool(is_key_of(value, entries)?))),
        _ => Ok(Err(no_such_overload(alloc, "in")?)),
    }
}
