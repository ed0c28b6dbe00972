//! The ranges of macros.
ghost use Rattle.std.specs.Prelude.{◌≡◌, ◌++◌, IfOk, OnOk, map};
ghost use Rattle.cel_value.specs.Keys.{key_view};
ghost use Rattle.cel_value.specs.View.{view};
ghost use Rattle.cel_semantics.specs.Ranges.{key_data, keys_list, range_of, range_list, range_view};

use crate::operators::no_such_overload;
use cel_value::{ExecutionError, Key, List, Map, Refused, Value};
use std::alloc::Global;
use std::rc::Rc;

/// Appends copies of the items.
pub(crate) fn push_copies(values: &mut Vec<Value>, items: &[Value]) -> Result<(), Refused>
    ensures pushed { OnOk result (map view values.new.items
        ≡ map view values.old.items ++ map view items.now) }
{
    for item in items {
        values.push(item.try_clone()?)?;
    }
    Ok(())
}

fn key_value(key: &Key) -> Result<Value, Refused>
    ensures value { IfOk result (λ v. view v ≡ key_data (key_view key.now)) }
{
    match key {
        Key::Bool(b) => Ok(Value::Bool(*b)),
        Key::Int(n) => Ok(Value::Int(*n)),
        Key::Uint(n) => Ok(Value::UInt(*n)),
        Key::String(text) => Ok(Value::String(text.clone()?)),
    }
}

fn key_values(alloc: Global, entries: &Map) -> Result<Vec<Value>, Refused>
    ensures value { IfOk result (λ v. map view v.items ≡ keys_list entries.now) }
{
    let mut values = Vec::with_capacity(alloc, entries.len())?;
    for (key, _) in entries.iter() {
        values.push(key_value(key)?)?;
    }
    Ok(values)
}

/// The range of a macro: the items of a list, which
/// aren't copied, or the keys of a map in key order.
#[derive(Drop)]
pub enum Range {
    Items(Rc<List>),
    Keys(Vec<Value>),
}

impl Range {
    /// The items, in order.
    #[tactic(auto, using(crate::proofs::Lookups::listed_items))]
    pub fn as_slice(&self) -> &[Value]
        ensures { map view result.now ≡ range_list self.now }
    {
        match self {
            Range::Items(items) => items.as_slice(),
            Range::Keys(keys) => keys.as_slice(),
        }
    }
}

/// Returns the range of the named macro over a value. A value
/// that is neither a list nor a map is an error.
///
/// # Errors
/// Only [`Refused::Memory`], if memory is refused.
pub fn range_in(
    alloc: Global,
    name: &str,
    value: Value,
) -> Result<Result<Range, ExecutionError>, Refused>
    ensures value { IfOk result (λ r. range_view r ≡ range_of name.now (view value)) }
{
    match value {
        Value::List(items) => Ok(Ok(Range::Items(items))),
        Value::Map(entries) => Ok(Ok(Range::Keys(key_values(alloc, &entries)?))),
        _ => Ok(Err(no_such_overload(alloc, name)?)),
    }
}
