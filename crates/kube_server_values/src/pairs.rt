//! The pairs over which macros with two variables iterate.
ghost use Rattle.std.specs.Prelude.{◌≡◌, IfOk, map, pos};
ghost use Rattle.cel_value.specs.Data.{int};
ghost use Rattle.cel_value.specs.Keys.{key_view};
ghost use Rattle.cel_value.specs.View.{view, items_view};
ghost use Rattle.cel_semantics.specs.Outcome.{outcome_view};
ghost use Rattle.cel_semantics.specs.Ranges.{key_data};
ghost use Rattle.kube_server_values.specs.Pairs as spec;

use cel_semantics::operators::{Answer, no_such_overload};
use cel_value::{Key, Map, Refused, Value};
use std::alloc::Global;

fn pair(alloc: Global, first: Value, second: Value) -> Result<Value, Refused>
    ensures value { IfOk result (λ v. view v ≡ spec.pair (view first) (view second)) }
{
    let mut both = Vec::with_capacity(alloc, 2)?;
    both.push(first)?;
    both.push(second)?;
    Value::from_items(alloc, both)
}

pub(crate) fn value_of(key: &Key) -> Result<Value, Refused>
    ensures value { IfOk result (λ v. view v ≡ key_data (key_view key.now)) }
{
    match key {
        Key::Bool(b) => Ok(Value::Bool(*b)),
        Key::Int(n) => Ok(Value::Int(*n)),
        Key::Uint(n) => Ok(Value::UInt(*n)),
        Key::String(text) => Ok(Value::String(text.clone()?)),
    }
}

// The index as an int. No list in memory is so long that it has none.
fn int_of(index: usize) -> Result<Value, Refused>
    ensures value { IfOk result (λ v. view v ≡ int (pos index)) }
{
    match i64::try_from(index) {
        Ok(n) => Ok(Value::Int(n)),
        Err(_) => Err(Refused::Memory),
    }
}

fn indexed(alloc: Global, items: &[Value]) -> Result<Vec<Value>, Refused>
    ensures value { IfOk result (λ v. map view v.items ≡ spec.indexed 0 (items_view items.now)) }
{
    let mut pairs = Vec::with_capacity(alloc, items.len())?;
    for (index, item) in items.iter().enumerate() {
        let both = pair(alloc, int_of(index)?, item.try_clone()?)?;
        pairs.push(both)?;
    }
    Ok(pairs)
}

fn keyed(alloc: Global, entries: &Map) -> Result<Vec<Value>, Refused>
    ensures value { IfOk result (λ v. map view v.items ≡ spec.keyed entries.now) }
{
    let mut pairs = Vec::with_capacity(alloc, entries.len())?;
    for (key, value) in entries.iter() {
        let both = pair(alloc, value_of(key)?, value.try_clone()?)?;
        pairs.push(both)?;
    }
    Ok(pairs)
}

/// Returns the list of the pairs of a list's indices and items, or of a map's keys and values.
///
/// # Errors
/// [`Refused::Memory`] if memory is refused.
pub fn pairs_of(alloc: Global, value: &Value) -> Result<Answer, Refused>
    ensures value { IfOk result (λ r. outcome_view r ≡ spec.pairs_of (view value.now)) }
{
    match value {
        Value::List(items) => Ok(Ok(Value::from_items(alloc, indexed(alloc, items.as_slice())?)?)),
        Value::Map(entries) => Ok(Ok(Value::from_items(alloc, keyed(alloc, entries)?)?)),
        _ => Ok(Err(no_such_overload(alloc, "@pairs")?)),
    }
}
