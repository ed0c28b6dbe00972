//! Maps that macros build.
ghost use Rattle.std.specs.Prelude.{◌≡◌, IfOk, option_map};
ghost use Rattle.cel_value.specs.Data.{map_of, no_entries};
ghost use Rattle.cel_value.specs.View.{view, items_view};
ghost use Rattle.cel_semantics.specs.Outcome.{outcome_view};
ghost use Rattle.kube_server_values.specs.Maps as spec;

use crate::pairs::value_of;
use cel_semantics::members::put;
use cel_semantics::operators::{Answer, no_such_overload};
use cel_value::{Map, Refused, Value};
use std::alloc::Global;

fn two_of(items: &[Value]) -> Option<(&Value, &Value)>
    ensures { option_map (λ p. (view p.0.now, view p.1.now)) result ≡ spec.two_of (items_view items.now) }
{
    match items {
        [] => None,
        [key, rest @ ..] => match rest {
            [] => None,
            [value, others @ ..] => match others {
                [] => Some((key, value)),
                [_, ..] => None,
            },
        },
    }
}

fn pair_in(pair: &Value) -> Option<(&Value, &Value)>
    ensures { option_map (λ p. (view p.0.now, view p.1.now)) result ≡ spec.pair_in (view pair.now) }
{
    match pair {
        Value::List(both) => two_of(both.as_slice()),
        _ => None,
    }
}

fn put_pair(alloc: Global, map: Value, pair: &Value) -> Result<Answer, Refused>
    ensures value { IfOk result (λ r. outcome_view r ≡ spec.put_pair (view map) (view pair.now)) }
{
    match pair_in(pair) {
        Some((key, value)) => put(alloc, map, key, value),
        None => {
            drop(map);
            Ok(Err(no_such_overload(alloc, "@map_of_pairs")?))
        }
    }
}

fn pairs_put(alloc: Global, pairs: &[Value]) -> Result<Answer, Refused>
    ensures value { IfOk result (λ r. outcome_view r
        ≡ spec.added_by spec.put_pair (map_of no_entries) (items_view pairs.now)) }
{
    let mut map = Value::Map(Map::new(alloc)?);
    for pair in pairs {
        match put_pair(alloc, map, pair)? {
            Ok(added) => map = added,
            Err(fault) => return Ok(Err(fault)),
        }
    }
    Ok(Ok(map))
}

/// Returns the map of a list of pairs of a key and a value. A repeated key is an error.
///
/// # Errors
/// [`Refused::Memory`] if memory is refused.
pub fn map_of_pairs(alloc: Global, value: &Value) -> Result<Answer, Refused>
    ensures value { IfOk result (λ r. outcome_view r ≡ spec.map_of_pairs (view value.now)) }
{
    match value {
        Value::List(pairs) => pairs_put(alloc, pairs.as_slice()),
        _ => Ok(Err(no_such_overload(alloc, "@map_of_pairs")?)),
    }
}

fn put_entries(alloc: Global, before: Value, entries: &Map) -> Result<Answer, Refused>
    ensures value { IfOk result (λ r. outcome_view r ≡ spec.put_entries (view before) entries.now) }
{
    let mut map = before;
    for (key, value) in entries.iter() {
        let key = value_of(key)?;
        match put(alloc, map, &key, value)? {
            Ok(added) => map = added,
            Err(fault) => return Ok(Err(fault)),
        }
    }
    Ok(Ok(map))
}

fn put_map(alloc: Global, map: Value, other: &Value) -> Result<Answer, Refused>
    ensures value { IfOk result (λ r. outcome_view r ≡ spec.put_map (view map) (view other.now)) }
{
    match other {
        Value::Map(entries) => put_entries(alloc, map, entries),
        _ => Ok(Err(no_such_overload(alloc, "@map_of_maps")?)),
    }
}

fn maps_put(alloc: Global, maps: &[Value]) -> Result<Answer, Refused>
    ensures value { IfOk result (λ r. outcome_view r
        ≡ spec.added_by spec.put_map (map_of no_entries) (items_view maps.now)) }
{
    let mut map = Value::Map(Map::new(alloc)?);
    for other in maps {
        match put_map(alloc, map, other)? {
            Ok(added) => map = added,
            Err(fault) => return Ok(Err(fault)),
        }
    }
    Ok(Ok(map))
}

/// Returns the map of all entries of the maps of a list. A repeated key is an error.
///
/// # Errors
/// [`Refused::Memory`] if memory is refused.
pub fn map_of_maps(alloc: Global, value: &Value) -> Result<Answer, Refused>
    ensures value { IfOk result (λ r. outcome_view r ≡ spec.map_of_maps (view value.now)) }
{
    match value {
        Value::List(maps) => maps_put(alloc, maps.as_slice()),
        _ => Ok(Err(no_such_overload(alloc, "@map_of_maps")?)),
    }
}
