//! Map literals, built entry by entry.
ghost use Rattle.std.specs.Prelude.{◌≡◌, IfOk};
ghost use Rattle.cel_value.specs.Data.{map_of};
ghost use Rattle.cel_value.specs.Find.{find};
ghost use Rattle.cel_value.specs.Keys.{key_view};
ghost use Rattle.cel_value.specs.View.{view};
ghost use Rattle.cel_semantics.specs.Members.{new_entry, put_in};
ghost use Rattle.cel_semantics.specs.Outcome.{outcome_view};

use crate::members::{key_from, refuse_key};
use crate::operators::{Answer, no_such_overload};
use cel_value::build::add_entry;
use cel_value::{Key, Map, Refused, Value};
use std::alloc::Global;

#[tactic(auto, using(crate::proofs::MapCopies::entry_is_new, crate::proofs::MapCopies::entry_is_old))]
fn add(entries: Map, key: Key, value: &Value) -> Result<Answer, Refused>
    ensures value { IfOk result (λ r. outcome_view r
        ≡ new_entry entries (view value.now) (find (key_view key) entries) (key_view key)) }
{
    let mut added = entries;
    match add_entry(&mut added, key, value.try_clone()?)? {
        Ok(()) => Ok(Ok(Value::Map(added))),
        Err(fault) => Ok(Err(fault)),
    }
}

#[tactic(auto, using(crate::proofs::MapCopies::put_at_none))]
fn add_at(alloc: Global, entries: Map, key: &Value, value: &Value) -> Result<Answer, Refused>
    ensures value { IfOk result
        (λ r. outcome_view r ≡ put_in (map_of entries) (view key.now) (view value.now)) }
{
    match key_from(key)? {
        Some(key) => add(entries, key, value),
        None => Ok(Err(refuse_key(alloc, key)?)),
    }
}

/// Adds an entry to a map literal. It takes time proportional to the map's
/// size only if something else holds the map, too.
///
/// # Errors
/// Only [`Refused::Memory`], if memory is refused.
pub fn put(alloc: Global, map: Value, key: &Value, value: &Value) -> Result<Answer, Refused>
    ensures value { IfOk result (λ r. outcome_view r ≡ put_in (view map) (view key.now) (view value.now)) }
{
    match map {
        Value::Map(entries) => add_at(alloc, entries, key, value),
        _ => Ok(Err(no_such_overload(alloc, "{}")?)),
    }
}
