//! Makes values from their parts, and finds the entries of maps.
ghost use Rattle.std.specs.Prelude.{◌≡◌, IfOk, IfErr, OnErr, MatchResult, IsSome, None, option_map, string_bytes};
ghost use Rattle.cel_value.specs.Data.{list, map_of, text};
ghost use Rattle.cel_value.specs.Faults.{fault_view, duplicate_key};
ghost use Rattle.cel_value.specs.Find.{find};
ghost use Rattle.cel_value.specs.Keys.{key_view, put};
ghost use Rattle.cel_value.specs.Shared.{shared_entries};
ghost use Rattle.cel_value.specs.View.{view, items_view, entries_view};

use crate::error::ExecutionError;
use crate::key::Key;
use crate::string::Text;
use crate::value::{Entries, List, Map, SharedEntries, Value};
use kube_types::Refused;
use std::alloc::Global;
use std::rc::Rc;

impl Value {
    /// Returns the string value of a text. Returns `Refused` if it is long and there is no memory to
    /// share it.
    pub fn from_text(alloc: Global, chars: String) -> Result<Value, Refused>
        ensures value { IfOk result (λ v. view v ≡ text (string_bytes chars)) }
        ensures memory { IfErr result (λ e. e ≡ Refused.Memory) }
    {
        Ok(Value::String(Text::of(alloc, chars)?))
    }

    /// Returns the string value of a copy of a text. It allocates only if the text is longer than
    /// 14 bytes.
    ///
    /// # Errors
    /// [`Refused::Memory`] if there is no memory for a copy.
    pub fn of_str(alloc: Global, chars: &str) -> Result<Value, Refused>
        ensures value { IfOk result (λ v. view v ≡ text chars.now) }
        ensures memory { IfErr result (λ e. e ≡ Refused.Memory) }
    {
        Ok(Value::String(Text::of_str(alloc, chars)?))
    }

    /// Returns the list of these items.
    ///
    /// # Errors
    /// [`Refused::Memory`] if memory is refused, or if the list would have more levels than
    /// [`MAX_VALUE_LEVELS`](crate::value::MAX_VALUE_LEVELS).
    pub fn from_items(alloc: Global, items: Vec<Value>) -> Result<Value, Refused>
        ensures value { IfOk result (λ v. view v ≡ list (items_view items.items)) }
        ensures memory { IfErr result (λ e. e ≡ Refused.Memory) }
    {
        Ok(Value::List(Rc::new(alloc, List::of(items)?)?))
    }

    /// Returns the map of these entries.
    ///
    /// # Errors
    /// [`Refused::Memory`] if memory is refused, or if the map would have more levels than
    /// [`MAX_VALUE_LEVELS`](crate::value::MAX_VALUE_LEVELS).
    pub fn from_entries(alloc: Global, entries: Entries) -> Result<Value, Refused>
        ensures value { IfOk result (λ v. view v ≡ map_of (entries_view entries.entries)) }
        ensures memory { IfErr result (λ e. e ≡ Refused.Memory) }
    {
        Ok(Value::Map(Map::of(alloc, entries)?))
    }

    /// Returns the map of entries that share their keys.
    ///
    /// # Errors
    /// [`Refused::Memory`] if memory is refused, or if the map would have more levels than
    /// [`MAX_VALUE_LEVELS`](crate::value::MAX_VALUE_LEVELS).
    pub fn from_shared(alloc: Global, entries: SharedEntries) -> Result<Value, Refused>
        ensures value { IfOk result (λ v. view v ≡ map_of (entries_view (shared_entries entries))) }
        ensures memory { IfErr result (λ e. e ≡ Refused.Memory) }
    {
        Ok(Value::Map(Map::of_shared(alloc, entries)?))
    }
}

/// Adds an entry to a map. The inner error is `DuplicateKey` if the key is there already. The map
/// is unchanged then, and if the call is refused.
///
/// # Errors
/// [`Refused::Memory`] if memory is refused, or if the map would have more levels than
/// [`MAX_VALUE_LEVELS`](crate::value::MAX_VALUE_LEVELS).
pub fn add_entry(
    entries: &mut Map,
    key: Key,
    value: Value,
) -> Result<Result<(), ExecutionError>, Refused>
    ensures value { IfOk result (λ r. MatchResult r
        (λ _. (find (key_view key) entries.old ≡ None)
        × (entries.new ≡ put (key_view key) (view value) entries.old))
        (λ e. (fault_view e ≡ duplicate_key) × IsSome (find (key_view key) entries.old))) }
    ensures kept { IfOk result (λ r. IfErr r (λ _. entries.new ≡ entries.old)) }
    ensures refused { OnErr result (entries.new ≡ entries.old) }
    ensures memory { IfErr result (λ e. e ≡ Refused.Memory) }
{
    if entries.get(&key).is_some() {
        return Ok(Err(ExecutionError::DuplicateKey));
    }
    entries.insert_new(key, value)?;
    Ok(Ok(()))
}

/// The value at a key of a map, if any.
pub fn find_entry<'a>(entries: &'a Map, key: &Key) -> Option<&'a Value>
    ensures { option_map (λ v. view v.now) result ≡ find (key_view key.now) entries.now }
{
    entries.get(key)
}
