//! Maps.
ghost use Rattle.std.specs.Prelude.{◌≡◌, ◌≤◌, true, false, suc, Some, IfSome, IfOk, IfErr, OnOk, OnErr, None, length, option_map, slice_get};
ghost use Rattle.cel_value.specs.Blocks.{map_in};
ghost use Rattle.cel_value.specs.Data.{no_entries};
ghost use Rattle.cel_value.specs.Find.{find, list_of_entries};
ghost use Rattle.cel_value.specs.Keys.{key_order, key_view, put};
ghost use Rattle.cel_value.specs.Levels.{entries_levels, max_levels};
ghost use Rattle.cel_value.specs.Replaced.{IsReplacedAt, entry_keys};
ghost use Rattle.std.specs.List.Sorted.{IsStrictlySortedBy};
ghost use Rattle.std.specs.Map.{keys_of};
ghost use Rattle.cel_value.specs.Same.{entries_have_double};
ghost use Rattle.cel_value.specs.Shared.{shared_entries};
ghost use Rattle.cel_value.specs.View.{view, entries_view};

use super::{Entries, EntriesIter, Map, MapBlock, SharedEntries, SingleMap, Value};
use crate::key::Key;
use kube_types::Refused;
use std::alloc::Global;
use std::mem;
use std::rc::Rc;

// A map in memory of its own.
#[inline(always)]
fn alone(alloc: Global, single: SingleMap) -> Result<Map, Refused>
    ensures value { IfOk result (λ m. m ≡ single) }
    ensures memory { IfErr result (λ e. e ≡ Refused.Memory) }
{
    Ok(Map {
        block: Rc::new(alloc, MapBlock::Single(single))?,
        row: 0,
    })
}

impl Map {
    /// Returns an empty map.
    ///
    /// # Errors
    /// [`Refused::Memory`] if memory is refused.
    pub fn new(alloc: Global) -> Result<Map, Refused>
        ensures value { IfOk result (λ m. m ≡ no_entries) }
        ensures memory { IfErr result (λ e. e ≡ Refused.Memory) }
    {
        Map::of(alloc, Entries::new(alloc))
    }

    /// Returns the map of these entries.
    ///
    /// # Errors
    /// [`Refused::Memory`] if memory is refused, or if it would have more levels than
    /// [`MAX_VALUE_LEVELS`](super::MAX_VALUE_LEVELS).
    #[inline(always)]
    pub fn of(alloc: Global, entries: Entries) -> Result<Map, Refused>
        ensures value { IfOk result (λ m. m ≡ entries_view entries.entries) }
        ensures memory { IfErr result (λ e. e ≡ Refused.Memory) }
    {
        alone(alloc, SingleMap::of(entries)?)
    }

    /// Returns the map of entries that share their keys.
    ///
    /// # Errors
    /// [`Refused::Memory`] if memory is refused, or if it would have more levels than
    /// [`MAX_VALUE_LEVELS`](super::MAX_VALUE_LEVELS).
    #[inline(always)]
    pub fn of_shared(alloc: Global, entries: SharedEntries) -> Result<Map, Refused>
        ensures value { IfOk result (λ m. m ≡ entries_view (shared_entries entries)) }
        ensures memory { IfErr result (λ e. e ≡ Refused.Memory) }
    {
        alone(alloc, SingleMap::of_shared(entries)?)
    }

    /// Returns the same map, shared.
    ///
    /// # Errors
    /// [`Refused::Memory`] if it can't be shared once more.
    #[inline(always)]
    pub fn try_clone(&self) -> Result<Map, Refused>
        ensures value { IfOk result (λ m. m ≡ self.now) }
        ensures memory { IfErr result (λ e. e ≡ Refused.Memory) }
    {
        Ok(Map {
            block: self.block.clone()?,
            row: self.row,
        })
    }

    /// The key of the entry at an index. The last entries of a large map, and those of a map that
    /// shares its keys, aren't found so: the contract only covers keys that are returned.
    #[inline]
    pub fn key_at(&self, index: usize) -> Option<&Key>
        ensures { IfSome result (λ k. slice_get (entry_keys self.now) index ≡ Some (key_view k.now)) }
    {
        self.block.as_ref().key_at(index)
    }

    /// Replaces the value of the entry at an index. Returns false, and changes nothing, for an entry
    /// that [`key_at`](Map::key_at) doesn't find, and if something else shares the map.
    ///
    /// # Errors
    /// [`Refused::Memory`] if the map would have more levels than
    /// [`MAX_VALUE_LEVELS`](super::MAX_VALUE_LEVELS). The map is empty then.
    #[inline]
    pub fn replace_at(&mut self, index: usize, value: Value) -> Result<bool, Refused>
        ensures replaced { IfOk result (λ done. done ≡ true → IsReplacedAt index (view value) self.old self.new) }
        ensures unchanged { IfOk result (λ done. done ≡ false → self.new ≡ self.old) }
        ensures emptied { OnErr result (self.new ≡ no_entries) }
        ensures memory { IfErr result (λ e. e ≡ Refused.Memory) }
    {
        let Some(block) = Rc::get_mut(&mut self.block) else {
            drop(value);
            return Ok(false);
        };
        block.replace_at(index, value)
    }

    // Adds an entry whose key isn't there yet, to a copy that takes the place of the map.
    fn insert_in_copy(&mut self, key: Key, value: Value) -> Result<(), Refused>
        requires { find (key_view key) self.old ≡ None }
        ensures added { OnOk result (self.new ≡ put (key_view key) (view value) self.old) }
        ensures unchanged { OnErr result (self.new ≡ self.old) }
        ensures memory { IfErr result (λ e. e ≡ Refused.Memory) }
    {
        let alloc = self.block.as_ref().allocator();
        let copy = self.block.as_ref().with_entry(self.row, key, value)?;
        let map = alone(alloc, copy)?;
        drop(mem::replace(self, map));
        Ok(())
    }

    /// Adds an entry whose key isn't there yet. If something else shares the map, this one gets
    /// memory of its own.
    ///
    /// # Errors
    /// [`Refused::Memory`] if memory is refused, or if the map would have more levels than
    /// [`MAX_VALUE_LEVELS`](super::MAX_VALUE_LEVELS).
    pub(crate) fn insert_new(&mut self, key: Key, value: Value) -> Result<(), Refused>
        requires { find (key_view key) self.old ≡ None }
        ensures added { OnOk result (self.new ≡ put (key_view key) (view value) self.old) }
        ensures unchanged { OnErr result (self.new ≡ self.old) }
        ensures memory { IfErr result (λ e. e ≡ Refused.Memory) }
    {
        let Some(block) = Rc::get_mut(&mut self.block) else {
            return self.insert_in_copy(key, value);
        };
        block.insert_new(self.row, key, value)
    }

    /// The value at a key, if any.
    #[inline]
    pub fn get(&self, key: &Key) -> Option<&Value>
        ensures { option_map (λ v. view v.now) result ≡ find (key_view key.now) self.now }
    {
        self.block.as_ref().get(self.row, key)
    }

    /// The number of entries.
    pub fn len(&self) -> usize
        ensures { result ≡ length (list_of_entries self.now) }
    {
        self.block.as_ref().len(self.row)
    }

    /// Iterates over the entries in key order.
    pub fn iter(&self) -> EntriesIter<'_>
        ensures value { entries_view result ≡ self.now }
        ensures ordered { IsStrictlySortedBy
            (λ (a b : Key). key_order (key_view a) (key_view b)) (keys_of result) }
    {
        self.block.as_ref().iter(self.row)
    }

    /// Reports whether the map contains a double, at any depth.
    #[inline]
    pub fn holds_double(&self) -> bool
        ensures { result ≡ entries_have_double self.now }
    {
        self.block.as_ref().holds_double(self.row)
    }

    // The number of levels of the map.
    #[inline]
    pub(super) fn levels(&self) -> u16
        ensures value { result ≡ suc (entries_levels self.now) }
        ensures limit { result ≤ max_levels }
    {
        self.block.as_ref().levels(self.row)
    }
}
