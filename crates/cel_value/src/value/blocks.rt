//! What maps share: a single map, or rows. The methods take the row that a map is.
ghost use Rattle.std.specs.Prelude.{ℕ, ◌≡◌, ◌≤◌, true, false, suc, Some, IfSome, IfOk, IfErr, OnOk, OnErr, None, length, option_map, slice_get};
ghost use Rattle.cel_value.specs.Blocks.{HasRow, map_in};
ghost use Rattle.cel_value.specs.Data.{no_entries};
ghost use Rattle.cel_value.specs.Find.{find, list_of_entries};
ghost use Rattle.cel_value.specs.Keys.{key_order, key_view, put};
ghost use Rattle.cel_value.specs.Levels.{entries_levels, max_levels};
ghost use Rattle.cel_value.specs.Replaced.{IsReplacedAt, entry_keys};
ghost use Rattle.std.specs.List.Sorted.{IsStrictlySortedBy};
ghost use Rattle.std.specs.Map.{keys_of};
ghost use Rattle.cel_value.specs.Same.{entries_have_double};
ghost use Rattle.cel_value.specs.View.{view, entries_view};

use super::shared::put_copy;
use super::{Entries, EntriesIter, MapBlock, SingleMap, Value};
use crate::key::Key;
use kube_types::Refused;
use std::alloc::Global;
use std::mem;

impl MapBlock {
    // What gives the block memory.
    pub(super) fn allocator(&self) -> Global {
        match self {
            MapBlock::Single(single) => single.allocator(),
            MapBlock::Rows(rows) => rows.allocator(),
        }
    }

    // The key of the entry at an index, if it is found so.
    #[inline]
    pub(super) fn key_at(&self, index: usize) -> Option<&Key>
        ensures { (row : ℕ) → IfSome result (λ k. slice_get (entry_keys (map_in self.now row)) index
            ≡ Some (key_view k.now)) }
    {
        match self {
            MapBlock::Single(single) => single.key_at(index),
            MapBlock::Rows(..) => None,
        }
    }

    // Replaces the value of the entry at an index, if it is found so. If the map would have too
    // many levels, it is empty then.
    #[inline]
    pub(super) fn replace_at(&mut self, index: usize, value: Value) -> Result<bool, Refused>
        ensures replaced { IfOk result (λ done. done ≡ true → (row : ℕ)
            → IsReplacedAt index (view value) (map_in self.old row) (map_in self.new row)) }
        ensures unchanged { IfOk result (λ done. done ≡ false → self.new ≡ self.old) }
        ensures emptied { OnErr result ((row : ℕ) → map_in self.new row ≡ no_entries) }
        ensures rows { (row : ℕ) → HasRow self.old row → HasRow self.new row }
        ensures memory { IfErr result (λ e. e ≡ Refused.Memory) }
    {
        match self {
            MapBlock::Single(single) => single.replace_at(index, value),
            MapBlock::Rows(..) => {
                drop(value);
                Ok(false)
            }
        }
    }

    // Copies of the entries, with keys of their own.
    fn to_entries(&self, row: usize) -> Result<Entries, Refused>
        requires { HasRow self.now row }
        ensures entries { IfOk result (λ es. entries_view es.entries ≡ map_in self.now row) }
        ensures memory { IfErr result (λ e. e ≡ Refused.Memory) }
    {
        let mut entries = Entries::with_capacity(self.allocator(), self.len(row))?;
        for (key, value) in self.iter(row) {
            put_copy(&mut entries, key, value)?;
        }
        Ok(entries)
    }

    // A copy of the map with one more entry, whose key isn't there yet.
    pub(super) fn with_entry(
        &self,
        row: usize,
        key: Key,
        value: Value,
    ) -> Result<SingleMap, Refused>
        requires row { HasRow self.now row }
        requires new { find (key_view key) (map_in self.now row) ≡ None }
        ensures added { IfOk result (λ m. m ≡ put (key_view key) (view value) (map_in self.now row)) }
        ensures memory { IfErr result (λ e. e ≡ Refused.Memory) }
    {
        let mut copy = SingleMap::of(self.to_entries(row)?)?;
        copy.insert_new(key, value)?;
        Ok(copy)
    }

    // Adds an entry whose key isn't there yet.
    pub(super) fn insert_new(&mut self, row: usize, key: Key, value: Value) -> Result<(), Refused>
        requires row { HasRow self.old row }
        requires new { find (key_view key) (map_in self.old row) ≡ None }
        ensures added { OnOk result (map_in self.new row ≡ put (key_view key) (view value) (map_in self.old row)) }
        ensures unchanged { OnErr result (self.new ≡ self.old) }
        ensures row { HasRow self.new row }
        ensures memory { IfErr result (λ e. e ≡ Refused.Memory) }
    {
        match self {
            MapBlock::Single(single) => single.insert_new(key, value),
            MapBlock::Rows(..) => {
                let copy = self.with_entry(row, key, value)?;
                drop(mem::replace(self, MapBlock::Single(copy)));
                Ok(())
            }
        }
    }

    // The value at a key, if any.
    #[inline]
    pub(super) fn get(&self, row: usize, key: &Key) -> Option<&Value>
        requires { HasRow self.now row }
        ensures { option_map (λ v. view v.now) result ≡ find (key_view key.now) (map_in self.now row) }
    {
        match self {
            MapBlock::Single(single) => single.get(key),
            MapBlock::Rows(rows) => rows.get(row, key),
        }
    }

    // The number of entries.
    #[inline]
    pub(super) fn len(&self, row: usize) -> usize
        requires { HasRow self.now row }
        ensures { result ≡ length (list_of_entries (map_in self.now row)) }
    {
        match self {
            MapBlock::Single(single) => single.len(),
            MapBlock::Rows(rows) => rows.width(row),
        }
    }

    // Iterates over the entries in key order.
    pub(super) fn iter(&self, row: usize) -> EntriesIter<'_>
        requires { HasRow self.now row }
        ensures value { entries_view result ≡ map_in self.now row }
        ensures ordered { IsStrictlySortedBy
            (λ (a b : Key). key_order (key_view a) (key_view b)) (keys_of result) }
    {
        match self {
            MapBlock::Single(single) => single.iter(),
            MapBlock::Rows(rows) => EntriesIter::of_shared(rows.iter(row)),
        }
    }

    // Whether the map contains a double, at any depth.
    #[inline]
    pub(super) fn holds_double(&self, row: usize) -> bool
        ensures { result ≡ entries_have_double (map_in self.now row) }
    {
        match self {
            MapBlock::Single(single) => single.holds_double(),
            MapBlock::Rows(rows) => rows.holds_double(row),
        }
    }

    // The number of levels of the map.
    #[inline]
    pub(super) fn levels(&self, row: usize) -> u16
        ensures value { result ≡ suc (entries_levels (map_in self.now row)) }
        ensures limit { result ≤ max_levels }
    {
        match self {
            MapBlock::Single(single) => single.levels(),
            MapBlock::Rows(rows) => rows.levels(row) + 1,
        }
    }
}
