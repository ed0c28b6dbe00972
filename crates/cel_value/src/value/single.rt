//! Maps that have their memory for themselves.
ghost use Rattle.std.specs.Prelude.{◌≡◌, ◌≤◌, [], true, false, suc, Some, IfSome, IfOk, IfErr, OnOk, OnErr, None, max, length, option_map, slice_get};
ghost use Rattle.cel_value.specs.Data.{no_entries};
ghost use Rattle.cel_value.specs.Find.{find, list_of_entries};
ghost use Rattle.cel_value.specs.Keys.{key_order, key_view, put};
ghost use Rattle.cel_value.specs.Levels.{entries_levels, max_levels};
ghost use Rattle.cel_value.specs.Replaced.{IsReplacedAt, entry_keys};
ghost use Rattle.std.specs.List.Sorted.{IsStrictlySortedBy};
ghost use Rattle.std.specs.Map.{keys_of};
ghost use Rattle.cel_value.specs.Same.{entries_have_double};
ghost use Rattle.cel_value.specs.Shared.{shared_entries};
ghost use Rattle.cel_value.specs.SharedEntries.{IsNestingOf, map_entries};
ghost use Rattle.cel_value.specs.View.{view, entries_view};

use super::rows::is_flat;
use super::{
    Entries, EntriesIter, MapEntries, Nesting, SharedEntries, SingleMap, Value, level_around,
};
use crate::key::Key;
use kube_types::Refused;
use std::alloc::Global;
use std::mem;

fn deeper(levels: u16, others: u16) -> u16
    ensures { result ≡ max levels others }
{
    if levels < others { others } else { levels }
}

pub(super) fn put_into(entries: &mut Entries, key: Key, value: Value) -> Result<(), Refused>
    ensures added { OnOk result (entries_view entries.new.entries
        ≡ put (key_view key) (view value) (entries_view entries.old.entries)) }
    ensures unchanged { OnErr result (entries.new.entries ≡ entries.old.entries) }
    ensures memory { IfErr result (λ e. e ≡ Refused.Memory) }
{
    drop(entries.insert(key, value)?);
    Ok(())
}

// Adds an entry to those of a map. If it shares its keys, it has keys of its own from then on.
fn put_in_map(entries: &mut MapEntries, key: Key, value: Value) -> Result<(), Refused>
    ensures added { OnOk result (entries_view (map_entries entries.new)
        ≡ put (key_view key) (view value) (entries_view (map_entries entries.old))) }
    ensures unchanged { OnErr result (map_entries entries.new ≡ map_entries entries.old) }
    ensures memory { IfErr result (λ e. e ≡ Refused.Memory) }
{
    match entries {
        MapEntries::Own(own) => put_into(own, key, value),
        MapEntries::Shared(shared) => {
            let mut own = shared.to_entries()?;
            put_into(&mut own, key, value)?;
            drop(mem::replace(entries, MapEntries::Own(own)));
            Ok(())
        }
    }
}

/// The nesting of an empty map.
const EMPTY: Nesting = Nesting {
    doubles: false,
    levels: 1,
};

// The nesting of a map of these entries.
#[inline(always)]
fn nesting_around(entries: &Entries) -> Result<Nesting, Refused>
    ensures value { IfOk result (λ n. IsNestingOf n entries.now.entries) }
    ensures memory { IfErr result (λ e. e ≡ Refused.Memory) }
{
    let (doubles, inner) = entries.doubles_and_levels();
    let levels = level_around(inner)?;
    Ok(Nesting { doubles, levels })
}

// Reports whether no value of a map is a double or has levels.
fn is_flat_nesting(nesting: &Nesting) -> bool
    ensures { result ≡ true → (nesting.now.doubles ≡ false) × (nesting.now.levels ≡ 1) }
{
    !nesting.doubles && nesting.levels == 1
}

// Replaces the value of an entry of a map that has keys of its own. If the map would have too many
// levels, it is empty then.
#[inline]
fn replace_own(
    nesting: &mut Nesting,
    own: &mut Entries,
    index: usize,
    value: Value,
) -> Result<bool, Refused>
    requires { IsNestingOf nesting.old own.old.entries }
    ensures nesting { IsNestingOf nesting.new own.new.entries }
    ensures replaced { IfOk result (λ done. done ≡ true
        → IsReplacedAt index (view value) (entries_view own.old.entries) (entries_view own.new.entries)) }
    ensures unchanged { IfOk result (λ done. done ≡ false → own.new.entries ≡ own.old.entries) }
    ensures emptied { OnErr result (own.new.entries ≡ []) }
    ensures memory { IfErr result (λ e. e ≡ Refused.Memory) }
{
    let stays = is_flat_nesting(nesting) && is_flat(&value);
    if !own.replace_at(index, value) {
        return Ok(false);
    }
    if stays {
        return Ok(true);
    }
    match nesting_around(own) {
        Ok(found) => {
            *nesting = found;
            Ok(true)
        }
        Err(refused) => {
            *nesting = EMPTY;
            let empty = Entries::new(*own.rest.allocator());
            drop(mem::replace(own, empty));
            Err(refused)
        }
    }
}

impl SingleMap {
    // The map of these entries.
    #[inline(always)]
    pub(super) fn of(entries: Entries) -> Result<SingleMap, Refused>
        ensures value { IfOk result (λ m. m ≡ entries_view entries.entries) }
        ensures memory { IfErr result (λ e. e ≡ Refused.Memory) }
    {
        let nesting = nesting_around(&entries)?;
        Ok(SingleMap {
            entries: MapEntries::Own(entries),
            nesting,
        })
    }

    // The map of entries that share their keys.
    #[inline(always)]
    pub(super) fn of_shared(entries: SharedEntries) -> Result<SingleMap, Refused>
        ensures value { IfOk result (λ m. m ≡ entries_view (shared_entries entries)) }
        ensures memory { IfErr result (λ e. e ≡ Refused.Memory) }
    {
        let (doubles, inner) = entries.doubles_and_levels();
        let levels = level_around(inner)?;
        Ok(SingleMap {
            entries: MapEntries::Shared(entries),
            nesting: Nesting { doubles, levels },
        })
    }

    // What gives the map memory.
    pub(super) fn allocator(&self) -> Global {
        match &self.entries {
            MapEntries::Own(own) => *own.rest.allocator(),
            MapEntries::Shared(shared) => *shared.keys.allocator(),
        }
    }

    // The key of the entry at an index, if it is found so.
    #[inline]
    pub(super) fn key_at(&self, index: usize) -> Option<&Key>
        ensures { IfSome result (λ k. slice_get (entry_keys self.now) index ≡ Some (key_view k.now)) }
    {
        match &self.entries {
            MapEntries::Own(entries) => entries.key_at(index),
            MapEntries::Shared(..) => None,
        }
    }

    // Replaces the value of the entry at an index, if it is found so. If the map would have too
    // many levels, it is empty then.
    #[inline]
    pub(super) fn replace_at(&mut self, index: usize, value: Value) -> Result<bool, Refused>
        ensures replaced { IfOk result (λ done. done ≡ true → IsReplacedAt index (view value) self.old self.new) }
        ensures unchanged { IfOk result (λ done. done ≡ false → self.new ≡ self.old) }
        ensures emptied { OnErr result (self.new ≡ no_entries) }
        ensures memory { IfErr result (λ e. e ≡ Refused.Memory) }
    {
        match &mut self.entries {
            MapEntries::Own(own) => replace_own(&mut self.nesting, own, index, value),
            MapEntries::Shared(..) => {
                drop(value);
                Ok(false)
            }
        }
    }

    // Adds an entry whose key isn't there yet.
    #[tactic(auto, using(crate::proofs::Members::more_doubles, crate::proofs::Members::more_levels))]
    pub(super) fn insert_new(&mut self, key: Key, value: Value) -> Result<(), Refused>
        requires { find (key_view key) self.now ≡ None }
        ensures added { OnOk result (self.new ≡ put (key_view key) (view value) self.old) }
        ensures unchanged { OnErr result (self.new ≡ self.old) }
        ensures memory { IfErr result (λ e. e ≡ Refused.Memory) }
    {
        let before = self.nesting;
        let nesting = Nesting {
            doubles: before.doubles || value.holds_double(),
            levels: deeper(before.levels, level_around(value.levels())?),
        };
        put_in_map(&mut self.entries, key, value)?;
        self.nesting = nesting;
        Ok(())
    }

    // The value at a key, if any.
    #[inline]
    pub(super) fn get(&self, key: &Key) -> Option<&Value>
        ensures { option_map (λ v. view v.now) result ≡ find (key_view key.now) self.now }
    {
        match &self.entries {
            MapEntries::Own(entries) => entries.get(key),
            MapEntries::Shared(entries) => entries.get(key),
        }
    }

    // The number of entries.
    #[tactic(auto, using(crate::proofs::Members::entries_length))]
    pub(super) fn len(&self) -> usize
        ensures { result ≡ length (list_of_entries self.now) }
    {
        match &self.entries {
            MapEntries::Own(entries) => entries.len(),
            MapEntries::Shared(entries) => entries.len(),
        }
    }

    // Iterates over the entries in key order.
    pub(super) fn iter(&self) -> EntriesIter<'_>
        ensures value { entries_view result ≡ self.now }
        ensures ordered { IsStrictlySortedBy
            (λ (a b : Key). key_order (key_view a) (key_view b)) (keys_of result) }
    {
        match &self.entries {
            MapEntries::Own(entries) => entries.iter(),
            MapEntries::Shared(entries) => EntriesIter::of_shared(entries.iter()),
        }
    }

    // Whether the map contains a double, at any depth.
    #[inline]
    pub(super) fn holds_double(&self) -> bool
        ensures { result ≡ entries_have_double self.now }
    {
        self.nesting.doubles
    }

    // The number of levels of the map.
    #[inline]
    pub(super) fn levels(&self) -> u16
        ensures value { result ≡ suc (entries_levels self.now) }
        ensures limit { result ≤ max_levels }
    {
        self.nesting.levels
    }
}
