//! Maps that share their keys, as those of the items of a list often do: such a map has its values
//! alone, and the first three of them need no memory of their own.
ghost use Rattle.std.specs.Prelude.{◌≡◌, ◌∷◌, ◌++◌, ◌<◌, ◌≤◌, ◌^◌, ◌||◌, [], List, length, max, zip, slice_get, Some, None, IfOk, IfErr, OnOk, OnErr, MatchOption, option_copied, true, false};
ghost use Rattle.std.specs.BTreeMap.{is_at};
ghost use Rattle.std.specs.List.Sorted.{IsStrictlySortedBy};
ghost use Rattle.std.specs.Map.{keys_of, lookup};
ghost use Rattle.std.specs.Ordering.{is_lt};
ghost use Rattle.cel_value.specs.Find.{find};
ghost use Rattle.cel_value.specs.Keys.{key_cmp, key_view, put};
ghost use Rattle.cel_value.specs.Levels.{entries_levels, items_levels, levels};
ghost use Rattle.cel_value.specs.Same.{entries_have_double, has_double, items_have_double};
ghost use Rattle.cel_value.specs.Shared.{shared_entries};
ghost use Rattle.cel_value.specs.SharedEntries.{AreInPlace, HasPlace, Suits, values_of};
ghost use Rattle.cel_value.specs.View.{view, items_view, entries_view};
ghost use Rattle.cel_value.specs.declared.key.Key.{Key};

use super::single::put_into;
use super::{Entries, MapKeys, SharedEntries, Slots, Value, Values};
use crate::key::Key;
use kube_types::Refused;
use std::alloc::Global;
use std::cmp::{Ordering, max};
use std::marker::Model;
use std::rc::Rc;

/// The most keys that maps share. They are compared one after another.
const FEW: usize = 8;

/// The number of values that need no block.
const SLOTS: usize = 3;

// Reports whether a key comes before another one.
fn is_below(key: &Key, other: &Key) -> bool
    ensures { result ≡ is_lt (key_cmp key.now other.now) }
{
    matches!(key.cmp(other), Ordering::Less)
}

// Reports whether each key comes before the next one.
fn are_rising(keys: &[Key]) -> bool
    ensures rising { result ≡ true → IsStrictlySortedBy key_cmp keys.now }
    ensures otherwise { result ≡ false → IsStrictlySortedBy key_cmp keys.now → ⊥ }
{
    let mut at = keys.len();
    while at > 1 {
        at -= 1;
        if !is_below(&keys[at - 1], &keys[at]) {
            return false;
        }
    }
    true
}

impl MapKeys {
    /// Returns these keys, if there are at most 8 and each comes before the next one.
    ///
    /// # Errors
    /// [`Refused::Memory`] if memory is refused.
    pub fn of(alloc: Global, keys: Vec<Key>) -> Result<Option<MapKeys>, Refused>
        ensures value { IfOk result (λ made. MatchOption made
            (IsStrictlySortedBy key_cmp keys.items × (length keys.items ≤ 8) → ⊥) (λ k. k ≡ keys.items)) }
        ensures memory { IfErr result (λ e. e ≡ Refused.Memory) }
    {
        if keys.as_slice().len() > FEW || !are_rising(keys.as_slice()) {
            return Ok(None);
        }
        Ok(Some(MapKeys {
            keys: Rc::new(alloc, keys)?,
        }))
    }
}

// What a value adds to the levels of the map that it is in, and to whether the map has a double.
#[inline]
pub(super) fn joined(so_far: (bool, u16), value: &Value) -> (bool, u16)
    ensures { result ≡ (so_far.0 || has_double (view value.now), max so_far.1 (levels (view value.now))) }
{
    (
        so_far.0 || value.holds_double(),
        max(so_far.1, value.levels()),
    )
}

// The same of some values.
fn all_joined(values: &[Value]) -> (bool, u16)
    ensures { result ≡ (
      items_have_double (items_view values.now),
      items_levels (items_view values.now),
    ) }
{
    let mut so_far = (false, 0);
    for value in values {
        so_far = joined(so_far, value);
    }
    so_far
}

impl Values {
    // No values, with room for those of as many keys.
    fn with_capacity(alloc: Global, count: usize) -> Result<Values, Refused>
        ensures none { IfOk result (λ vs. values_of vs ≡ []) }
        ensures suits { IfOk result (λ vs. (ks : List Key) → length ks ≡ count → Suits ks vs) }
        ensures places { IfOk result (λ vs. AreInPlace vs) }
        ensures memory { IfErr result (λ e. e ≡ Refused.Memory) }
    {
        if count > SLOTS {
            return Ok(Values::Many(Vec::with_capacity(alloc, count)?));
        }
        Ok(Values::Few(Slots {
            count: 0,
            values: [Value::Null, Value::Null, Value::Null],
        }))
    }

    // Adds a value behind the others.
    #[inline(always)]
    fn push(&mut self, value: Value) -> Result<(), Refused>
        requires place { HasPlace self.old }
        requires places { AreInPlace self.old }
        ensures added { OnOk result (values_of self.new ≡ values_of self.old ++ value ∷ []) }
        ensures unchanged { OnErr result (values_of self.new ≡ values_of self.old) }
        ensures suits { (ks : List Key) → Suits ks self.old → Suits ks self.new }
        ensures places { AreInPlace self.new }
        ensures memory { IfErr result (λ e. e ≡ Refused.Memory) }
    {
        match self {
            Values::Few(slots) => {
                slots.values[slots.count] = value;
                slots.count += 1;
            }
            Values::Many(values) => values.push(value)?,
        }
        Ok(())
    }

    // The values in order.
    #[inline]
    fn as_slice(&self) -> &[Value]
        requires { AreInPlace self.now }
        ensures { result.now ≡ values_of self.now }
    {
        match self {
            Values::Few(slots) => &slots.values[..slots.count],
            Values::Many(values) => values.as_slice(),
        }
    }
}

// The value at a key.
#[inline]
pub(super) fn value_at<'a>(keys: &[Key], values: &'a [Value], key: &Key) -> Option<&'a Value>
    ensures { option_copied result ≡ lookup (is_at (key_cmp key.now)) (zip keys.now values.now) }
{
    for index in 0..keys.len() {
        if *key == keys[index] {
            return values.get(index);
        }
    }
    None
}

// Adds an entry, whose key lies behind the others.
pub(super) fn put_copy(entries: &mut Entries, key: &Key, value: &Value) -> Result<(), Refused>
    ensures added { OnOk result (entries_view entries.new.entries
        ≡ put (key_view key.now) (view value.now) (entries_view entries.old.entries)) }
    ensures memory { IfErr result (λ e. e ≡ Refused.Memory) }
{
    put_into(entries, key.try_clone()?, value.try_clone()?)
}

impl SharedEntries {
    /// Returns no entries, of a map with these keys.
    ///
    /// # Errors
    /// [`Refused::Memory`] if memory is refused.
    pub fn new(alloc: Global, keys: &MapKeys) -> Result<SharedEntries, Refused>
        ensures none { IfOk result (λ s. (s.keys ≡ keys.now) × (s.values ≡ [])) }
        ensures memory { IfErr result (λ e. e ≡ Refused.Memory) }
    {
        let keys = keys.keys.clone()?;
        let values = Values::with_capacity(alloc, keys.as_slice().len())?;
        Ok(SharedEntries { keys, values })
    }

    /// Adds the value at the next key.
    ///
    /// # Errors
    /// [`Refused::Memory`] if memory is refused. The entries are unchanged then.
    #[inline]
    pub fn push(&mut self, value: Value) -> Result<(), Refused>
        requires room { length self.old.values < length self.old.keys }
        ensures keys { self.new.keys ≡ self.old.keys }
        ensures values { OnOk result (self.new.values ≡ self.old.values ++ value ∷ []) }
        ensures entries { OnOk result ((k : Key) → slice_get self.old.keys (length self.old.values) ≡ Some k
            → (find (key_view k) (entries_view (shared_entries self.old)) ≡ None)
            × (entries_view (shared_entries self.new)
            ≡ put (key_view k) (view value) (entries_view (shared_entries self.old)))) }
        ensures unchanged { OnErr result (self.new.values ≡ self.old.values) }
        ensures memory { IfErr result (λ e. e ≡ Refused.Memory) }
    {
        self.values.push(value)
    }

    /// Returns copies of the entries, with keys of their own.
    ///
    /// # Errors
    /// [`Refused::Memory`] if memory is refused.
    pub fn to_entries(&self) -> Result<Entries, Refused>
        ensures entries { IfOk result (λ es. entries_view es.entries
            ≡ entries_view (shared_entries self.now)) }
        ensures memory { IfErr result (λ e. e ≡ Refused.Memory) }
    {
        let mut entries = Entries::with_capacity(
            *self.keys.allocator(),
            self.values.as_slice().len(),
        )?;
        for (key, value) in self.iter() {
            put_copy(&mut entries, key, value)?;
        }
        Ok(entries)
    }

    // The value at a key, if any.
    #[inline]
    pub(super) fn get(&self, key: &Key) -> Option<&Value>
        ensures { option_copied result ≡ lookup (is_at (key_cmp key.now)) (shared_entries self.now) }
    {
        value_at(self.keys.as_slice(), self.values.as_slice(), key)
    }

    // The number of entries.
    pub(super) fn len(&self) -> usize
        ensures { result ≡ length (shared_entries self.now) }
    {
        self.values.as_slice().len()
    }

    // Whether one of the values is or has a double, and the most levels of one.
    pub(super) fn doubles_and_levels(&self) -> (bool, u16)
        ensures { result ≡ (
          entries_have_double (entries_view (shared_entries self.now)),
          entries_levels (entries_view (shared_entries self.now)),
        ) }
    {
        all_joined(self.values.as_slice())
    }

    // Iterates over the entries in key order.
    #[inline]
    pub(super) fn iter(&self) -> SharedIter<'_>
        ensures rest { result ≡ shared_entries self.now }
        ensures ordered { IsStrictlySortedBy key_cmp (keys_of (shared_entries self.now)) }
    {
        SharedIter::over(self.keys.as_slice(), self.values.as_slice())
    }
}

/// The entries that are left of a map that shares its keys, in key order.
#[derive(Drop)]
pub struct SharedIter<'a> {
    keys: &'a [Key],
    values: &'a [Value],
    at: usize,
}

impl<'a> SharedIter<'a> {
    // The keys with their values.
    #[inline]
    pub(super) fn over(keys: &'a [Key], values: &'a [Value]) -> SharedIter<'a>
        ensures { result ≡ zip keys.now values.now }
    {
        SharedIter {
            keys,
            values,
            at: 0,
        }
    }
}

impl<'a> Model for SharedIter<'a> {
    ghost use Rattle.std.specs.Prelude.{List, drop, zip};
    ghost use Rattle.std.specs.Coded.{codes, coded_list};
    ghost use Rattle.cel_value.specs.Coded.{items_code, entries_code};
    ghost use Rattle.cel_value.specs.Listed.{Entry};

    ghost Value = { List Entry };

    ghost coded = { Prim.hlevel (codes, items_code, entries_code) };

    ghost view = { λ a. drop a.at (zip a.keys.now a.values.now) };
}

impl<'a> Iterator for SharedIter<'a> {
    type Item = (&'a Key, &'a Value);

    ghost use Rattle.std.specs.Prelude.{length};
    ghost use Rattle.std.specs.Iterator.{at_most};
    ghost use Rattle.std.specs.Map.Iter.{TakesFirst, deref_pair};

    ghost next_gives = { TakesFirst deref_pair };

    ghost remaining = { λ s. at_most (length s) };

    #[inline]
    fn next(&mut self) -> Option<(&'a Key, &'a Value)> {
        match self.values.get(self.at) {
            None => None,
            Some(value) => match self.keys.get(self.at) {
                None => None,
                Some(key) => {
                    self.at += 1;
                    Some((key, value))
                }
            },
        }
    }
}
