//! The entries of a map: the first one needs no memory of its own, the next are in a vector, and
//! those of a large map that follow are in a tree.
ghost use Rattle.std.specs.Prelude.{◌≡◌, ◌∷◌, ◌++◌, ◌<◌, ◌≤◌, ◌^◌, [], true, false, suc, Some, IfSome, IsSome, IfOk, IfErr, OnOk, OnErr, length, insert, max, option_copied, slice_get, ◌||◌};
ghost use Rattle.std.specs.BTreeMap.{insert_entry, is_at};
ghost use Rattle.std.specs.Bool.{MatchBool};
ghost use Rattle.std.specs.List.Sorted.{IsStrictlySortedBy};
ghost use Rattle.std.specs.Map.{keys_of, lookup};
ghost use Rattle.cel_value.specs.Keys.{key_cmp, key_view, put};
ghost use Rattle.cel_value.specs.LeftBehind.{left_behind};
ghost use Rattle.cel_value.specs.Levels.{entries_levels};
ghost use Rattle.cel_value.specs.Same.{entries_have_double};
ghost use Rattle.cel_value.specs.StoredEntries.{AreFew, AreSorted, AreStored, all_entries, place_of, tree_entries, with_value_at};
ghost use Rattle.cel_value.specs.View.{view, entries_view};

use super::shared::{SharedIter, joined};
use super::{Entries, Tree, Value};
use crate::key::Key;
use kube_types::Refused;
use std::alloc::{AllocError, AllocFailed, Global};
use std::cmp::{Ordering, min};
use std::collections::BTreeMap;
use std::collections::btree_map::Iter;
use std::marker::Model;
use std::{mem, slice};

/// The most entries of the vector that are compared one after another.
const FEW: usize = 8;

/// The most entries of the vector. An entry that is added before others of it moves them, so the
/// others of a large map are in a tree.
const MOST: usize = 32;

/// The entries in front of those of a map that shares its keys.
const NO_ENTRIES: [(Key, Value); 0] = [];

// The number of entries of a tree, if there is one.
fn tree_len(tail: &Option<Tree>) -> usize
    ensures value { result ≡ length (tree_entries tail.now) }
    ensures bound { result < 2 ^ 63 }
{
    match tail {
        Some(tree) => tree.len(),
        None => 0,
    }
}

// The entries of a tree, if there is one.
fn behind_iter<'a>(tail: &'a Option<Tree>) -> Behind<'a>
    ensures { left_behind result ≡ tree_entries tail.now }
{
    match tail {
        Some(tree) => Behind::Tree(tree.iter()),
        None => Behind::Nothing,
    }
}

// Makes a tree, if there is none.
fn plant(tail: &mut Option<Tree>, alloc: Global) -> Result<(), AllocError>
    ensures { tree_entries tail.new ≡ tree_entries tail.old }
{
    match tail {
        Some(_) => Ok(()),
        None => {
            *tail = Some(Box::new(alloc, BTreeMap::new(alloc))?);
            Ok(())
        }
    }
}

// Adds an entry to a tree, which is made if there is none. If memory is refused, the entry comes back.
fn put_in_tree(
    tail: &mut Option<Tree>,
    alloc: Global,
    key: Key,
    value: Value,
) -> Result<Option<Value>, AllocFailed<(Key, Value)>>
    ensures old { IfOk result (λ old. old ≡ lookup (is_at (key_cmp key)) (tree_entries tail.old)) }
    ensures entries { OnOk result
        (tree_entries tail.new ≡ insert_entry key_cmp (tree_entries tail.old) key value) }
    ensures unchanged { OnErr result (tree_entries tail.new ≡ tree_entries tail.old) }
    ensures value_returned { IfErr result (λ failed. failed.value ≡ (key, value)) }
{
    if plant(tail, alloc).is_err() {
        return Err(AllocFailed {
            value: (key, value),
        });
    }
    match tail {
        Some(tree) => tree.insert(key, value),
        None => Err(AllocFailed {
            value: (key, value),
        }),
    }
}

// Where a key is, or else where it belongs.
fn search(entries: &[(Key, Value)], key: &Key) -> Result<usize, usize>
    requires { AreSorted entries.now }
    ensures place { result ≡ place_of key.now entries.now }
    ensures bound { IfOk result (λ at. at < length entries.now) }
{
    let mut low = 0;
    let mut high = entries.len();
    while low < high {
        let middle = low + (high - low) / 2;
        match key.cmp(&entries[middle].0) {
            Ordering::Less => high = middle,
            Ordering::Equal => return Ok(middle),
            Ordering::Greater => low = middle + 1,
        }
    }
    Err(low)
}

// The same, where most keys come after all others.
#[inline]
fn place(entries: &[(Key, Value)], key: &Key) -> Result<usize, usize>
    requires { AreSorted entries.now }
    ensures place { result ≡ place_of key.now entries.now }
    ensures bound { IfOk result (λ at. at < length entries.now) }
{
    let count = entries.len();
    if count == 0 {
        return Err(0);
    }
    match key.cmp(&entries[count - 1].0) {
        Ordering::Greater => Err(count),
        _ => search(entries, key),
    }
}

// Moves the last entry of a full vector to the tree.
fn make_room(rest: &mut Vec<(Key, Value)>, tail: &mut Option<Tree>) -> Result<(), AllocError>
    requires sorted { AreSorted (rest.old.items ++ tree_entries tail.old) }
    requires few { AreFew rest.old.items }
    ensures same { rest.new.items ++ tree_entries tail.new ≡ rest.old.items ++ tree_entries tail.old }
    ensures room { OnOk result (length rest.new.items < 32) }
    ensures one { OnOk result (length rest.old.items ≤ suc (length rest.new.items)) }
    ensures few { AreFew rest.new.items }
{
    if rest.as_slice().len() < MOST {
        return Ok(());
    }
    let alloc = *rest.allocator();
    match rest.pop() {
        None => Ok(()),
        Some((key, value)) => match put_in_tree(tail, alloc, key, value) {
            Ok(_) => Ok(()),
            Err(failed) => {
                rest.push(failed.value)?;
                Err(AllocError)
            }
        },
    }
}

// Adds an entry before one of the vector.
fn put_between(
    rest: &mut Vec<(Key, Value)>,
    tail: &mut Option<Tree>,
    at: usize,
    entry: (Key, Value),
) -> Result<(), AllocError>
    requires sorted { AreSorted (rest.old.items ++ tree_entries tail.old) }
    requires within { at < length rest.old.items }
    requires few { AreFew rest.old.items }
    ensures added { OnOk result (rest.new.items ++ tree_entries tail.new
        ≡ insert (rest.old.items ++ tree_entries tail.old) at entry) }
    ensures unchanged { OnErr result
        (rest.new.items ++ tree_entries tail.new ≡ rest.old.items ++ tree_entries tail.old) }
    ensures few { AreFew rest.new.items }
{
    make_room(rest, tail)?;
    rest.insert(at, entry)?;
    Ok(())
}

// Adds an entry whose key lies behind those of the vector.
#[inline]
fn put_last(
    rest: &mut Vec<(Key, Value)>,
    tail: &mut Option<Tree>,
    key: Key,
    value: Value,
) -> Result<Option<Value>, AllocError>
    requires { AreFew rest.old.items }
    ensures old { IfOk result (λ old. old ≡ lookup (is_at (key_cmp key)) (tree_entries tail.old)) }
    ensures entries { OnOk result (rest.new.items ++ tree_entries tail.new
        ≡ rest.old.items ++ insert_entry key_cmp (tree_entries tail.old) key value) }
    ensures unchanged { OnErr result
        (rest.new.items ++ tree_entries tail.new ≡ rest.old.items ++ tree_entries tail.old) }
    ensures few { AreFew rest.new.items }
{
    if rest.as_slice().len() < MOST && tree_len(tail) == 0 {
        rest.push((key, value))?;
        return Ok(None);
    }
    let old = put_in_tree(tail, *rest.allocator(), key, value)?;
    Ok(old)
}

// Adds an entry behind the first one.
fn put_behind(
    rest: &mut Vec<(Key, Value)>,
    tail: &mut Option<Tree>,
    key: Key,
    value: Value,
) -> Result<Option<Value>, AllocError>
    requires sorted { AreSorted (rest.old.items ++ tree_entries tail.old) }
    requires few { AreFew rest.old.items }
    ensures old { IfOk result
        (λ old. old ≡ lookup (is_at (key_cmp key)) (rest.old.items ++ tree_entries tail.old)) }
    ensures entries { OnOk result (rest.new.items ++ tree_entries tail.new
        ≡ insert_entry key_cmp (rest.old.items ++ tree_entries tail.old) key value) }
    ensures unchanged { OnErr result
        (rest.new.items ++ tree_entries tail.new ≡ rest.old.items ++ tree_entries tail.old) }
    ensures few { AreFew rest.new.items }
{
    match place(rest.as_slice(), &key) {
        Ok(at) => Ok(Some(mem::replace(&mut rest[at].1, value))),
        Err(at) => {
            if at < rest.as_slice().len() {
                put_between(rest, tail, at, (key, value))?;
                return Ok(None);
            }
            put_last(rest, tail, key, value)
        }
    }
}

// Makes an entry the first one.
fn put_before(
    first: &mut (Key, Value),
    rest: &mut Vec<(Key, Value)>,
    tail: &mut Option<Tree>,
    entry: (Key, Value),
) -> Result<(), AllocError>
    requires sorted { AreSorted (rest.old.items ++ tree_entries tail.old) }
    requires few { AreFew rest.old.items }
    ensures added { OnOk result ((first.new ≡ entry)
        × (rest.new.items ++ tree_entries tail.new ≡ first.old ∷ (rest.old.items ++ tree_entries tail.old))) }
    ensures unchanged { OnErr result ((first.new ≡ first.old)
        × (rest.new.items ++ tree_entries tail.new ≡ rest.old.items ++ tree_entries tail.old)) }
    ensures few { AreFew rest.new.items }
{
    make_room(rest, tail)?;
    rest.insert(0, entry)?;
    mem::swap(first, &mut rest[0]);
    Ok(())
}

// The key of the entry at an index, if there is one.
#[inline]
fn key_behind(rest: &[(Key, Value)], index: usize) -> Option<&Key>
    ensures { option_copied result ≡ slice_get (keys_of rest.now) index }
{
    if index >= rest.len() {
        return None;
    }
    Some(&rest[index].0)
}

// Replaces the value of the entry at an index, if there is one. Returns whether there is.
#[inline]
fn replace_behind(rest: &mut Vec<(Key, Value)>, index: usize, value: Value) -> bool
    ensures { MatchBool result
        ((index < length rest.old.items) × (rest.new.items ≡ with_value_at index value rest.old.items))
        (rest.new.items ≡ rest.old.items) }
{
    if index >= rest.as_slice().len() {
        drop(value);
        return false;
    }
    drop(mem::replace(&mut rest[index].1, value));
    true
}

// Adds an entry, or replaces the value at a key that is there.
#[inline]
fn put(
    first: &mut Option<(Key, Value)>,
    rest: &mut Vec<(Key, Value)>,
    tail: &mut Option<Tree>,
    key: Key,
    value: Value,
) -> Result<Option<Value>, AllocError>
    requires stored { AreStored first.old (rest.old.items ++ tree_entries tail.old) }
    requires few { AreFew rest.old.items }
    ensures stored { AreStored first.new (rest.new.items ++ tree_entries tail.new) }
    ensures old { IfOk result (λ old. old
        ≡ lookup (is_at (key_cmp key)) (all_entries first.old (rest.old.items ++ tree_entries tail.old))) }
    ensures entries { OnOk result (all_entries first.new (rest.new.items ++ tree_entries tail.new)
        ≡ insert_entry key_cmp (all_entries first.old (rest.old.items ++ tree_entries tail.old)) key value) }
    ensures unchanged { OnErr result (all_entries first.new (rest.new.items ++ tree_entries tail.new)
        ≡ all_entries first.old (rest.old.items ++ tree_entries tail.old)) }
    ensures few { AreFew rest.new.items }
{
    match first {
        None => {
            *first = Some((key, value));
            Ok(None)
        }
        Some(entry) => match key.cmp(&entry.0) {
            Ordering::Greater => put_behind(rest, tail, key, value),
            Ordering::Equal => Ok(Some(mem::replace(&mut entry.1, value))),
            Ordering::Less => {
                put_before(entry, rest, tail, (key, value))?;
                Ok(None)
            }
        },
    }
}

// The value at a key, found by equality.
fn scan<'a>(entries: &'a [(Key, Value)], key: &Key) -> Option<&'a Value>
    ensures { option_copied result ≡ lookup (is_at (key_cmp key.now)) entries.now }
{
    for entry in entries {
        if *key == entry.0 {
            return Some(&entry.1);
        }
    }
    None
}

// The value at a key among those of the vector.
#[inline]
fn find<'a>(entries: &'a [(Key, Value)], key: &Key) -> Option<&'a Value>
    requires { AreSorted entries.now }
    ensures { option_copied result ≡ lookup (is_at (key_cmp key.now)) entries.now }
{
    if entries.len() <= FEW {
        return scan(entries, key);
    }
    match search(entries, key) {
        Ok(at) => Some(&entries[at].1),
        Err(_) => None,
    }
}

// The value at a key of a tree, if there is one.
fn find_in_tree<'a>(tail: &'a Option<Tree>, key: &Key) -> Option<&'a Value>
    ensures { option_copied result ≡ lookup (is_at (key_cmp key.now)) (tree_entries tail.now) }
{
    match tail {
        Some(tree) => tree.get(key),
        None => None,
    }
}

// The value at a key behind the first one.
#[inline]
fn find_behind<'a>(rest: &'a [(Key, Value)], tail: &'a Option<Tree>, key: &Key) -> Option<&'a Value>
    requires { AreSorted rest.now }
    ensures { option_copied result ≡ lookup (is_at (key_cmp key.now)) (rest.now ++ tree_entries tail.now) }
{
    match find(rest, key) {
        Some(value) => Some(value),
        None => find_in_tree(tail, key),
    }
}

// What the values of some entries add to the levels of a map, and to whether it has a double.
fn with_entries(before: (bool, u16), entries: &[(Key, Value)]) -> (bool, u16)
    ensures { result ≡ (
      before.0 || entries_have_double (entries_view entries.now),
      max before.1 (entries_levels (entries_view entries.now)),
    ) }
{
    let mut so_far = before;
    for entry in entries {
        so_far = joined(so_far, &entry.1);
    }
    so_far
}

// The same of a tree, if there is one.
fn with_tree(before: (bool, u16), tail: &Option<Tree>) -> (bool, u16)
    ensures { result ≡ (
      before.0 || entries_have_double (entries_view (tree_entries tail.now)),
      max before.1 (entries_levels (entries_view (tree_entries tail.now))),
    ) }
{
    let mut so_far = before;
    if let Some(tree) = tail {
        for (_key, value) in tree.iter() {
            so_far = joined(so_far, value);
        }
    }
    so_far
}

impl Entries {
    /// Returns no entries.
    #[inline]
    pub fn new(alloc: Global) -> Entries
        ensures empty { result.entries ≡ [] }
    {
        Entries {
            first: None,
            rest: Vec::new(alloc),
            tail: None,
        }
    }

    /// Returns no entries, with room for as many as given, up to 33. One entry needs no memory.
    pub fn with_capacity(alloc: Global, room: usize) -> Result<Entries, Refused>
        ensures empty { IfOk result (λ m. m.entries ≡ []) }
        ensures memory { IfErr result (λ e. e ≡ Refused.Memory) }
    {
        if room <= 1 {
            return Ok(Entries::new(alloc));
        }
        Ok(Entries {
            first: None,
            rest: Vec::with_capacity(alloc, min(room - 1, MOST))?,
            tail: None,
        })
    }

    /// Adds an entry, or replaces the value at a key that is there and returns the old one. If the
    /// call is refused, the entries stay as they were.
    #[inline]
    pub fn insert(&mut self, key: Key, value: Value) -> Result<Option<Value>, Refused>
        ensures old { IfOk result (λ old. old ≡ lookup (is_at (key_cmp key)) self.old.entries) }
        ensures entries { OnOk result
            (self.new.entries ≡ insert_entry key_cmp self.old.entries key value) }
        ensures unchanged { OnErr result (self.new.entries ≡ self.old.entries) }
        ensures memory { IfErr result (λ e. e ≡ Refused.Memory) }
    {
        let old = put(&mut self.first, &mut self.rest, &mut self.tail, key, value)?;
        Ok(old)
    }

    /// The value at a key, if any.
    #[inline]
    pub fn get(&self, key: &Key) -> Option<&Value>
        ensures value { option_copied result ≡ lookup (is_at (key_cmp key.now)) self.now.entries }
    {
        match &self.first {
            None => None,
            Some(entry) => {
                if *key == entry.0 {
                    Some(&entry.1)
                } else {
                    find_behind(self.rest.as_slice(), &self.tail, key)
                }
            }
        }
    }

    // The key of the entry at an index. The last entries of a large map aren't found so: the
    // contract only covers keys that are returned.
    #[inline]
    pub(super) fn key_at(&self, index: usize) -> Option<&Key>
        ensures { IfSome result (λ k. slice_get (keys_of self.now.entries) index ≡ Some k.now) }
    {
        match &self.first {
            None => None,
            Some(first) => {
                if index == 0 {
                    return Some(&first.0);
                }
                key_behind(self.rest.as_slice(), index - 1)
            }
        }
    }

    // Replaces the value of the entry at an index. The last entries of a large map aren't found so:
    // returns false, and changes nothing.
    #[inline]
    pub(super) fn replace_at(&mut self, index: usize, value: Value) -> bool
        ensures keys { keys_of self.new.entries ≡ keys_of self.old.entries }
        ensures ordered { IsStrictlySortedBy key_cmp (keys_of self.old.entries) }
        ensures replaced { result ≡ true → (k : Key) → slice_get (keys_of self.old.entries) index ≡ Some k
            → entries_view self.new.entries ≡ put (key_view k) (view value) (entries_view self.old.entries) }
        ensures found { result ≡ true → IsSome (slice_get (keys_of self.old.entries) index) }
        ensures unchanged { result ≡ false → self.new.entries ≡ self.old.entries }
    {
        match &mut self.first {
            None => {
                drop(value);
                false
            }
            Some(first) => {
                if index == 0 {
                    drop(mem::replace(&mut first.1, value));
                    return true;
                }
                replace_behind(&mut self.rest, index - 1, value)
            }
        }
    }

    /// The number of entries.
    pub fn len(&self) -> usize
        ensures { result ≡ length self.now.entries }
    {
        match &self.first {
            None => 0,
            Some(_) => self.rest.as_slice().len() + tree_len(&self.tail) + 1,
        }
    }

    /// Iterates over the entries in key order.
    #[inline]
    pub fn iter(&self) -> EntriesIter<'_>
        ensures rest { result ≡ self.now.entries }
        ensures ordered { IsStrictlySortedBy key_cmp (keys_of self.now.entries) }
    {
        EntriesIter {
            first: self.first.as_ref(),
            rest: self.rest.as_slice().iter(),
            behind: behind_iter(&self.tail),
        }
    }

    // Whether one of the values is or has a double, and the most levels of one.
    #[inline]
    pub(super) fn doubles_and_levels(&self) -> (bool, u16)
        ensures { result ≡ (
          entries_have_double (entries_view self.now.entries),
          entries_levels (entries_view self.now.entries),
        ) }
    {
        match &self.first {
            None => (false, 0),
            Some(first) => {
                let so_far = joined((false, 0), &first.1);
                with_tree(with_entries(so_far, self.rest.as_slice()), &self.tail)
            }
        }
    }
}

/// The entries that are left behind those of a vector: of a tree, or of a map that shares its keys.
#[derive(Drop)]
enum Behind<'a> {
    Nothing,
    Tree(Iter<'a, Key, Value>),
    Shared(SharedIter<'a>),
}

/// The entries of a map that are left, in key order.
#[derive(Drop)]
pub struct EntriesIter<'a> {
    first: Option<&'a (Key, Value)>,
    rest: slice::Iter<'a, (Key, Value)>,
    behind: Behind<'a>,
}

impl<'a> EntriesIter<'a> {
    // The entries of a map that shares its keys.
    #[inline]
    pub(super) fn of_shared(entries: SharedIter<'a>) -> EntriesIter<'a>
        ensures { result ≡ entries.entry }
    {
        EntriesIter {
            first: None,
            rest: NO_ENTRIES.iter(),
            behind: Behind::Shared(entries),
        }
    }
}

impl<'a> Model for EntriesIter<'a> {
    ghost use Rattle.cel_value.specs.LeftBehind.{left_behind};
    ghost use Rattle.std.specs.Prelude.{List, ◌++◌, option_copied, option_to_list};
    ghost use Rattle.std.specs.Slice.Iter.{iter_rest};
    ghost use Rattle.std.specs.Coded.{codes, coded_list};
    ghost use Rattle.cel_value.specs.Coded.{items_code, entries_code};
    ghost use Rattle.cel_value.specs.Listed.{Entry};

    ghost Value = { List Entry };

    ghost coded = { Prim.hlevel (codes, items_code, entries_code) };

    ghost view = { λ a. option_to_list (option_copied a.first)
        ++ (iter_rest a.rest ++ left_behind a.behind) };
}

impl<'a> Iterator for EntriesIter<'a> {
    type Item = (&'a Key, &'a Value);

    ghost use Rattle.std.specs.Prelude.{length};
    ghost use Rattle.std.specs.Iterator.{at_most};
    ghost use Rattle.std.specs.Map.Iter.{TakesFirst, deref_pair};

    ghost next_gives = { TakesFirst deref_pair };

    ghost remaining = { λ s. at_most (length s) };

    #[inline]
    fn next(&mut self) -> Option<(&'a Key, &'a Value)> {
        if let Some(entry) = self.first.take() {
            return Some((&entry.0, &entry.1));
        }
        if let Some(entry) = self.rest.next() {
            return Some((&entry.0, &entry.1));
        }
        match &mut self.behind {
            Behind::Nothing => None,
            Behind::Tree(tree) => tree.next(),
            Behind::Shared(entries) => entries.next(),
        }
    }
}
