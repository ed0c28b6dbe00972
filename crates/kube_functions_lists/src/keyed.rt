//! What is known of a list's items: the keys of bools, numbers and strings, and other
//! values by their hashes. With it a value is found without reading all items.
ghost use Rattle.std.specs.Prelude.{◌≡◌, Bool, None, false, IfOk, OnOk, map, not, option_map};
ghost use Rattle.cel_value.specs.Data.{Data};
ghost use Rattle.cel_value.specs.Keys.{key_view};
ghost use Rattle.cel_value.specs.View.{view};
ghost use Rattle.cel_semantics.specs.Members.{key_of};
ghost use Rattle.kube_functions_lists.specs.Hashed.{AreTrue, HasHashesOf, Knows, among, or_same};
ghost use Rattle.kube_functions_lists.specs.Sets as spec;

use crate::hashes::hash;
use crate::sets::is_in;
use cel_value::{Key, Refused, Value};
use std::alloc::Global;
use std::collections::{BTreeMap, BTreeSet};

/// The keys of the items that can be keys, and other items by their hashes.
#[derive(Drop)]
pub(crate) struct Known<'a> {
    keys: BTreeSet<Key>,
    others: BTreeMap<u64, &'a Value>,
}

/// The value as a map key, or None if it is of a kind that can't be one.
fn key_from(value: &Value) -> Result<Option<Key>, Refused>
    ensures value { IfOk result (λ k. option_map key_view k ≡ key_of (view value.now)) }
{
    match value {
        Value::Bool(b) => Ok(Some(Key::Bool(*b))),
        Value::Int(n) => Ok(Some(Key::Int(*n))),
        Value::UInt(n) => Ok(Some(Key::Uint(*n))),
        Value::String(text) => Ok(Some(Key::String(text.clone()?))),
        _ => Ok(None),
    }
}

/// Reports whether a value that can't be a key is among the items, which are
/// held by their hashes. All are read only if another value has the same hash.
fn is_held(others: &BTreeMap<u64, &Value>, items: &[Value], value: &Value) -> bool
    requires held { AreTrue others.now (among items.now) }
    requires hashes { HasHashesOf others.now (among items.now) }
    requires no_key { key_of (view value.now) ≡ None }
    ensures { result ≡ among items.now (view value.now) }
{
    match others.get(&hash(value)) {
        Some(held) => **held == *value || is_in(items, value),
        None => false,
    }
}

impl<'a> Known<'a> {
    /// What is known of no items.
    pub(crate) fn new(alloc: Global) -> Known<'a>
        ensures { (none : Data → Bool) → ((d : Data) → none d ≡ false) → Knows result none }
    {
        Known {
            keys: BTreeSet::new(alloc),
            others: BTreeMap::new(alloc),
        }
    }

    /// Adds a value.
    ///
    /// # Errors
    /// [`Refused::Memory`] if memory is refused.
    fn add(&mut self, value: &'a Value) -> Result<(), Refused>
        ensures known { OnOk result ((test : Data → Bool)
            → Knows self.old test → Knows self.new (or_same test (view value.now))) }
    {
        match key_from(value)? {
            Some(key) => {
                self.keys.insert(key)?;
            }
            None => {
                self.others.insert(hash(value), value)?;
            }
        }
        Ok(())
    }

    /// What is known of all items.
    ///
    /// # Errors
    /// [`Refused::Memory`] if memory is refused.
    pub(crate) fn of(alloc: Global, items: &'a [Value]) -> Result<Known<'a>, Refused>
        ensures known { IfOk result (λ known. Knows known (among items.now)) }
    {
        let mut known = Known::new(alloc);
        for item in items {
            known.add(item)?;
        }
        Ok(known)
    }

    /// Reports whether the value is among the items.
    ///
    /// # Errors
    /// [`Refused::Memory`] if memory is refused.
    pub(crate) fn has(&self, items: &[Value], value: &Value) -> Result<bool, Refused>
        requires { Knows self.now (among items.now) }
        ensures value { IfOk result (λ found. found ≡ among items.now (view value.now)) }
    {
        match key_from(value)? {
            Some(key) => Ok(self.keys.contains(&key)),
            None => Ok(is_held(&self.others, items, value)),
        }
    }

    /// Reports whether the value is none of the items. If so, it is added.
    ///
    /// # Errors
    /// [`Refused::Memory`] if memory is refused.
    pub(crate) fn add_new(&mut self, items: &[Value], value: &'a Value) -> Result<bool, Refused>
        requires { Knows self.old (among items.now) }
        ensures value { IfOk result (λ fresh. fresh ≡ not (among items.now (view value.now))) }
        ensures known { OnOk result (Knows self.new (or_same (among items.now) (view value.now))) }
    {
        match key_from(value)? {
            Some(key) => Ok(self.keys.insert(key)?),
            None => {
                let fresh = !is_held(&self.others, items, value);
                self.others.insert(hash(value), value)?;
                Ok(fresh)
            }
        }
    }
}
