//! The variables of one scope.
ghost use Rattle.std.specs.Prelude.{◌≡◌, ◌<◌, [], ℕ, List, length, IfSome, Some, None, OnOk, OnErr, MatchOption, option_map, if◌then◌else◌};
ghost use Rattle.std.specs.Str.{bytes_eq};
ghost use Rattle.cel_value.specs.Data.{null};
ghost use Rattle.cel_value.specs.View.{view};
ghost use Rattle.cel_semantics.specs.Bindings.{binding, named_bindings, names_of, IsFirst};

use cel_value::Value;
use std::alloc::{AllocError, Global};
use std::collections::BTreeMap;
use std::mem;

/// The number of names that are searched one by one.
const FEW: usize = 16;

/// Names with their values. The first few are in a list, which is
/// faster than a map as long as there are no others.
pub struct Names {
    first: Vec<(String, Value)>,
    others: BTreeMap<String, Value>,
}

// By hand, so that a proof about code that owns one doesn't go through its parts.
impl Drop for Names {
    fn drop(self) {
        let Names {
            first: _,
            others: _,
        } = self;
    }
}

impl Names {
    /// Returns an empty set of names. Later bindings allocate from `alloc`.
    pub(crate) fn new(alloc: Global) -> Names
        ensures { names_of result ≡ [] }
    {
        Names {
            first: Vec::new(alloc),
            others: BTreeMap::new(alloc),
        }
    }

    /// The value that the name is bound to, if any.
    pub(crate) fn find(&self, name: &str) -> Option<&Value>
        ensures { option_map (λ v. view v.now) result ≡ binding name.now (names_of self.now) }
    {
        match listed(&self.first, name) {
            Some(value) => Some(value),
            None => mapped(&self.others, name),
        }
    }

    /// Binds a name to a value, replacing an earlier binding. No other name changes.
    ///
    /// If memory is refused, the value is dropped, and no name has changed.
    #[inline(always)]
    pub(crate) fn set(&mut self, alloc: Global, name: &str, value: Value) -> Result<(), AllocError>
        ensures bound { OnOk result ((x : List ℕ) → binding x (names_of self.new)
            ≡ (if bytes_eq name.now x then Some (view value) else binding x (names_of self.old))) }
        ensures refused { OnErr result (names_of self.new ≡ names_of self.old) }
    {
        match index_of(&self.first, name) {
            Some(slot) => {
                self.first[slot].1 = value;
                Ok(())
            }
            None => self.add(alloc, name, value),
        }
    }

    /// Takes the value that a name is bound to in the list, and binds the name to null. Returns
    /// None, and changes nothing, if the name isn't in the list. No other name changes.
    #[inline]
    pub(crate) fn take(&mut self, name: &str) -> Option<Value>
        ensures { MatchOption result (names_of self.new ≡ names_of self.old)
            (λ v. (Some (view v) ≡ binding name.now (names_of self.old))
            × ((x : List ℕ) → binding x (names_of self.new)
            ≡ (if bytes_eq name.now x then Some null else binding x (names_of self.old)))) }
    {
        match index_of(&self.first, name) {
            Some(slot) => Some(mem::replace(&mut self.first[slot].1, Value::Null)),
            None => None,
        }
    }

    /// Binds a name that isn't in the list.
    fn add(&mut self, alloc: Global, name: &str, value: Value) -> Result<(), AllocError>
        requires { binding name.now (named_bindings self.old.first.items) ≡ None }
        ensures bound { OnOk result ((x : List ℕ) → binding x (names_of self.new)
            ≡ (if bytes_eq name.now x then Some (view value) else binding x (names_of self.old))) }
        ensures refused { OnErr result (names_of self.new ≡ names_of self.old) }
    {
        let key = String::from_str(alloc, name)?;
        if self.first.len() < FEW {
            self.first.push((key, value))?;
        } else {
            self.others.insert(key, value)?;
        }
        Ok(())
    }
}

/// The value that the list binds the name to, if any.
fn listed<'n>(names: &'n Vec<(String, Value)>, name: &str) -> Option<&'n Value>
    ensures { option_map (λ v. view v.now) result ≡ binding name.now (named_bindings names.now.items) }
{
    for entry in names {
        if entry.0.as_str() == name {
            return Some(&entry.1);
        }
    }
    None
}

/// The value that the map binds the name to, if any.
fn mapped<'n>(names: &'n BTreeMap<String, Value>, name: &str) -> Option<&'n Value>
    ensures { option_map (λ v. view v.now) result ≡ binding name.now (named_bindings names.now.entries) }
{
    names.get(name)
}

/// The index of the name's first entry in the list, if any.
#[inline]
fn index_of(names: &Vec<(String, Value)>, name: &str) -> Option<usize>
    ensures slot { MatchOption result (binding name.now (named_bindings names.now.items) ≡ None)
        (λ i. IsFirst name.now names.now.items i) }
    ensures within { IfSome result (λ i. i < length names.now.items) }
{
    for i in 0..names.len() {
        if names[i].0.as_str() == name {
            return Some(i);
        }
    }
    None
}
