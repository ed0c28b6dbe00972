//! The keys of maps made from names of members, each allocated once.
ghost use Rattle.std.specs.Prelude.{◌≡◌, IfErr, IfOk, IfSome, string_bytes};
ghost use Rattle.kube_schema_values.specs.Escape.{escape};

use crate::escaping::{escape_field_name, is_its_own_escape};
use cel_value::{Refused, Text};
use std::alloc::{AllocError, Global};

/// The greatest number of names that are cached. Other names are allocated anew each time.
const MAX_NAMES: usize = 32;

/// After this number of consecutive misses only one slot
/// is tried, so that names that all differ cost little.
const MAX_MISSES: usize = 64;

/// A name and its escape.
#[derive(Drop)]
struct EscapedName {
    name: String,
    escaped: Text,
    ghost right: { escaped ≡ escape (string_bytes name) },
}

/// A cache of the keys of members, so that a recurring name shares its string.
///
/// No contract says which names it holds. Instead, each entry carries the
/// proof that it is the escape of its own name, so every answer is right.
#[derive(Drop)]
pub struct MemberKeys {
    alloc: Global,
    names: Vec<EscapedName>,
    next: usize,
    misses: usize,
    keeps: bool,
}

impl MemberKeys {
    /// Returns an empty cache, which doesn't keep names yet. Allocates nothing.
    pub fn new(alloc: Global) -> MemberKeys {
        MemberKeys {
            alloc,
            names: Vec::new(alloc),
            next: 0,
            misses: 0,
            keeps: false,
        }
    }

    /// Keeps names from now on, which pays if several objects follow.
    pub fn keep_names(&mut self) {
        self.keeps = true;
    }

    /// Returns a name, escaped like [`escape_field_name`] does.
    ///
    /// # Errors
    ///
    /// [`Refused`] if memory is refused.
    pub fn escaped(&mut self, name: &str) -> Result<Text, Refused>
        ensures key { IfOk result (λ s. s ≡ escape name.now) }
        ensures memory { IfErr result (λ e. e ≡ Refused.Memory) }
    {
        if let Some(found) = self.find(name)? {
            return Ok(found);
        }
        let escaped = Text::of(self.alloc, escape_field_name(self.alloc, name)?)?;
        self.keep(name, &escaped)?;
        Ok(escaped)
    }

    /// Returns a name as it is.
    ///
    /// # Errors
    ///
    /// [`Refused`] if memory is refused.
    pub fn unescaped(&mut self, name: &str) -> Result<Text, Refused>
        ensures key { IfOk result (λ s. s ≡ name.now) }
        ensures memory { IfErr result (λ e. e ≡ Refused.Memory) }
    {
        if self.keeps && is_its_own_escape(name) {
            let escaped = self.escaped(name)?;
            return Ok(escaped);
        }
        Ok(Text::of_str(self.alloc, name)?)
    }

    // Finds the escape of a cached name. Objects of one kind have their members
    // in one order, so the name after the one found last is tried first.
    fn find(&mut self, name: &str) -> Result<Option<Text>, AllocError>
        ensures { IfOk result (λ found. IfSome found (λ s. s ≡ escape name.now)) }
    {
        if let Some(found) = self.at(self.next, name)? {
            self.next = self.next.saturating_add(1);
            self.misses = 0;
            return Ok(Some(found));
        }
        if self.misses < MAX_MISSES {
            self.misses += 1;
            for index in 0..self.names.len() {
                if let Some(found) = self.at(index, name)? {
                    self.next = index + 1;
                    self.misses = 0;
                    return Ok(Some(found));
                }
            }
        }
        Ok(None)
    }

    // Returns the escape of the cached name at an index, if it is this name.
    fn at(&self, index: usize, name: &str) -> Result<Option<Text>, AllocError>
        ensures { IfOk result (λ found. IfSome found (λ s. s ≡ escape name.now)) }
    {
        match self.names.get(index) {
            Some(entry) => {
                if entry.name.as_str() == name {
                    Ok(Some(entry.escaped.clone()?))
                } else {
                    Ok(None)
                }
            }
            None => Ok(None),
        }
    }

    // Caches a name, if names are kept and there is room.
    fn keep(&mut self, name: &str, escaped: &Text) -> Result<(), AllocError>
        requires { escaped.now ≡ escape name.now }
    {
        if !self.keeps || self.names.len() == MAX_NAMES {
            return Ok(());
        }
        self.names.push(EscapedName {
            name: String::from_str(self.alloc, name)?,
            escaped: escaped.clone()?,
        })?;
        self.next = self.names.len();
        Ok(())
    }
}
