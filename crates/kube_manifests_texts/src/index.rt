//! Positions in a list, each found by two texts.

ghost use Rattle.kube_manifests_texts.specs.Positions.{position_at};
ghost use Rattle.std.specs.BTreeMap.{get_by_text};
ghost use Rattle.std.specs.Option.{option_or};
ghost use Rattle.std.specs.Prelude.{◌≡◌, ◌&&◌, ℕ, IfOk, List, None, OnOk, Some, if◌then◌else◌};
ghost use Rattle.std.specs.Str.{bytes_eq};

use std::alloc::{AllocError, Global};
use std::collections::BTreeMap;

/// A position in a list for each of some pairs of texts.
#[derive(Drop)]
pub struct Index {
    rows: BTreeMap<String, BTreeMap<String, usize>>,
}

/// Returns a map with one entry.
fn row_of(alloc: Global, text: &str, position: usize) -> Result<BTreeMap<String, usize>, AllocError>
    ensures { IfOk result (λ m. (t : List ℕ)
        → get_by_text m t ≡ (if bytes_eq text.now t then Some position else None)) }
{
    let mut row = BTreeMap::new(alloc);
    row.insert(String::from_str(alloc, text)?, position)?;
    Ok(row)
}

impl Index {
    /// Returns an index without positions.
    pub fn new(alloc: Global) -> Index
        ensures { (first second : List ℕ) → position_at result first second ≡ None }
    {
        Index {
            rows: BTreeMap::new(alloc),
        }
    }

    /// The position for two texts, if there is one.
    pub fn get(&self, first: &str, second: &str) -> Option<usize>
        ensures { result ≡ position_at self.now first.now second.now }
    {
        self.rows.get(first)?.get(second).copied()
    }

    /// Makes a position the one for two texts.
    fn insert(
        &mut self,
        alloc: Global,
        first: &str,
        second: &str,
        position: usize,
    ) -> Result<(), AllocError>
        ensures { OnOk result ((k t : List ℕ) → position_at self.new k t
            ≡ (if bytes_eq first.now k && bytes_eq second.now t then Some position
            else position_at self.old k t)) }
    {
        match self.rows.get_mut(first) {
            Some(row) => {
                row.insert(String::from_str(alloc, second)?, position)?;
            }
            None => {
                let row = row_of(alloc, second, position)?;
                self.rows.insert(String::from_str(alloc, first)?, row)?;
            }
        }
        Ok(())
    }

    /// Makes a position the one for two texts, unless there is one.
    ///
    /// # Errors
    ///
    /// `AllocError` if memory is refused.
    pub fn insert_first(
        &mut self,
        alloc: Global,
        first: &str,
        second: &str,
        position: usize,
    ) -> Result<(), AllocError>
        ensures { OnOk result ((k t : List ℕ) → position_at self.new k t
            ≡ option_or (position_at self.old k t)
            (if bytes_eq first.now k && bytes_eq second.now t then Some position else None)) }
    {
        if self.get(first, second).is_some() {
            return Ok(());
        }
        self.insert(alloc, first, second, position)
    }
}
