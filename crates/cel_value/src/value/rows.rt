//! Maps of the same keys, whose values lie side by side, as those of the rows of a table. Such maps
//! are made together, in two blocks of memory for all of them.
ghost use Rattle.std.specs.Prelude.{◌≡◌, ◌≤◌, ◌*◌, ◌∷◌, ◌++◌, [], suc, length, map, zip, IfOk, IfErr, OnOk, OnErr, option_copied, if◌then◌else◌};
ghost use Rattle.std.specs.BTreeMap.{is_at};
ghost use Rattle.std.specs.List.Sorted.{IsStrictlySortedBy};
ghost use Rattle.std.specs.Map.{keys_of, lookup};
ghost use Rattle.cel_value.specs.Find.{list_of_entries};
ghost use Rattle.cel_value.specs.Keys.{key_cmp};
ghost use Rattle.cel_value.specs.Levels.{entries_levels};
ghost use Rattle.cel_value.specs.Rows.{is_flat as flat, row_entries, row_maps, row_values};
ghost use Rattle.cel_value.specs.Same.{entries_have_double};
ghost use Rattle.cel_value.specs.View.{view, entries_view};

use super::shared::{SharedIter, value_at};
use super::{Map, MapBlock, MapKeys, MapRows, Value};
use crate::key::Key;
use kube_types::Refused;
use std::alloc::Global;
use std::rc::Rc;

// Reports whether a value is neither a double nor made of other values.
#[inline(always)]
pub(super) fn is_flat(value: &Value) -> bool
    ensures { result ≡ flat (view value.now) }
{
    match value {
        Value::Float => false,
        Value::List(_) => false,
        Value::Map(_) => false,
        Value::Optional(_) => false,
        _ => true,
    }
}

// The values of a row of so many columns.
#[inline(always)]
fn row_of(values: &[Value], width: usize, row: usize) -> &[Value]
    requires { suc row * width ≤ length values.now }
    ensures { result.now ≡ row_values width row values.now }
{
    let first = row * width;
    &values[first..first + width]
}

impl MapRows {
    /// Returns no rows, with room for the values of as many.
    ///
    /// # Errors
    /// [`Refused::Memory`] if memory is refused.
    pub fn with_capacity(alloc: Global, keys: &MapKeys, rows: usize) -> Result<MapRows, Refused>
        ensures none { IfOk result (λ r. (r.keys ≡ keys.now) × (r.values ≡ [])) }
        ensures sorted { IfOk result (λ r. IsStrictlySortedBy key_cmp r.keys) }
        ensures memory { IfErr result (λ e. e ≡ Refused.Memory) }
    {
        let keys = keys.keys.clone()?;
        let count = keys.as_slice().len().saturating_mul(rows);
        Ok(MapRows {
            keys,
            values: Vec::with_capacity(alloc, count)?,
        })
    }

    /// Adds a value behind the others. Returns false, and adds nothing, if it is a double, a list, a
    /// map or an optional.
    ///
    /// # Errors
    /// [`Refused::Memory`] if memory is refused. Nothing is added then.
    #[inline(always)]
    pub fn push(&mut self, value: Value) -> Result<bool, Refused>
        ensures keys { self.new.keys ≡ self.old.keys }
        ensures values { IfOk result (λ added. (added ≡ flat (view value))
            × (self.new.values ≡ (if added then self.old.values ++ value ∷ [] else self.old.values))) }
        ensures unchanged { OnErr result (self.new.values ≡ self.old.values) }
        ensures memory { IfErr result (λ e. e ≡ Refused.Memory) }
    {
        if !is_flat(&value) {
            drop(value);
            return Ok(false);
        }
        self.values.push(value)?;
        Ok(true)
    }

    /// Adds the maps of the first rows to some values.
    ///
    /// # Errors
    /// [`Refused::Memory`] if memory is refused.
    pub fn add_maps(self, alloc: Global, rows: usize, maps: &mut Vec<Value>) -> Result<(), Refused>
        requires { rows * length self.keys ≤ length self.values }
        ensures maps { OnOk result (map view maps.new.items
            ≡ map view maps.old.items ++ row_maps self.keys self.values rows) }
        ensures memory { IfErr result (λ e. e ≡ Refused.Memory) }
    {
        let block = Rc::new(alloc, MapBlock::Rows(self))?;
        for row in 0..rows {
            let block = block.clone()?;
            maps.push(Value::Map(Map { block, row }))?;
        }
        Ok(())
    }

    // What gives the rows memory.
    pub(super) fn allocator(&self) -> Global {
        *self.values.allocator()
    }

    // The value at a key of a row, if any.
    #[inline]
    pub(super) fn get(&self, row: usize, key: &Key) -> Option<&Value>
        requires { suc row * length self.now.keys ≤ length self.now.values }
        ensures { option_copied result ≡ lookup (is_at (key_cmp key.now)) (row_entries self.now row) }
    {
        let keys = self.keys.as_slice();
        value_at(keys, row_of(self.values.as_slice(), keys.len(), row), key)
    }

    // The number of entries of a row, which is the same for each.
    #[inline]
    pub(super) fn width(&self, row: usize) -> usize
        requires { suc row * length self.now.keys ≤ length self.now.values }
        ensures { result ≡ length (list_of_entries (entries_view (row_entries self.now row))) }
    {
        let width = self.keys.as_slice().len();
        let _row = row;
        width
    }

    // Whether a row contains a double. None does, by the invariant, which a proof has of a value
    // that the code reads.
    #[inline(always)]
    pub(super) fn holds_double(&self, row: usize) -> bool
        ensures { result ≡ entries_have_double (entries_view (row_entries self.now row)) }
    {
        let _width = self.keys.as_slice().len();
        false
    }

    // The most levels of a value of a row. None has any, by the invariant, as above.
    #[inline(always)]
    pub(super) fn levels(&self, row: usize) -> u16
        ensures value { result ≡ entries_levels (entries_view (row_entries self.now row)) }
        ensures none { result ≡ 0 }
    {
        let _width = self.keys.as_slice().len();
        0
    }

    // Iterates over the entries of a row, in key order.
    #[inline]
    pub(super) fn iter(&self, row: usize) -> SharedIter<'_>
        requires { suc row * length self.now.keys ≤ length self.now.values }
        ensures rest { result ≡ row_entries self.now row }
        ensures ordered { IsStrictlySortedBy key_cmp (keys_of (row_entries self.now row)) }
    {
        let keys = self.keys.as_slice();
        SharedIter::over(keys, row_of(self.values.as_slice(), keys.len(), row))
    }
}
