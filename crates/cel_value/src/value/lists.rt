//! Lists.
ghost use Rattle.std.specs.Prelude.{◌≡◌, ◌==◌, IfOk, IfErr, length, option_map, slice_get};
ghost use Rattle.std.specs.Slice.Iter.{iter_rest};
ghost use Rattle.cel_value.specs.Find.{list_of_items};
ghost use Rattle.cel_value.specs.Same.{items_have_double};
ghost use Rattle.cel_value.specs.View.{view, items_view};

use super::{List, Value, level_around};
use kube_types::Refused;
use std::slice::Iter;

/// The item at an index, if any.
#[tactic(auto, using(crate::proofs::Members::listed_get))]
fn nth(items: &[Value], index: usize) -> Option<&Value>
    ensures { option_map (λ v. view v.now) result ≡ slice_get (list_of_items (items_view items.now)) index }
{
    if index < items.len() {
        Some(&items[index])
    } else {
        None
    }
}

impl List {
    /// Returns the list of these items.
    ///
    /// # Errors
    /// [`Refused::Memory`] if it would have more levels than
    /// [`MAX_VALUE_LEVELS`](super::MAX_VALUE_LEVELS).
    pub fn of(items: Vec<Value>) -> Result<List, Refused>
        ensures value { IfOk result (λ l. l ≡ items_view items.items) }
        ensures memory { IfErr result (λ e. e ≡ Refused.Memory) }
    {
        let mut doubles = false;
        let mut inner = 0;
        for item in &items {
            if item.holds_double() {
                doubles = true;
            }
            if inner < item.levels() {
                inner = item.levels();
            }
        }
        let levels = level_around(inner)?;
        Ok(List {
            items,
            doubles,
            levels,
        })
    }

    /// The items, in order.
    pub fn as_slice(&self) -> &[Value]
        ensures { items_view result.now ≡ self.now }
    {
        self.items.as_slice()
    }

    /// Iterates over the items in order.
    pub fn iter(&self) -> Iter<'_, Value>
        ensures { items_view (iter_rest result) ≡ self.now }
    {
        self.items.as_slice().iter()
    }

    /// The number of items.
    #[tactic(auto, using(crate::proofs::Members::listed_length))]
    pub fn len(&self) -> usize
        ensures { result ≡ length (list_of_items self.now) }
    {
        self.items.len()
    }

    /// Reports whether there are no items.
    #[tactic(auto, using(crate::proofs::Members::listed_length))]
    pub fn is_empty(&self) -> bool
        ensures { result ≡ (length (list_of_items self.now) == 0) }
    {
        self.items.len() == 0
    }

    /// The item at an index, if any.
    pub fn get(&self, index: usize) -> Option<&Value>
        ensures { option_map (λ v. view v.now) result ≡ slice_get (list_of_items self.now) index }
    {
        nth(self.items.as_slice(), index)
    }

    /// Reports whether the list contains a double, at any depth.
    pub fn holds_double(&self) -> bool
        ensures { result ≡ items_have_double self.now }
    {
        self.doubles
    }
}
