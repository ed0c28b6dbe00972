//! A list of items, prepared for many look-ups.
ghost use Rattle.std.specs.Prelude.{◌≡◌, IfOk, map};
ghost use Rattle.std.specs.Option.{ForSome};
ghost use Rattle.cel_value.specs.View.{view};
ghost use Rattle.kube_functions_lists.specs.Hashed.{Knows, among};
ghost use Rattle.kube_functions_lists.specs.Sets as spec;

use crate::keyed::Known;
use crate::sets::is_in;
use cel_value::{Refused, Value};
use std::alloc::Global;

// With fewer look-ups, to learn what is known of the items costs more than it saves.
const MANY_LOOKUPS: usize = 16;

/// Items, with what is known of them if many values are to be looked up.
#[derive(Drop)]
pub(crate) struct Members<'a> {
    items: &'a [Value],
    known: Option<Known<'a>>,
    ghost knows: { ForSome known (λ k. Knows k (among items.now)) },
}

impl<'a> Members<'a> {
    /// Prepares the items for the given number of look-ups.
    ///
    /// # Errors
    /// [`Refused::Memory`] if memory is refused.
    pub(crate) fn of(
        alloc: Global,
        items: &'a [Value],
        lookups: usize,
    ) -> Result<Members<'a>, Refused>
        ensures items { IfOk result (λ m. m.items.now ≡ items.now) }
    {
        if lookups < MANY_LOOKUPS {
            return Ok(Members { items, known: None });
        }
        let known = Known::of(alloc, items)?;
        Ok(Members {
            items,
            known: Some(known),
        })
    }

    /// Reports whether the value is among the items.
    ///
    /// # Errors
    /// [`Refused::Memory`] if memory is refused.
    pub(crate) fn has(&self, value: &Value) -> Result<bool, Refused>
        ensures value { IfOk result (λ found. found
            ≡ spec.is_in (map view self.now.items.now) (view value.now)) }
    {
        match &self.known {
            Some(known) => known.has(self.items, value),
            None => Ok(is_in(self.items, value)),
        }
    }
}
