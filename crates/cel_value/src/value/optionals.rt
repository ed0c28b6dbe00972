//! Optionals.
ghost use Rattle.std.specs.Prelude.{◌≡◌, IfOk, IfErr, option_map};
ghost use Rattle.cel_value.specs.Data.{item, no_items};
ghost use Rattle.cel_value.specs.Find.{first_item, option_items};
ghost use Rattle.cel_value.specs.View.{view};

use super::{Held, OptionalValue, Value, level_around};
use kube_types::Refused;
use std::alloc::Global;
use std::rc::Rc;

impl OptionalValue {
    /// Returns an optional that holds the value.
    ///
    /// # Errors
    /// [`Refused::Memory`] if memory is refused, or if the optional would have more levels than
    /// [`MAX_VALUE_LEVELS`](super::MAX_VALUE_LEVELS).
    pub fn of(alloc: Global, value: Value) -> Result<OptionalValue, Refused>
        ensures value { IfOk result (λ o. o ≡ item (view value) no_items) }
        ensures memory { IfErr result (λ e. e ≡ Refused.Memory) }
    {
        let doubles = value.holds_double();
        let levels = level_around(value.levels())?;
        let held = Held {
            value,
            doubles,
            levels,
        };
        Ok(OptionalValue {
            held: Some(Rc::new(alloc, held)?),
        })
    }

    /// Returns an optional without a value.
    pub fn none() -> OptionalValue
        ensures { result ≡ no_items }
    {
        OptionalValue { held: None }
    }

    /// The value that it holds, if any.
    pub fn value(&self) -> Option<&Value>
        ensures first { option_map (λ v. view v.now) result ≡ first_item self.now }
        ensures whole { option_items (option_map (λ v. view v.now) result) ≡ self.now }
    {
        match &self.held {
            Some(held) => Some(&held.value),
            None => None,
        }
    }

    /// Returns a copy of the optional. Its value is shared.
    pub fn try_clone(&self) -> Result<OptionalValue, Refused>
        ensures value { IfOk result (λ o. o ≡ self.now) }
        ensures memory { IfErr result (λ e. e ≡ Refused.Memory) }
    {
        match &self.held {
            None => Ok(OptionalValue { held: None }),
            Some(held) => Ok(OptionalValue {
                held: Some(held.clone()?),
            }),
        }
    }
}
