//! The functions of CEL-Go's sets library.
ghost use Rattle.std.specs.Prelude.{◌≡◌, IfOk, option_map};
ghost use Rattle.cel_value.specs.View.{view};
ghost use Rattle.cel_semantics.specs.Outcome.{outcome_view};
ghost use Rattle.kube_functions.specs.Sets as spec;

use cel_semantics::operators::{Answer, no_such_overload};
use cel_value::{Refused, Value};
use kube_functions_lists::sets;
use std::alloc::Global;

/// A function of the sets library.
#[derive(Clone, Copy)]
pub(crate) enum SetsFunction {
    Contains,
    Equivalent,
    Intersects,
}

impl SetsFunction {
    /// Returns the answer to a call of the function. The operands are the receiver, if
    /// there is one, followed by the arguments. `name` is the function's name in errors.
    ///
    /// # Errors
    /// [`Refused::Memory`] if memory is refused.
    pub(crate) fn answer(
        self,
        alloc: Global,
        name: &str,
        first: Option<&Value>,
        second: Option<&Value>,
    ) -> Result<Answer, Refused>
        ensures value { IfOk result (λ r. outcome_view r ≡ spec.answer self name.now
            (option_map (λ v. view v.now) first.entry) (option_map (λ v. view v.now) second.entry)) }
    {
        match (self, first, second) {
            (Self::Contains, Some(value), Some(other)) => sets::contains(alloc, value, other),
            (Self::Equivalent, Some(value), Some(other)) => sets::equivalent(alloc, value, other),
            (Self::Intersects, Some(value), Some(other)) => sets::intersects(alloc, value, other),
            (_, None, _) | (_, _, None) => Ok(Err(no_such_overload(alloc, name)?)),
        }
    }
}
