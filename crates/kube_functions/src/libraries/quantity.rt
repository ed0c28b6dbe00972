//! The functions of Kubernetes' quantity library. `compareTo`,
//! `isGreaterThan` and `isLessThan` also compare versions.
ghost use Rattle.std.specs.Prelude.{◌≡◌, IfOk, option_map};
ghost use Rattle.cel_value.specs.View.{view};
ghost use Rattle.cel_semantics.specs.Outcome.{outcome_view};
ghost use Rattle.kube_functions.specs.Quantity as spec;

use cel_semantics::operators::{Answer, no_such_overload};
use cel_value::{Refused, Value};
use kube_functions_types::{order, quantity};
use std::alloc::Global;

/// A function of the quantity library.
#[derive(Clone, Copy)]
pub(crate) enum QuantityFunction {
    Quantity,
    IsQuantity,
    Add,
    AsInteger,
    CompareTo,
    IsGreaterThan,
    IsInteger,
    IsLessThan,
    Sign,
    Sub,
}

impl QuantityFunction {
    /// Returns the answer to a call of the function. The operands are the receiver, if
    /// there is one, followed by the arguments. `name` is the function's name in errors.
    ///
    /// # Errors
    /// [`Refused::Memory`] if memory is refused.
    pub(crate) fn answer(
        self,
        alloc: Global,
        name: &str,
        first: Option<&Value>,
        second: Option<&Value>,
    ) -> Result<Answer, Refused>
        ensures value { IfOk result (λ r. outcome_view r ≡ spec.answer self name.now
            (option_map (λ v. view v.now) first.entry) (option_map (λ v. view v.now) second.entry)) }
    {
        match (self, first, second) {
            (Self::Quantity, Some(value), _) => quantity::quantity(alloc, value),
            (Self::IsQuantity, Some(value), _) => quantity::is_quantity(alloc, value),
            (Self::Add, Some(value), Some(other)) => quantity::add(alloc, value, other),
            (Self::AsInteger, Some(value), _) => quantity::as_integer(alloc, value),
            (Self::CompareTo, Some(value), Some(other)) => order::compare_to(alloc, value, other),
            (Self::IsGreaterThan, Some(value), Some(other)) => order::is_greater_than(
                alloc, value, other,
            ),
            (Self::IsInteger, Some(value), _) => quantity::is_integer(alloc, value),
            (Self::IsLessThan, Some(value), Some(other)) => order::is_less_than(
                alloc, value, other,
            ),
            (Self::Sign, Some(value), _) => quantity::sign(alloc, value),
            (Self::Sub, Some(value), Some(other)) => quantity::sub(alloc, value, other),
            (_, None, _) | (_, _, None) => Ok(Err(no_such_overload(alloc, name)?)),
        }
    }
}
