//! The functions of CEL-Go's math library.
ghost use Rattle.std.specs.Prelude.{◌≡◌, IfOk, map, option_map};
ghost use Rattle.cel_value.specs.View.{view};
ghost use Rattle.cel_semantics.specs.Outcome.{outcome_view};
ghost use Rattle.kube_functions.specs.Math as spec;

use cel_semantics::operators::{Answer, no_such_overload};
use cel_value::{Refused, Value};
use kube_functions_lists::{bits, math};
use std::alloc::Global;

/// A function of the math library.
#[derive(Clone, Copy)]
pub(crate) enum MathFunction {
    Abs,
    BitAnd,
    BitNot,
    BitOr,
    BitShiftLeft,
    BitShiftRight,
    BitXor,
    Greatest,
    Least,
    Sign,
}

impl MathFunction {
    /// Returns the answer to a call of the function. The operands are the
    /// receiver, if there is one, followed by the arguments. `name` is the
    /// function's name in errors. `args` are all arguments of the call.
    ///
    /// # Errors
    /// [`Refused::Memory`] if memory is refused.
    pub(crate) fn answer(
        self,
        alloc: Global,
        name: &str,
        first: Option<&Value>,
        second: Option<&Value>,
        args: &[Value],
    ) -> Result<Answer, Refused>
        ensures value { IfOk result (λ r. outcome_view r ≡ spec.answer self name.now
            (option_map (λ v. view v.now) first.entry) (option_map (λ v. view v.now) second.entry)
            (map view args.now)) }
    {
        match (self, first, second) {
            (Self::Abs, Some(value), _) => math::abs(alloc, value),
            (Self::BitAnd, Some(value), Some(other)) => bits::bit_and(alloc, value, other),
            (Self::BitNot, Some(value), _) => bits::bit_not(alloc, value),
            (Self::BitOr, Some(value), Some(other)) => bits::bit_or(alloc, value, other),
            (Self::BitShiftLeft, Some(value), Some(amount)) => bits::bit_shift_left(
                alloc, value, amount,
            ),
            (Self::BitShiftRight, Some(value), Some(amount)) => bits::bit_shift_right(
                alloc, value, amount,
            ),
            (Self::BitXor, Some(value), Some(other)) => bits::bit_xor(alloc, value, other),
            (Self::Greatest, _, _) => math::greatest(alloc, args),
            (Self::Least, _, _) => math::least(alloc, args),
            (Self::Sign, Some(value), _) => math::sign(alloc, value),
            (_, None, _) | (_, _, None) => Ok(Err(no_such_overload(alloc, name)?)),
        }
    }
}
