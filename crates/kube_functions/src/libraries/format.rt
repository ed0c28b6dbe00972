//! The functions of Kubernetes' format library, on named formats.
ghost use Rattle.std.specs.Prelude.{◌≡◌, IfOk, option_map};
ghost use Rattle.cel_value.specs.View.{view};
ghost use Rattle.cel_semantics.specs.Outcome.{outcome_view};
ghost use Rattle.kube_functions.specs.Format as spec;

use cel_semantics::operators::{Answer, no_such_overload};
use cel_value::{Refused, Value};
use kube_functions_types::named_format;
use kube_types::FormatKind;
use std::alloc::Global;

/// A function of the format library.
#[derive(Clone, Copy)]
pub(crate) enum FormatFunction {
    /// The function that returns a named format, such as `format.uri`.
    Kind(FormatKind),
    Named,
    Validate,
}

impl FormatFunction {
    /// Returns the answer to a call of the function. The operands are the receiver, if
    /// there is one, followed by the arguments. `name` is the function's name in errors.
    ///
    /// # Errors
    /// [`Refused::Memory`] if memory is refused.
    pub(crate) fn answer(
        self,
        alloc: Global,
        name: &str,
        first: Option<&Value>,
        second: Option<&Value>,
    ) -> Result<Answer, Refused>
        ensures value { IfOk result (λ r. outcome_view r ≡ spec.answer self name.now
            (option_map (λ v. view v.now) first.entry) (option_map (λ v. view v.now) second.entry)) }
    {
        match (self, first, second) {
            (Self::Kind(kind), _, _) => Ok(named_format::format(kind)),
            (Self::Named, Some(value), _) => named_format::named(alloc, value),
            (Self::Validate, Some(value), Some(text)) => named_format::validate(alloc, value, text),
            (_, None, _) | (_, _, None) => Ok(Err(no_such_overload(alloc, name)?)),
        }
    }
}
