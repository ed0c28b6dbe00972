//! The functions of Kubernetes' semver library, without those that quantities
//! also have: `quantity.rt` has `compareTo`, `isGreaterThan` and `isLessThan`.
ghost use Rattle.std.specs.Prelude.{◌≡◌, IfOk, option_map};
ghost use Rattle.cel_value.specs.View.{view};
ghost use Rattle.cel_semantics.specs.Outcome.{outcome_view};
ghost use Rattle.kube_functions.specs.Semver as spec;

use cel_semantics::operators::{Answer, no_such_overload};
use cel_value::{Refused, Value};
use kube_functions_types::semver_functions;
use std::alloc::Global;

/// A function of the semver library that quantities don't have.
#[derive(Clone, Copy)]
pub(crate) enum SemverFunction {
    Semver,
    IsSemver,
    Major,
    Minor,
    Patch,
}

impl SemverFunction {
    /// Returns the answer to a call of the function. The operands are the receiver, if
    /// there is one, followed by the arguments. `name` is the function's name in errors.
    ///
    /// # Errors
    /// [`Refused::Memory`] if memory is refused.
    pub(crate) fn answer(
        self,
        alloc: Global,
        name: &str,
        first: Option<&Value>,
        second: Option<&Value>,
    ) -> Result<Answer, Refused>
        ensures value { IfOk result (λ r. outcome_view r ≡ spec.answer self name.now
            (option_map (λ v. view v.now) first.entry) (option_map (λ v. view v.now) second.entry)) }
    {
        match (self, first) {
            (Self::Semver, Some(value)) => semver_functions::semver(alloc, value, second),
            (Self::IsSemver, Some(value)) => semver_functions::is_semver(alloc, value, second),
            (Self::Major, Some(value)) => semver_functions::major(alloc, value),
            (Self::Minor, Some(value)) => semver_functions::minor(alloc, value),
            (Self::Patch, Some(value)) => semver_functions::patch(alloc, value),
            (_, None) => Ok(Err(no_such_overload(alloc, name)?)),
        }
    }
}
