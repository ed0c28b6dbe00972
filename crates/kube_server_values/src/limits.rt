//! The errors of what no document answers.
ghost use Rattle.std.specs.Prelude.{◌≡◌, IfOk, Err};
ghost use Rattle.cel_value.specs.Faults.{undeclared};
ghost use Rattle.cel_semantics.specs.Outcome.{outcome_view};

use cel_semantics::operators::Answer;
use cel_value::{ExecutionError, Refused};
use std::alloc::Global;

/// The error of what isn't answered, by its name.
pub(crate) fn limit(alloc: Global, name: &str) -> Result<Answer, Refused>
    ensures value { IfOk result (λ r. outcome_view r ≡ Err (undeclared name.now)) }
{
    Ok(Err(ExecutionError::UndeclaredReference(String::from_str(alloc, name)?)))
}
