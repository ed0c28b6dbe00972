//! Copies of errors.
ghost use Rattle.cel_value.specs.Faults.{fault_view};
ghost use Rattle.kube_cel_walk.specs.ErrorLists.{errors_in};
ghost use Rattle.kube_cel_walk.specs.Errors.{error_view};
ghost use Rattle.std.specs.Prelude.{◌≡◌, IfErr, IfOk, map, option_map, string_bytes};

use crate::error::{ValidationError, ValidationErrors};
use cel_value::ExecutionError;
use kube_types::Refused;
use std::alloc::AllocError;

impl ValidationError {
    /// Returns a copy with equal fields and an equal cause.
    ///
    /// # Errors
    ///
    /// [`Refused`] if memory is refused.
    pub fn try_clone(&self) -> Result<ValidationError, Refused>
        ensures same { IfOk result (λ e. error_view e ≡ error_view self.now) }
        ensures memory { IfErr result (λ e. e ≡ Refused.Memory) }
    {
        Ok(ValidationError {
            rule: self.rule.clone()?,
            message: self.message.clone()?,
            field_path: self.field_path.clone()?,
            reason: clone_text(&self.reason)?,
            kind: self.kind,
            cause: clone_cause(&self.cause)?,
        })
    }
}

impl ValidationErrors {
    /// Returns a copy with equal errors in the same order.
    ///
    /// # Errors
    ///
    /// [`Refused`] if memory is refused.
    pub fn try_clone(&self) -> Result<ValidationErrors, Refused>
        ensures same { IfOk result (λ e. map error_view (errors_in e) ≡ map error_view (errors_in self.now)) }
        ensures memory { IfErr result (λ e. e ≡ Refused.Memory) }
    {
        let errors = clone_errors(&self.errors)?;
        Ok(ValidationErrors { errors })
    }
}

/// Returns copies of the errors, in the same order.
fn clone_errors(errors: &Vec<ValidationError>) -> Result<Vec<ValidationError>, Refused>
    ensures same { IfOk result (λ v. map error_view v.items ≡ map error_view errors.now.items) }
    ensures memory { IfErr result (λ e. e ≡ Refused.Memory) }
{
    let mut cloned = Vec::with_capacity(*errors.allocator(), errors.len())?;
    for error in errors {
        cloned.push(error.try_clone()?)?;
    }
    Ok(cloned)
}

/// Returns a copy of the text, if there is one.
fn clone_text(text: &Option<String>) -> Result<Option<String>, AllocError>
    ensures { IfOk result (λ o. option_map string_bytes o ≡ option_map string_bytes text.now) }
{
    match text {
        Some(text) => Ok(Some(text.clone()?)),
        None => Ok(None),
    }
}

/// Returns a copy of the cause, if there is one.
fn clone_cause(cause: &Option<ExecutionError>) -> Result<Option<ExecutionError>, Refused>
    ensures same { IfOk result (λ o. option_map fault_view o ≡ option_map fault_view cause.now) }
    ensures memory { IfErr result (λ e. e ≡ Refused.Memory) }
{
    match cause {
        Some(cause) => Ok(Some(cause.try_clone()?)),
        None => Ok(None),
    }
}
