//! The error by which a function rejects its arguments.
ghost use Rattle.std.specs.Prelude.{◌≡◌, IfOk};
ghost use Rattle.cel_value.specs.Faults as fault;

use cel_value::{ExecutionError, Refused};
use std::alloc::Global;

/// Returns the error of a function that rejects its arguments, with this message.
///
/// # Errors
/// Only [`Refused::Memory`], if memory is refused.
pub fn function_error(
    alloc: Global,
    function: &str,
    message: &str,
) -> Result<ExecutionError, Refused>
    ensures value { IfOk result (λ e. fault.fault_view e ≡ fault.function_error function.now message.now) }
{
    Ok(ExecutionError::FunctionError {
        function: String::from_str(alloc, function)?,
        message: String::from_str(alloc, message)?,
    })
}
