//! Answers that several functions return.
ghost use Rattle.std.specs.Prelude.{◌≡◌, IfOk, Ok, Err, string_bytes};
ghost use Rattle.std.specs.Str.{chars};
ghost use Rattle.cel_value.specs.Data as plain;
ghost use Rattle.cel_value.specs.Faults as fault;
ghost use Rattle.cel_semantics.specs.Outcome.{outcome_view};

use cel_semantics::operators::Answer;
use cel_value::{ExecutionError, Refused, Value};
use std::alloc::{AllocError, Global};

/// The characters of the text.
pub(crate) fn characters(alloc: Global, text: &str) -> Result<Vec<char>, AllocError>
    ensures { IfOk result (λ v. v.items ≡ chars text.now) }
{
    text.chars().collect(alloc)
}

/// A string as an answer.
pub(crate) fn text_answer(alloc: Global, text: String) -> Result<Answer, Refused>
    ensures value { IfOk result (λ r. outcome_view r ≡ Ok (plain.text (string_bytes text))) }
{
    Ok(Ok(Value::from_text(alloc, text)?))
}

/// The error of a function that rejects its arguments, with its message.
pub(crate) fn function_fault(
    alloc: Global,
    function: &str,
    message: String,
) -> Result<Answer, Refused>
    ensures value { IfOk result
        (λ r. outcome_view r ≡ Err (fault.function_error function.now (string_bytes message))) }
{
    Ok(Err(ExecutionError::FunctionError {
        function: String::from_str(alloc, function)?,
        message,
    }))
}
