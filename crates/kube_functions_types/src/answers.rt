//! Answers that several functions return.
ghost use Rattle.std.specs.Prelude.{◌≡◌, IfOk, Ok, map, string_bytes};
ghost use Rattle.cel_value.specs.Data as plain;
ghost use Rattle.cel_value.specs.Faults as fault;
ghost use Rattle.cel_value.specs.View.{items_view};
ghost use Rattle.cel_semantics.specs.Outcome.{outcome_view};
ghost use Rattle.kube_functions_types.specs.Answers as spec;
ghost use Rattle.kube_functions_types.specs.Lists.{text_items};

use cel_semantics::Answer;
use cel_semantics::operators::no_such_overload;
use cel_value::{ExecutionError, Refused, Value};
use std::alloc::Global;

fn function_error(alloc: Global, function: &str, message: &str) -> Result<ExecutionError, Refused>
    ensures value { IfOk result (λ e. fault.fault_view e ≡ fault.function_error function.now message.now) }
{
    Ok(ExecutionError::FunctionError {
        function: String::from_str(alloc, function)?,
        message: String::from_str(alloc, message)?,
    })
}

/// The error of a function that rejects its arguments, with its message.
pub(crate) fn refusal(alloc: Global, function: &str, message: &str) -> Result<Answer, Refused>
    ensures value { IfOk result (λ r. outcome_view r ≡ spec.refusal function.now message.now) }
{
    Ok(Err(function_error(alloc, function, message)?))
}

/// The error of a function that doesn't take values of these kinds.
pub(crate) fn wrong_kind(alloc: Global, function: &str) -> Result<Answer, Refused>
    ensures value { IfOk result (λ r. outcome_view r ≡ spec.wrong_kind function.now) }
{
    Ok(Err(no_such_overload(alloc, function)?))
}

/// A string as an answer.
pub(crate) fn text_answer(alloc: Global, text: String) -> Result<Answer, Refused>
    ensures value { IfOk result (λ r. outcome_view r ≡ Ok (plain.text (string_bytes text))) }
{
    Ok(Ok(Value::from_text(alloc, text)?))
}

/// Converts strings to values.
pub(crate) fn text_values(alloc: Global, texts: Vec<String>) -> Result<Vec<Value>, Refused>
    ensures value { IfOk result (λ v. items_view v.items ≡ text_items (map string_bytes texts.items)) }
{
    let mut values = Vec::new(alloc);
    for text in texts {
        let value = Value::from_text(alloc, text)?;
        values.push(value)?;
    }
    Ok(values)
}
