//! `sum`: the sum of a list.
ghost use Rattle.std.specs.Prelude.{◌≡◌, ◌+◌, ◌+ℤ◌, IfOk, map};
ghost use Rattle.cel_value.specs.Faults.{fault_view};
ghost use Rattle.cel_value.specs.View.{view};
ghost use Rattle.cel_semantics.specs.Arithmetic.{int_or_overflow, uint_or_overflow};
ghost use Rattle.cel_semantics.specs.Outcome.{outcome_view};
ghost use Rattle.kube_functions_lists.specs.Sums as spec;

use crate::items::items_of;
use cel_semantics::operators::{Answer, no_such_overload};
use cel_stdlib::faults::function_error;
use cel_value::{ExecutionError, Refused, Value};
use std::alloc::Global;

fn no_sum(alloc: Global) -> Result<ExecutionError, Refused>
    ensures value { IfOk result (λ e. fault_view e ≡ spec.no_sum) }
{
    function_error(alloc, "sum", "cannot sum values of this type")
}

fn add_ints(m: i64, n: i64) -> Answer
    ensures { outcome_view result ≡ int_or_overflow (m +ℤ n) }
{
    match m.checked_add(n) {
        Some(sum) => Ok(Value::Int(sum)),
        None => Err(ExecutionError::Overflow),
    }
}

fn add_uints(m: u64, n: u64) -> Answer
    ensures { outcome_view result ≡ uint_or_overflow (m + n) }
{
    match m.checked_add(n) {
        Some(sum) => Ok(Value::UInt(sum)),
        None => Err(ExecutionError::Overflow),
    }
}

fn sum_of_two(alloc: Global, sum: &Value, value: &Value) -> Result<Answer, Refused>
    ensures value { IfOk result (λ r. outcome_view r ≡ spec.sum_of_two (view sum.now) (view value.now)) }
{
    match sum {
        Value::Int(m) => match value.as_int() {
            Some(n) => Ok(add_ints(*m, n)),
            None => Ok(Err(no_sum(alloc)?)),
        },
        Value::UInt(m) => match value.as_uint() {
            Some(n) => Ok(add_uints(*m, n)),
            None => Ok(Err(no_sum(alloc)?)),
        },
        _ => Ok(Err(no_sum(alloc)?)),
    }
}

fn sum_from(alloc: Global, first: &Value, rest: &[Value]) -> Result<Answer, Refused>
    ensures value { IfOk result (λ r. outcome_view r ≡ spec.sum_from (view first.now) (map view rest.now)) }
{
    let mut sum = first.try_clone()?;
    for value in rest {
        match sum_of_two(alloc, &sum, value)? {
            Ok(next) => sum = next,
            Err(fault) => return Ok(Err(fault)),
        }
    }
    Ok(Ok(sum))
}

fn sum_of(alloc: Global, items: &[Value]) -> Result<Answer, Refused>
    ensures value { IfOk result (λ r. outcome_view r ≡ spec.sum_of_items (map view items.now)) }
{
    match items {
        [] => Ok(Ok(Value::Int(0))),
        [first, rest @ ..] => sum_from(alloc, first, rest),
    }
}

/// Returns the sum of a list of ints or of uints. The sum of an empty list is the int 0, and that
/// of a single item is the item itself. Other kinds, mixed kinds and an overflow are errors.
///
/// # Errors
/// [`Refused::Memory`] if memory is refused.
pub fn sum(alloc: Global, value: &Value) -> Result<Answer, Refused>
    ensures value { IfOk result (λ r. outcome_view r ≡ spec.sum (view value.now)) }
{
    match items_of(value) {
        Some(items) => sum_of(alloc, items),
        None => Ok(Err(no_such_overload(alloc, "sum")?)),
    }
}
