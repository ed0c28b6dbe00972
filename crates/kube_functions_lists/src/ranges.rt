//! `lists.range`: the ints from 0 up to a count.
ghost use Rattle.std.specs.Prelude.{◌≡◌, ◌^◌, ◌<◌, pos, IfOk, map};
ghost use Rattle.cel_value.specs.Data.{int};
ghost use Rattle.cel_value.specs.View.{view};
ghost use Rattle.cel_semantics.specs.Outcome.{outcome_view};
ghost use Rattle.kube_functions_lists.specs.Lists as spec;

use crate::items::{list_of, push_item};
use cel_semantics::operators::{Answer, no_such_overload};
use cel_stdlib::faults::function_error;
use cel_value::{Refused, Value};
use std::alloc::Global;

fn int_value(number: u64) -> Value
    requires { number < 2 ^ 63 }
    ensures { view result ≡ int (pos number) }
{
    Value::Int(number as i64)
}

// Reserves the room for all ints first, so that a count beyond all memory is refused at once.
fn first_ints(alloc: Global, count: u64) -> Result<Vec<Value>, Refused>
    requires { count < 2 ^ 63 }
    ensures value { IfOk result (λ v. map view v.items ≡ spec.first_ints count) }
{
    let mut ints = Vec::with_capacity(alloc, count as usize)?;
    for number in 0..count {
        push_item(&mut ints, int_value(number))?;
    }
    Ok(ints)
}

fn range_below(alloc: Global, count: i64) -> Result<Answer, Refused>
    ensures value { IfOk result (λ r. outcome_view r ≡ spec.range_below count) }
{
    if count < 0 {
        Ok(Err(function_error(alloc, "lists.range", "range argument must be non-negative")?))
    } else {
        list_of(alloc, first_ints(alloc, count as u64)?)
    }
}

/// Returns the list of the ints from 0 up to a count,
/// without the count itself. A negative count is an error.
///
/// # Errors
/// [`Refused::Memory`] if memory is refused.
pub fn range(alloc: Global, value: &Value) -> Result<Answer, Refused>
    ensures value { IfOk result (λ r. outcome_view r ≡ spec.range (view value.now)) }
{
    match value.as_int() {
        Some(count) => range_below(alloc, count),
        None => Ok(Err(no_such_overload(alloc, "lists.range")?)),
    }
}
