//! `math.abs`, `math.sign`, `math.greatest` and `math.least`.
ghost use Rattle.std.specs.Prelude.{◌≡◌, is_some, IfOk, map};
ghost use Rattle.std.specs.List.{list_all};
ghost use Rattle.cel_value.specs.Faults.{fault_view};
ghost use Rattle.cel_value.specs.Parts.{number_in};
ghost use Rattle.cel_value.specs.View.{view};
ghost use Rattle.cel_semantics.specs.Outcome.{outcome_view};
ghost use Rattle.cel_stdlib.specs.Extremes.{values_among};
ghost use Rattle.kube_functions_lists.specs.Math as spec;

use crate::items::items_of;
use cel_semantics::operators::{Answer, no_such_overload};
use cel_stdlib::extremes::{Extreme, extreme_of};
use cel_stdlib::faults::function_error;
use cel_value::{ExecutionError, Refused, Value};
use std::alloc::Global;

fn size_of_int(alloc: Global, n: i64) -> Result<Answer, Refused>
    ensures value { IfOk result (λ r. outcome_view r ≡ spec.size_of n) }
{
    match i64::try_from(n.unsigned_abs()) {
        Ok(size) => Ok(Ok(Value::Int(size))),
        Err(_) => Ok(Err(function_error(alloc, "math.abs", "integer overflow")?)),
    }
}

/// Returns the absolute value of a number. That of the least int is an overflow error.
///
/// # Errors
/// [`Refused::Memory`] if memory is refused.
pub fn abs(alloc: Global, value: &Value) -> Result<Answer, Refused>
    ensures value { IfOk result (λ r. outcome_view r ≡ spec.abs (view value.now)) }
{
    match value {
        Value::Int(n) => size_of_int(alloc, *n),
        Value::UInt(n) => Ok(Ok(Value::UInt(*n))),
        _ => Ok(Err(no_such_overload(alloc, "math.abs")?)),
    }
}

fn int_sign(n: i64) -> i64
    ensures { result ≡ spec.int_sign n }
{
    n.signum()
}

fn uint_sign(n: u64) -> u64
    ensures { result ≡ spec.uint_sign n }
{
    if n == 0 { 0 } else { 1 }
}

/// Returns the sign of a number as -1, 0 or 1, of the number's own type.
///
/// # Errors
/// [`Refused::Memory`] if memory is refused.
pub fn sign(alloc: Global, value: &Value) -> Result<Answer, Refused>
    ensures value { IfOk result (λ r. outcome_view r ≡ spec.sign (view value.now)) }
{
    match value {
        Value::Int(n) => Ok(Ok(Value::Int(int_sign(*n)))),
        Value::UInt(n) => Ok(Ok(Value::UInt(uint_sign(*n)))),
        _ => Ok(Err(no_such_overload(alloc, "math.sign")?)),
    }
}

fn none_given(alloc: Global, end: Extreme) -> Result<ExecutionError, Refused>
    ensures value { IfOk result (λ e. fault_view e ≡ spec.none_given end) }
{
    match end {
        Extreme::Least => function_error(alloc, "math.least", "at least one argument required"),
        Extreme::Greatest => {
            function_error(alloc, "math.greatest", "at least one argument required")
        }
    }
}

fn not_numeric(alloc: Global) -> Result<ExecutionError, Refused>
    ensures value { IfOk result (λ e. fault_view e ≡ spec.not_numeric) }
{
    function_error(alloc, "math.greatest/least", "expected numeric argument")
}

fn are_numbers(values: &[Value]) -> bool
    ensures { result ≡ list_all (λ v. is_some (number_in v)) (map view values.now) }
{
    for value in values {
        if value.as_number().is_none() {
            return false;
        }
    }
    true
}

fn extreme_number(alloc: Global, end: Extreme, values: &[Value]) -> Result<Answer, Refused>
    ensures value { IfOk result (λ r. outcome_view r ≡ spec.extreme_number end (map view values.now)) }
{
    match values {
        [] => Ok(Err(none_given(alloc, end)?)),
        [value] => Ok(Ok(value.try_clone()?)),
        _ => {
            if are_numbers(values) {
                extreme_of(alloc, end, values)
            } else {
                Ok(Err(not_numeric(alloc)?))
            }
        }
    }
}

// The numbers to compare: the items of a single list, or else the arguments.
fn values_among(args: &[Value]) -> &[Value]
    ensures { map view result.now ≡ values_among (map view args.now) }
{
    match args {
        [value] => match items_of(value) {
            Some(items) => items,
            None => args,
        },
        _ => args,
    }
}

/// Returns the first of the greatest among the arguments, or among the items of a single list. It
/// is an error if there are none, or if one of several isn't a number.
///
/// # Errors
/// [`Refused::Memory`] if memory is refused.
pub fn greatest(alloc: Global, args: &[Value]) -> Result<Answer, Refused>
    ensures value { IfOk result (λ r. outcome_view r ≡ spec.greatest (map view args.now)) }
{
    extreme_number(alloc, Extreme::Greatest, values_among(args))
}

/// Returns the first of the least among the arguments, or among the items of a single list. It is
/// an error if there are none, or if one of several isn't a number.
///
/// # Errors
/// [`Refused::Memory`] if memory is refused.
pub fn least(alloc: Global, args: &[Value]) -> Result<Answer, Refused>
    ensures value { IfOk result (λ r. outcome_view r ≡ spec.least (map view args.now)) }
{
    extreme_number(alloc, Extreme::Least, values_among(args))
}
