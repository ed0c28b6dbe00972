//! `math.bitAnd` and the other functions on the bits of ints, in two's complement.
ghost use Rattle.std.specs.Prelude.{◌≡◌, IfOk};
ghost use Rattle.cel_value.specs.Faults as fault;
ghost use Rattle.cel_value.specs.View.{view};
ghost use Rattle.cel_semantics.specs.Outcome.{outcome_view};
ghost use Rattle.kube_functions_lists.specs.Bits as spec;

use crate::items::as_ints;
use cel_semantics::operators::{Answer, no_such_overload};
use cel_stdlib::faults::function_error;
use cel_value::{ExecutionError, Refused, Value};
use std::alloc::Global;

/// Returns the bitwise AND of two ints.
///
/// # Errors
/// [`Refused::Memory`] if memory is refused.
pub fn bit_and(alloc: Global, value: &Value, other: &Value) -> Result<Answer, Refused>
    ensures value { IfOk result (λ r. outcome_view r ≡ spec.bit_and (view value.now) (view other.now)) }
{
    match as_ints(value, other) {
        Some((m, n)) => Ok(Ok(Value::Int(m & n))),
        None => Ok(Err(no_such_overload(alloc, "math.bitAnd")?)),
    }
}

/// Returns the bitwise OR of two ints.
///
/// # Errors
/// [`Refused::Memory`] if memory is refused.
pub fn bit_or(alloc: Global, value: &Value, other: &Value) -> Result<Answer, Refused>
    ensures value { IfOk result (λ r. outcome_view r ≡ spec.bit_or (view value.now) (view other.now)) }
{
    match as_ints(value, other) {
        Some((m, n)) => Ok(Ok(Value::Int(m | n))),
        None => Ok(Err(no_such_overload(alloc, "math.bitOr")?)),
    }
}

/// Returns the bitwise exclusive OR of two ints.
///
/// # Errors
/// [`Refused::Memory`] if memory is refused.
pub fn bit_xor(alloc: Global, value: &Value, other: &Value) -> Result<Answer, Refused>
    ensures value { IfOk result (λ r. outcome_view r ≡ spec.bit_xor (view value.now) (view other.now)) }
{
    match as_ints(value, other) {
        Some((m, n)) => Ok(Ok(Value::Int(m ^ n))),
        None => Ok(Err(no_such_overload(alloc, "math.bitXor")?)),
    }
}

/// Returns the bitwise complement of an int.
///
/// # Errors
/// [`Refused::Memory`] if memory is refused.
pub fn bit_not(alloc: Global, value: &Value) -> Result<Answer, Refused>
    ensures value { IfOk result (λ r. outcome_view r ≡ spec.bit_not (view value.now)) }
{
    match value.as_int() {
        Some(n) => Ok(Ok(Value::Int(!n))),
        None => Ok(Err(no_such_overload(alloc, "math.bitNot")?)),
    }
}

fn shift_fault(alloc: Global, name: &str) -> Result<ExecutionError, Refused>
    ensures value { IfOk result (λ e. fault.fault_view e ≡ spec.shift_fault name.now) }
{
    function_error(alloc, name, "shift amount must be between 0 and 63")
}

// The number of places of a shift, or None unless it is from 0 to 63.
fn places(amount: i64) -> Option<u32>
    ensures { result ≡ spec.places_in amount }
{
    if amount < 0 || 63 < amount {
        None
    } else {
        Some(amount as u32)
    }
}

/// Shifts the bits of an int to the left. Bits that are shifted out are
/// lost. A shift by less than 0 or more than 63 places is an error.
///
/// # Errors
/// [`Refused::Memory`] if memory is refused.
pub fn bit_shift_left(alloc: Global, value: &Value, amount: &Value) -> Result<Answer, Refused>
    ensures value { IfOk result
        (λ r. outcome_view r ≡ spec.bit_shift_left (view value.now) (view amount.now)) }
{
    match as_ints(value, amount) {
        Some((n, amount)) => match places(amount) {
            Some(places) => Ok(Ok(Value::Int(n.wrapping_shl(places)))),
            None => Ok(Err(shift_fault(alloc, "math.bitShiftLeft")?)),
        },
        None => Ok(Err(no_such_overload(alloc, "math.bitShiftLeft")?)),
    }
}

/// Shifts the bits of an int to the right, filling with the sign
/// bit. A shift by less than 0 or more than 63 places is an error.
///
/// # Errors
/// [`Refused::Memory`] if memory is refused.
pub fn bit_shift_right(alloc: Global, value: &Value, amount: &Value) -> Result<Answer, Refused>
    ensures value { IfOk result
        (λ r. outcome_view r ≡ spec.bit_shift_right (view value.now) (view amount.now)) }
{
    match as_ints(value, amount) {
        Some((n, amount)) => match places(amount) {
            Some(places) => Ok(Ok(Value::Int(n.wrapping_shr(places)))),
            None => Ok(Err(shift_fault(alloc, "math.bitShiftRight")?)),
        },
        None => Ok(Err(no_such_overload(alloc, "math.bitShiftRight")?)),
    }
}
