//! Functions on quantities.
ghost use Rattle.std.specs.Prelude.{◌≡◌, pos, IfOk, option_map};
ghost use Rattle.cel_value.specs.Data as plain;
ghost use Rattle.cel_value.specs.View.{view};
ghost use Rattle.cel_semantics.specs.Outcome.{outcome_view};
ghost use Rattle.kube_types.specs.Quantity.Normal.{normal_form};
ghost use Rattle.kube_types.specs.Quantity.Shown.{number};
ghost use Rattle.kube_types.specs.Quantity.Sums.{decimal_at};
ghost use Rattle.kube_functions_types.specs.Answers.{refusal, value_or};
ghost use Rattle.kube_functions_types.specs.Quantity as spec;

use crate::answers::{refusal, wrong_kind};
use cel_semantics::Answer;
use cel_value::{Refused, Value};
use kube_types::{IntegerError, KubeQuantity};
use std::alloc::Global;
use std::rc::Rc;

// The quantity as an answer, or the named function's error if there is none.
fn quantity_or(
    alloc: Global,
    quantity: Option<KubeQuantity>,
    function: &str,
    message: &str,
) -> Result<Answer, Refused>
    ensures value { IfOk result (λ r. outcome_view r
        ≡ value_or (refusal function.now message.now) plain.quantity (option_map number quantity)) }
{
    match quantity {
        Some(quantity) => Ok(Ok(Value::Quantity(Rc::new(alloc, quantity)?))),
        None => refusal(alloc, function, message),
    }
}

/// `quantity`: parses a string as a quantity. A string that doesn't parse is an error.
///
/// # Errors
/// [`Refused::Memory`] if memory is refused.
pub fn quantity(alloc: Global, value: &Value) -> Result<Answer, Refused>
    ensures value { IfOk result (λ r. outcome_view r ≡ spec.quantity_of (view value.now)) }
{
    match value {
        Value::String(text) => {
            let read = KubeQuantity::read(text.as_str());
            quantity_or(alloc, read, "quantity", "invalid quantity")
        }
        _ => wrong_kind(alloc, "quantity"),
    }
}

/// `isQuantity`: reports whether a string parses as a quantity.
///
/// # Errors
/// [`Refused::Memory`] if memory is refused.
pub fn is_quantity(alloc: Global, value: &Value) -> Result<Answer, Refused>
    ensures value { IfOk result (λ r. outcome_view r ≡ spec.is_quantity (view value.now)) }
{
    match value {
        Value::String(text) => {
            let is_read = KubeQuantity::read(text.as_str()).is_some();
            Ok(Ok(Value::Bool(is_read)))
        }
        _ => wrong_kind(alloc, "isQuantity"),
    }
}

/// `isInteger`: reports whether `asInteger` returns an int.
///
/// # Errors
/// [`Refused::Memory`] if memory is refused.
pub fn is_integer(alloc: Global, value: &Value) -> Result<Answer, Refused>
    ensures value { IfOk result (λ r. outcome_view r ≡ spec.is_integer (view value.now)) }
{
    match value {
        Value::Quantity(quantity) => Ok(Ok(Value::Bool(quantity.as_ref().is_integer()))),
        _ => wrong_kind(alloc, "isInteger"),
    }
}

fn integer_or(alloc: Global, integer: Result<i64, IntegerError>) -> Result<Answer, Refused>
    ensures value { IfOk result (λ r. outcome_view r ≡ spec.int_or_why integer) }
{
    match integer {
        Ok(integer) => Ok(Ok(Value::Int(integer))),
        Err(error) => {
            let message = error.to_string(alloc)?;
            refusal(alloc, "asInteger", message.as_str())
        }
    }
}

/// `asInteger`: returns a quantity as an int. A quantity that
/// isn't an integer, or doesn't fit in an int, is an error.
///
/// # Errors
/// [`Refused::Memory`] if memory is refused.
pub fn as_integer(alloc: Global, value: &Value) -> Result<Answer, Refused>
    ensures value { IfOk result (λ r. outcome_view r ≡ spec.as_integer (view value.now)) }
{
    match value {
        Value::Quantity(quantity) => integer_or(alloc, quantity.as_ref().as_integer()),
        _ => wrong_kind(alloc, "asInteger"),
    }
}

/// `sign`: returns -1, 0 or 1 if a quantity is negative, zero or positive.
///
/// # Errors
/// [`Refused::Memory`] if memory is refused.
pub fn sign(alloc: Global, value: &Value) -> Result<Answer, Refused>
    ensures value { IfOk result (λ r. outcome_view r ≡ spec.sign_of (view value.now)) }
{
    match value {
        Value::Quantity(quantity) => Ok(Ok(Value::Int(quantity.as_ref().sign()))),
        _ => wrong_kind(alloc, "sign"),
    }
}

// The integer as a quantity.
fn whole(integer: i128) -> KubeQuantity
    ensures { number result ≡ normal_form (decimal_at integer (pos 0)) }
{
    KubeQuantity::from_integer(integer)
}

// The operand of a sum or difference as a quantity. None unless it is a quantity, an int or a uint.
fn amount(value: &Value) -> Option<KubeQuantity>
    ensures { option_map number result ≡ spec.amount_of (view value.now) }
{
    match value {
        Value::Quantity(quantity) => Some(*quantity.as_ref()),
        Value::Int(integer) => Some(whole(i128::from(*integer))),
        Value::UInt(integer) => Some(whole(i128::from(*integer))),
        _ => None,
    }
}

// Both operands of a sum or difference as quantities, or None if either is of the wrong kind.
fn amounts<'a>(value: &'a Value, other: &Value) -> Option<(&'a KubeQuantity, KubeQuantity)>
    ensures { option_map (λ p. (number p.0.now, number p.1)) result
        ≡ spec.amounts_of (view value.now) (view other.now) }
{
    match value.as_quantity() {
        Some(quantity) => match amount(other) {
            Some(amount) => Some((quantity, amount)),
            None => None,
        },
        None => None,
    }
}

/// `add`: returns the exact sum of a quantity and a
/// quantity, an int or a uint. A sum too large is an error.
///
/// # Errors
/// [`Refused::Memory`] if memory is refused.
pub fn add(alloc: Global, value: &Value, other: &Value) -> Result<Answer, Refused>
    ensures value { IfOk result (λ r. outcome_view r ≡ spec.quantity_sum (view value.now) (view other.now)) }
{
    match amounts(value, other) {
        Some((quantity, amount)) => {
            quantity_or(alloc, quantity.add(&amount), "add", "quantity overflow")
        }
        None => wrong_kind(alloc, "add"),
    }
}

/// `sub`: returns the exact difference of a quantity and a
/// quantity, an int or a uint. A difference too large is an error.
///
/// # Errors
/// [`Refused::Memory`] if memory is refused.
pub fn sub(alloc: Global, value: &Value, other: &Value) -> Result<Answer, Refused>
    ensures value { IfOk result (λ r. outcome_view r
        ≡ spec.quantity_difference (view value.now) (view other.now)) }
{
    match amounts(value, other) {
        Some((quantity, amount)) => {
            quantity_or(alloc, quantity.sub(&amount), "sub", "quantity overflow")
        }
        None => wrong_kind(alloc, "sub"),
    }
}
