//! Sums, differences, products, quotients and remainders of values without doubles.
ghost use Rattle.std.specs.Prelude.{◌≡◌, ◌+◌, ◌*◌, ◌++◌, ◌+ℤ◌, ◌-ℤ◌, ◌*ℤ◌, neg_ℤ, IfOk, Ok, map};
ghost use Rattle.cel_value.specs.Data.{int, uint, text, bytes, list};
ghost use Rattle.cel_value.specs.View.{view};
ghost use Rattle.cel_semantics.specs.Arithmetic.{or_overflow, int_or_overflow, uint_or_overflow, opposite, items_joined, sum_of, difference_of, product_of, quotient_of, remainder_of};
ghost use Rattle.cel_semantics.specs.Outcome.{outcome_view};

use crate::operators::{Answer, no_such_overload};
use crate::ranges::push_copies;
use crate::times::{
    add_to_duration, add_to_timestamp, subtract_from_duration, subtract_from_timestamp,
};
use cel_value::{ExecutionError, List, Refused, Value};
use std::alloc::Global;
use std::rc::Rc;

fn checked_int(number: Option<i64>) -> Answer
    ensures { outcome_view result ≡ or_overflow int number }
{
    match number {
        Some(n) => Ok(Value::Int(n)),
        None => Err(ExecutionError::Overflow),
    }
}

fn checked_uint(number: Option<u64>) -> Answer
    ensures { outcome_view result ≡ or_overflow uint number }
{
    match number {
        Some(n) => Ok(Value::UInt(n)),
        None => Err(ExecutionError::Overflow),
    }
}

/// Returns the arithmetic negation of a value.
pub(crate) fn negate(alloc: Global, value: &Value) -> Result<Answer, Refused>
    ensures value { IfOk result (λ r. outcome_view r ≡ opposite (view value.now)) }
{
    match value {
        Value::Int(n) => Ok(negate_int(*n)),
        _ => Ok(Err(no_such_overload(alloc, "-")?)),
    }
}

fn negate_int(n: i64) -> Answer
    ensures { outcome_view result ≡ int_or_overflow (neg_ℤ n) }
{
    checked_int(n.checked_neg())
}

pub(crate) fn add_ints(m: i64, n: i64) -> Answer
    ensures { outcome_view result ≡ int_or_overflow (m +ℤ n) }
{
    checked_int(m.checked_add(n))
}

pub(crate) fn subtract_ints(m: i64, n: i64) -> Answer
    ensures { outcome_view result ≡ int_or_overflow (m -ℤ n) }
{
    checked_int(m.checked_sub(n))
}

pub(crate) fn multiply_ints(m: i64, n: i64) -> Answer
    ensures { outcome_view result ≡ int_or_overflow (m *ℤ n) }
{
    checked_int(m.checked_mul(n))
}

pub(crate) fn divide_ints(m: i64, n: i64) -> Answer
    ensures { outcome_view result ≡ quotient_of (int m) (int n) }
{
    if n == 0 {
        Err(ExecutionError::DivisionByZero)
    } else {
        checked_int(m.checked_div(n))
    }
}

pub(crate) fn remainder_of_ints(m: i64, n: i64) -> Answer
    ensures { outcome_view result ≡ remainder_of (int m) (int n) }
{
    if n == 0 {
        Err(ExecutionError::RemainderByZero)
    } else {
        checked_int(m.checked_rem(n))
    }
}

fn add_uints(m: u64, n: u64) -> Answer
    ensures { outcome_view result ≡ uint_or_overflow (m + n) }
{
    checked_uint(m.checked_add(n))
}

fn subtract_uints(m: u64, n: u64) -> Answer
    ensures { outcome_view result ≡ difference_of (uint m) (uint n) }
{
    checked_uint(m.checked_sub(n))
}

fn multiply_uints(m: u64, n: u64) -> Answer
    ensures { outcome_view result ≡ uint_or_overflow (m * n) }
{
    checked_uint(m.checked_mul(n))
}

fn divide_uints(m: u64, n: u64) -> Answer
    ensures { outcome_view result ≡ quotient_of (uint m) (uint n) }
{
    if n == 0 {
        Err(ExecutionError::DivisionByZero)
    } else {
        Ok(Value::UInt(m / n))
    }
}

fn remainder_of_uints(m: u64, n: u64) -> Answer
    ensures { outcome_view result ≡ remainder_of (uint m) (uint n) }
{
    if n == 0 {
        Err(ExecutionError::RemainderByZero)
    } else {
        Ok(Value::UInt(m % n))
    }
}

pub(crate) fn join_texts(alloc: Global, left: &str, right: &str) -> Result<Answer, Refused>
    ensures value { IfOk result (λ r. outcome_view r ≡ Ok (text (left.now ++ right.now))) }
{
    let mut joined = String::with_capacity(alloc, left.len().saturating_add(right.len()))?;
    joined.push_str(left)?;
    joined.push_str(right)?;
    Ok(Ok(Value::from_text(alloc, joined)?))
}

fn join_bytes(alloc: Global, left: &[u8], right: &[u8]) -> Result<Answer, Refused>
    ensures value { IfOk result (λ r. outcome_view r ≡ Ok (bytes (left.now ++ right.now))) }
{
    let mut joined = Vec::with_capacity(alloc, left.len().saturating_add(right.len()))?;
    joined.extend_from_slice(left)?;
    joined.extend_from_slice(right)?;
    Ok(Ok(Value::Bytes(Rc::new(alloc, joined)?)))
}

fn copies_of_both(alloc: Global, left: &[Value], right: &[Value]) -> Result<Vec<Value>, Refused>
    ensures value { IfOk result (λ v. map view v.items ≡ map view left.now ++ map view right.now) }
{
    let mut joined = Vec::with_capacity(alloc, left.len().saturating_add(right.len()))?;
    push_copies(&mut joined, left)?;
    push_copies(&mut joined, right)?;
    Ok(joined)
}

#[tactic(auto, using(crate::proofs::Items::joined_items))]
fn join_lists(alloc: Global, left: &List, right: &List) -> Result<Answer, Refused>
    ensures value { IfOk result (λ r. outcome_view r ≡ Ok (list (items_joined left.now right.now))) }
{
    let joined = copies_of_both(alloc, left.as_slice(), right.as_slice())?;
    Ok(Ok(Value::from_items(alloc, joined)?))
}

/// Adds two values.
pub(crate) fn add(alloc: Global, left: &Value, right: &Value) -> Result<Answer, Refused>
    ensures value { IfOk result (λ r. outcome_view r ≡ sum_of (view left.now) (view right.now)) }
{
    match left {
        Value::Int(m) => match right.as_int() {
            Some(n) => Ok(add_ints(*m, n)),
            None => Ok(Err(no_such_overload(alloc, "+")?)),
        },
        Value::UInt(m) => match right.as_uint() {
            Some(n) => Ok(add_uints(*m, n)),
            None => Ok(Err(no_such_overload(alloc, "+")?)),
        },
        Value::String(s) => match right.as_str() {
            Some(t) => join_texts(alloc, s.as_str(), t),
            None => Ok(Err(no_such_overload(alloc, "+")?)),
        },
        Value::Bytes(s) => match right.as_bytes() {
            Some(t) => join_bytes(alloc, s.as_slice(), t),
            None => Ok(Err(no_such_overload(alloc, "+")?)),
        },
        Value::List(items) => match right.as_list() {
            Some(more) => join_lists(alloc, items.as_ref(), more),
            None => Ok(Err(no_such_overload(alloc, "+")?)),
        },
        Value::Timestamp(start) => add_to_timestamp(alloc, *start, right),
        Value::Duration(duration) => add_to_duration(alloc, *duration, right),
        _ => Ok(Err(no_such_overload(alloc, "+")?)),
    }
}

/// Subtracts the right value from the left one.
pub(crate) fn subtract(alloc: Global, left: &Value, right: &Value) -> Result<Answer, Refused>
    ensures value { IfOk result (λ r. outcome_view r ≡ difference_of (view left.now) (view right.now)) }
{
    match left {
        Value::Int(m) => match right.as_int() {
            Some(n) => Ok(subtract_ints(*m, n)),
            None => Ok(Err(no_such_overload(alloc, "-")?)),
        },
        Value::UInt(m) => match right.as_uint() {
            Some(n) => Ok(subtract_uints(*m, n)),
            None => Ok(Err(no_such_overload(alloc, "-")?)),
        },
        Value::Timestamp(end) => subtract_from_timestamp(alloc, *end, right),
        Value::Duration(duration) => subtract_from_duration(alloc, *duration, right),
        _ => Ok(Err(no_such_overload(alloc, "-")?)),
    }
}

/// Multiplies two values.
pub(crate) fn multiply(alloc: Global, left: &Value, right: &Value) -> Result<Answer, Refused>
    ensures value { IfOk result (λ r. outcome_view r ≡ product_of (view left.now) (view right.now)) }
{
    match left {
        Value::Int(m) => match right.as_int() {
            Some(n) => Ok(multiply_ints(*m, n)),
            None => Ok(Err(no_such_overload(alloc, "*")?)),
        },
        Value::UInt(m) => match right.as_uint() {
            Some(n) => Ok(multiply_uints(*m, n)),
            None => Ok(Err(no_such_overload(alloc, "*")?)),
        },
        _ => Ok(Err(no_such_overload(alloc, "*")?)),
    }
}

/// Divides the left value by the right one.
pub(crate) fn divide(alloc: Global, left: &Value, right: &Value) -> Result<Answer, Refused>
    ensures value { IfOk result (λ r. outcome_view r ≡ quotient_of (view left.now) (view right.now)) }
{
    match left {
        Value::Int(m) => match right.as_int() {
            Some(n) => Ok(divide_ints(*m, n)),
            None => Ok(Err(no_such_overload(alloc, "/")?)),
        },
        Value::UInt(m) => match right.as_uint() {
            Some(n) => Ok(divide_uints(*m, n)),
            None => Ok(Err(no_such_overload(alloc, "/")?)),
        },
        _ => Ok(Err(no_such_overload(alloc, "/")?)),
    }
}

/// Returns the remainder of dividing the left value by the right one.
pub(crate) fn remainder(alloc: Global, left: &Value, right: &Value) -> Result<Answer, Refused>
    ensures value { IfOk result (λ r. outcome_view r ≡ remainder_of (view left.now) (view right.now)) }
{
    match left {
        Value::Int(m) => match right.as_int() {
            Some(n) => Ok(remainder_of_ints(*m, n)),
            None => Ok(Err(no_such_overload(alloc, "%")?)),
        },
        Value::UInt(m) => match right.as_uint() {
            Some(n) => Ok(remainder_of_uints(*m, n)),
            None => Ok(Err(no_such_overload(alloc, "%")?)),
        },
        _ => Ok(Err(no_such_overload(alloc, "%")?)),
    }
}
