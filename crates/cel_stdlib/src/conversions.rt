//! The conversions `int`, `uint`, `string` and `bytes`.
ghost use Rattle.std.specs.Fmt.{decimal, signed_decimal};
ghost use Rattle.std.specs.Prelude.{◌≡◌, Ok, pos, IfOk, string_bytes};
ghost use Rattle.cel_value.specs.Data as plain;
ghost use Rattle.cel_value.specs.View.{view};
ghost use Rattle.cel_semantics.specs.Arithmetic.{int_or_overflow};
ghost use Rattle.cel_semantics.specs.Outcome.{outcome_view};
ghost use Rattle.cel_stdlib.specs.Conversions as spec;

use crate::faults::function_error;
use cel_semantics::operators::{Answer, no_such_overload};
use cel_value::{ExecutionError, Refused, Value};
use itoa::Buffer;
use std::alloc::{AllocError, Global};
use std::rc::Rc;

fn read_int(text: &str) -> Option<i64>
    ensures { result ≡ spec.int_text text.now }
{
    text.parse::<i64>().ok()
}

fn read_uint(text: &str) -> Option<u64>
    ensures { result ≡ spec.uint_text text.now }
{
    text.parse::<u64>().ok()
}

fn signed(number: u64) -> Answer
    ensures { outcome_view result ≡ int_or_overflow (pos number) }
{
    match i64::try_from(number) {
        Ok(n) => Ok(Value::Int(n)),
        Err(_) => Err(ExecutionError::Overflow),
    }
}

fn unsigned(number: i64) -> Answer
    ensures { outcome_view result ≡ spec.natural number }
{
    match u64::try_from(number) {
        Ok(n) => Ok(Value::UInt(n)),
        Err(_) => Err(ExecutionError::Overflow),
    }
}

fn int_from_text(alloc: Global, text: &str) -> Result<Answer, Refused>
    ensures value { IfOk result (λ r. outcome_view r ≡ spec.int_of (plain.text text.now)) }
{
    match read_int(text) {
        Some(n) => Ok(Ok(Value::Int(n))),
        None => Ok(Err(function_error(alloc, "int", "invalid integer text")?)),
    }
}

fn uint_from_text(alloc: Global, text: &str) -> Result<Answer, Refused>
    ensures value { IfOk result (λ r. outcome_view r ≡ spec.uint_of (plain.text text.now)) }
{
    match read_uint(text) {
        Some(n) => Ok(Ok(Value::UInt(n))),
        None => Ok(Err(function_error(alloc, "uint", "invalid integer text")?)),
    }
}

/// Converts an int, a uint or a string to an int.
pub(crate) fn int(alloc: Global, value: &Value) -> Result<Answer, Refused>
    ensures value { IfOk result (λ r. outcome_view r ≡ spec.int_of (view value.now)) }
{
    match value {
        Value::Int(n) => Ok(Ok(Value::Int(*n))),
        Value::UInt(n) => Ok(signed(*n)),
        Value::String(text) => int_from_text(alloc, text.as_str()),
        _ => Ok(Err(no_such_overload(alloc, "int")?)),
    }
}

/// Converts a uint, an int or a string to a uint.
pub(crate) fn uint(alloc: Global, value: &Value) -> Result<Answer, Refused>
    ensures value { IfOk result (λ r. outcome_view r ≡ spec.uint_of (view value.now)) }
{
    match value {
        Value::UInt(n) => Ok(Ok(Value::UInt(*n))),
        Value::Int(n) => Ok(unsigned(*n)),
        Value::String(text) => uint_from_text(alloc, text.as_str()),
        _ => Ok(Err(no_such_overload(alloc, "uint")?)),
    }
}

fn text_answer(alloc: Global, text: String) -> Result<Answer, Refused>
    ensures value { IfOk result (λ r. outcome_view r ≡ Ok (plain.text (string_bytes text))) }
{
    Ok(Ok(Value::from_text(alloc, text)?))
}

/// Returns the decimal digits of an int, after a minus sign if it is negative.
fn int_text(alloc: Global, number: i64) -> Result<String, AllocError>
    ensures { IfOk result (λ t. string_bytes t ≡ signed_decimal number) }
{
    let mut digits = Buffer::new();
    let text = digits.format(number);
    String::from_str(alloc, text)
}

/// Returns the decimal digits of a uint.
fn uint_text(alloc: Global, number: u64) -> Result<String, AllocError>
    ensures { IfOk result (λ t. string_bytes t ≡ decimal number) }
{
    let mut digits = Buffer::new();
    let text = digits.format(number);
    String::from_str(alloc, text)
}

/// Converts a string, an int, a uint, bytes, a timestamp or a duration to a string.
pub(crate) fn string(alloc: Global, value: &Value) -> Result<Answer, Refused>
    ensures value { IfOk result (λ r. outcome_view r ≡ spec.string_of (view value.now)) }
{
    match value {
        Value::String(text) => Ok(Ok(Value::String(text.clone()?))),
        Value::Int(n) => text_answer(alloc, int_text(alloc, *n)?),
        Value::UInt(n) => text_answer(alloc, uint_text(alloc, *n)?),
        Value::Bytes(bytes) => text_answer(
            alloc,
            String::from_utf8_lossy(alloc, bytes.as_slice())?,
        ),
        Value::Timestamp(moment) => text_answer(alloc, moment.text(alloc)?),
        Value::Duration(length) => text_answer(alloc, length.text(alloc)?),
        _ => Ok(Err(no_such_overload(alloc, "string")?)),
    }
}

fn bytes_answer(alloc: Global, bytes: &[u8]) -> Result<Answer, Refused>
    ensures value { IfOk result (λ r. outcome_view r ≡ Ok (plain.bytes bytes.now)) }
{
    let copy = Vec::from_slice(alloc, bytes)?;
    Ok(Ok(Value::Bytes(Rc::new(alloc, copy)?)))
}

/// Converts bytes or a string to bytes, the string as UTF-8.
pub(crate) fn bytes(alloc: Global, value: &Value) -> Result<Answer, Refused>
    ensures value { IfOk result (λ r. outcome_view r ≡ spec.bytes_of (view value.now)) }
{
    match value {
        Value::Bytes(bytes) => Ok(Ok(Value::Bytes(bytes.clone()?))),
        Value::String(text) => bytes_answer(alloc, text.as_str().as_bytes()),
        _ => Ok(Err(no_such_overload(alloc, "bytes")?)),
    }
}
