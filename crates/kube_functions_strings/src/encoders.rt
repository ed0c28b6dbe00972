//! `base64.encode` and `base64.decode`: bytes as Base64 text.
ghost use Rattle.std.specs.Prelude.{◌≡◌, IfOk, Ok, option_map, string_bytes};
ghost use Rattle.cel_value.specs.Data as plain;
ghost use Rattle.cel_value.specs.View.{view};
ghost use Rattle.cel_semantics.specs.Outcome.{outcome_view};
ghost use Rattle.kube_functions_strings.specs.Encoders as spec;

use crate::answers::{function_fault, text_answer};
use base64::DecodeAllocError;
use base64::engine::general_purpose::STANDARD;
use cel_semantics::operators::{Answer, no_such_overload};
use cel_value::{Refused, Value};
use std::alloc::{AllocError, Global};
use std::rc::Rc;

fn encoded_text(alloc: Global, bytes: &[u8]) -> Result<String, AllocError>
    ensures { IfOk result (λ t. string_bytes t ≡ spec.encoded_text bytes.now) }
{
    STANDARD.encode(alloc, bytes)
}

// The bytes that the text encodes, or None if it isn't valid Base64.
fn decoded_bytes(alloc: Global, text: &str) -> Result<Option<Vec<u8>>, AllocError>
    ensures { IfOk result (λ o. option_map (λ v. v.items) o ≡ spec.decoded_bytes text.now) }
{
    match STANDARD.decode(alloc, text.as_bytes()) {
        Ok(bytes) => Ok(Some(bytes)),
        Err(DecodeAllocError::DecodeError(_)) => Ok(None),
        Err(DecodeAllocError::OutOfMemory) => Err(AllocError),
    }
}

// The padding that the text lacks, if its length is two or three more than a multiple of four.
fn missing_padding(text: &str) -> &'static str
    ensures { result.now ≡ spec.missing_padding text.now }
{
    match text.len() % 4 {
        2 => "==",
        3 => "=",
        _ => "",
    }
}

fn with_padding(alloc: Global, text: &str) -> Result<String, AllocError>
    ensures { IfOk result (λ t. string_bytes t ≡ spec.with_padding text.now) }
{
    let mut with_padding = String::from_str(alloc, text)?;
    with_padding.push_str(missing_padding(text))?;
    Ok(with_padding)
}

/// Encodes bytes as Base64 with padding.
///
/// # Errors
/// [`Refused::Memory`] if memory is refused.
pub fn base64_encode(alloc: Global, value: &Value) -> Result<Answer, Refused>
    ensures value { IfOk result (λ r. outcome_view r ≡ spec.base64_encode (view value.now)) }
{
    match value.as_bytes() {
        Some(bytes) => text_answer(alloc, encoded_text(alloc, bytes)?),
        None => Ok(Err(no_such_overload(alloc, "base64.encode")?)),
    }
}

fn bytes_answer(alloc: Global, bytes: Option<Vec<u8>>) -> Result<Answer, Refused>
    ensures value { IfOk result
        (λ r. outcome_view r ≡ spec.bytes_or_fault (option_map (λ v. v.items) bytes)) }
{
    match bytes {
        Some(bytes) => Ok(Ok(Value::Bytes(Rc::new(alloc, bytes)?))),
        None => {
            let message = String::from_str(alloc, "invalid base64")?;
            function_fault(alloc, "base64.decode", message)
        }
    }
}

/// Decodes a Base64 string to bytes. Padding may be
/// missing; a string that isn't valid Base64 is an error.
///
/// # Errors
/// [`Refused::Memory`] if memory is refused.
pub fn base64_decode(alloc: Global, value: &Value) -> Result<Answer, Refused>
    ensures value { IfOk result (λ r. outcome_view r ≡ spec.base64_decode (view value.now)) }
{
    match value.as_str() {
        Some(text) => {
            let with_padding = with_padding(alloc, text)?;
            bytes_answer(alloc, decoded_bytes(alloc, with_padding.as_str())?)
        }
        None => Ok(Err(no_such_overload(alloc, "base64.decode")?)),
    }
}
