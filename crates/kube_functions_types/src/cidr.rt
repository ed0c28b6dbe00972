//! Functions on CIDRs.
ghost use Rattle.std.specs.Prelude.{◌≡◌, IfOk};
ghost use Rattle.cel_value.specs.Data as plain;
ghost use Rattle.cel_value.specs.View.{view};
ghost use Rattle.cel_semantics.specs.Outcome.{outcome_view};
ghost use Rattle.kube_types.specs.CidrTexts.{cidr_of};
ghost use Rattle.kube_types.specs.Networks.{network};
ghost use Rattle.kube_functions_types.specs.Cidr as spec;

use crate::answers::{refusal, wrong_kind};
use cel_semantics::Answer;
use cel_value::{Refused, Value};
use kube_types::{KubeCIDR, KubeIP};
use std::alloc::Global;
use std::rc::Rc;

/// `cidr`: parses a string as a CIDR. A string that doesn't parse is an error.
///
/// # Errors
/// [`Refused::Memory`] if memory is refused.
pub fn cidr(alloc: Global, value: &Value) -> Result<Answer, Refused>
    ensures value { IfOk result (λ r. outcome_view r ≡ spec.cidr_of (view value.now)) }
{
    match value {
        Value::String(text) => match KubeCIDR::read(text.as_str()) {
            Ok(cidr) => Ok(Ok(Value::Cidr(Rc::new(alloc, cidr)?))),
            Err(message) => refusal(alloc, "cidr", message),
        },
        _ => wrong_kind(alloc, "cidr"),
    }
}

/// `isCIDR`: reports whether a string parses as a CIDR.
///
/// # Errors
/// [`Refused::Memory`] if memory is refused.
pub fn is_cidr(alloc: Global, value: &Value) -> Result<Answer, Refused>
    ensures value { IfOk result (λ r. outcome_view r ≡ spec.is_cidr (view value.now)) }
{
    match value {
        Value::String(text) => Ok(Ok(Value::Bool(KubeCIDR::read(text.as_str()).is_ok()))),
        _ => wrong_kind(alloc, "isCIDR"),
    }
}

// Reports whether the text parses as a CIDR of the family, 4 or 6.
fn is_of_family(text: &str, family: u8) -> bool
    ensures { result ≡ spec.is_of_family family (cidr_of text.now) }
{
    match KubeCIDR::read(text) {
        Ok(cidr) => cidr.family() == family,
        Err(_) => false,
    }
}

/// `isCIDRv4`: reports whether a string parses as a CIDR of IPv4 addresses.
///
/// # Errors
/// [`Refused::Memory`] if memory is refused.
pub fn is_cidr_v4(alloc: Global, value: &Value) -> Result<Answer, Refused>
    ensures value { IfOk result (λ r. outcome_view r ≡ spec.is_cidr_v4 (view value.now)) }
{
    match value {
        Value::String(text) => Ok(Ok(Value::Bool(is_of_family(text.as_str(), 4)))),
        _ => wrong_kind(alloc, "isCIDRv4"),
    }
}

/// `isCIDRv6`: reports whether a string parses as a CIDR of IPv6 addresses.
///
/// # Errors
/// [`Refused::Memory`] if memory is refused.
pub fn is_cidr_v6(alloc: Global, value: &Value) -> Result<Answer, Refused>
    ensures value { IfOk result (λ r. outcome_view r ≡ spec.is_cidr_v6 (view value.now)) }
{
    match value {
        Value::String(text) => Ok(Ok(Value::Bool(is_of_family(text.as_str(), 6)))),
        _ => wrong_kind(alloc, "isCIDRv6"),
    }
}

fn contains_address(alloc: Global, cidr: &KubeCIDR, other: &Value) -> Result<Answer, Refused>
    ensures value { IfOk result
        (λ r. outcome_view r ≡ spec.contains_ip (plain.cidr (network cidr.now)) (view other.now)) }
{
    match other {
        Value::Ip(ip) => Ok(Ok(Value::Bool(cidr.contains_ip(*ip.as_ref())))),
        Value::String(text) => match KubeIP::read(text.as_str()) {
            Ok(ip) => Ok(Ok(Value::Bool(cidr.contains_ip(ip)))),
            Err(message) => refusal(alloc, "containsIP", message),
        },
        _ => wrong_kind(alloc, "containsIP"),
    }
}

/// `containsIP`: reports whether an address is in the CIDR's range. A string is parsed as an
/// address, and is an error if it doesn't parse.
///
/// # Errors
/// [`Refused::Memory`] if memory is refused.
pub fn contains_ip(alloc: Global, value: &Value, other: &Value) -> Result<Answer, Refused>
    ensures value { IfOk result (λ r. outcome_view r ≡ spec.contains_ip (view value.now) (view other.now)) }
{
    match value {
        Value::Cidr(cidr) => contains_address(alloc, cidr.as_ref(), other),
        _ => wrong_kind(alloc, "containsIP"),
    }
}

fn contains_set(alloc: Global, cidr: &KubeCIDR, other: &Value) -> Result<Answer, Refused>
    ensures value { IfOk result
        (λ r. outcome_view r ≡ spec.contains_cidr (plain.cidr (network cidr.now)) (view other.now)) }
{
    match other {
        Value::Cidr(inner) => Ok(Ok(Value::Bool(cidr.contains_cidr(*inner.as_ref())))),
        Value::String(text) => match KubeCIDR::read(text.as_str()) {
            Ok(inner) => Ok(Ok(Value::Bool(cidr.contains_cidr(inner)))),
            Err(message) => refusal(alloc, "containsCIDR", message),
        },
        _ => wrong_kind(alloc, "containsCIDR"),
    }
}

/// `containsCIDR`: reports whether every address of another CIDR is in the CIDR's range. A string
/// is parsed as a CIDR, and is an error if it doesn't parse.
///
/// # Errors
/// [`Refused::Memory`] if memory is refused.
pub fn contains_cidr(alloc: Global, value: &Value, other: &Value) -> Result<Answer, Refused>
    ensures value { IfOk result (λ r. outcome_view r ≡ spec.contains_cidr (view value.now) (view other.now)) }
{
    match value {
        Value::Cidr(cidr) => contains_set(alloc, cidr.as_ref(), other),
        _ => wrong_kind(alloc, "containsCIDR"),
    }
}

/// `prefixLength`: returns the length of the CIDR's prefix in bits.
///
/// # Errors
/// [`Refused::Memory`] if memory is refused.
pub fn prefix_length(alloc: Global, value: &Value) -> Result<Answer, Refused>
    ensures value { IfOk result (λ r. outcome_view r ≡ spec.prefix_length (view value.now)) }
{
    match value {
        Value::Cidr(cidr) => Ok(Ok(Value::Int(i64::from(cidr.as_ref().prefix_length())))),
        _ => wrong_kind(alloc, "prefixLength"),
    }
}

/// `masked`: returns the same range, written with its first address.
///
/// # Errors
/// [`Refused::Memory`] if memory is refused.
pub fn masked(alloc: Global, value: &Value) -> Result<Answer, Refused>
    ensures value { IfOk result (λ r. outcome_view r ≡ spec.masked_cidr (view value.now)) }
{
    match value {
        Value::Cidr(cidr) => {
            let masked = cidr.as_ref().masked();
            Ok(Ok(Value::Cidr(Rc::new(alloc, masked)?)))
        }
        _ => wrong_kind(alloc, "masked"),
    }
}

/// `ip` of a CIDR: returns its address as written, including the host bits.
///
/// # Errors
/// [`Refused::Memory`] if memory is refused.
pub fn written_ip(alloc: Global, value: &Value) -> Result<Answer, Refused>
    ensures value { IfOk result (λ r. outcome_view r ≡ spec.written_ip (view value.now)) }
{
    match value {
        Value::Cidr(cidr) => {
            let ip = cidr.as_ref().ip();
            Ok(Ok(Value::Ip(Rc::new(alloc, ip)?)))
        }
        _ => wrong_kind(alloc, "ip"),
    }
}
