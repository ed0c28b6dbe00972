//! Functions on IP addresses.
ghost use Rattle.std.specs.Prelude.{◌≡◌, IfOk};
ghost use Rattle.cel_value.specs.View.{view};
ghost use Rattle.cel_semantics.specs.Outcome.{outcome_view};
ghost use Rattle.kube_types.specs.Texts.{ip_of};
ghost use Rattle.kube_functions_types.specs.Ip as spec;

use crate::answers::{refusal, wrong_kind};
use cel_semantics::Answer;
use cel_value::{Refused, Value};
use kube_types::KubeIP;
use std::alloc::Global;
use std::rc::Rc;

/// `ip`: parses a string as an address. A string that doesn't parse is an error.
///
/// # Errors
/// [`Refused::Memory`] if memory is refused.
pub fn ip(alloc: Global, value: &Value) -> Result<Answer, Refused>
    ensures value { IfOk result (λ r. outcome_view r ≡ spec.ip_of (view value.now)) }
{
    match value {
        Value::String(text) => match KubeIP::read(text.as_str()) {
            Ok(ip) => Ok(Ok(Value::Ip(Rc::new(alloc, ip)?))),
            Err(message) => refusal(alloc, "ip", message),
        },
        _ => wrong_kind(alloc, "ip"),
    }
}

/// `isIP`: reports whether a string parses as an address.
///
/// # Errors
/// [`Refused::Memory`] if memory is refused.
pub fn is_ip(alloc: Global, value: &Value) -> Result<Answer, Refused>
    ensures value { IfOk result (λ r. outcome_view r ≡ spec.is_ip (view value.now)) }
{
    match value {
        Value::String(text) => Ok(Ok(Value::Bool(KubeIP::read(text.as_str()).is_ok()))),
        _ => wrong_kind(alloc, "isIP"),
    }
}

// Reports whether the text parses as an address of the family, 4 or 6.
fn is_of_family(text: &str, family: u8) -> bool
    ensures { result ≡ spec.is_of_family family (ip_of text.now) }
{
    match KubeIP::read(text) {
        Ok(ip) => ip.family() == family,
        Err(_) => false,
    }
}

/// `isIPv4`: reports whether a string parses as an IPv4 address.
///
/// # Errors
/// [`Refused::Memory`] if memory is refused.
pub fn is_ipv4(alloc: Global, value: &Value) -> Result<Answer, Refused>
    ensures value { IfOk result (λ r. outcome_view r ≡ spec.is_ipv4 (view value.now)) }
{
    match value {
        Value::String(text) => Ok(Ok(Value::Bool(is_of_family(text.as_str(), 4)))),
        _ => wrong_kind(alloc, "isIPv4"),
    }
}

/// `isIPv6`: reports whether a string parses as an IPv6 address.
///
/// # Errors
/// [`Refused::Memory`] if memory is refused.
pub fn is_ipv6(alloc: Global, value: &Value) -> Result<Answer, Refused>
    ensures value { IfOk result (λ r. outcome_view r ≡ spec.is_ipv6 (view value.now)) }
{
    match value {
        Value::String(text) => Ok(Ok(Value::Bool(is_of_family(text.as_str(), 6)))),
        _ => wrong_kind(alloc, "isIPv6"),
    }
}

/// `ip.isCanonical`: reports whether a string is the canonical text of the address that it parses
/// to. A string that doesn't parse is an error.
///
/// # Errors
/// [`Refused::Memory`] if memory is refused.
pub fn is_canonical(alloc: Global, value: &Value) -> Result<Answer, Refused>
    ensures value { IfOk result (λ r. outcome_view r ≡ spec.is_canonical (view value.now)) }
{
    match value {
        Value::String(text) => match KubeIP::is_canonical(text.as_str()) {
            Ok(is_printed) => Ok(Ok(Value::Bool(is_printed))),
            Err(message) => refusal(alloc, "ip.isCanonical", message),
        },
        _ => wrong_kind(alloc, "ip.isCanonical"),
    }
}

/// `family`: returns 4 for an IPv4 address and 6 for an IPv6 address.
///
/// # Errors
/// [`Refused::Memory`] if memory is refused.
pub fn family(alloc: Global, value: &Value) -> Result<Answer, Refused>
    ensures value { IfOk result (λ r. outcome_view r ≡ spec.family_of (view value.now)) }
{
    match value {
        Value::Ip(ip) => Ok(Ok(Value::Int(i64::from(ip.as_ref().family())))),
        _ => wrong_kind(alloc, "family"),
    }
}

/// `isLoopback`: reports whether an address is in `127.0.0.0/8` or is `::1`.
///
/// # Errors
/// [`Refused::Memory`] if memory is refused.
pub fn is_loopback(alloc: Global, value: &Value) -> Result<Answer, Refused>
    ensures value { IfOk result (λ r. outcome_view r ≡ spec.is_loopback (view value.now)) }
{
    match value {
        Value::Ip(ip) => Ok(Ok(Value::Bool(ip.as_ref().is_loopback()))),
        _ => wrong_kind(alloc, "isLoopback"),
    }
}

/// `isUnspecified`: reports whether an address is `0.0.0.0` or `::`.
///
/// # Errors
/// [`Refused::Memory`] if memory is refused.
pub fn is_unspecified(alloc: Global, value: &Value) -> Result<Answer, Refused>
    ensures value { IfOk result (λ r. outcome_view r ≡ spec.is_unspecified (view value.now)) }
{
    match value {
        Value::Ip(ip) => Ok(Ok(Value::Bool(ip.as_ref().is_unspecified()))),
        _ => wrong_kind(alloc, "isUnspecified"),
    }
}

/// `isLinkLocalMulticast`: reports whether an address is in
/// `224.0.0.0/24`, or is an IPv6 multicast address of link-local scope.
///
/// # Errors
/// [`Refused::Memory`] if memory is refused.
pub fn is_link_local_multicast(alloc: Global, value: &Value) -> Result<Answer, Refused>
    ensures value { IfOk result (λ r. outcome_view r ≡ spec.is_link_local_multicast (view value.now)) }
{
    match value {
        Value::Ip(ip) => Ok(Ok(Value::Bool(ip.as_ref().is_link_local_multicast()))),
        _ => wrong_kind(alloc, "isLinkLocalMulticast"),
    }
}

/// `isLinkLocalUnicast`: reports whether an address is in `169.254.0.0/16` or `fe80::/10`.
///
/// # Errors
/// [`Refused::Memory`] if memory is refused.
pub fn is_link_local_unicast(alloc: Global, value: &Value) -> Result<Answer, Refused>
    ensures value { IfOk result (λ r. outcome_view r ≡ spec.is_link_local_unicast (view value.now)) }
{
    match value {
        Value::Ip(ip) => Ok(Ok(Value::Bool(ip.as_ref().is_link_local_unicast()))),
        _ => wrong_kind(alloc, "isLinkLocalUnicast"),
    }
}

/// `isGlobalUnicast`: reports whether an address is none of loopback, unspecified, multicast,
/// link-local unicast and `255.255.255.255`.
///
/// # Errors
/// [`Refused::Memory`] if memory is refused.
pub fn is_global_unicast(alloc: Global, value: &Value) -> Result<Answer, Refused>
    ensures value { IfOk result (λ r. outcome_view r ≡ spec.is_global_unicast (view value.now)) }
{
    match value {
        Value::Ip(ip) => Ok(Ok(Value::Bool(ip.as_ref().is_global_unicast()))),
        _ => wrong_kind(alloc, "isGlobalUnicast"),
    }
}
