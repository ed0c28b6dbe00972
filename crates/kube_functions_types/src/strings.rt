//! `string` of IP addresses and CIDRs.
ghost use Rattle.std.specs.Prelude.{◌≡◌, IfOk};
ghost use Rattle.cel_value.specs.View.{view};
ghost use Rattle.cel_semantics.specs.Outcome.{outcome_view};
ghost use Rattle.kube_functions_types.specs.Strings as spec;

use crate::answers::{text_answer, wrong_kind};
use cel_semantics::Answer;
use cel_value::{Refused, Value};
use std::alloc::Global;

/// `string`: formats an address or a CIDR as text.
///
/// # Errors
/// [`Refused::Memory`] if memory is refused.
pub fn string(alloc: Global, value: &Value) -> Result<Answer, Refused>
    ensures value { IfOk result (λ r. outcome_view r ≡ spec.string_of (view value.now)) }
{
    match value {
        Value::Ip(ip) => text_answer(alloc, ip.as_ref().to_string(alloc)?),
        Value::Cidr(cidr) => text_answer(alloc, cidr.as_ref().to_string(alloc)?),
        _ => wrong_kind(alloc, "string"),
    }
}
