//! Functions that take operands of different kinds under one name: `reverse`,
//! `indexOf` and `lastIndexOf` of strings and lists, and `string` of addresses.
ghost use Rattle.std.specs.Prelude.{◌≡◌, IfOk, Some, map, option_map};
ghost use Rattle.cel_value.specs.View.{view};
ghost use Rattle.cel_semantics.specs.Outcome.{outcome_view};
ghost use Rattle.kube_functions.specs.Overloads as spec;

use crate::operands::first_operand;
use cel_semantics::operators::{Answer, no_such_overload};
use cel_value::{Refused, Value};
use kube_functions_lists::{indices, lists};
use kube_functions_strings as strings;
use std::alloc::Global;

fn is_list(value: &Value) -> bool
    ensures { result ≡ spec.is_list (view value.now) }
{
    value.as_list().is_some()
}

/// `reverse`: returns the characters of a string, or the items of a list, in reverse order.
pub(crate) fn reverse(alloc: Global, value: &Value) -> Result<Answer, Refused>
    ensures value { IfOk result (λ r. outcome_view r ≡ spec.reverse_overload (view value.now)) }
{
    if is_list(value) {
        lists::reverse(alloc, value)
    } else {
        strings::reverse(alloc, value)
    }
}

/// `indexOf`: returns the first index of an item in a list, or the first offset of one string
/// in another, at or after `start`; -1 if there is none. With a list, a `start` is an error.
pub(crate) fn index_of(
    alloc: Global,
    value: &Value,
    item: &Value,
    start: Option<&Value>,
) -> Result<Answer, Refused>
    ensures value { IfOk result (λ r. outcome_view r
        ≡ spec.index_of (view value.now) (view item.now) (option_map (λ v. view v.now) start.entry)) }
{
    if !is_list(value) {
        return strings::index_of(alloc, value, item, start);
    }
    match start {
        Some(_) => Ok(Err(no_such_overload(alloc, "indexOf")?)),
        None => indices::index_of(alloc, value, item),
    }
}

/// `lastIndexOf`: returns the last index of an item in a list, or the last offset of one string
/// in another, at or before `start`; -1 if there is none. With a list, a `start` is an error.
pub(crate) fn last_index_of(
    alloc: Global,
    value: &Value,
    item: &Value,
    start: Option<&Value>,
) -> Result<Answer, Refused>
    ensures value { IfOk result (λ r. outcome_view r
        ≡ spec.last_index_of (view value.now) (view item.now) (option_map (λ v. view v.now) start.entry)) }
{
    if !is_list(value) {
        return strings::last_index_of(alloc, value, item, start);
    }
    match start {
        Some(_) => Ok(Err(no_such_overload(alloc, "lastIndexOf")?)),
        None => indices::last_index_of(alloc, value, item),
    }
}

fn is_address(value: &Value) -> bool
    ensures { result ≡ spec.is_address (view value.now) }
{
    matches!(value, Value::Ip(_) | Value::Cidr(_))
}

/// Returns the operand of `string` if it is an IP address or a CIDR, and None for other operands
/// and other functions. Few operands are addresses, so the kind is tested before the name.
pub(crate) fn address_operand<'a>(
    name: &str,
    receiver: Option<&'a Value>,
    args: &'a [Value],
) -> Option<&'a Value>
    ensures { option_map (λ v. view v.now) result
        ≡ spec.address_operand name.now (option_map (λ v. view v.now) receiver.entry) (map view args.now) }
{
    match first_operand(receiver, args) {
        Some(value) => {
            if is_address(value) && name == "string" {
                Some(value)
            } else {
                None
            }
        }
        None => None,
    }
}
