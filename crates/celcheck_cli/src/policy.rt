//! Reads the validations of a policy from JSON (Kubernetes API reference,
//! ValidatingAdmissionPolicySpec and Validation).
ghost use Rattle.celcheck_cli.specs.Policies.{expression_in, expressions_in, parts_view, text_at, validation_items, validations_in};
ghost use Rattle.kube_cel.specs.Validations.{expression_view};
ghost use Rattle.serde_json.specs.View.{items_view, view};
ghost use Rattle.std.specs.Prelude.{◌≡◌, IfOk, map, option_map, string_bytes};

use kube_cel::{Refused, VapExpression};
use serde_json::Value;
use std::alloc::{AllocError, Global};

// The strings of a validation, borrowed from its JSON.
#[derive(Clone, Copy)]
struct Parts<'v> {
    expression: &'v str,
    message: Option<&'v str>,
    message_expression: Option<&'v str>,
}

/// Reads the validations of a policy, in order: the array `spec.validations` of objects. Each has a
/// string `expression`; its `message` and `messageExpression` are strings, null or missing. Other
/// keys are ignored. `None` if the policy has another shape.
pub(crate) fn validations_of(
    alloc: Global,
    policy: &Value,
) -> Result<Option<Vec<VapExpression>>, Refused>
    ensures { IfOk result (λ o. option_map (λ v. map expression_view v.items) o
        ≡ validations_in (view policy.now)) }
{
    match validation_values(policy) {
        Some(values) => expressions_of(alloc, values),
        None => Ok(None),
    }
}

/// The array of a policy's validations, if there is one.
fn validation_values(policy: &Value) -> Option<&[Value]>
    ensures { option_map (λ v. items_view v.now) result ≡ validation_items (view policy.now) }
{
    let validations = policy.get("spec")?.get("validations")?.as_array()?;
    Some(validations.as_slice())
}

/// Reads these values as validations. `None` if one of them isn't a validation.
fn expressions_of(alloc: Global, values: &[Value]) -> Result<Option<Vec<VapExpression>>, Refused>
    ensures { IfOk result (λ o. option_map (λ v. map expression_view v.items) o
        ≡ expressions_in (items_view values.now)) }
{
    let mut expressions = Vec::with_capacity(alloc, values.len())?;
    for value in values {
        match parts_of(value) {
            Some(parts) => expressions.push(expression_of(alloc, parts)?)?,
            None => return Ok(None),
        }
    }
    Ok(Some(expressions))
}

/// Reads one validation. `None` if the value isn't one.
fn parts_of(validation: &Value) -> Option<Parts<'_>>
    ensures { option_map parts_view result ≡ expression_in (view validation.now) }
{
    Some(Parts {
        expression: validation.get("expression")?.as_str()?,
        message: text_at(validation, "message")?,
        message_expression: text_at(validation, "messageExpression")?,
    })
}

/// The string in a member, if the member is there and not null. The outer option is `None` if it is
/// something else.
fn text_at<'v>(validation: &'v Value, key: &str) -> Option<Option<&'v str>>
    ensures { option_map (option_map (λ s. s.now)) result ≡ text_at key.now (view validation.now) }
{
    match validation.get(key) {
        None | Some(Value::Null) => Some(None),
        Some(Value::String(text)) => Some(Some(text.as_str())),
        Some(_) => None,
    }
}

/// Builds a validation from its strings.
fn expression_of(alloc: Global, parts: Parts<'_>) -> Result<VapExpression, AllocError>
    ensures { IfOk result (λ x. expression_view x ≡ parts_view parts.entry) }
{
    Ok(VapExpression {
        expression: String::from_str(alloc, parts.expression)?,
        message: copy_of(alloc, parts.message)?,
        message_expression: copy_of(alloc, parts.message_expression)?,
    })
}

fn copy_of(alloc: Global, text: Option<&str>) -> Result<Option<String>, AllocError>
    ensures { IfOk result (λ o. option_map string_bytes o ≡ option_map (λ s. s.now) text.entry) }
{
    match text {
        Some(text) => Ok(Some(String::from_str(alloc, text)?)),
        None => Ok(None),
    }
}
