//! Functions on named formats.
ghost use Rattle.std.specs.Prelude.{◌≡◌, Ok, map, option_map, string_bytes, IfOk};
ghost use Rattle.cel_value.specs.Data as plain;
ghost use Rattle.cel_value.specs.View.{view};
ghost use Rattle.cel_semantics.specs.Outcome.{outcome_view};
ghost use Rattle.kube_types.specs.Formats.{kind_of};
ghost use Rattle.kube_functions_types.specs.NamedFormat as spec;

use crate::answers::{text_values, wrong_kind};
use cel_semantics::Answer;
use cel_value::{OptionalValue, Refused, Value};
use kube_types::{FormatKind, KubeFormat};
use std::alloc::Global;

/// `format.dns1123Label` and the other twelve: returns the format of the kind.
pub fn format(kind: FormatKind) -> Answer
    ensures { outcome_view result ≡ Ok (plain.format kind) }
{
    Ok(Value::Format(KubeFormat::new(kind)))
}

fn format_named(name: &str) -> Option<KubeFormat>
    ensures { option_map kind_of result ≡ spec.kind_named name.now }
{
    KubeFormat::named(name)
}

/// `format.named`: returns the format with a name, or null if there is none.
///
/// # Errors
/// [`Refused::Memory`] if memory is refused.
pub fn named(alloc: Global, value: &Value) -> Result<Answer, Refused>
    ensures value { IfOk result (λ r. outcome_view r ≡ spec.named_format (view value.now)) }
{
    match value {
        Value::String(name) => match format_named(name.as_str()) {
            Some(format) => Ok(Ok(Value::Format(format))),
            None => Ok(Ok(Value::Null)),
        },
        _ => wrong_kind(alloc, "format.named"),
    }
}

fn held_faults(alloc: Global, faults: Vec<String>) -> Result<OptionalValue, Refused>
    ensures value { IfOk result (λ o. o ≡ spec.held_faults (map string_bytes faults.items)) }
{
    if faults.is_empty() {
        return Ok(OptionalValue::none());
    }
    let list = Value::from_items(alloc, text_values(alloc, faults)?)?;
    OptionalValue::of(alloc, list)
}

fn validated(alloc: Global, format: KubeFormat, value: &Value) -> Result<Answer, Refused>
    ensures value { IfOk result
        (λ r. outcome_view r ≡ spec.validate (plain.format (kind_of format)) (view value.now)) }
{
    match value {
        Value::String(text) => {
            let faults = format.faults(alloc, text.as_str())?;
            Ok(Ok(Value::Optional(held_faults(alloc, faults)?)))
        }
        _ => wrong_kind(alloc, "validate"),
    }
}

/// `validate`: returns an optional that holds the list of the faults
/// of a string in a format. It is empty if there are no faults.
///
/// # Errors
/// [`Refused::Memory`] if memory is refused.
pub fn validate(alloc: Global, value: &Value, text: &Value) -> Result<Answer, Refused>
    ensures value { IfOk result (λ r. outcome_view r ≡ spec.validate (view value.now) (view text.now)) }
{
    match value {
        Value::Format(format) => validated(alloc, *format, text),
        _ => wrong_kind(alloc, "validate"),
    }
}
