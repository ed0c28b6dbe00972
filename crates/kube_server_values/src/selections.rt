//! Optional selections and indices.
ghost use Rattle.std.specs.Prelude.{◌≡◌, IfOk};
ghost use Rattle.cel_value.specs.Data as plain;
ghost use Rattle.cel_value.specs.Keys.{key_view};
ghost use Rattle.cel_value.specs.View.{view};
ghost use Rattle.cel_semantics.specs.Members.{selection, index_outcome};
ghost use Rattle.cel_semantics.specs.Outcome.{outcome_view};
ghost use Rattle.kube_server_values.specs.Selections as spec;

use crate::limits::limit;
use crate::optionals::{none_of_all, some_of};
use cel_semantics::members::{index, select};
use cel_semantics::operators::{Answer, no_such_overload};
use cel_value::{ExecutionError, Key, Refused, Text, Value};
use std::alloc::Global;

/// Returns an optional of what a selection or an index found.
fn optionally(alloc: Global, found: Answer) -> Result<Answer, Refused>
    ensures value { IfOk result (λ r. outcome_view r ≡ spec.optionally (outcome_view found)) }
{
    match found {
        Ok(value) => some_of(alloc, &value),
        Err(ExecutionError::NoSuchKey(_)) => Ok(none_of_all()),
        Err(ExecutionError::IndexOutOfBounds) => Ok(none_of_all()),
        Err(ExecutionError::NoSuchOverload(_)) => limit(alloc, "optional member of such a value"),
        Err(ExecutionError::UnsupportedKey) => limit(alloc, "optional member at such a key"),
        Err(fault) => Ok(Err(fault)),
    }
}

fn field_of(alloc: Global, value: &Value, key: &Key) -> Result<Answer, Refused>
    ensures value { IfOk result (λ r. outcome_view r
        ≡ spec.optionally (selection (key_view key.now) (view value.now))) }
{
    optionally(alloc, select(alloc, key, value)?)
}

fn field_named(alloc: Global, value: &Value, name: &Text) -> Result<Answer, Refused>
    ensures value { IfOk result
        (λ r. outcome_view r ≡ spec.field_optional (view value.now) (plain.text name.now)) }
{
    let key = Key::String(name.clone()?);
    match value {
        Value::Optional(optional) => match optional.value() {
            Some(value) => field_of(alloc, value, &key),
            None => Ok(none_of_all()),
        },
        _ => field_of(alloc, value, &key),
    }
}

/// Returns an optional of the field of a map, or of the map that an optional holds. The name of the
/// field is a string.
///
/// # Errors
/// [`Refused::Memory`] if memory is refused.
pub fn field_optional(alloc: Global, value: &Value, name: &Value) -> Result<Answer, Refused>
    ensures value { IfOk result
        (λ r. outcome_view r ≡ spec.field_optional (view value.now) (view name.now)) }
{
    match name {
        Value::String(name) => field_named(alloc, value, name),
        _ => Ok(Err(no_such_overload(alloc, "_?._")?)),
    }
}

fn item_of(alloc: Global, value: &Value, position: &Value) -> Result<Answer, Refused>
    ensures value { IfOk result (λ r. outcome_view r
        ≡ spec.optionally (index_outcome (view value.now) (view position.now))) }
{
    optionally(alloc, index(alloc, value, position)?)
}

/// Returns an optional of the item of a list or of the member of a map at an index, or of those that
/// an optional holds.
///
/// # Errors
/// [`Refused::Memory`] if memory is refused.
pub fn index_optional(alloc: Global, value: &Value, position: &Value) -> Result<Answer, Refused>
    ensures value { IfOk result
        (λ r. outcome_view r ≡ spec.index_optional (view value.now) (view position.now)) }
{
    match value {
        Value::Optional(optional) => match optional.value() {
            Some(value) => item_of(alloc, value, position),
            None => Ok(none_of_all()),
        },
        _ => item_of(alloc, value, position),
    }
}
