//! Fills objects with their defaults.

use crate::case::{self, Case};
use conformance_rows::nested::find_nested;
use conformance_rows::{Field, Found};
use kube_schema::{CompiledSchema, Refused, apply_defaults, compile_schema, fill_node};
use serde_json::Value;
use std::alloc::Global;

/// Ends a call that filled an object, and returns that object.
fn end_filled(
    filled: Result<Value, Refused>,
    call: &'static str,
    found: &mut Found,
) -> Option<Value> {
    let filled = found.take(filled)?;
    found.end_json(&filled, call);
    Some(filled)
}

/// Fills an object by its schema as JSON, once and then again.
fn fill(alloc: Global, schema: &Value, object: &Value, found: &mut Found) {
    let once = apply_defaults(alloc, schema, object);
    if let Some(once) = end_filled(once, "apply_defaults", found) {
        let twice = apply_defaults(alloc, schema, &once);
        end_filled(twice, "apply_defaults twice", found);
    }
}

/// Fills an object by its compiled schema, once and then again.
fn fill_compiled(alloc: Global, compiled: &CompiledSchema, object: &Value, found: &mut Found) {
    let root = compiled.root();
    if let Some(once) = end_filled(fill_node(alloc, &root, object), "fill_node", found) {
        let twice = fill_node(alloc, &root, &once);
        end_filled(twice, "fill_node twice", found);
    }
}

/// Fills an object by both forms of its schema, each time once and then again. Every result must be
/// the same, and equal to an earlier answer if there is one.
pub(crate) fn fill_all(alloc: Global, case: Case<'_>, found: &mut Found) {
    let Case { schema, object, .. } = case;
    fill(alloc, schema, object, found);
    if let Some(compiled) = found.take(compile_schema(alloc, schema)) {
        fill_compiled(alloc, &compiled, object, found);
    }
}

/// Answers with the field's text if its JSON, nested as the row says, is the object with its
/// defaults.
pub(crate) fn find(alloc: Global, given: &[Field], field: &Field, found: &mut Found) {
    find_nested(alloc, given, field, found);
    let values = case::given(alloc, given, found);
    fill_all(alloc, values.case(), found);
    found.say(field.text.as_str());
}
