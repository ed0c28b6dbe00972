//! Answers questions about the CEL names of fields.

use conformance_rows::{Field, Found, Output, Stop};
use kube_schema::{escape_field_name, unescape_field_name};
use std::alloc::Global;

/// Writes a field's CEL name, and checks that unescaping gives the field back.
pub(crate) fn put_escaped(alloc: Global, name: &str, out: &mut Output) {
    let Some(escaped) = out.take(escape_field_name(alloc, name)) else {
        return;
    };
    out.push(escaped.as_str());
    match out.take(unescape_field_name(alloc, escaped.as_str())) {
        Some(Some(back)) if back.as_str() == name => {}
        _ => out.stop(Stop::Differs("unescape_field_name")),
    }
}

/// Answers with a name's form in CEL, as JSON.
pub(crate) fn escaped(alloc: Global, given: &[Field], found: &mut Found) {
    let name = found.required(given, "name");
    put_escaped(alloc, name, &mut found.other);
    if !found.is_stopped() {
        found.text.push_quoted(found.other.as_str());
    }
}

/// Answers with the field that a name in CEL stands for, as JSON: null if there is none.
pub(crate) fn unescaped(alloc: Global, given: &[Field], found: &mut Found) {
    let name = found.required(given, "name");
    match found.take(unescape_field_name(alloc, name)) {
        Some(Some(field)) => found.text.push_quoted(field.as_str()),
        Some(None) => found.text.push("null"),
        None => {}
    }
}
