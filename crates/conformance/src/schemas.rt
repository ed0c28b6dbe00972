//! Reads the schemas that rows of the analysis give.

use conformance_rows::{Field, Output, given as rows};
use kube_cel::{CompiledSchema, compile_schema};
use std::alloc::Global;

/// Compiles the schema that a row gave last. If it can't be compiled, records why.
pub(crate) fn compiled_given(
    alloc: Global,
    given: &[Field],
    out: &mut Output,
) -> Option<CompiledSchema> {
    let text = rows::required(given, "schema", out);
    match out.take(rows::json_of(alloc, "schema", text)) {
        Some(schema) => out.take(compile_schema(alloc, &schema)),
        None => None,
    }
}
