//! Answers expressions over objects bound by their schema.

use crate::case::{self, Case};
use crate::parts::answers::end_ran;
use crate::parts::ways::compiled;
use cel::{Context, Program, StandardFunctions, Value};
use conformance_rows::{Field, Found, Stop, given as rows};
use kube_schema::{bind, bind_node, compile_schema};
use serde_json::Value as Json;
use std::alloc::Global;
use std::rc::Rc;

/// Runs a program with `self` bound to a value.
fn run(alloc: Global, program: &Program, value: Value, call: &'static str, found: &mut Found) {
    let mut context: Context<'_, StandardFunctions> = Context::default(alloc);
    found.take(context.add_variable("self", value));
    if let Some(ran) = found.take(Rc::new(alloc, program.execute(alloc, &context))) {
        end_ran(alloc, "bound", ran.as_ref(), call, found);
    }
}

/// Binds an object by its compiled schema, at a depth.
fn bound_by_node(alloc: Global, schema: &Json, object: &Json, depth: usize) -> Result<Value, Stop> {
    let compiled = compile_schema(alloc, schema)?;
    Ok(bind_node(alloc, &compiled.root(), object, depth)?)
}

/// Runs a program over an object bound by its schema, both as JSON and compiled, at a depth.
fn run_both(alloc: Global, program: &Program, case: Case<'_>, depth: usize, found: &mut Found) {
    let Case { schema, object, .. } = case;
    let Some(by_json) = found.take(bind(alloc, schema, object, depth)) else {
        return;
    };
    let Some(by_node) = found.take(bound_by_node(alloc, schema, object, depth)) else {
        return;
    };
    if by_json != by_node {
        found.stop(Stop::Differs("bind and bind_node"));
    }
    run(alloc, program, by_json, "bind", found);
    run(alloc, program, by_node, "bind_node", found);
}

/// Runs a CEL text over a case's object, bound by its schema at a depth.
fn run_text(alloc: Global, text: &str, case: Case<'_>, depth: usize, found: &mut Found) {
    if let Some(program) = found.take(compiled(alloc, text)) {
        run_both(alloc, &program, case, depth, found);
    }
}

/// Runs a row's expression over its object, bound by its schema.
pub(crate) fn find(alloc: Global, given: &[Field], found: &mut Found) {
    let text = found.required(given, "expression");
    let depth = rows::number(given, "depth", &mut found.other).unwrap_or(0);
    let values = case::given(alloc, given, found);
    run_text(alloc, text, values.case(), depth as usize, found);
}
