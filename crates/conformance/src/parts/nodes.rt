//! Answers questions about compiled schemas and their nodes.

use crate::parts::rules::put_compiled;
use crate::parts::shown::{put_children, put_keywords, shows_its_root};
use conformance_rows::nested::{Nesting, given_or_empty, nesting_given};
use conformance_rows::{Field, Found, Output, Stop, given as rows};
use kube_schema::{CompiledSchema, SchemaNode, compile_schema, rules_of};
use serde_json::Value;
use std::alloc::Global;

/// The node that a step leads to, if any: `items`, `additionalProperties`, `properties NAME`, or
/// `property`, `allOf`, `oneOf` or `anyOf` followed by a number.
fn step<'a>(node: &SchemaNode<'a>, line: &str) -> Option<SchemaNode<'a>> {
    let (keyword, rest) = line.split_once(' ').unwrap_or((line, ""));
    let number = rest.parse::<usize>().unwrap_or(usize::MAX);
    match (keyword, rest) {
        ("items", "") => node.items(),
        ("additionalProperties", "") => node.additional_properties(),
        ("properties", name) => node.property_named(name),
        ("property", _) => match node.property(number) {
            Some((_, child)) => Some(child),
            None => None,
        },
        ("allOf", _) => node.all_of(number),
        ("oneOf", _) => node.one_of(number),
        ("anyOf", _) => node.any_of(number),
        _ => None,
    }
}

/// The node that the steps lead to, starting inside the nesting. `None` if there is no such node,
/// or if one of the nesting's own nodes has rules.
fn node_at<'a>(
    compiled: &'a CompiledSchema,
    nesting: Nesting,
    steps: &str,
) -> Option<SchemaNode<'a>> {
    let mut node = compiled.root();
    for _ in 0..nesting.levels {
        if !node.validations().is_empty() {
            return None;
        }
        node = step(&node, nesting.step)?;
    }
    for line in steps.lines() {
        node = step(&node, line)?;
    }
    Some(node)
}

/// Writes why rules of a node didn't compile, one a line.
fn put_errors(alloc: Global, node: &SchemaNode<'_>, out: &mut Output) {
    match node.compilation_errors(alloc) {
        Ok(errors) => {
            for index in 0..errors.len() {
                out.push_line("");
                out.push_made(errors[index].to_string(alloc));
            }
        }
        Err(refused) => out.stop(Stop::from(refused)),
    }
    if node.has_errors() == out.is_empty() {
        out.stop(Stop::Differs("has_errors"));
    }
}

/// Answers a question about a node.
fn find_of(
    alloc: Global,
    compiled: &CompiledSchema,
    node: &SchemaNode<'_>,
    key: &str,
    out: &mut Output,
) {
    match key {
        "node count" => out.show(&compiled.node_count()),
        "shown" => {
            put_keywords(node, out);
            put_children(node, out);
        }
        "compilation errors" => put_errors(alloc, node, out),
        _ => put_compiled(alloc, node.validations(), out),
    }
}

/// Checks that a compiled schema has the keywords of its root, and that `rules_of` gives the root's
/// rules.
fn compare(alloc: Global, schema: &Value, compiled: &CompiledSchema, found: &mut Found) {
    let root = compiled.root();
    if !shows_its_root(compiled, &root) {
        found.stop(Stop::Differs("the root"));
    }
    put_compiled(alloc, root.validations(), &mut found.other);
    found.end("validations");
    if let Some(rules) = found.take(rules_of(alloc, schema)) {
        put_compiled(alloc, rules.as_slice(), &mut found.other);
        found.end("rules_of");
    }
    found.clear();
}

/// Answers a question about the node that a row's steps lead to.
fn find_in(
    alloc: Global,
    given: &[Field],
    schema: &Value,
    compiled: &CompiledSchema,
    key: &str,
    found: &mut Found,
) {
    compare(alloc, schema, compiled, found);
    let Some(nesting) = found.take(nesting_given(given)) else {
        return;
    };
    if found.is_stopped() {
        return;
    }
    match node_at(compiled, nesting, rows::text(given, "node").unwrap_or("")) {
        Some(node) => find_of(alloc, compiled, &node, key, &mut found.text),
        None => found.text.push("no such node"),
    }
}

/// Answers a question about a node of the row's schema.
pub(crate) fn find(alloc: Global, given: &[Field], field: &Field, found: &mut Found) {
    let schema = given_or_empty(alloc, given, "schema", &mut found.other);
    if let Some(compiled) = found.take(compile_schema(alloc, &schema)) {
        find_in(alloc, given, &schema, &compiled, field.key.as_str(), found);
    }
}
