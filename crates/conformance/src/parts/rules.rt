//! Prints the rules of nodes, as they are read and as they are compiled.

use conformance_rows::nested::given_or_empty;
use conformance_rows::{Field, Output};
use kube_schema::{CompilationError, CompilationResult, Rule, rule_values};
use serde_json::Value;
use std::alloc::{AllocError, Global};

/// Writes the fields of a rule as members of an unfinished JSON object.
fn put_fields(rule: &Rule, out: &mut Output) {
    out.push_member("rule", rule.rule.as_str());
    out.push_optional_member("message", &rule.message);
    out.push_optional_member("messageExpression", &rule.message_expression);
    out.push_optional_member("reason", &rule.reason);
    out.push_optional_member("fieldPath", &rule.field_path);
    if let Some(holds) = rule.optional_old_self {
        out.push_bool("optionalOldSelf", holds);
    }
}

/// Writes why there is no rule, as a member of an unfinished JSON object.
fn put_fault(key: &str, text: Result<String, AllocError>, out: &mut Output) {
    if let Some(text) = out.take(text) {
        out.push_member(key, text.as_str());
    }
}

/// Writes the fields of a copy of a rule.
fn put_copied(rule: &Rule, out: &mut Output) {
    if let Some(copy) = out.take(rule.try_clone()) {
        put_fields(&copy, out);
    }
}

/// Reads and copies a rule, and writes it as an object on a line.
fn put_read(alloc: Global, value: &Value, out: &mut Output) {
    out.push_line("{");
    match out.take(Rule::from_json(alloc, value)) {
        Some(Ok(rule)) => put_copied(&rule, out),
        Some(Err(fault)) => put_fault("fault", fault.to_string(alloc), out),
        None => {}
    }
    out.push("}");
}

/// Writes the rules of a row's schema as they are read, one object a line.
pub(crate) fn read(alloc: Global, given: &[Field], out: &mut Output) {
    let schema = given_or_empty(alloc, given, "schema", out);
    for value in rule_values(&schema) {
        put_read(alloc, value, out);
    }
}

/// Writes compiled rules, or why they didn't compile, one object a line.
pub(crate) fn put_compiled(
    alloc: Global,
    rules: &[Result<CompilationResult, CompilationError>],
    out: &mut Output,
) {
    for rule in rules {
        out.push_line("{");
        match rule {
            Ok(compiled) => {
                put_fields(&compiled.rule, out);
                out.push_bool("transition rule", compiled.is_transition_rule);
                out.push_bool("message program", compiled.message_program.is_some());
            }
            Err(error) => put_fault("error", error.to_string(alloc), out),
        }
        out.push("}");
    }
}
