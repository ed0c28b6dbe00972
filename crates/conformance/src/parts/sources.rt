//! Answers questions about CEL texts: whether they parse, their tokens, ASTs and names.

use crate::parts::outline::write_node;
use crate::parts::tokens::put_tokens;
use cel::{ParseErrors, Program, References};
use conformance_rows::given::{push_source, required};
use conformance_rows::texts::yes_or_no;
use conformance_rows::{Field, Found, Output, Stop};
use std::alloc::Global;

/// Answers a question about the names that a program refers to. Whether a name is free must be the
/// same by the program and by the list of its names.
fn put_names(
    given: &[Field],
    key: &str,
    program: &Program,
    references: &References,
    out: &mut Output,
) {
    match key {
        "free names" => out.push_names(references.variables()),
        "called names" => out.push_names(references.functions()),
        _ => {
            let name = required(given, "name", out);
            let is_free = program.has_variable(name);
            if references.has_variable(name) != is_free {
                out.stop(Stop::Differs("has_variable"));
            }
            out.push(yes_or_no(is_free));
        }
    }
}

/// Answers a question about a program: that its text parses, its AST, or the names that it refers
/// to.
fn find_of_program(alloc: Global, given: &[Field], key: &str, program: &Program, out: &mut Output) {
    match key {
        "read" => out.push("yes"),
        "tree" => write_node(program.expression(), 0, out),
        _ => {
            if let Some(references) = out.take(program.references(alloc)) {
                put_names(given, key, program, &references, out);
            }
        }
    }
}

/// Writes the error of a text that doesn't parse, or `no` if the question is whether it does.
fn put_unread(alloc: Global, key: &str, errors: &ParseErrors, out: &mut Output) {
    let Some(text) = out.take(errors.to_string(alloc)) else {
        return;
    };
    match (key, text.as_str()) {
        ("read", "invalid CEL expression") => out.push("no"),
        (_, text) => out.push(text),
    }
}

/// Answers a question about the AST or the names of a CEL text, or whether it parses.
fn find_of(alloc: Global, given: &[Field], key: &str, source: &str, out: &mut Output) {
    match Program::compile(alloc, source) {
        Ok(Ok(program)) => find_of_program(alloc, given, key, &program, out),
        Ok(Err(errors)) => put_unread(alloc, key, &errors, out),
        Err(refused) => out.stop(Stop::from(refused)),
    }
}

/// Answers a question about the CEL text that the row gave last.
pub(crate) fn find(alloc: Global, given: &[Field], field: &Field, found: &mut Found) {
    push_source(given, &mut found.other);
    if found.other.is_stopped() {
        return;
    }
    let source = found.other.as_str();
    match field.key.as_str() {
        "tokens" => put_tokens(alloc, source, &mut found.text),
        key => find_of(alloc, given, key, source, &mut found.text),
    }
}
