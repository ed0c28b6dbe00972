//! Checks properties of every expression, case, name and text made from a grammar. A case is a
//! schema with objects: all calls that judge an object must agree on it, and filling defaults twice
//! must be the same as filling them once.

use crate::case::Case;
use crate::parts::filled::fill_all;
use crate::parts::made::{run_expressions, run_names_and_texts};
use crate::verdicts::judged;
use conformance_rows::grammar::Maker;
use conformance_rows::{Found, Output, Stop, given};
use serde_json::Value;
use std::alloc::Global;

/// The number of schemas that are made.
const SCHEMAS: usize = 20_000;

/// The case in a JSON list: a schema, an object and an old object.
fn case_of(list: &Value) -> Option<Case<'_>> {
    let Value::Array(parts) = list else {
        return None;
    };
    match parts.as_slice() {
        [.., schema, object, old] => Some(Case {
            schema,
            object,
            old: Some(old),
            root: None,
        }),
        _ => None,
    }
}

/// Fills the defaults of a case's object and judges the case, in all ways. Returns the number of
/// errors.
fn judge_case(alloc: Global, case: Case<'_>, found: &mut Found) -> usize {
    found.clear();
    fill_all(alloc, case, found);
    found.clear();
    match judged(alloc, case, found) {
        Some(Err(errors)) => errors.len(),
        _ => 0,
    }
}

/// Like `judge_case`, for the case in a text.
fn judge_text(alloc: Global, text: &str, found: &mut Found) -> usize {
    let Some(list) = found.take(given::json_of(alloc, "case", text)) else {
        return 0;
    };
    match case_of(&list) {
        Some(case) => judge_case(alloc, case, found),
        None => {
            found.stop(Stop::Unfit("case"));
            0
        }
    }
}

/// Makes cases and judges them, up to the first one that doesn't hold. Returns the number of
/// errors.
fn judge_made(alloc: Global, maker: &mut Maker, found: &mut Found) -> usize {
    let mut errors = 0usize;
    for _ in 0..SCHEMAS {
        let _ = found.take(maker.make(alloc, "case", 40));
        errors = errors.saturating_add(judge_text(alloc, maker.text.as_str(), found));
        if found.is_stopped() {
            break;
        }
    }
    errors
}

/// Makes cases and judges them, and writes how many were made.
fn run_schemas(alloc: Global, maker: &mut Maker, found: &mut Found, report: &mut Output) {
    let errors = judge_made(alloc, maker, found);
    if found.is_stopped() {
        return;
    }
    report.push("schemas: ");
    report.show(&SCHEMAS);
    report.push(" made with objects, ");
    report.show(&errors);
    report.push(" errors; all calls agree on each; ");
    report.push("defaults filled twice are those filled once\n");
}

/// Makes and checks everything, and writes how much was made, up to the first that doesn't hold.
pub(crate) fn run(alloc: Global, maker: &mut Maker, found: &mut Found, report: &mut Output) {
    run_expressions(alloc, maker, found, report);
    if !found.is_stopped() {
        run_schemas(alloc, maker, found, report);
    }
    if !found.is_stopped() {
        run_names_and_texts(alloc, maker, found, report);
    }
}
