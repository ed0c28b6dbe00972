//! Judges an object by all calls that can, which must all agree.

use crate::case::{self, Case};
use crate::errors::{Verdict, push_copies, push_parts, put_asked};
use crate::types::{find_written, written_and_read};
use conformance_rows::{Field, Found};
use kube_cel::cel::PatternBook;
use kube_cel::{CompiledSchema, Refused, Validator, compile_schema, validate, validate_compiled};
use std::alloc::Global;

/// What a call that judges an object returns.
type Judged = Result<Verdict, Refused>;

/// Compares the verdict of a call with the first one: by `==`, and by every field of every error.
fn hold(alloc: Global, first: &Verdict, verdict: Judged, call: &'static str, found: &mut Found) {
    let Some(verdict) = found.take(verdict) else {
        return;
    };
    push_parts(alloc, &verdict, &mut found.other);
    found.end_equal(first.as_ref().err() == verdict.as_ref().err(), call);
}

/// Compares the verdicts of the calls that take no root context.
fn hold_plain(
    alloc: Global,
    case: Case<'_>,
    compiled: &CompiledSchema,
    first: &Verdict,
    found: &mut Found,
) {
    let Case {
        schema,
        object,
        old,
        ..
    } = case;
    let judge = Validator::default();
    let verdict = judge.validate(alloc, schema, object, old);
    hold(alloc, first, verdict, "Validator::validate", found);
    let verdict = judge.validate_with_defaults(alloc, schema, object, old);
    hold(alloc, first, verdict, "validate_with_defaults", found);
    let verdict = validate(alloc, schema, object, old);
    hold(alloc, first, verdict, "validate", found);
    let verdict = judge.validate_compiled(alloc, compiled, object, old);
    hold(alloc, first, verdict, "Validator::validate_compiled", found);
    let verdict = validate_compiled(alloc, compiled, object, old);
    hold(alloc, first, verdict, "validate_compiled", found);
}

/// Compares the verdicts by both forms of the schema with one book lent to all calls. The JSON form
/// is judged again at the end.
fn hold_lent(
    alloc: Global,
    case: Case<'_>,
    compiled: &CompiledSchema,
    first: &Verdict,
    found: &mut Found,
) {
    let Case {
        schema,
        object,
        old,
        root,
    } = case;
    let judge = Validator::new();
    let mut book = PatternBook::new(alloc);
    let verdict = judge.validate_in(alloc, schema, object, old, root, &mut book);
    hold(alloc, first, verdict, "validate_in", found);
    let verdict = judge.validate_compiled_in(alloc, compiled, object, old, root, &mut book);
    hold(alloc, first, verdict, "validate_compiled_in", found);
    let verdict = judge.validate_in(alloc, schema, object, old, root, &mut book);
    hold(alloc, first, verdict, "validate_in, again", found);
}

/// Compares the verdicts by both forms of the schema, with a new book for each call, and those of
/// the calls with a lent book or without a root context.
fn hold_all(
    alloc: Global,
    case: Case<'_>,
    compiled: &CompiledSchema,
    first: &Verdict,
    found: &mut Found,
) {
    let Case {
        schema,
        object,
        old,
        root,
    } = case;
    let judge = Validator::default();
    let verdict = judge.validate_with_defaults_and_context(alloc, schema, object, old, root);
    hold(
        alloc,
        first,
        verdict,
        "validate_with_defaults_and_context",
        found,
    );
    let verdict = judge.validate_compiled_with_context(alloc, compiled, object, old, root);
    hold(
        alloc,
        first,
        verdict,
        "validate_compiled_with_context",
        found,
    );
    hold_lent(alloc, case, compiled, first, found);
    if root.is_none() {
        hold_plain(alloc, case, compiled, first, found);
    }
}

/// Returns the first verdict on a case, which must be the same by each call. So must copies of its
/// errors.
pub(crate) fn judged(alloc: Global, case: Case<'_>, found: &mut Found) -> Option<Verdict> {
    let Case {
        schema,
        object,
        old,
        root,
    } = case;
    let judge = Validator::new();
    let first = found.take(judge.validate_with_context(alloc, schema, object, old, root))?;
    push_parts(alloc, &first, &mut found.other);
    found.end("validate_with_context");
    if let Err(errors) = &first {
        push_copies(alloc, errors, &mut found.other);
        found.end("try_clone");
    }
    if let Some(compiled) = found.take(compile_schema(alloc, schema)) {
        hold_all(alloc, case, &compiled, &first, found);
    }
    Some(first)
}

/// Answers a field about the verdict on a row's case.
pub(crate) fn find(alloc: Global, given: &[Field], field: &Field, found: &mut Found) {
    let values = case::given(alloc, given, found);
    find_of(alloc, values.case(), field, found);
}

/// Answers a field about the verdict on a case.
fn find_of(alloc: Global, case: Case<'_>, field: &Field, found: &mut Found) {
    let verdict = judged(alloc, case, found);
    found.clear();
    let Some(Err(errors)) = &verdict else {
        return;
    };
    if found.is_stopped() {
        return;
    }
    match field.key.as_str() {
        "errors written" => find_written(
            written_and_read(alloc, errors, field.text.as_str()),
            field,
            found,
        ),
        asked => put_asked(alloc, asked, errors, &mut found.text),
    }
}
