//! Prints the errors of a verdict, of their copies, and of a list in JSON.

use crate::types::read;
use conformance_rows::given::required;
use conformance_rows::{Field, Output, Stop};
use kube_cel::{ValidationError, ValidationErrors};
use std::alloc::{AllocError, Global};

/// The answer of validation for an object.
pub(crate) type Verdict = Result<(), ValidationErrors>;

/// Appends an error as a JSON object on a line.
fn push_error(alloc: Global, error: &ValidationError, out: &mut Output) {
    out.push_line("{\"kind\": \"");
    out.debug(&error.kind);
    out.push("\"");
    out.push_member("path", error.field_path.as_str());
    out.push_member("rule", error.rule.as_str());
    out.push_optional_member("reason", &error.reason);
    out.push_member("message", error.message.as_str());
    let cause = match error.cause() {
        Some(cause) => out.take(cause.to_string(alloc)),
        None => None,
    };
    out.push_optional_member("cause", &cause);
    out.push("}");
}

/// Appends all fields of errors, one error a line.
fn push_errors(alloc: Global, errors: &[ValidationError], out: &mut Output) {
    for error in errors {
        push_error(alloc, error, out);
    }
}

/// Appends all fields of all errors of a verdict, one error a line.
pub(crate) fn push_parts(alloc: Global, verdict: &Verdict, out: &mut Output) {
    let Some(errors) = verdict.as_ref().err() else {
        return;
    };
    if errors.is_empty() || errors.len() != errors.as_slice().len() {
        out.stop(Stop::Differs("the number of errors"));
    }
    push_errors(alloc, errors.as_slice(), out);
}

/// Appends all fields of a copy of an error on a line. The copy must be equal to the error.
fn push_copy(alloc: Global, error: &ValidationError, out: &mut Output) {
    if let Some(copy) = out.take(error.try_clone()) {
        if copy != *error {
            out.stop(Stop::Differs("try_clone"));
        }
        push_error(alloc, &copy, out);
    }
}

/// Appends all fields of copies of the errors in a copy of a list, one error a line. All copies must
/// be equal to what they are copied from.
pub(crate) fn push_copies(alloc: Global, errors: &ValidationErrors, out: &mut Output) {
    let Some(copies) = out.take(errors.try_clone()) else {
        return;
    };
    if copies != *errors {
        out.stop(Stop::Differs("try_clone"));
    }
    for error in copies {
        push_copy(alloc, &error, out);
    }
}

/// Writes all fields of the errors that are read from the row's JSON, one error a line.
pub(crate) fn put_read(alloc: Global, given: &[Field], out: &mut Output) {
    let errors: Result<Option<ValidationErrors>, AllocError> = read(
        alloc,
        required(given, "json", out),
    );
    match out.take(errors) {
        Some(Some(errors)) => push_errors(alloc, errors.as_slice(), out),
        _ => out.stop(Stop::Unfit("json")),
    }
}

/// Writes errors as they print themselves, one a line.
fn put_printed(errors: &[ValidationError], out: &mut Output) {
    for error in errors {
        out.push_line("");
        out.show(error);
    }
}

/// Writes what a field asks about errors.
pub(crate) fn put_asked(alloc: Global, asked: &str, errors: &ValidationErrors, out: &mut Output) {
    match asked {
        "error parts" => push_errors(alloc, errors.as_slice(), out),
        "printed" => out.show(errors),
        _ => put_printed(errors.as_slice(), out),
    }
}
