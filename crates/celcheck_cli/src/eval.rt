//! `eval`: evaluates an expression.
ghost use Rattle.cel_value.specs.View.{view};
ghost use Rattle.celcheck_cli.specs.Reports.{IsEvaluated, IsFound, IsReportedAs, found_line, found_status};
ghost use Rattle.std.specs.Io.KnownBytes.{Appends};
ghost use Rattle.std.specs.Prelude.{◌≡◌, ◌≤◌, ◌++◌, ◌∷◌, [], Some, Ok, IfOk};

use crate::status::{FAILED, PASSED, status_reported, stop_status};
use kube_cel::Refused;
use kube_cel::cel::{Context, ExecutionError, Kind, ParseErrors, Program, Value};
use kube_functions::{AllFunctions, printed};
use std::alloc::Global;
use std::io::Write;

/// The result of an expression as it is reported.
#[derive(Drop)]
pub(crate) enum Found {
    /// The text of its value, as `%s` formats it.
    Shown(String),
    /// The kind of its value, which `%s` can't format.
    Textless(Kind),
    /// The error of its evaluation.
    Fault(ExecutionError),
    /// The errors of parsing it.
    Unread(ParseErrors),
}

/// Evaluates an expression, writes the result and returns the exit status.
pub(crate) fn run_eval<O: Write, E: Write>(
    alloc: Global,
    text: &str,
    out: &mut O,
    err: &mut E,
) -> u8
    ensures evaluated { result ≤ 1
        → IsEvaluated text.now result (Appends (O.contents out.old) (O.contents out.new)) }
    ensures statuses { result ≤ 2 }
{
    match found_of(alloc, text) {
        Ok(found) => report_found(found, out),
        Err(_) => stop_status(writeln!(err, "celcheck: refused")),
    }
}

/// Evaluates an expression, with all functions and no variables.
fn found_of(alloc: Global, text: &str) -> Result<Found, Refused>
    ensures { IfOk result (IsFound text.now) }
{
    let program = match Program::compile(alloc, text)? {
        Ok(program) => program,
        Err(errors) => return Ok(Found::Unread(errors)),
    };
    let context: Context<'_, AllFunctions> = Context::default(alloc);
    match program.execute(alloc, &context)? {
        Ok(value) => found_value(alloc, &value),
        Err(fault) => Ok(Found::Fault(fault)),
    }
}

/// Returns the report of a value. A value that holds a double has no text.
fn found_value(alloc: Global, value: &Value) -> Result<Found, Refused>
    ensures { IfOk result (IsReportedAs (Some (Ok (view value.now)))) }
{
    match printed(alloc, value)? {
        Ok(text) => Ok(Found::Shown(text)),
        Err(_) => Ok(Found::Textless(value.type_of())),
    }
}

/// Writes the result of an expression and returns the exit status.
fn report_found<O: Write>(found: Found, out: &mut O) -> u8
    ensures reported { result ≤ 1 → (result ≡ found_status found)
        × Appends (O.contents out.old) (O.contents out.new) (found_line found ++ 10 ∷ []) }
    ensures statuses { result ≤ 2 }
{
    match found {
        Found::Shown(text) => status_reported(PASSED, writeln!(out, "{text}")),
        Found::Textless(kind) => status_reported(PASSED, writeln!(out, "<{kind}>")),
        Found::Fault(fault) => status_reported(FAILED, writeln!(out, "error: {fault}")),
        Found::Unread(errors) => status_reported(FAILED, writeln!(out, "error: {errors}")),
    }
}
