//! `check`: validates an object.
ghost use Rattle.celcheck_cli.specs.Runs.{IfErrors, IsAnswered};
ghost use Rattle.celcheck_cli.specs.Words.{named_view};
ghost use Rattle.kube_cel.specs.Answers.{IsReportOf};
ghost use Rattle.kube_cel.specs.Raw.{raw_accessors};
ghost use Rattle.kube_cel.specs.Starts.{call_start};
ghost use Rattle.kube_cel.specs.ValidationErrors.{ValidationErrors};
ghost use Rattle.kube_cel.specs.ErrorLists.{errors_in};
ghost use Rattle.kube_cel.specs.Texts.{errors_text};
ghost use Rattle.std.specs.Io.KnownBytes.{Appends};
ghost use Rattle.std.specs.Prelude.{◌≡◌, ◌≤◌, ◌++◌, ◌∷◌, [], Ok, Err, IfOk};

use crate::files::{Sources, read_json, read_where_named};
use crate::status::{FAILED, PASSED, Stop, report_stop, status_reported};
use crate::words::Named;
use kube_cel::{Refused, ValidationErrors, compile_schema, validate_compiled};
use serde_json::Value;
use std::alloc::Global;
use std::io::Write;

/// Validates an object, writes its errors and returns the exit status.
pub(crate) fn run_check<S: Sources, O: Write, E: Write>(
    alloc: Global,
    named: Named<'_>,
    files: &mut S,
    out: &mut O,
    err: &mut E,
) -> u8
    ensures passed { result ≡ 0 → IsAnswered S.reads files.old (named_view named.entry) files.new (Ok tt) }
    ensures silent { result ≡ 0 → O.contents out.new ≡ O.contents out.old }
    ensures failed { result ≡ 1 → (errors : ValidationErrors)
        × IsAnswered S.reads files.old (named_view named.entry) files.new (Err errors)
        × Appends (O.contents out.old) (O.contents out.new) (errors_text (errors_in errors) ++ 10 ∷ []) }
    ensures statuses { result ≤ 2 }
{
    let validation_of = errors_of(alloc, named, files);
    report_errors(validation_of, out, err)
}

/// Validates an object. All files are read, in order, before anything is judged.
fn errors_of<S: Sources>(
    alloc: Global,
    named: Named<'_>,
    files: &mut S,
) -> Result<Result<(), ValidationErrors>, Stop>
    ensures { IfOk result (IsAnswered S.reads files.old (named_view named.entry) files.new) }
{
    let schema = read_json(alloc, named.schema, files)?;
    let object = read_json(alloc, named.object, files)?;
    let old = read_where_named(alloc, named.old, files)?;
    Ok(validation_of(alloc, &schema, &object, old.as_ref())?)
}

/// Validates an object by its schema. The schema is compiled first, so that each rule is compiled
/// once and not at each place.
fn validation_of(
    alloc: Global,
    schema: &Value,
    object: &Value,
    old: Option<&Value>,
) -> Result<Result<(), ValidationErrors>, Refused>
    ensures answer { IfOk result
        (IsReportOf raw_accessors (call_start schema.now object.now old.entry None)) }
{
    let compiled = compile_schema(alloc, schema)?;
    validate_compiled(alloc, &compiled, object, old)
}

/// Writes the errors that were found, or why nothing was judged. Returns the exit status.
fn report_errors<O: Write, E: Write>(
    validation_of: Result<Result<(), ValidationErrors>, Stop>,
    out: &mut O,
    err: &mut E,
) -> u8
    ensures passed { result ≡ 0 → validation_of ≡ Ok (Ok tt) }
    ensures silent { result ≡ 0 → O.contents out.new ≡ O.contents out.old }
    ensures failed { result ≡ 1 → IfErrors validation_of (λ errors.
        Appends (O.contents out.old) (O.contents out.new) (errors_text (errors_in errors) ++ 10 ∷ [])) }
    ensures statuses { result ≤ 2 }
{
    match validation_of {
        Ok(Ok(())) => PASSED,
        Ok(Err(errors)) => status_reported(FAILED, writeln!(out, "{errors}")),
        Err(stop) => report_stop(stop, err),
    }
}
