//! `vap`: evaluates the validations of a policy.
ghost use Rattle.celcheck_cli.specs.Reports.{AreResults, IsReviewed, result_line, results_status};
ghost use Rattle.kube_cel.specs.Validations.{result_view};
ghost use Rattle.std.specs.Io.KnownBytes.{Appends};
ghost use Rattle.std.specs.List.{flat_map};
ghost use Rattle.std.specs.Prelude.{◌≡◌, ◌≤◌, IfOk, OnOk, map};

use crate::files::{Sources, read_json};
use crate::policy::validations_of;
use crate::status::{FAILED, PASSED, Stop, report_stop, status_reported};
use kube_cel::{VapEvaluator, VapResult};
use std::alloc::Global;
use std::io;
use std::io::Write;

/// Evaluates the validations of a policy over an object, writes their results and returns the exit
/// status.
pub(crate) fn run_vap<S: Sources, O: Write, E: Write>(
    alloc: Global,
    policy: &str,
    object: &str,
    files: &mut S,
    out: &mut O,
    err: &mut E,
) -> u8
    ensures reviewed { result ≤ 1
        → IsReviewed S.reads files.old policy.now object.now files.new result
        (Appends (O.contents out.old) (O.contents out.new)) }
    ensures statuses { result ≤ 2 }
{
    match results_of(alloc, policy, object, files) {
        Ok(results) => report_results(results.as_slice(), out),
        Err(stop) => report_stop(stop, err),
    }
}

/// Evaluates the validations of a policy. Both files are read, in order, before anything is judged.
fn results_of<S: Sources>(
    alloc: Global,
    policy: &str,
    object: &str,
    files: &mut S,
) -> Result<Vec<VapResult>, Stop>
    ensures { IfOk result (λ v. AreResults S.reads files.old policy.now object.now files.new v.items) }
{
    let policy = read_json(alloc, policy, files)?;
    let object = read_json(alloc, object, files)?;
    match validations_of(alloc, &policy)? {
        Some(validations) => {
            let evaluator = VapEvaluator::builder().object(object).build();
            Ok(evaluator.evaluate(alloc, validations.as_slice())?)
        }
        None => Err(Stop::BadPolicy),
    }
}

/// Writes a line for each result and returns the exit status.
fn report_results<O: Write>(results: &[VapResult], out: &mut O) -> u8
    ensures reported { result ≤ 1 → (result ≡ results_status (map result_view results.now))
        × Appends (O.contents out.old) (O.contents out.new)
        (flat_map result_line (map result_view results.now)) }
    ensures statuses { result ≤ 2 }
{
    status_reported(status_of(results), write_results(results, out))
}

/// Returns 0 if all validations passed, else 1.
fn status_of(results: &[VapResult]) -> u8
    ensures status { result ≡ results_status (map result_view results.now) }
    ensures within { result ≤ 1 }
{
    for result in results {
        if !result.passed {
            return FAILED;
        }
    }
    PASSED
}

/// Writes a line for each result. Stops at the first write that fails.
fn write_results<O: Write>(results: &[VapResult], out: &mut O) -> io::Result<()>
    ensures { OnOk result (Appends (O.contents out.old) (O.contents out.new)
        (flat_map result_line (map result_view results.now))) }
{
    for result in results {
        write_result(result, out)?;
    }
    Ok(())
}

/// Writes the line of a result.
fn write_result<O: Write>(reported: &VapResult, out: &mut O) -> io::Result<()>
    ensures { OnOk result (Appends (O.contents out.old)
        (O.contents out.new) (result_line (result_view reported.now))) }
{
    match &reported.message {
        None => writeln!(out, "pass {}", reported.expression),
        Some(message) => writeln!(out, "fail {}: {message}", reported.expression),
    }
}
