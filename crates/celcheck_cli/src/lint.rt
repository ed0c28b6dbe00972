//! `lint`: reviews the rules of a schema.
ghost use Rattle.celcheck_cli.specs.Linted.{AreFindings, IsLinted, finding_line, findings_status, kind_text};
ghost use Rattle.kube_cel.specs.Findings.{finding_view};
ghost use Rattle.std.specs.Io.KnownBytes.{Appends};
ghost use Rattle.std.specs.List.{flat_map};
ghost use Rattle.std.specs.Prelude.{◌≡◌, ◌≤◌, IfOk, OnOk, map};

use crate::files::{Sources, read_json};
use crate::status::{FAILED, PASSED, Stop, report_stop, status_reported};
use kube_cel::{LintFinding, LintKind, compile_schema, lint_schema};
use std::alloc::Global;
use std::io;
use std::io::Write;

/// Lints the rules of a schema, writes the findings and returns the exit status.
pub(crate) fn run_lint<S: Sources, O: Write, E: Write>(
    alloc: Global,
    schema: &str,
    files: &mut S,
    out: &mut O,
    err: &mut E,
) -> u8
    ensures linted { result ≤ 1
        → IsLinted S.reads files.old schema.now files.new result
        (Appends (O.contents out.old) (O.contents out.new)) }
    ensures statuses { result ≤ 2 }
{
    match findings_of(alloc, schema, files) {
        Ok(findings) => report_findings(findings.as_slice(), out),
        Err(stop) => report_stop(stop, err),
    }
}

/// Returns the findings about the rules of a schema.
fn findings_of<S: Sources>(
    alloc: Global,
    schema: &str,
    files: &mut S,
) -> Result<Vec<LintFinding>, Stop>
    ensures { IfOk result (λ v. AreFindings S.reads files.old schema.now files.new v.items) }
{
    let schema = read_json(alloc, schema, files)?;
    let compiled = compile_schema(alloc, &schema)?;
    Ok(lint_schema(alloc, &compiled)?)
}

/// Writes a line for each finding and returns the exit status.
fn report_findings<O: Write>(findings: &[LintFinding], out: &mut O) -> u8
    ensures reported { result ≤ 1 → (result ≡ findings_status (map finding_view findings.now))
        × Appends (O.contents out.old) (O.contents out.new)
        (flat_map finding_line (map finding_view findings.now)) }
    ensures statuses { result ≤ 2 }
{
    status_reported(status_of(findings), write_findings(findings, out))
}

/// Returns 0 if there are no findings, else 1.
fn status_of(findings: &[LintFinding]) -> u8
    ensures status { result ≡ findings_status (map finding_view findings.now) }
    ensures within { result ≤ 1 }
{
    match findings {
        [] => PASSED,
        [_, ..] => FAILED,
    }
}

/// Writes a line for each finding. Stops at the first write that fails.
fn write_findings<O: Write>(findings: &[LintFinding], out: &mut O) -> io::Result<()>
    ensures { OnOk result (Appends (O.contents out.old) (O.contents out.new)
        (flat_map finding_line (map finding_view findings.now))) }
{
    for finding in findings {
        write_finding(finding, out)?;
    }
    Ok(())
}

/// Writes the line of a finding.
fn write_finding<O: Write>(finding: &LintFinding, out: &mut O) -> io::Result<()>
    ensures { OnOk result (Appends (O.contents out.old)
        (O.contents out.new) (finding_line (finding_view finding.now))) }
{
    let kind = kind_text(finding.kind);
    writeln!(out, "#{}: {kind}: {}", finding.pointer, finding.message)
}

/// Returns the word for a kind of finding.
fn kind_text(kind: LintKind) -> &'static str
    ensures { result.now ≡ kind_text kind }
{
    match kind {
        LintKind::Compile => "compile",
        LintKind::Function => "function",
        LintKind::Scope => "scope",
        LintKind::Cost => "cost",
        LintKind::Bounds => "bounds",
        LintKind::Depth => "depth",
    }
}
