//! Answers rows about the linter.

use crate::schemas::compiled_given;
use crate::types::wrong_pair;
use conformance_rows::{Field, Output, Stop};
use kube_cel::{LintFinding, lint_schema};
use std::alloc::Global;

/// Writes a finding: its pointer after a number sign, its rule if it has one, and its kind and
/// message.
fn put_finding(finding: &LintFinding, out: &mut Output) {
    out.push_line("#");
    out.push(finding.pointer.as_str());
    if !finding.rule.is_empty() {
        out.push_all(&["\n  rule: ", finding.rule.as_str()]);
    }
    out.push("\n  ");
    out.debug(&finding.kind);
    out.push_all(&[": ", finding.message.as_str()]);
}

/// Writes the linter's findings about the row's schema. Each must equal itself, found a second time,
/// and no other.
pub(crate) fn find(alloc: Global, given: &[Field], out: &mut Output) {
    let Some(compiled) = compiled_given(alloc, given, out) else {
        return;
    };
    let findings = out.take(lint_schema(alloc, &compiled));
    let again = out.take(lint_schema(alloc, &compiled));
    if let (Some(findings), Some(again)) = (findings, again) {
        if wrong_pair(findings.as_slice(), again.as_slice()).is_some() {
            out.stop(Stop::Differs("=="));
        }
        for finding in findings.iter() {
            put_finding(finding, out);
        }
    }
}
