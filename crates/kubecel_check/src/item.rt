//! Builds the items and findings of a report.
ghost use Rattle.kubecel_io.specs.Subjects.{subject_view};
ghost use Rattle.kubecel_report.specs.Items.{finding_view, item_view};
ghost use Rattle.kubecel_check.specs.Judgements.{item_of, remark};
ghost use Rattle.std.specs.Prelude.{◌≡◌, IfOk, map, string_bytes};

use kubecel_io::Subject;
use kubecel_report::{Finding, Item, Verdict};
use std::alloc::{AllocError, Global};

/// Builds the item of an object with this verdict and these findings.
pub fn item_of(
    alloc: Global,
    subject: &Subject<'_>,
    verdict: Verdict,
    findings: Vec<Finding>,
) -> Result<Item, AllocError>
    ensures { IfOk result (λ i. item_view i
        ≡ item_of (subject_view subject.now) verdict (map finding_view findings.items)) }
{
    let called = subject.identity;
    Ok(Item {
        file: String::from_str(alloc, subject.file)?,
        index: subject.index,
        kind: String::from_str(alloc, called.kind)?,
        namespace: String::from_str(alloc, called.namespace)?,
        name: String::from_str(alloc, called.name)?,
        verdict,
        findings,
    })
}

/// Returns a single finding, which is about the whole thing.
pub fn remark(alloc: Global, message: String) -> Result<Vec<Finding>, AllocError>
    ensures { IfOk result (λ v. map finding_view v.items ≡ remark (string_bytes message)) }
{
    let mut findings = Vec::new(alloc);
    findings.push(Finding {
        location: String::new(alloc),
        rule: String::new(alloc),
        message,
    })?;
    Ok(findings)
}
