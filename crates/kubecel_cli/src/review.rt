//! `review`: reports what a person should look at in CustomResourceDefinitions.
ghost use Rattle.kube_manifests.specs.DocumentsVersions.{Version};
ghost use Rattle.kube_manifests_review.specs.Candidates as candidates;
ghost use Rattle.kubecel_io.specs.Reads.{document_view};
ghost use Rattle.kubecel_io.specs.Subjects.{subject_view};
ghost use Rattle.kubecel_report.specs.Items.{finding_view, item_view};
ghost use Rattle.kubecel_check.specs.Definitions.{AreWhole};
ghost use Rattle.kubecel_cli.specs.Runs.{AreItems, AreReviewed, IsReviewed, UnlessFault};
ghost use Rattle.kubecel_cli.specs.Reports.{is_unsupported, review_finding, review_verdict};
ghost use Rattle.serde_json.specs.Data.{Data};
ghost use Rattle.std.specs.List.{list_any};
ghost use Rattle.std.specs.Prelude.{◌≡◌, IfOk, List, None, map};

use crate::in_part::reviewed_in_part;
use crate::report::Report;
use kube_manifests::is_crd;
use kube_manifests_review::{ReviewFinding, ReviewKind, review_crd};
use kubecel_check::{fault_of, item_of, remark};
use kubecel_io::{
    Contents, Document, Refused, Sources, Stop, Subject, objects_of, read_files, whole_documents,
};
use kubecel_report::{Finding, Item, Verdict};
use std::alloc::{AllocError, Global};

/// Reviews the definitions at these paths. If one is malformed, or a file isn't used, the report says
/// so, too.
pub(crate) fn reviewed<S: Sources>(
    alloc: Global,
    crds: &[&str],
    files: &mut S,
) -> Result<Report, Stop>
    ensures { IfOk result (λ r.
        UnlessFault r (AreReviewed S.reads files.old (map (λ s. s.now) crds.now) files.new)) }
{
    let contents = read_files(alloc, crds, files)?;
    if !contents.is_whole() {
        return Ok(reviewed_in_part(alloc, contents)?);
    }
    let Contents { documents, .. } = contents;
    let subjects = objects_of(alloc, documents.as_slice())?;
    if subjects.is_empty() {
        return Err(Stop::Said(String::from_str(alloc, "no CustomResourceDefinition to review")?));
    }
    Ok(Report {
        items: review_all(alloc, subjects.as_slice())?,
        noun: "definitions",
        rules: None,
        compared: None,
        fault: fault_in(alloc, documents.as_slice())?,
    })
}

/// Returns the first fault of the first definition that has one, with its place.
pub(crate) fn fault_in(alloc: Global, documents: &[Document]) -> Result<Option<String>, Refused>
    ensures { IfOk result (λ f. f ≡ None
        → (versions : List (Version Data)) × AreWhole (map document_view documents.now) versions) }
{
    let whole = whole_documents(alloc, documents)?;
    fault_of(alloc, whole.as_slice())
}

/// Reviews each definition.
pub(crate) fn review_all(alloc: Global, subjects: &[Subject<'_>]) -> Result<Vec<Item>, Refused>
    ensures { IfOk result (λ v. AreItems IsReviewed (map subject_view subjects.now) (map item_view v.items)) }
{
    let mut items = Vec::with_capacity(alloc, subjects.len())?;
    for subject in subjects {
        items.push(review(alloc, subject)?)?;
    }
    Ok(items)
}

/// Reviews a definition.
fn review(alloc: Global, subject: &Subject<'_>) -> Result<Item, Refused>
    ensures { IfOk result (λ i. IsReviewed (subject_view subject.now) (item_view i)) }
{
    if !is_crd(subject.value) {
        let why = "not a CustomResourceDefinition of apiextensions.k8s.io/v1";
        let findings = remark(alloc, String::from_str(alloc, why)?)?;
        return Ok(item_of(alloc, subject, Verdict::NotJudged, findings)?);
    }
    let found = review_crd(alloc, subject.value)?;
    let findings = review_findings(alloc, found.as_slice())?;
    let verdict = review_verdict(found.as_slice());
    Ok(item_of(alloc, subject, verdict, findings)?)
}

/// Returns the verdict on a definition with these findings: not judged if it uses what this tool
/// lacks, else pass if there are none, else fail.
fn review_verdict(found: &[ReviewFinding]) -> Verdict
    ensures { result ≡ review_verdict (map candidates.finding_view found.now) }
{
    if any_unsupported(found) {
        return Verdict::NotJudged;
    }
    match found {
        [] => Verdict::Pass,
        [_, ..] => Verdict::Fail,
    }
}

/// Reports whether one of these findings says that this tool lacks something.
fn any_unsupported(found: &[ReviewFinding]) -> bool
    ensures { result ≡ list_any (λ f. is_unsupported f.kind) (map candidates.finding_view found.now) }
{
    for finding in found {
        if is_unsupported(finding.kind) {
            return true;
        }
    }
    false
}

/// Reports whether findings of this kind say that this tool lacks something.
fn is_unsupported(kind: ReviewKind) -> bool
    ensures { result ≡ is_unsupported kind }
{
    match kind {
        ReviewKind::Unsupported => true,
        ReviewKind::Lint(_)
        | ReviewKind::Document
        | ReviewKind::Call
        | ReviewKind::Pattern
        | ReviewKind::Literal
        | ReviewKind::Message
        | ReviewKind::Keyword
        | ReviewKind::Rules
        | ReviewKind::NoRules => false,
    }
}

/// Turns the findings of a review into those of a report.
pub(crate) fn review_findings(
    alloc: Global,
    found: &[ReviewFinding],
) -> Result<Vec<Finding>, AllocError>
    ensures { IfOk result (λ v. map finding_view v.items
        ≡ map review_finding (map candidates.finding_view found.now)) }
{
    let mut findings = Vec::with_capacity(alloc, found.len())?;
    for finding in found {
        findings.push(review_finding(alloc, finding)?)?;
    }
    Ok(findings)
}

/// Turns a finding of a review into one of a report.
fn review_finding(alloc: Global, found: &ReviewFinding) -> Result<Finding, AllocError>
    ensures { IfOk result (λ f. finding_view f ≡ review_finding (candidates.finding_view found.now)) }
{
    let kind = found.kind;
    Ok(Finding {
        location: found.pointer.clone()?,
        rule: String::from_str(alloc, found.rule.as_str())?,
        message: format!(in alloc; "{kind}: {}", found.message)?,
    })
}
