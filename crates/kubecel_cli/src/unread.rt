//! Finds definitions with parts that aren't read: no object is judged by them.
ghost use Rattle.kube_manifests_review.specs.Candidates as candidates;
ghost use Rattle.kubecel_cli.specs.Reports.{is_none, review_finding, unless_none, unread_items};
ghost use Rattle.kubecel_cli.specs.Runs.{all_unread};
ghost use Rattle.kubecel_report.specs.Items.{finding_view, item_view};
ghost use Rattle.kubecel_io.specs.Objects.{all_objects};
ghost use Rattle.kubecel_io.specs.Subjects.{subject_view};
ghost use Rattle.std.specs.Prelude.{◌≡◌, ◌++◌, IfOk, OnOk, map};

use crate::review::review_findings;
use kube_manifests_review::unread_parts;
use kubecel_check::item_of;
use kubecel_io::{Subject, objects_among};
use kubecel_report::{Finding, Item, Verdict};
use std::alloc::{AllocError, Global};

/// Returns the definitions in these documents with parts that aren't read, in order, each with its
/// findings.
pub(crate) fn all_unread(alloc: Global, documents: &[Subject<'_>]) -> Result<Vec<Item>, AllocError>
    ensures { IfOk result (λ v. map item_view v.items
        ≡ all_unread (all_objects (map subject_view documents.now))) }
{
    let definitions = objects_among(alloc, documents)?;
    unread_among(alloc, definitions.as_slice())
}

/// Returns those of the definitions with parts that aren't read, in order, each with its findings.
fn unread_among(alloc: Global, definitions: &[Subject<'_>]) -> Result<Vec<Item>, AllocError>
    ensures { IfOk result (λ v. map item_view v.items ≡ all_unread (map subject_view definitions.now)) }
{
    let mut items = Vec::new(alloc);
    for definition in definitions {
        add_unread(alloc, definition, &mut items)?;
    }
    Ok(items)
}

/// Appends a definition with its parts that aren't read, if it has any.
fn add_unread(
    alloc: Global,
    definition: &Subject<'_>,
    items: &mut Vec<Item>,
) -> Result<(), AllocError>
    ensures { OnOk result (map item_view items.new.items ≡ map item_view items.old.items
        ++ unread_items (subject_view definition.now)) }
{
    let found = unread_parts(alloc, definition.value)?;
    let findings = review_findings(alloc, found.as_slice())?;
    add_unless_none(alloc, definition, findings, items)
}

/// Appends a definition with its findings, if it has any.
fn add_unless_none(
    alloc: Global,
    definition: &Subject<'_>,
    findings: Vec<Finding>,
    items: &mut Vec<Item>,
) -> Result<(), AllocError>
    ensures { OnOk result (map item_view items.new.items ≡ map item_view items.old.items
        ++ unless_none (subject_view definition.now) (map finding_view findings.items)) }
{
    if is_none(findings.as_slice()) {
        return Ok(());
    }
    items.push(item_of(alloc, definition, Verdict::NotJudged, findings)?)?;
    Ok(())
}

fn is_none(findings: &[Finding]) -> bool
    ensures { result ≡ is_none (map finding_view findings.now) }
{
    match findings {
        [] => true,
        [_, ..] => false,
    }
}
