//! Judges what some files hold, if others aren't used.
ghost use Rattle.kubecel_cli.specs.Runs.{AreItems, IsReviewed};
ghost use Rattle.kubecel_report.specs.Items.{ItemData, item_view};
ghost use Rattle.kubecel_io.specs.Objects.{all_objects};
ghost use Rattle.kubecel_io.specs.Reads.{are_none, document_view};
ghost use Rattle.std.specs.Prelude.{◌≡◌, ◌++◌, ◌&&◌, IfOk, List, is_some, map, not, true};

use crate::check::{judge_unless_any, passed_items};
use crate::report::{Report, ReportFormat, with_items_before};
use crate::review::{fault_in, review_all};
use crate::unread::all_unread;
use kube_manifests::CrdSet;
use kubecel_check::{definitions_of, judged_subjects, set_or_fault, subjects_of};
use kubecel_io::{Contents, OldObjects, Refused, Subject, objects_of, whole_documents};
use std::alloc::{AllocError, Global};
use std::io::Write;

/// Reports whether a file isn't used.
pub(crate) fn is_any_unusable(crds: &Contents, olds: &Contents, objects: &Contents) -> bool
    ensures { result ≡ not (are_none (map item_view crds.now.unusable.items)
        && (are_none (map item_view olds.now.unusable.items)
        && are_none (map item_view objects.now.unusable.items))) }
{
    !(crds.is_whole() && olds.is_whole() && objects.is_whole())
}

/// Judges the objects of the files that are used, and reports those that aren't. If a definition is
/// broken, no object is judged.
pub(crate) fn checked_in_part<E: Write>(
    alloc: Global,
    ignores_missing: bool,
    crds: Contents,
    olds: Contents,
    objects: Contents,
    form: ReportFormat,
    err: &mut E,
) -> Result<Report, Refused>
    ensures fault { IfOk result (λ r. is_some r.fault ≡ true) }
    ensures items { IfOk result (λ r. (judged : List ItemData) × (map item_view r.items.items
        ≡ map item_view crds.unusable.items ++ (map item_view olds.unusable.items
        ++ (map item_view objects.unusable.items ++ judged)))) }
{
    let report = judged_in_part(alloc, ignores_missing, &crds, &olds, &objects, form, err)?;
    let report = with_unusable(alloc, objects, report)?;
    let report = with_unusable(alloc, olds, report)?;
    Ok(with_unusable(alloc, crds, report)?)
}

/// Judges the objects of the files that are used. If a file that may hold definitions isn't used, no
/// object is skipped for want of one.
fn judged_in_part<E: Write>(
    alloc: Global,
    ignores_missing: bool,
    crds: &Contents,
    olds: &Contents,
    objects: &Contents,
    form: ReportFormat,
    err: &mut E,
) -> Result<Report, Refused> {
    let given = whole_documents(alloc, crds.documents.as_slice())?;
    let earlier = whole_documents(alloc, olds.documents.as_slice())?;
    let present = whole_documents(alloc, objects.documents.as_slice())?;
    let definitions = definitions_of(alloc, ignores_missing, given.as_slice(), present.as_slice())?;
    let set = match set_or_fault(alloc, definitions.as_slice())? {
        Ok(set) => set,
        Err(fault) => return Ok(no_report(alloc, fault)),
    };
    let old_objects = subjects_of(alloc, &set, earlier.as_slice())?;
    let indexed = OldObjects::of(alloc, old_objects.as_slice())?;
    let subjects = judged_objects(alloc, &set, olds, present.as_slice())?;
    let unread = all_unread(alloc, definitions.as_slice())?;
    let passed = passed_items(alloc, ignores_missing, given.as_slice())?;
    judge_unless_any(
        alloc,
        unread,
        passed,
        ignores_missing && crds.is_whole() && objects.is_whole(),
        &set,
        &indexed,
        subjects.as_slice(),
        form,
        err,
    )
}

/// Returns the objects to be judged: none if a file of old objects isn't used, since their old states
/// may be there.
fn judged_objects<'d>(
    alloc: Global,
    set: &CrdSet,
    olds: &Contents,
    present: &[Subject<'d>],
) -> Result<Vec<Subject<'d>>, AllocError> {
    if olds.is_whole() {
        judged_subjects(alloc, set, present)
    } else {
        Ok(Vec::new(alloc))
    }
}

/// The report if nothing is judged for this fault of a definition.
fn no_report(alloc: Global, fault: String) -> Report {
    Report {
        items: Vec::new(alloc),
        noun: "objects",
        rules: None,
        compared: None,
        fault: Some(fault),
    }
}

/// Reviews the definitions of the files that are used, and reports those that aren't.
pub(crate) fn reviewed_in_part(alloc: Global, crds: Contents) -> Result<Report, Refused>
    ensures fault { IfOk result (λ r. is_some r.fault ≡ true) }
    ensures items { IfOk result (λ r. (reviewed : List ItemData)
        × AreItems IsReviewed (all_objects (map document_view crds.documents.items)) reviewed
        × (map item_view r.items.items ≡ map item_view crds.unusable.items ++ reviewed)) }
{
    let report = review_in_part(alloc, &crds)?;
    Ok(with_unusable(alloc, crds, report)?)
}

/// Reviews the definitions of the files that are used.
fn review_in_part(alloc: Global, crds: &Contents) -> Result<Report, Refused>
    ensures { IfOk result (λ r. AreItems IsReviewed
        (all_objects (map document_view crds.now.documents.items)) (map item_view r.items.items)) }
{
    let subjects = objects_of(alloc, crds.documents.as_slice())?;
    Ok(Report {
        items: review_all(alloc, subjects.as_slice())?,
        noun: "definitions",
        rules: None,
        compared: None,
        fault: fault_in(alloc, crds.documents.as_slice())?,
    })
}

/// Puts files that aren't used before what was judged. That there are such files is a fault beside
/// the items, unless there is another one.
fn with_unusable(alloc: Global, contents: Contents, report: Report) -> Result<Report, AllocError>
    ensures fault { IfOk result (λ r. is_some r.fault ≡ true) }
    ensures items { IfOk result (λ r. map item_view r.items.items
        ≡ map item_view contents.unusable.items ++ map item_view report.items.items) }
{
    let Contents { unusable, .. } = contents;
    let report = with_fault(alloc, report)?;
    with_items_before(unusable, report)
}

/// Says in a report that some files aren't used, unless it has a fault.
fn with_fault(alloc: Global, report: Report) -> Result<Report, AllocError>
    ensures fault { IfOk result (λ r. is_some r.fault ≡ true) }
    ensures items { IfOk result (λ r. r.items ≡ report.items) }
{
    let Report {
        items,
        noun,
        rules,
        compared,
        fault,
    } = report;
    Ok(Report {
        items,
        noun,
        rules,
        compared,
        fault: Some(fault_or_unusable(alloc, fault)?),
    })
}

/// The fault, or else that some files aren't used.
fn fault_or_unusable(alloc: Global, fault: Option<String>) -> Result<String, AllocError> {
    match fault {
        Some(fault) => Ok(fault),
        None => String::from_str(alloc, "some files can't be read"),
    }
}
