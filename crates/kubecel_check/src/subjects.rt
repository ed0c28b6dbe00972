//! Lists the objects of documents.
ghost use Rattle.kube_manifests.specs.Sets.{set_view};
ghost use Rattle.kubecel_check.specs.Objects.{AreSome, all_judged, all_subjects, subjects_in, unless_definition};
ghost use Rattle.kubecel_io.specs.Subjects.{subject_view};
ghost use Rattle.std.specs.List.{flat_map};
ghost use Rattle.std.specs.Prelude.{◌≡◌, ◌++◌, IfOk, OnOk, map};

use crate::defined::has_definition;
use kube_manifests::{CrdSet, is_crd};
use kubecel_io::{Stop, Subject, add_objects};
use std::alloc::{AllocError, Global};

/// Returns the objects of all documents, in order. A document that is of a definition is an object;
/// any other is taken apart if it is a list.
pub fn subjects_of<'d>(
    alloc: Global,
    set: &CrdSet,
    documents: &[Subject<'d>],
) -> Result<Vec<Subject<'d>>, AllocError>
    ensures { IfOk result (λ v. map subject_view v.items
        ≡ all_subjects (set_view set.now) (map subject_view documents.now)) }
{
    let mut subjects = Vec::with_capacity(alloc, documents.len())?;
    for document in documents {
        add_subjects(set, document, &mut subjects)?;
    }
    Ok(subjects)
}

/// Appends the objects of a document.
fn add_subjects<'d>(
    set: &CrdSet,
    document: &Subject<'d>,
    subjects: &mut Vec<Subject<'d>>,
) -> Result<(), AllocError>
    ensures { OnOk result (map subject_view subjects.new.items ≡ map subject_view subjects.old.items
        ++ subjects_in (set_view set.now) (subject_view document.now)) }
{
    if has_definition(set, document.value) {
        subjects.push(*document)?;
        Ok(())
    } else {
        add_objects(document, subjects)
    }
}

/// Returns the objects of all documents that are judged, in order: all but the definitions.
pub fn judged_subjects<'d>(
    alloc: Global,
    set: &CrdSet,
    documents: &[Subject<'d>],
) -> Result<Vec<Subject<'d>>, AllocError>
    ensures { IfOk result (λ v. map subject_view v.items
        ≡ all_judged (set_view set.now) (map subject_view documents.now)) }
{
    let all = subjects_of(alloc, set, documents)?;
    without_definitions(alloc, all.as_slice())
}

/// Returns those of the objects that aren't definitions.
fn without_definitions<'d>(
    alloc: Global,
    subjects: &[Subject<'d>],
) -> Result<Vec<Subject<'d>>, AllocError>
    ensures { IfOk result (λ v. map subject_view v.items
        ≡ flat_map unless_definition (map subject_view subjects.now)) }
{
    let mut judged = Vec::with_capacity(alloc, subjects.len())?;
    for subject in subjects {
        add_unless_definition(subject, &mut judged)?;
    }
    Ok(judged)
}

fn add_unless_definition<'d>(
    subject: &Subject<'d>,
    judged: &mut Vec<Subject<'d>>,
) -> Result<(), AllocError>
    ensures { OnOk result (map subject_view judged.new.items
        ≡ map subject_view judged.old.items ++ unless_definition (subject_view subject.now)) }
{
    if is_crd(subject.value) {
        return Ok(());
    }
    judged.push(*subject)?;
    Ok(())
}

/// Ends a run if there is no object, unless that is allowed.
pub fn refuse_unless_some(
    alloc: Global,
    allows_none: bool,
    subjects: &[Subject<'_>],
) -> Result<(), Stop>
    ensures { OnOk result (AreSome allows_none (map subject_view subjects.now)) }
{
    if allows_none {
        return Ok(());
    }
    match subjects {
        [] => Err(Stop::Said(String::from_str(alloc, "no object to judge")?)),
        [_, ..] => Ok(()),
    }
}
