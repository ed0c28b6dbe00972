//! Finds old objects that are of no use, by which rules on changes would be passed over.
ghost use Rattle.kube_manifests.specs.Sets.{set_view};
ghost use Rattle.kubecel_check.specs.HeldFiles.{AreHeld};
ghost use Rattle.kubecel_check.specs.Judgements.{AreUsable, is_unusable};
ghost use Rattle.kubecel_check.specs.Objects.{AreCompared, has_old, holds_object, is_held};
ghost use Rattle.kubecel_io.specs.Subjects.{subject_view};
ghost use Rattle.std.specs.BTreeSet.{contains_text};
ghost use Rattle.std.specs.List.{list_all, list_any};
ghost use Rattle.std.specs.Prelude.{◌≡◌, ◌||◌, ℕ, IfOk, List, OnOk, map, true};

use crate::defined::is_defined;
use crate::judgements::{is_of_version, is_skipped, why_not};
use kube_manifests::{CrdSet, is_crd};
use kube_manifests_texts::insert_text;
use kubecel_io::{OldObjects, Refused, Stop, Subject};
use std::alloc::{AllocError, Global};
use std::collections::BTreeSet;

/// Ends a run if one of these files of old objects holds no object of a definition, or if one of the old
/// objects is of no use: it may be the old state of an object.
pub fn refuse_unless_useful(
    alloc: Global,
    ignores_missing: bool,
    paths: &[&str],
    set: &CrdSet,
    olds: &[Subject<'_>],
) -> Result<(), Stop>
    ensures held { OnOk result (list_all (holds_object (set_view set.now) (map subject_view olds.now))
        (map (λ s. s.now) paths.now) ≡ true) }
    ensures usable { OnOk result (AreUsable ignores_missing (set_view set.now) (map subject_view olds.now)) }
{
    refuse_unless_held(alloc, paths, set, olds)?;
    refuse_unless_usable(alloc, ignores_missing, set, olds)?;
    Ok(())
}

/// Ends a run if one of these old objects is of no use.
fn refuse_unless_usable(
    alloc: Global,
    ignores_missing: bool,
    set: &CrdSet,
    olds: &[Subject<'_>],
) -> Result<(), Stop>
    ensures { OnOk result (AreUsable ignores_missing (set_view set.now) (map subject_view olds.now)) }
{
    for old in olds {
        if is_unusable(ignores_missing, set, old) {
            return Err(Stop::Said(unusable_text(alloc, set, old)?));
        }
    }
    Ok(())
}

/// Reports whether an old object is of no use: it is of no definition, is none itself, and isn't skipped
/// either, if missing definitions are ignored.
#[tactic(auto, using(crate::proofs::Held::unusable_counted))]
fn is_unusable(ignores_missing: bool, set: &CrdSet, old: &Subject<'_>) -> bool
    ensures { result ≡ is_unusable ignores_missing (set_view set.now) (subject_view old.now) }
{
    match set.rule_count(old.value) {
        Ok(_) => false,
        Err(reason) => {
            !is_of_version(reason)
                && !(is_crd(old.value) || (ignores_missing && is_skipped(old, reason)))
        }
    }
}

/// Says where an old object stands that is of no use, and why.
fn unusable_text(alloc: Global, set: &CrdSet, old: &Subject<'_>) -> Result<String, Refused> {
    let (file, index) = (old.file, old.index);
    match set.rule_count(old.value) {
        Ok(_) => Ok(format!(in alloc; "{file}[{index}]")?),
        Err(reason) => {
            let why = why_not(alloc, set, old, reason)?;
            Ok(format!(in alloc; "{file}[{index}]: {why}")?)
        }
    }
}

/// Ends a run if one of these files of old objects holds no object of a definition.
fn refuse_unless_held(
    alloc: Global,
    paths: &[&str],
    set: &CrdSet,
    olds: &[Subject<'_>],
) -> Result<(), Stop>
    ensures { OnOk result (list_all (holds_object (set_view set.now) (map subject_view olds.now))
        (map (λ s. s.now) paths.now) ≡ true) }
{
    let held = held_files(alloc, set, olds)?;
    for path in paths {
        if !held.contains(*path) {
            let why = "no object of a CustomResourceDefinition that is given";
            return Err(Stop::Said(format!(in alloc; "{path}: {why}")?));
        }
    }
    Ok(())
}

/// Returns the paths of the files that hold an object of a definition.
fn held_files(
    alloc: Global,
    set: &CrdSet,
    olds: &[Subject<'_>],
) -> Result<BTreeSet<String>, AllocError>
    ensures { IfOk result (λ held. AreHeld held (set_view set.now) (map subject_view olds.now)) }
{
    let mut held = BTreeSet::new(alloc);
    for old in olds {
        add_where_defined(alloc, set, old, &mut held)?;
    }
    Ok(held)
}

/// Adds the path of an object's file, if the object is of a definition.
fn add_where_defined(
    alloc: Global,
    set: &CrdSet,
    old: &Subject<'_>,
    held: &mut BTreeSet<String>,
) -> Result<(), AllocError>
    ensures { OnOk result ((path : List ℕ) → contains_text held.new path
        ≡ (contains_text held.old path || is_held (set_view set.now) path (subject_view old.now))) }
{
    if !is_defined(set, old) {
        return Ok(());
    }
    insert_text(alloc, old.file, held)
}

/// Ends a run if files of old objects are named, but no object has an old one.
pub fn refuse_unless_compared(
    alloc: Global,
    paths: &[&str],
    olds: &OldObjects<'_, '_>,
    subjects: &[Subject<'_>],
) -> Result<(), Stop>
    ensures { OnOk result (AreCompared (map (λ s. s.now) paths.now)
        (map (λ f. f.value) (map subject_view olds.now.objects.now)) (map subject_view subjects.now)) }
{
    if paths.is_empty() {
        return Ok(());
    }
    if any_has_old(alloc, olds, subjects)? {
        return Ok(());
    }
    let why = "no old object has the group, kind, namespace and name of an object";
    Err(Stop::Said(String::from_str(alloc, why)?))
}

/// Reports whether one of the objects has an old one.
fn any_has_old(
    alloc: Global,
    olds: &OldObjects<'_, '_>,
    subjects: &[Subject<'_>],
) -> Result<bool, AllocError>
    ensures { IfOk result (λ b. b
        ≡ list_any (has_old (map (λ f. f.value) (map subject_view olds.now.objects.now)))
        (map subject_view subjects.now)) }
{
    for subject in subjects {
        if has_old(alloc, olds, subject)? {
            return Ok(true);
        }
    }
    Ok(false)
}

/// Reports whether an object has an old one.
#[tactic(auto, using(crate::proofs::Nested::some_mapped))]
fn has_old(
    alloc: Global,
    olds: &OldObjects<'_, '_>,
    subject: &Subject<'_>,
) -> Result<bool, AllocError>
    ensures { IfOk result (λ b. b
        ≡ has_old (map (λ f. f.value) (map subject_view olds.now.objects.now)) (subject_view subject.now)) }
{
    let old = olds.old_of(alloc, subject)?;
    Ok(old.is_some())
}
