//! Tells which objects are of a definition.
ghost use Rattle.kube_manifests.specs.Sets.{set_view};
ghost use Rattle.kube_manifests.specs.Versions.{chosen_version};
ghost use Rattle.kubecel_io.specs.Subjects.{subject_view};
ghost use Rattle.kubecel_check.specs.Objects.{AreDefined, has_definition, is_defined};
ghost use Rattle.serde_json.specs.View.{view};
ghost use Rattle.std.specs.List.{list_any};
ghost use Rattle.std.specs.Prelude.{◌≡◌, OnOk, map};

use kube_manifests::{CrdSet, NotJudged};
use kubecel_io::{Stop, Subject};
use serde_json::Value;
use std::alloc::Global;

/// Ends a run if missing definitions are ignored, but no object is of a definition, unless it is
/// allowed that none is.
pub fn refuse_unless_defined(
    alloc: Global,
    ignores_missing: bool,
    allows_none: bool,
    set: &CrdSet,
    subjects: &[Subject<'_>],
) -> Result<(), Stop>
    ensures { OnOk result (AreDefined ignores_missing allows_none (set_view set.now)
        (map subject_view subjects.now)) }
{
    if !ignores_missing {
        return Ok(());
    }
    if allows_none || any_is_defined(set, subjects) {
        return Ok(());
    }
    let why = "no object of a CustomResourceDefinition that is given";
    Err(Stop::Said(String::from_str(alloc, why)?))
}

/// Reports whether one of the objects is of a definition.
fn any_is_defined(set: &CrdSet, subjects: &[Subject<'_>]) -> bool
    ensures { result ≡ list_any (is_defined (set_view set.now)) (map subject_view subjects.now) }
{
    for subject in subjects {
        if is_defined(set, subject) {
            return true;
        }
    }
    false
}

/// Reports whether an object is of a definition.
pub(crate) fn is_defined(set: &CrdSet, subject: &Subject<'_>) -> bool
    ensures { result ≡ is_defined (set_view set.now) (subject_view subject.now) }
{
    has_definition(set, subject.value)
}

/// Reports whether a definition has the group and kind of an object, perhaps without its version.
#[tactic(auto, using(crate::proofs::Held::counted_alike))]
pub(crate) fn has_definition(set: &CrdSet, object: &Value) -> bool
    ensures { result ≡ has_definition (chosen_version (set_view set.now) (view object.now)) }
{
    match set.rule_count(object) {
        Ok(_) | Err(NotJudged::NoSuchVersion | NotJudged::NotServed) => true,
        Err(
            NotJudged::NotAnObject
            | NotJudged::NoApiVersion
            | NotJudged::NoKind
            | NotJudged::NoSuchKind,
        ) => false,
    }
}
