//! Finds the definitions among documents.
ghost use Rattle.kubecel_check.specs.Definitions.{definitions, given_definitions, has_no_type, is_any_list, is_called_crd, is_called_list, is_full, is_no_resource, is_other_resource, is_passed_over, passed_over, unless_passed_over, where_definition, where_passed_over};
ghost use Rattle.kube_manifests.specs.Definitions as shapes;
ghost use Rattle.kubecel_io.specs.Subjects.{subject_view};
ghost use Rattle.serde_json.specs.Find.{get};
ghost use Rattle.serde_json.specs.View.{view};
ghost use Rattle.std.specs.List.{flat_map};
ghost use Rattle.std.specs.Prelude.{◌≡◌, ◌++◌, IfOk, OnOk, is_some, map};

use kube_manifests_documents::{is_crd, list_of};
use kubecel_io::{Subject, objects_among, text_at};
use serde_json::Value;
use std::alloc::{AllocError, Global};

#[tactic(auto, using(crate::proofs::Nested::some_mapped))]
fn has_member(value: &Value, key: &str) -> bool
    ensures { result ≡ is_some (get key.now (view value.now)) }
{
    value.get(key).is_some()
}

/// Reports whether a value is a mapping with neither apiVersion nor kind.
fn has_no_type(value: &Value) -> bool
    ensures { result ≡ has_no_type (view value.now) }
{
    value.is_object() && (!has_member(value, "apiVersion") && !has_member(value, "kind"))
}

/// Reports whether a document is one, such as the values of a chart: it is no resource. The items of
/// a list are resources.
pub(crate) fn is_no_resource(subject: &Subject<'_>) -> bool
    ensures { result ≡ is_no_resource (subject_view subject.now) }
{
    !subject.is_item && has_no_type(subject.value)
}

/// Reports whether a document is declared a definition, of whatever apiVersion.
pub(crate) fn is_called_crd(value: &Value) -> bool
    ensures { result ≡ is_called_crd (view value.now) }
{
    text_at(value, "kind") == "CustomResourceDefinition"
}

/// Reports whether a document is declared a `List`, whatever its fields are.
fn is_called_list(value: &Value) -> bool
    ensures { result ≡ is_called_list (view value.now) }
{
    text_at(value, "kind") == "List"
}

/// Reports whether it is that, or a list of another kind.
pub(crate) fn is_any_list(value: &Value) -> bool
    ensures { result ≡ is_any_list (view value.now) }
{
    is_called_list(value) || is_list(value)
}

pub(crate) fn is_full(text: &str) -> bool
    ensures { result ≡ is_full text.now }
{
    !text.is_empty()
}

/// Reports whether a value is a list: its kind ends in `List`, and it has an array in `items`.
#[tactic(auto, using(crate::proofs::Nested::some_mapped))]
fn is_list(value: &Value) -> bool
    ensures { result ≡ is_some (shapes.list_of (view value.now)) }
{
    list_of(value).is_some()
}

/// Reports whether a document is a resource of another kind than definitions, and no list.
fn is_other_resource(value: &Value) -> bool
    ensures { result ≡ is_other_resource (view value.now) }
{
    (is_full(text_at(value, "apiVersion")) && is_full(text_at(value, "kind")))
        && !(is_called_crd(value) || is_any_list(value))
}

/// Reports whether a document of a file of definitions is passed over if missing definitions are
/// ignored.
fn is_passed_over(document: &Subject<'_>) -> bool
    ensures { result ≡ is_passed_over (subject_view document.now) }
{
    is_no_resource(document) || is_other_resource(document.value)
}

/// Returns the definitions: those in documents of files of definitions, and those among the objects
/// of the other documents. If missing definitions are ignored, what is a resource of another kind, or
/// none, in files of definitions is left out; otherwise it is returned as well.
pub fn definitions_of<'d>(
    alloc: Global,
    ignores_missing: bool,
    crds: &[Subject<'d>],
    objects: &[Subject<'d>],
) -> Result<Vec<Subject<'d>>, AllocError>
    ensures { IfOk result (λ v. map subject_view v.items
        ≡ definitions ignores_missing (map subject_view crds.now) (map subject_view objects.now)) }
{
    let mut definitions = given_definitions(alloc, ignores_missing, crds)?;
    let others = objects_among(alloc, objects)?;
    add_definitions(others.as_slice(), &mut definitions)?;
    Ok(definitions)
}

/// Returns the documents in files of definitions that have to be definitions.
fn given_definitions<'d>(
    alloc: Global,
    ignores_missing: bool,
    crds: &[Subject<'d>],
) -> Result<Vec<Subject<'d>>, AllocError>
    ensures { IfOk result (λ v. map subject_view v.items
        ≡ given_definitions ignores_missing (map subject_view crds.now)) }
{
    if ignores_missing {
        let all = objects_among(alloc, crds)?;
        return kept_definitions(alloc, all.as_slice());
    }
    copied(alloc, crds)
}

/// Returns the same documents.
fn copied<'d>(alloc: Global, documents: &[Subject<'d>]) -> Result<Vec<Subject<'d>>, AllocError>
    ensures { IfOk result (λ v. map subject_view v.items ≡ map subject_view documents.now) }
{
    let mut copies = Vec::with_capacity(alloc, documents.len())?;
    for document in documents {
        copies.push(*document)?;
    }
    Ok(copies)
}

/// Returns those of the documents that aren't passed over.
fn kept_definitions<'d>(
    alloc: Global,
    documents: &[Subject<'d>],
) -> Result<Vec<Subject<'d>>, AllocError>
    ensures { IfOk result (λ v. map subject_view v.items
        ≡ flat_map unless_passed_over (map subject_view documents.now)) }
{
    let mut kept = Vec::new(alloc);
    for document in documents {
        add_unless_passed_over(document, &mut kept)?;
    }
    Ok(kept)
}

fn add_unless_passed_over<'d>(
    document: &Subject<'d>,
    kept: &mut Vec<Subject<'d>>,
) -> Result<(), AllocError>
    ensures { OnOk result (map subject_view kept.new.items
        ≡ map subject_view kept.old.items ++ unless_passed_over (subject_view document.now)) }
{
    if is_passed_over(document) {
        return Ok(());
    }
    kept.push(*document)?;
    Ok(())
}

/// Appends those of these objects that are definitions.
fn add_definitions<'d>(
    objects: &[Subject<'d>],
    definitions: &mut Vec<Subject<'d>>,
) -> Result<(), AllocError>
    ensures { OnOk result (map subject_view definitions.new.items
        ≡ map subject_view definitions.old.items
        ++ flat_map where_definition (map subject_view objects.now)) }
{
    for object in objects {
        add_where_definition(object, definitions)?;
    }
    Ok(())
}

fn add_where_definition<'d>(
    object: &Subject<'d>,
    definitions: &mut Vec<Subject<'d>>,
) -> Result<(), AllocError>
    ensures { OnOk result (map subject_view definitions.new.items
        ≡ map subject_view definitions.old.items ++ where_definition (subject_view object.now)) }
{
    if !is_crd(object.value) {
        return Ok(());
    }
    definitions.push(*object)?;
    Ok(())
}

/// Returns the documents in files of definitions that are passed over, if missing definitions are
/// ignored.
pub fn passed_over<'d>(
    alloc: Global,
    ignores_missing: bool,
    crds: &[Subject<'d>],
) -> Result<Vec<Subject<'d>>, AllocError>
    ensures { IfOk result (λ v. map subject_view v.items
        ≡ passed_over ignores_missing (map subject_view crds.now)) }
{
    if !ignores_missing {
        return Ok(Vec::new(alloc));
    }
    let all = objects_among(alloc, crds)?;
    passed_over_of(alloc, all.as_slice())
}

/// Returns those of the documents that are passed over.
fn passed_over_of<'d>(
    alloc: Global,
    documents: &[Subject<'d>],
) -> Result<Vec<Subject<'d>>, AllocError>
    ensures { IfOk result (λ v. map subject_view v.items
        ≡ flat_map where_passed_over (map subject_view documents.now)) }
{
    let mut passed = Vec::new(alloc);
    for document in documents {
        add_where_passed_over(document, &mut passed)?;
    }
    Ok(passed)
}

fn add_where_passed_over<'d>(
    document: &Subject<'d>,
    passed: &mut Vec<Subject<'d>>,
) -> Result<(), AllocError>
    ensures { OnOk result (map subject_view passed.new.items
        ≡ map subject_view passed.old.items ++ where_passed_over (subject_view document.now)) }
{
    if !is_passed_over(document) {
        return Ok(());
    }
    passed.push(*document)?;
    Ok(())
}
