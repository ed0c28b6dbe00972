//! Lists the objects of documents.
ghost use Rattle.kubecel_io.specs.Objects.{all_objects, first_same, item_of, objects_of};
ghost use Rattle.kubecel_io.specs.Reads.{document_view};
ghost use Rattle.kubecel_io.specs.Subjects.{subject_view};
ghost use Rattle.serde_json.specs.View.{view};
ghost use Rattle.std.specs.Prelude.{◌≡◌, ◌++◌, IfOk, OnOk, map, option_map};

use crate::objects::Identity;
use crate::sources::Document;
use crate::subject::Subject;
use kube_manifests_documents::list_of;
use serde_json::Value;
use std::alloc::{AllocError, Global};

/// Returns a document as a whole, even if it is a list.
fn whole_document(document: &Document) -> Subject<'_>
    ensures { subject_view result ≡ document_view document.now }
{
    let index = document.index;
    Subject {
        file: document.file.as_str(),
        index,
        is_item: false,
        value: &document.value,
        identity: Identity::of(&document.value),
    }
}

/// Returns all documents as they are, in order.
pub fn whole_documents(
    alloc: Global,
    documents: &[Document],
) -> Result<Vec<Subject<'_>>, AllocError>
    ensures { IfOk result (λ v. map subject_view v.items ≡ map document_view documents.now) }
{
    let mut subjects = Vec::with_capacity(alloc, documents.len())?;
    for document in documents {
        subjects.push(whole_document(document))?;
    }
    Ok(subjects)
}

/// Returns the objects of all documents, in order.
pub fn objects_of(alloc: Global, documents: &[Document]) -> Result<Vec<Subject<'_>>, AllocError>
    ensures { IfOk result (λ v. map subject_view v.items ≡ all_objects (map document_view documents.now)) }
{
    let whole = whole_documents(alloc, documents)?;
    objects_among(alloc, whole.as_slice())
}

/// Returns the objects of all these documents, in order.
pub fn objects_among<'d>(
    alloc: Global,
    documents: &[Subject<'d>],
) -> Result<Vec<Subject<'d>>, AllocError>
    ensures { IfOk result (λ v. map subject_view v.items ≡ all_objects (map subject_view documents.now)) }
{
    let mut subjects = Vec::with_capacity(alloc, documents.len())?;
    for document in documents {
        add_objects(document, &mut subjects)?;
    }
    Ok(subjects)
}

/// Appends the objects of a document: its items if it is a list, otherwise the document itself.
pub fn add_objects<'d>(
    document: &Subject<'d>,
    subjects: &mut Vec<Subject<'d>>,
) -> Result<(), AllocError>
    ensures { OnOk result (map subject_view subjects.new.items
        ≡ map subject_view subjects.old.items ++ objects_of (subject_view document.now)) }
{
    match list_of(document.value) {
        Some(items) => add_list_items(document, items, subjects),
        None => {
            subjects.push(*document)?;
            Ok(())
        }
    }
}

/// Appends these items of a document.
fn add_list_items<'d>(
    document: &Subject<'d>,
    items: &'d [Value],
    subjects: &mut Vec<Subject<'d>>,
) -> Result<(), AllocError>
    ensures { OnOk result (map subject_view subjects.new.items ≡ map subject_view subjects.old.items
        ++ map (item_of (subject_view document.now)) (map view items.now)) }
{
    for value in items {
        subjects.push(Subject {
            file: document.file,
            index: document.index,
            is_item: true,
            value,
            identity: Identity::of(value),
        })?;
    }
    Ok(())
}

/// Returns the first of the old objects that has the subject's names, if any.
pub(crate) fn first_same<'d>(olds: &[Subject<'d>], subject: &Subject<'_>) -> Option<&'d Value>
    ensures { option_map (λ v. view v.now) result
        ≡ first_same (map (λ f. f.value) (map subject_view olds.now)) (subject_view subject.now).value }
{
    for old in olds {
        if old.identity.is_same(&subject.identity) {
            return Some(old.value);
        }
    }
    None
}
