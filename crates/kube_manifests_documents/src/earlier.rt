//! Finds the earlier definition, where two definitions have the same group and kind.
ghost use Rattle.kube_manifests_documents.specs.Defined.{error_view};
ghost use Rattle.kube_manifests_documents.specs.Definitions.{crd_of};
ghost use Rattle.kube_manifests_documents.specs.Earlier.{any_named, definition_at, defines, first_definition, is_named};
ghost use Rattle.kube_manifests_texts.specs.Positions.{first_at};
ghost use Rattle.serde_json.specs.View.{items_view, view};
ghost use Rattle.std.specs.Prelude.{◌≡◌, map, option_map};

use crate::crd_fault::CrdError;
use crate::definition::{crd_parts, list_of};
use serde_json::Value;

/// Reports whether a value is a definition of this group and kind.
fn is_named(value: &Value, group: &str, kind: &str) -> bool
    ensures { result ≡ is_named group.now kind.now (crd_of (view value.now)) }
{
    match crd_parts(value) {
        Ok(crd) => crd.group == group && crd.kind == kind,
        Err(_) => false,
    }
}

/// Reports whether any of these values is a definition of this group and kind.
fn any_named(values: &[Value], group: &str, kind: &str) -> bool
    ensures { result ≡ any_named group.now kind.now (items_view values.now) }
{
    for value in values {
        if is_named(value, group, kind) {
            return true;
        }
    }
    false
}

/// Reports whether a document has a definition of this group and kind.
fn defines(document: &Value, group: &str, kind: &str) -> bool
    ensures { result ≡ defines group.now kind.now (view document.now) }
{
    match list_of(document) {
        Some(items) => any_named(items, group, kind),
        None => is_named(document, group, kind),
    }
}

/// The position of the first document that has a definition of this group and kind, if any.
fn first_defining(documents: &[&Value], group: &str, kind: &str) -> Option<usize>
    ensures { result ≡ first_at (defines group.now kind.now) (map (λ v. view v.now) documents.now) }
{
    for (position, document) in documents.iter().enumerate() {
        if defines(*document, group, kind) {
            return Some(position);
        }
    }
    None
}

/// The definition in a document or, if the document is a list, at this index of it.
fn definition_at(document: &Value, item: Option<usize>) -> Option<&Value>
    ensures { option_map (λ v. view v.now) result ≡ definition_at item (view document.now) }
{
    match item {
        None => Some(document),
        Some(index) => document.get("items")?.get(index),
    }
}

/// The position of the first document with a definition of the group and kind that the definition
/// at fault has. For [`CrdFault::RepeatedKind`](crate::CrdFault::RepeatedKind) that is the earlier
/// definition. `documents` are those that were read.
#[tactic(auto, unfolding(crate::specs::Earlier::first_definition))]
pub fn earlier_definition(documents: &[&Value], error: &CrdError) -> Option<usize>
    ensures { result ≡ first_definition (map (λ v. view v.now) documents.now) (error_view error.now) }
{
    let document = *documents.get(error.document)?;
    match crd_parts(definition_at(document, error.item)?) {
        Ok(crd) => first_defining(documents, crd.group, crd.kind),
        Err(_) => None,
    }
}
