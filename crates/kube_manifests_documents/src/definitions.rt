//! Reads the versions that documents define, one document after another.
ghost use Rattle.kube_manifests_documents.specs.Defined.{IsIndexed, added_view, crd_view, defined_in, defined_view, entry_view, list_view, location_view};
ghost use Rattle.kube_manifests_documents.specs.Definitions.{add_crd, add_document, add_item, add_version, each, version_of, versions_of};
ghost use Rattle.serde_json.specs.View.{items_of, items_view, view};
ghost use Rattle.std.specs.Prelude.{◌≡◌, IfOk, OnOk, map};

use crate::crd_fault::{CrdError, CrdFault, CrdLocation, error_at};
use crate::defined::{DefinedVersion, DefinedVersions};
use crate::definition::{CrdParts, EntryParts, crd_parts, entry_parts, list_of};
use serde_json::Value;
use std::alloc::{AllocError, Global};

/// Adds the versions of a document: those of its definition or, if the document is a list, those of
/// all its items. Stops at the first fault and returns it.
#[tactic(auto, unfolding(crate::specs::Definitions::add_document))]
fn add_document<'v>(
    alloc: Global,
    document: usize,
    value: &'v Value,
    versions: &mut DefinedVersions<'v>,
) -> Result<Result<(), CrdError>, AllocError>
    requires { IsIndexed versions.old }
    ensures added { IfOk result (λ r. added_view (list_view versions.new) r
        ≡ add_document document (view value.now) (list_view versions.old)) }
    ensures indexed { OnOk result (IsIndexed versions.new) }
{
    match list_of(value) {
        Some(items) => add_items(alloc, document, items, versions),
        None => add_crd(
            alloc,
            CrdLocation {
                document,
                item: None,
            },
            value,
            versions,
        ),
    }
}

/// Adds the versions of the items of a list. Stops at the first fault and returns it.
fn add_items<'v>(
    alloc: Global,
    document: usize,
    items: &'v [Value],
    versions: &mut DefinedVersions<'v>,
) -> Result<Result<(), CrdError>, AllocError>
    requires { IsIndexed versions.old }
    ensures added { IfOk result (λ r. added_view (list_view versions.new) r
        ≡ each (add_item document) 0 (items_view items.now) (list_view versions.old)) }
    ensures indexed { OnOk result (IsIndexed versions.new) }
{
    for (index, item) in items.iter().enumerate() {
        let location = CrdLocation {
            document,
            item: Some(index),
        };
        if let Err(error) = add_crd(alloc, location, item, versions)? {
            return Ok(Err(error));
        }
    }
    Ok(Ok(()))
}

/// Adds the versions of a definition. It is a fault if an earlier one has the same group and kind.
#[tactic(auto, unfolding(crate::specs::Definitions::add_crd))]
fn add_crd<'v>(
    alloc: Global,
    location: CrdLocation,
    value: &'v Value,
    versions: &mut DefinedVersions<'v>,
) -> Result<Result<(), CrdError>, AllocError>
    requires { IsIndexed versions.old }
    ensures added { IfOk result (λ r. added_view (list_view versions.new) r
        ≡ add_crd (location_view location) (view value.now) (list_view versions.old)) }
    ensures indexed { OnOk result (IsIndexed versions.new) }
{
    let crd = match crd_parts(value) {
        Ok(crd) => crd,
        Err(fault) => return Ok(Err(error_at(alloc, location, None, fault)?)),
    };
    if versions.has_group(crd.group, crd.kind) {
        return Ok(Err(error_at(alloc, location, None, CrdFault::RepeatedKind)?));
    }
    add_versions(alloc, location, crd, crd.versions, versions)
}

/// Adds the versions of a definition. Stops at the first fault and returns it.
fn add_versions<'v>(
    alloc: Global,
    location: CrdLocation,
    crd: CrdParts<'v>,
    entries: &'v [Value],
    versions: &mut DefinedVersions<'v>,
) -> Result<Result<(), CrdError>, AllocError>
    requires { IsIndexed versions.old }
    ensures added { IfOk result (λ r. added_view (list_view versions.new) r
        ≡ each (add_version (location_view location) (crd_view crd.entry)) 0
        (items_view entries.now) (list_view versions.old)) }
    ensures indexed { OnOk result (IsIndexed versions.new) }
{
    for (index, entry) in entries.iter().enumerate() {
        if let Err(error) = add_version(alloc, location, crd, index, entry, versions)? {
            return Ok(Err(error));
        }
    }
    Ok(Ok(()))
}

/// Adds a version. It is a fault if an earlier one has the same apiVersion and kind.
#[tactic(auto, unfolding(crate::specs::Definitions::add_version))]
fn add_version<'v>(
    alloc: Global,
    location: CrdLocation,
    crd: CrdParts<'v>,
    index: usize,
    entry: &'v Value,
    versions: &mut DefinedVersions<'v>,
) -> Result<Result<(), CrdError>, AllocError>
    requires { IsIndexed versions.old }
    ensures added { IfOk result (λ r. added_view (list_view versions.new) r
        ≡ add_version (location_view location) (crd_view crd.entry) index (view entry.now)
        (list_view versions.old)) }
    ensures indexed { OnOk result (IsIndexed versions.new) }
{
    let entry = match entry_parts(entry) {
        Ok(entry) => entry,
        Err(fault) => return Ok(Err(error_at(alloc, location, Some(index), fault)?)),
    };
    let version = version_of(crd, entry);
    let api_version = format!(in alloc; "{}/{}", version.group, version.name)?;
    if versions.has_version(api_version.as_str(), version.kind) {
        return Ok(Err(error_at(alloc, location, Some(index), CrdFault::RepeatedVersion)?));
    }
    versions.push(alloc, api_version.as_str(), version)?;
    Ok(Ok(()))
}

/// Returns the version for the entry of a definition.
fn version_of<'v>(crd: CrdParts<'v>, entry: EntryParts<'v>) -> DefinedVersion<'v>
    ensures { defined_view result ≡ version_of (crd_view crd.entry) (entry_view entry.entry) }
{
    DefinedVersion {
        group: crd.group,
        kind: crd.kind,
        name: entry.name,
        served: entry.served,
        schema: entry.schema,
    }
}

impl<'v> DefinedVersions<'v> {
    /// Reads all versions of all definitions in the documents, served or not. A document is a
    /// CustomResourceDefinition of `apiextensions.k8s.io/v1`, or a list of them: a value whose kind
    /// ends in `List`, with an array in `items`. The inner error is the first fault of the first
    /// definition that has one.
    ///
    /// # Errors
    ///
    /// [`AllocError`] if memory is refused.
    pub fn read(
        alloc: Global,
        documents: &[&'v Value],
    ) -> Result<Result<DefinedVersions<'v>, CrdError>, AllocError>
        ensures versions { IfOk result (λ r. defined_in r
            ≡ versions_of (items_of (map (λ v. view v.now) documents.now))) }
        ensures indexed { IfOk result (λ r. IfOk r (λ v. IsIndexed v)) }
    {
        let mut versions = DefinedVersions::new(alloc);
        for (index, document) in documents.iter().enumerate() {
            if let Err(error) = add_document(alloc, index, *document, &mut versions)? {
                return Ok(Err(error));
            }
        }
        Ok(Ok(versions))
    }
}
