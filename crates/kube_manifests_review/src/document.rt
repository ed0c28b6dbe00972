//! Collects the candidate findings of a document.
ghost use Rattle.std.specs.Prelude.{◌≡◌, IfOk, OnOk, map, option_map, string_bytes};
ghost use Rattle.kube_cel_analysis.specs.Findings.{Naming};
ghost use Rattle.kube_manifests_review.specs.Candidates.{AddsCandidates, candidate_view};
ghost use Rattle.kube_manifests_review.specs.Reviewed as spec;
ghost use Rattle.serde_json.specs.View.{items_view, view};

use crate::candidate::Candidate;
use crate::finding::ReviewKind;
use crate::part::Part;
use crate::schema::{add_schema, has_item};
use crate::stray::add_stray;
use crate::text::add_unconditional;
use kube_manifests_documents::{entries_of, schema_of};
use kube_types::Refused;
use serde_json::Value;
use std::alloc::{AllocError, Global};

/// The versions of a document. Empty if the list is missing or not an array.
#[tactic(auto, unfolding(crate::specs::Reviewed::versions_of))]
pub(crate) fn versions_of(crd: &Value) -> &[Value]
    ensures { items_view result.now ≡ spec.versions_of (view crd.now) }
{
    match entries_of(crd) {
        Some(entries) => entries,
        None => &[],
    }
}

/// The schema of a version. `None` if it is missing or not an object.
#[tactic(auto, unfolding(crate::specs::Reviewed::version_schema))]
pub(crate) fn version_schema(version: &Value) -> Option<&Value>
    ensures { option_map (λ s. view s.now) result ≡ spec.version_schema (view version.now) }
{
    let schema = schema_of(version)?;
    if schema.is_object() {
        Some(schema)
    } else {
        None
    }
}

/// Returns the pointer of a version's schema.
pub(crate) fn version_pointer(alloc: Global, index: usize) -> Result<String, AllocError>
    ensures { IfOk result (λ s. string_bytes s ≡ spec.version_pointer index) }
{
    format!(in alloc; "/spec/versions/{index}/schema/openAPIV3Schema")
}

/// Adds the candidates of a version's schema, or that it has none.
fn add_version(
    alloc: Global,
    base: &str,
    schema: Option<&Value>,
    candidates: &mut Vec<Candidate>,
) -> Result<(), Refused>
    ensures candidates { OnOk result ((names : Naming)
        → AddsCandidates candidates.old.items candidates.new.items
        (spec.version_candidates names base.now (option_map (λ s. view s.now) schema.entry))) }
{
    match schema {
        Some(schema) => add_schema(alloc, base, schema, candidates)?,
        None => add_unconditional(
            alloc,
            base,
            ReviewKind::Document,
            "the version has no schema",
            candidates,
        )?,
    }
    Ok(())
}

/// Adds the candidates of versions, in order.
fn add_versions(
    alloc: Global,
    versions: &[Value],
    candidates: &mut Vec<Candidate>,
) -> Result<(), Refused>
    ensures candidates { OnOk result ((names : Naming)
        → AddsCandidates candidates.old.items candidates.new.items
        (spec.versions_candidates names 0 (items_view versions.now))) }
{
    for (index, version) in versions.iter().enumerate() {
        let base = version_pointer(alloc, index)?;
        add_version(alloc, base.as_str(), version_schema(version), candidates)?;
    }
    Ok(())
}

/// Adds a candidate if the document has no versions.
fn add_no_version(
    alloc: Global,
    versions: &[Value],
    candidates: &mut Vec<Candidate>,
) -> Result<(), AllocError>
    ensures { OnOk result (AddsCandidates candidates.old.items candidates.new.items
        (spec.no_version_candidates (items_view versions.now))) }
{
    if has_item(versions) {
        return Ok(());
    }
    add_unconditional(
        alloc,
        "/spec/versions",
        ReviewKind::Document,
        "the document has no versions",
        candidates,
    )
}

/// Returns the candidate findings of a document.
pub(crate) fn candidates_of(alloc: Global, crd: &Value) -> Result<Vec<Candidate>, Refused>
    ensures candidates { IfOk result (λ v. (names : Naming) → map candidate_view v.items
        ≡ spec.crd_candidates names (view crd.now)) }
{
    let versions = versions_of(crd);
    let mut candidates = Vec::new(alloc);
    add_no_version(alloc, versions, &mut candidates)?;
    add_versions(alloc, versions, &mut candidates)?;
    add_stray(alloc, Part::Document, "", crd, &mut candidates)?;
    Ok(candidates)
}
