//! Adds the candidate findings of a schema.
ghost use Rattle.std.specs.Prelude.{◌≡◌, OnOk, map};
ghost use Rattle.std.specs.List.{flat_map, list_any};
ghost use Rattle.kube_cel_analysis.specs.Findings.{Naming};
ghost use Rattle.kube_manifests_review.specs.Candidates.{AddsCandidates};
ghost use Rattle.kube_manifests_review.specs.Locations.{location_view};
ghost use Rattle.kube_manifests_review.specs.Reviewed as spec;
ghost use Rattle.kube_manifests_review.specs.Rules.{location_candidates};
ghost use Rattle.serde_json.specs.View.{items_view, view};

use crate::candidate::Candidate;
use crate::finding::ReviewKind;
use crate::keyword::SCHEMA_FIELDS;
use crate::linted::add_lint;
use crate::locations::{SchemaLocation, add_locations};
use crate::rule::{add_keys_of, add_schema_rules};
use crate::text::add_unconditional;
use kube_cel_analysis::lint_schema;
use kube_manifests_documents::keyword_pointer;
use kube_schema::{MAX_SCHEMA_DEPTH, compile_schema, rule_values};
use kube_types::Refused;
use serde_json::Value;
use std::alloc::{AllocError, Global};

/// The number of levels of a schema that are reviewed: depths 0 to 64.
pub(crate) const LEVELS: usize = MAX_SCHEMA_DEPTH + 1;

/// Reports whether the list has any item.
pub(crate) fn has_item(items: &[Value]) -> bool
    ensures { result ≡ spec.any_item (items_view items.now) }
{
    match items {
        [] => false,
        [_, ..] => true,
    }
}

/// Reports whether any of these schemas that is read has a rule.
fn has_rules(locations: &[SchemaLocation<'_>]) -> bool
    ensures { result ≡ list_any spec.has_rules (map location_view locations.now) }
{
    for location in locations {
        if location.is_read && has_item(rule_values(location.schema)) {
            return true;
        }
    }
    false
}

/// Adds a candidate if no schema that is read has a rule.
fn add_no_rule(
    alloc: Global,
    base: &str,
    locations: &[SchemaLocation<'_>],
    candidates: &mut Vec<Candidate>,
) -> Result<(), AllocError>
    ensures { OnOk result (AddsCandidates candidates.old.items candidates.new.items
        (spec.no_rule_candidates base.now (map location_view locations.now))) }
{
    if has_rules(locations) {
        return Ok(());
    }
    add_unconditional(
        alloc,
        base,
        ReviewKind::NoRules,
        "the schema has no rules",
        candidates,
    )
}

/// Adds the candidates of one schema: its keys, then its rules.
fn add_location(
    alloc: Global,
    location: &SchemaLocation<'_>,
    candidates: &mut Vec<Candidate>,
) -> Result<(), Refused>
    ensures candidates { OnOk result (AddsCandidates candidates.old.items candidates.new.items
        (location_candidates (location_view location.now))) }
{
    let pointer = location.pointer.as_str();
    add_keys_of(
        alloc,
        &SCHEMA_FIELDS,
        pointer,
        "",
        location.schema,
        candidates,
    )?;
    let inner = keyword_pointer(alloc, pointer, "x-kubernetes-validations")?;
    let rules = location.schema.get("x-kubernetes-validations");
    add_schema_rules(alloc, inner.as_str(), location.is_read, rules, candidates)?;
    Ok(())
}

/// Adds the candidates of schemas, in order.
fn add_each(
    alloc: Global,
    locations: &[SchemaLocation<'_>],
    candidates: &mut Vec<Candidate>,
) -> Result<(), Refused>
    ensures candidates { OnOk result (AddsCandidates candidates.old.items candidates.new.items
        (flat_map location_candidates (map location_view locations.now))) }
{
    for location in locations {
        add_location(alloc, location, candidates)?;
    }
    Ok(())
}

/// Adds the candidates of a schema and those within it, starting with those that concern all of
/// them.
fn add_own(
    alloc: Global,
    base: &str,
    locations: &[SchemaLocation<'_>],
    candidates: &mut Vec<Candidate>,
) -> Result<(), Refused>
    ensures candidates { OnOk result (AddsCandidates candidates.old.items candidates.new.items
        (spec.own_candidates base.now (map location_view locations.now))) }
{
    add_no_rule(alloc, base, locations, candidates)?;
    add_each(alloc, locations, candidates)?;
    Ok(())
}

/// Adds the candidates of a schema: the findings of the linter, then the rest.
pub(crate) fn add_schema(
    alloc: Global,
    base: &str,
    schema: &Value,
    candidates: &mut Vec<Candidate>,
) -> Result<(), Refused>
    ensures candidates { OnOk result ((names : Naming)
        → AddsCandidates candidates.old.items candidates.new.items
        (spec.schema_candidates names base.now (view schema.now))) }
{
    let compiled = compile_schema(alloc, schema)?;
    let findings = lint_schema(alloc, &compiled)?;
    add_lint(alloc, base, findings, candidates)?;
    let mut locations = Vec::new(alloc);
    add_locations(alloc, base, schema, true, LEVELS, &mut locations)?;
    add_own(alloc, base, locations.as_slice(), candidates)?;
    Ok(())
}
