//! Finds what of a CustomResourceDefinition isn't read, though rules may have been meant there.
ghost use Rattle.std.specs.List.{flat_map};
ghost use Rattle.std.specs.Prelude.{◌≡◌, IfOk, OnOk, map, option_map};
ghost use Rattle.kube_manifests_review.specs.Candidates.{AddsCandidates, candidate_view, finding_view};
ghost use Rattle.kube_manifests_review.specs.Locations.{location_view};
ghost use Rattle.kube_manifests_review.specs.Unread as spec;
ghost use Rattle.serde_json.specs.View.{items_view, view};

use crate::candidate::Candidate;
use crate::document::{version_pointer, version_schema, versions_of};
use crate::finding::{ReviewFinding, ReviewKind};
use crate::keyword::{RULE_FIELDS, SCHEMA_FIELDS};
use crate::locations::{SchemaLocation, add_locations};
use crate::part::Part;
use crate::rule::{add_keys_of, add_unread_rules, text_of_rule};
use crate::schema::LEVELS;
use crate::stray::add_stray;
use crate::text::add_unconditional;
use kube_manifests_documents::{index_pointer, keyword_pointer};
use serde_json::Value;
use std::alloc::{AllocError, Global};

/// Adds a candidate for each key of a rule that is none of its fields.
fn add_rule_keys(
    alloc: Global,
    pointer: &str,
    rule: &Value,
    candidates: &mut Vec<Candidate>,
) -> Result<(), AllocError>
    ensures { OnOk result (AddsCandidates candidates.old.items candidates.new.items
        (spec.rule_unread pointer.now (view rule.now))) }
{
    let text = text_of_rule(rule);
    add_keys_of(alloc, &RULE_FIELDS, pointer, text, rule, candidates)?;
    Ok(())
}

/// Adds the candidates of rules, in order.
fn add_rules_keys(
    alloc: Global,
    pointer: &str,
    rules: &[Value],
    candidates: &mut Vec<Candidate>,
) -> Result<(), AllocError>
    ensures { OnOk result (AddsCandidates candidates.old.items candidates.new.items
        (spec.rules_unread pointer.now 0 (items_view rules.now))) }
{
    for (index, rule) in rules.iter().enumerate() {
        let inner = index_pointer(alloc, pointer, index)?;
        add_rule_keys(alloc, inner.as_str(), rule, candidates)?;
    }
    Ok(())
}

/// Adds the candidates of a schema's rules, if it has any, or that they aren't a list.
fn add_validations(
    alloc: Global,
    pointer: &str,
    rules: Option<&Value>,
    candidates: &mut Vec<Candidate>,
) -> Result<(), AllocError>
    ensures { OnOk result (AddsCandidates candidates.old.items candidates.new.items
        (spec.validations_unread pointer.now (option_map (λ v. view v.now) rules.entry))) }
{
    let Some(rules) = rules else {
        return Ok(());
    };
    match rules.as_array() {
        Some(rules) => add_rules_keys(alloc, pointer, rules.as_slice(), candidates),
        None => add_unconditional(
            alloc,
            pointer,
            ReviewKind::Rules,
            "x-kubernetes-validations isn't a list",
            candidates,
        ),
    }
}

/// Adds the candidates of the rules of a schema, which is read or isn't.
fn add_schema_rules(
    alloc: Global,
    pointer: &str,
    is_read: bool,
    rules: Option<&Value>,
    candidates: &mut Vec<Candidate>,
) -> Result<(), AllocError>
    ensures { OnOk result (AddsCandidates candidates.old.items candidates.new.items
        (spec.schema_rules_unread is_read pointer.now (option_map (λ v. view v.now) rules.entry))) }
{
    if is_read {
        add_validations(alloc, pointer, rules, candidates)
    } else {
        add_unread_rules(alloc, pointer, rules, candidates)
    }
}

/// Adds the candidates of one schema: its keys, then its rules.
fn add_location(
    alloc: Global,
    location: &SchemaLocation<'_>,
    candidates: &mut Vec<Candidate>,
) -> Result<(), AllocError>
    ensures { OnOk result (AddsCandidates candidates.old.items candidates.new.items
        (spec.location_unread (location_view location.now))) }
{
    let pointer = location.pointer.as_str();
    add_keys_of(
        alloc,
        &SCHEMA_FIELDS,
        pointer,
        "",
        location.schema,
        candidates,
    )?;
    let inner = keyword_pointer(alloc, pointer, "x-kubernetes-validations")?;
    let rules = location.schema.get("x-kubernetes-validations");
    add_schema_rules(alloc, inner.as_str(), location.is_read, rules, candidates)?;
    Ok(())
}

/// Adds the candidates of schemas, in order.
fn add_each(
    alloc: Global,
    locations: &[SchemaLocation<'_>],
    candidates: &mut Vec<Candidate>,
) -> Result<(), AllocError>
    ensures { OnOk result (AddsCandidates candidates.old.items candidates.new.items
        (flat_map spec.location_unread (map location_view locations.now))) }
{
    for location in locations {
        add_location(alloc, location, candidates)?;
    }
    Ok(())
}

/// Adds the candidates of a version's schema, if it has one.
fn add_version(
    alloc: Global,
    base: &str,
    schema: Option<&Value>,
    candidates: &mut Vec<Candidate>,
) -> Result<(), AllocError>
    ensures { OnOk result (AddsCandidates candidates.old.items candidates.new.items
        (spec.version_unread base.now (option_map (λ s. view s.now) schema.entry))) }
{
    let Some(schema) = schema else {
        return Ok(());
    };
    let mut locations = Vec::new(alloc);
    add_locations(alloc, base, schema, true, LEVELS, &mut locations)?;
    add_each(alloc, locations.as_slice(), candidates)?;
    Ok(())
}

/// Adds the candidates of versions, in order.
fn add_versions(
    alloc: Global,
    versions: &[Value],
    candidates: &mut Vec<Candidate>,
) -> Result<(), AllocError>
    ensures { OnOk result (AddsCandidates candidates.old.items candidates.new.items
        (spec.versions_unread 0 (items_view versions.now))) }
{
    for (index, version) in versions.iter().enumerate() {
        let base = version_pointer(alloc, index)?;
        add_version(alloc, base.as_str(), version_schema(version), candidates)?;
    }
    Ok(())
}

/// Returns the candidates of a document.
#[tactic(auto, unfolding(crate::specs::Unread::crd_unread))]
fn candidates_of(alloc: Global, crd: &Value) -> Result<Vec<Candidate>, AllocError>
    ensures { IfOk result (λ v. map candidate_view v.items ≡ spec.crd_unread (view crd.now)) }
{
    let mut candidates = Vec::new(alloc);
    add_versions(alloc, versions_of(crd), &mut candidates)?;
    add_stray(alloc, Part::Document, "", crd, &mut candidates)?;
    Ok(candidates)
}

/// Returns what of a CustomResourceDefinition isn't read, though rules may have been meant there: keys
/// that no schema or rule has, rules that aren't a list, and rules that no object is judged by. These
/// are the findings of a review of the kinds [`ReviewKind::Keyword`] and [`ReviewKind::Rules`]; no
/// rule is compiled for them.
///
/// # Errors
///
/// [`AllocError`] if memory is refused.
#[tactic(auto, unfolding(crate::specs::Unread::unread_findings))]
pub fn unread_parts(alloc: Global, crd: &Value) -> Result<Vec<ReviewFinding>, AllocError>
    ensures { IfOk result (λ v. map finding_view v.items ≡ spec.unread_findings (view crd.now)) }
{
    let candidates = candidates_of(alloc, crd)?;
    let mut found = Vec::with_capacity(alloc, candidates.len())?;
    for candidate in candidates {
        let Candidate { finding, condition } = candidate;
        drop(condition);
        found.push(finding)?;
    }
    Ok(found)
}
