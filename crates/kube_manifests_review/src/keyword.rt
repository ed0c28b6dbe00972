//! Finds keys that are no fields.
ghost use Rattle.std.specs.Prelude.{◌≡◌, IfOk, OnOk, map, option_map, string_bytes};
ghost use Rattle.kube_manifests_review.specs.Candidates.{AddsCandidates};
ghost use Rattle.kube_manifests_review.specs.Keywords as spec;
ghost use Rattle.kube_manifests_review.specs.Keywords.{key_candidates, keys_candidates};
ghost use Rattle.serde_json.specs.View.{members_view};

use crate::candidate::{Candidate, Condition};
use crate::finding::{ReviewFinding, ReviewKind};
use kube_manifests_documents::key_pointer;
use kube_manifests_texts::{is_word, near};
use serde_json::{Map, Value};
use std::alloc::{AllocError, Global};
use std::rc::Rc;

/// The fields of a schema: of `JSONSchemaProps` of `apiextensions.k8s.io/v1`.
pub(crate) const SCHEMA_FIELDS: [&str; 44] = [
    "$ref",
    "$schema",
    "additionalItems",
    "additionalProperties",
    "allOf",
    "anyOf",
    "default",
    "definitions",
    "dependencies",
    "description",
    "enum",
    "example",
    "exclusiveMaximum",
    "exclusiveMinimum",
    "externalDocs",
    "format",
    "id",
    "items",
    "maxItems",
    "maxLength",
    "maxProperties",
    "maximum",
    "minItems",
    "minLength",
    "minProperties",
    "minimum",
    "multipleOf",
    "not",
    "nullable",
    "oneOf",
    "pattern",
    "patternProperties",
    "properties",
    "required",
    "title",
    "type",
    "uniqueItems",
    "x-kubernetes-embedded-resource",
    "x-kubernetes-int-or-string",
    "x-kubernetes-list-map-keys",
    "x-kubernetes-list-type",
    "x-kubernetes-map-type",
    "x-kubernetes-preserve-unknown-fields",
    "x-kubernetes-validations",
];

/// The fields of a rule: of `ValidationRule` of `apiextensions.k8s.io/v1`.
pub(crate) const RULE_FIELDS: [&str; 6] = [
    "rule",
    "message",
    "messageExpression",
    "reason",
    "fieldPath",
    "optionalOldSelf",
];

/// The message about a key that is no field, with the field that was meant, if one is near.
fn unknown_text(alloc: Global, key: &str, field: Option<&str>) -> Result<String, AllocError>
    ensures { IfOk result (λ s. string_bytes s ≡ spec.unknown_text key.now (option_map (λ f. f.now) field.entry)) }
{
    match field {
        Some(field) => format!(in alloc; "unknown field '{key}', did you mean '{field}'?"),
        None => format!(in alloc; "unknown field '{key}'"),
    }
}

/// Adds a candidate if a key is none of these fields.
fn add_key(
    alloc: Global,
    fields: &[&str],
    pointer: &str,
    rule: &str,
    key: &str,
    candidates: &mut Vec<Candidate>,
) -> Result<(), AllocError>
    ensures { OnOk result (AddsCandidates candidates.old.items candidates.new.items
        (key_candidates (map (λ f. f.now) fields.now) pointer.now rule.now key.now)) }
{
    if is_word(fields, key) {
        return Ok(());
    }
    let meant = near(alloc, fields, key)?;
    candidates.push(Candidate {
        finding: ReviewFinding {
            pointer: key_pointer(alloc, pointer, key)?,
            rule: Rc::new(alloc, String::from_str(alloc, rule)?)?,
            kind: ReviewKind::Keyword,
            message: unknown_text(alloc, key, meant)?,
        },
        condition: Condition::Always,
    })?;
    Ok(())
}

/// Adds a candidate for each key that is none of these fields, in order.
pub(crate) fn add_keys(
    alloc: Global,
    fields: &[&str],
    pointer: &str,
    rule: &str,
    members: &Map<String, Value>,
    candidates: &mut Vec<Candidate>,
) -> Result<(), AllocError>
    ensures { OnOk result (AddsCandidates candidates.old.items candidates.new.items
        (keys_candidates (map (λ f. f.now) fields.now) pointer.now rule.now
        (members_view members.now.entries))) }
{
    for (key, _value) in members.iter() {
        add_key(alloc, fields, pointer, rule, key.as_str(), candidates)?;
    }
    Ok(())
}
