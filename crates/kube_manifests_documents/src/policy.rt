//! Reads the document of a policy.
ghost use Rattle.kube_manifests_documents.specs.Faults.{pointer_at};
ghost use Rattle.kube_manifests_documents.specs.Policies.{entries_of, ignores_in, item_view, object_of, params_in, policy_of, policy_view, reading_view, spec_fields, spec_in, spec_of, unless_empty};
ghost use Rattle.serde_json.specs.Find.{get};
ghost use Rattle.serde_json.specs.View.{view};
ghost use Rattle.std.specs.Prelude.{◌≡◌, IfErr, IfOk, map};

use crate::fault::{Found, Problem};
use crate::item::{Item, PolicyList, check_known, entries_of, optional_one_at, required_one_at};
use crate::location::Location;
use kube_types_refused::Refused;
use serde_json::Value;
use std::alloc::{AllocError, Global};

/// The apiVersions of a policy.
const VERSIONS: [&str; 3] = [
    "admissionregistration.k8s.io/v1",
    "admissionregistration.k8s.io/v1beta1",
    "admissionregistration.k8s.io/v1alpha1",
];

const KINDS: [&str; 1] = ["ValidatingAdmissionPolicy"];

const FAILURE_POLICIES: [&str; 2] = ["Fail", "Ignore"];

/// The contents of a policy's document.
#[derive(Drop)]
pub struct Policy<'v> {
    /// Whether `failurePolicy` is `Ignore`.
    pub ignores: bool,
    /// Whether the policy has a `paramKind`, and so `params`.
    pub has_params: bool,
    /// `matchConditions`.
    pub conditions: Vec<Item<'v>>,
    /// `variables`.
    pub variables: Vec<Item<'v>>,
    /// `validations`.
    pub validations: Vec<Item<'v>>,
    /// `auditAnnotations`.
    pub annotations: Vec<Item<'v>>,
}

/// The fields of `spec`.
fn spec_fields() -> &'static [&'static str]
    ensures { map (λ s. s.now) result.now ≡ spec_fields }
{
    &[
        "paramKind",
        "matchConstraints",
        "matchConditions",
        "validations",
        "failurePolicy",
        "auditAnnotations",
        "variables",
    ]
}

/// The object in a required field.
pub(crate) fn object_at<'v>(
    value: &'v Value,
    name: &'static str,
    location: Location<'v>,
) -> Result<&'v Value, Found<'v>>
    ensures { reading_view (λ v. view v.now) result
        ≡ object_of (pointer_at location.entry) (get name.now (view value.now)) }
{
    match value.get(name) {
        None | Some(Value::Null) => Err(Found {
            location,
            problem: Problem::Missing,
        }),
        Some(found) => {
            if found.is_object() {
                return Ok(found);
            }
            Err(Found {
                location,
                problem: Problem::NotObject,
            })
        }
    }
}

/// The `spec` of a policy's document, after its apiVersion, kind and the fields of `spec` are
/// checked.
#[tactic(auto, unfolding(crate::specs::Policies::spec_in))]
fn spec_in(document: &Value) -> Result<&Value, Found<'_>>
    ensures { reading_view (λ v. view v.now) result ≡ spec_in (view document.now) }
{
    let version = Location::Field("", "apiVersion");
    required_one_at(document, "apiVersion", &VERSIONS, version)?;
    required_one_at(document, "kind", &KINDS, Location::Field("", "kind"))?;
    let spec = object_at(document, "spec", Location::Field("", "spec"))?;
    check_known("/spec", spec, spec_fields())?;
    Ok(spec)
}

/// Reports whether `failurePolicy` is `Ignore`. False if it isn't set.
fn ignores_in(spec: &Value) -> Result<bool, Found<'_>>
    ensures { reading_view (λ b. b) result ≡ ignores_in (view spec.now) }
{
    let location = Location::Field("/spec", "failurePolicy");
    match optional_one_at(spec, "failurePolicy", &FAILURE_POLICIES, location)? {
        None => Ok(false),
        Some(text) => Ok(text == "Ignore"),
    }
}

/// Reports whether there is a `paramKind`.
fn params_in(spec: &Value) -> Result<bool, Found<'_>>
    ensures { reading_view (λ b. b) result ≡ params_in (view spec.now) }
{
    match spec.get("paramKind") {
        None | Some(Value::Null) => Ok(false),
        Some(Value::Object(_)) => Ok(true),
        Some(_) => Err(Found {
            location: Location::Field("/spec", "paramKind"),
            problem: Problem::NotObject,
        }),
    }
}

/// Reads the entries of a list of `spec`. An absent list is empty.
fn list_of<'v>(
    alloc: Global,
    list: PolicyList,
    spec: &'v Value,
) -> Result<Result<Vec<Item<'v>>, Found<'v>>, AllocError>
    ensures entries { IfOk result (λ r. reading_view (λ v. map item_view v.items) r
        ≡ entries_of list (view spec.now)) }
{
    match spec.get(list.keyword()) {
        None | Some(Value::Null) => Ok(Ok(Vec::new(alloc))),
        Some(Value::Array(values)) => entries_of(alloc, list, values.as_slice()),
        Some(_) => Ok(Err(Found {
            location: Location::Field("/spec", list.keyword()),
            problem: Problem::NotList,
        })),
    }
}

/// Returns the policy, or a fault if it has neither validations nor audit annotations.
fn unless_empty(policy: Policy<'_>) -> Result<Policy<'_>, Found<'_>>
    ensures { reading_view policy_view result ≡ unless_empty (policy_view policy.entry) }
{
    if policy.validations.is_empty() && policy.annotations.is_empty() {
        return Err(Found {
            location: Location::Field("", "spec"),
            problem: Problem::NothingToCheck,
        });
    }
    Ok(policy)
}

/// Reads a `spec`.
#[tactic(auto, unfolding(crate::specs::Policies::spec_of))]
fn spec_of(alloc: Global, spec: &Value) -> Result<Result<Policy<'_>, Found<'_>>, AllocError>
    ensures policy { IfOk result (λ r. reading_view policy_view r ≡ spec_of (view spec.now)) }
{
    let ignores = match ignores_in(spec) {
        Ok(ignores) => ignores,
        Err(found) => return Ok(Err(found)),
    };
    let has_params = match params_in(spec) {
        Ok(has_params) => has_params,
        Err(found) => return Ok(Err(found)),
    };
    let conditions = match list_of(alloc, PolicyList::MatchConditions, spec)? {
        Ok(conditions) => conditions,
        Err(found) => return Ok(Err(found)),
    };
    let variables = match list_of(alloc, PolicyList::Variables, spec)? {
        Ok(variables) => variables,
        Err(found) => return Ok(Err(found)),
    };
    let validations = match list_of(alloc, PolicyList::Validations, spec)? {
        Ok(validations) => validations,
        Err(found) => return Ok(Err(found)),
    };
    let annotations = match list_of(alloc, PolicyList::AuditAnnotations, spec)? {
        Ok(annotations) => annotations,
        Err(found) => return Ok(Err(found)),
    };
    Ok(unless_empty(Policy {
        ignores,
        has_params,
        conditions,
        variables,
        validations,
        annotations,
    }))
}

/// Reads a policy from its document. The inner error is the first fault.
///
/// # Errors
///
/// [`Refused`] if memory is refused.
#[tactic(auto, unfolding(crate::specs::Policies::policy_of))]
pub fn policy_of(alloc: Global, document: &Value) -> Result<Result<Policy<'_>, Found<'_>>, Refused>
    ensures policy { IfOk result (λ r. reading_view policy_view r ≡ policy_of (view document.now)) }
    ensures memory { IfErr result (λ e. e ≡ Refused.Memory) }
{
    match spec_in(document) {
        Ok(spec) => {
            let policy = spec_of(alloc, spec)?;
            Ok(policy)
        }
        Err(found) => Ok(Err(found)),
    }
}
