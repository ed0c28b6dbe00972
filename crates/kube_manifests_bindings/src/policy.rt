//! Reads from the document of a policy which requests it is for.
ghost use Rattle.kube_manifests_bindings.specs.Bindings.{header_view, match_constraints_in, param_kind_in, param_kind_of, param_kind_view, target_in, target_of, target_view};
ghost use Rattle.kube_manifests_bindings.specs.Constraints.{constraints_view};
ghost use Rattle.kube_manifests_bindings.specs.Faults.{reading_view};
ghost use Rattle.serde_json.specs.View.{view};
ghost use Rattle.std.specs.Prelude.{◌≡◌, option_map};

use crate::constraints::{Constraints, Pointers, constraints_of};
use crate::fault::Found;
use crate::fields::{
    Form, check_fields, object_at, required_items_at, required_object_at, required_text_at,
};
use crate::header::{Header, check_type, header_of};
use crate::location::Place;
use serde_json::Value;

const POLICY_KINDS: [&str; 1] = ["ValidatingAdmissionPolicy"];

const SPEC: Place = Place::At("/spec");

const MATCH_CONSTRAINTS: Pointers = Pointers {
    base: "/spec/matchConstraints",
    namespace_selector: "/spec/matchConstraints/namespaceSelector",
    object_selector: "/spec/matchConstraints/objectSelector",
};

/// `paramKind` of a policy.
#[derive(Clone, Copy, Drop)]
pub struct ParamKind<'v> {
    /// The apiVersion of the params.
    pub api_version: &'v str,
    /// The kind of the params.
    pub kind: &'v str,
}

/// Which requests a policy is for, and the kind of its params.
#[derive(Clone, Copy, Drop)]
pub struct PolicyTarget<'v> {
    /// `metadata.name`.
    pub name: &'v str,
    /// `paramKind`.
    pub param_kind: Option<ParamKind<'v>>,
    /// `matchConstraints`.
    pub constraints: Constraints<'v>,
}

/// Reads a `paramKind`.
#[tactic(auto, unfolding(crate::specs::Bindings::param_kind_of))]
fn param_kind_of(value: &Value) -> Result<ParamKind<'_>, Found<'_>>
    ensures { reading_view param_kind_view result ≡ param_kind_of (view value.now) }
{
    let place = Place::At("/spec/paramKind");
    check_fields(place, value, &["apiVersion", "kind"])?;
    let api_version = required_text_at(place, value, "apiVersion", Form::Filled)?;
    let kind = required_text_at(place, value, "kind", Form::Filled)?;
    Ok(ParamKind { api_version, kind })
}

/// Reads the `paramKind` of a `spec`, if there is one.
fn param_kind_in(spec: &Value) -> Result<Option<ParamKind<'_>>, Found<'_>>
    ensures { reading_view (option_map param_kind_view) result ≡ param_kind_in (view spec.now) }
{
    match object_at(SPEC, spec, "paramKind")? {
        Some(value) => Ok(Some(param_kind_of(value)?)),
        None => Ok(None),
    }
}

/// Reads the `matchConstraints` of a `spec`, which must have a resource rule.
fn match_constraints_in(spec: &Value) -> Result<Constraints<'_>, Found<'_>>
    ensures { reading_view constraints_view result ≡ match_constraints_in (view spec.now) }
{
    let value = required_object_at(SPEC, spec, "matchConstraints")?;
    let constraints = constraints_of(MATCH_CONSTRAINTS, value)?;
    let place = Place::At("/spec/matchConstraints");
    required_items_at(place, value, "resourceRules")?;
    Ok(constraints)
}

/// Reads what the policy is for that this is the header of.
#[tactic(auto, unfolding(crate::specs::Bindings::target_in))]
fn target_in(header: Header<'_>) -> Result<PolicyTarget<'_>, Found<'_>>
    ensures { reading_view target_view result ≡ target_in (header_view header.entry) }
{
    let Header { name, spec } = header;
    let param_kind = param_kind_in(spec)?;
    let constraints = match_constraints_in(spec)?;
    Ok(PolicyTarget {
        name,
        param_kind,
        constraints,
    })
}

/// Reads from a policy's document which requests it is for. The error is the first fault; other
/// parts of the document aren't looked at.
pub fn target_of(document: &Value) -> Result<PolicyTarget<'_>, Found<'_>>
    ensures { reading_view target_view result ≡ target_of (view document.now) }
{
    check_type(document, Form::OneOf(&POLICY_KINDS))?;
    target_in(header_of(document)?)
}
