//! Reads the document of a binding.
ghost use Rattle.kube_manifests_bindings.specs.Bindings.{actions_after, actions_in, actions_view, add_action, binding_in, binding_of, binding_view, denies_in, has_action, header_view, match_resources_in, next_action, no_actions, param_ref_in, param_ref_of, param_ref_view, source_in, source_of, source_view, unless_both, unless_empty, with_action};
ghost use Rattle.kube_manifests_bindings.specs.Constraints.{constraints_view};
ghost use Rattle.kube_manifests_bindings.specs.Faults.{pointer_at, reading_view};
ghost use Rattle.serde_json.specs.View.{items_view, view};
ghost use Rattle.std.specs.Prelude.{◌≡◌, option_map};

use crate::constraints::{Constraints, Pointers, constraints_of};
use crate::fault::{Found, Problem};
use crate::fields::{
    Form, check_fields, formed, object_at, required_items_at, required_text_at, text_at,
};
use crate::header::{Header, check_type, header_of};
use crate::location::{Location, Place};
use crate::selector::{Selector, selector_in};
use serde_json::Value;

const BINDING_KINDS: [&str; 1] = ["ValidatingAdmissionPolicyBinding"];

const BINDING_FIELDS: [&str; 4] = [
    "policyName",
    "paramRef",
    "matchResources",
    "validationActions",
];

const PARAM_REF_FIELDS: [&str; 4] = ["name", "namespace", "selector", "parameterNotFoundAction"];

const NOT_FOUND_ACTIONS: [&str; 2] = ["Allow", "Deny"];

const ACTIONS: [&str; 3] = ["Deny", "Warn", "Audit"];

const SPEC: Place = Place::At("/spec");

const MATCH_RESOURCES: Pointers = Pointers {
    base: "/spec/matchResources",
    namespace_selector: "/spec/matchResources/namespaceSelector",
    object_selector: "/spec/matchResources/objectSelector",
};

const PARAM_REF: Place = Place::At("/spec/paramRef");

/// Which objects are the params of a binding.
#[derive(Clone, Copy, Drop)]
pub enum ParamSource<'v> {
    /// The one of this name.
    Named(&'v str),
    /// Those that the selector selects.
    Selected(Selector<'v>),
}

/// `paramRef` of a binding.
#[derive(Clone, Copy, Drop)]
pub struct ParamRef<'v> {
    /// Which objects are params.
    pub source: ParamSource<'v>,
    /// The namespace of the params, if it is given.
    pub namespace: Option<&'v str>,
    /// Whether `parameterNotFoundAction` is `Deny`.
    pub denies: bool,
}

/// `validationActions` of a binding.
#[derive(Clone, Copy, Drop)]
pub struct Actions {
    /// Whether a failed validation denies the request.
    pub denies: bool,
    /// Whether a failed validation is reported as a warning.
    pub warns: bool,
    /// Whether a failed validation is recorded in the audit event.
    pub audits: bool,
}

/// The contents of a binding's document.
#[derive(Clone, Copy, Drop)]
pub struct Binding<'v> {
    /// `metadata.name`.
    pub name: &'v str,
    /// `policyName`, the name of the policy that is bound.
    pub policy: &'v str,
    /// `paramRef`.
    pub param_ref: Option<ParamRef<'v>>,
    /// `matchResources`.
    pub constraints: Option<Constraints<'v>>,
    /// `validationActions`.
    pub actions: Actions,
}

fn unless_empty(text: Option<&str>) -> Option<&str>
    ensures { option_map (λ s. s.now) result ≡ unless_empty (option_map (λ s. s.now) text.entry) }
{
    match text {
        Some(text) => { if text.is_empty() { None } else { Some(text) } }
        None => None,
    }
}

/// Returns which objects are params, by the name or the selector of a `paramRef`.
fn source_of<'v>(
    name: Option<&'v str>,
    selector: Selector<'v>,
) -> Result<ParamSource<'v>, Found<'v>>
    ensures { reading_view source_view result
        ≡ source_of (option_map (λ s. s.now) name.entry) (option_map (λ v. view v.now) selector.entry.value) }
{
    match (name, selector.value) {
        (None, None) => Err(Found {
            location: Location::Field(PARAM_REF, "name"),
            problem: Problem::Missing,
        }),
        (None, Some(_)) => Ok(ParamSource::Selected(selector)),
        (Some(name), None) => Ok(ParamSource::Named(name)),
        (Some(_), Some(_)) => Err(Found {
            location: Location::Field(PARAM_REF, "selector"),
            problem: Problem::Beside("name"),
        }),
    }
}

/// Reads from a `paramRef` which objects are params.
#[tactic(auto, unfolding(crate::specs::Bindings::source_in))]
fn source_in(value: &Value) -> Result<ParamSource<'_>, Found<'_>>
    ensures { reading_view source_view result ≡ source_in (view value.now) }
{
    let name = text_at(PARAM_REF, value, "name", Form::Any)?;
    let selector = selector_in(
        "/spec/paramRef",
        "/spec/paramRef/selector",
        "selector",
        value,
    )?;
    source_of(unless_empty(name), selector)
}

/// Reports whether `parameterNotFoundAction` of a `paramRef` is `Deny`.
fn denies_in(value: &Value) -> Result<bool, Found<'_>>
    ensures { reading_view (λ b. b) result ≡ denies_in (view value.now) }
{
    let form = Form::OneOf(&NOT_FOUND_ACTIONS);
    let action = required_text_at(PARAM_REF, value, "parameterNotFoundAction", form)?;
    Ok(action == "Deny")
}

/// Reads a `paramRef`.
#[tactic(auto, unfolding(crate::specs::Bindings::param_ref_of))]
fn param_ref_of(value: &Value) -> Result<ParamRef<'_>, Found<'_>>
    ensures { reading_view param_ref_view result ≡ param_ref_of (view value.now) }
{
    check_fields(PARAM_REF, value, &PARAM_REF_FIELDS)?;
    let source = source_in(value)?;
    let namespace = text_at(PARAM_REF, value, "namespace", Form::Any)?;
    let denies = denies_in(value)?;
    Ok(ParamRef {
        source,
        namespace: unless_empty(namespace),
        denies,
    })
}

/// Reads the `paramRef` of a `spec`, if there is one.
fn param_ref_in(spec: &Value) -> Result<Option<ParamRef<'_>>, Found<'_>>
    ensures { reading_view (option_map param_ref_view) result ≡ param_ref_in (view spec.now) }
{
    match object_at(SPEC, spec, "paramRef")? {
        Some(value) => Ok(Some(param_ref_of(value)?)),
        None => Ok(None),
    }
}

impl Actions {
    /// Returns no actions.
    fn none() -> Actions
        ensures { actions_view result ≡ no_actions }
    {
        Actions {
            denies: false,
            warns: false,
            audits: false,
        }
    }

    /// Reports whether this action is among these.
    fn has(self, action: &str) -> bool
        ensures { result ≡ has_action (actions_view self) action.now }
    {
        self.denies && action == "Deny"
            || self.warns && action == "Warn"
            || self.audits && action == "Audit"
    }

    /// Returns these actions and one more.
    fn with(self, action: &str) -> Actions
        ensures { actions_view result ≡ with_action (actions_view self) action.now }
    {
        Actions {
            denies: self.denies || action == "Deny",
            warns: self.warns || action == "Warn",
            audits: self.audits || action == "Audit",
        }
    }
}

/// Adds an action to those that were read.
fn add_action<'v>(
    location: Location<'v>,
    actions: Actions,
    action: &'v str,
) -> Result<Actions, Found<'v>>
    ensures { reading_view actions_view result
        ≡ add_action (pointer_at location.entry) (actions_view actions) action.now }
{
    if actions.has(action) {
        return Err(Found {
            location,
            problem: Problem::Repeated,
        });
    }
    Ok(actions.with(action))
}

/// Adds an item of a list to the actions that were read.
fn next_action<'v>(
    location: Location<'v>,
    actions: Actions,
    item: &'v Value,
) -> Result<Actions, Found<'v>>
    ensures { reading_view actions_view result
        ≡ next_action (pointer_at location.entry) (actions_view actions) (view item.now) }
{
    match item {
        Value::String(text) => {
            let action = formed(location, Form::OneOf(&ACTIONS), text.as_str())?;
            add_action(location, actions, action)
        }
        _ => Err(Found {
            location,
            problem: Problem::NotString,
        }),
    }
}

/// Reads the actions in a list.
fn actions_of(items: &[Value]) -> Result<Actions, Found<'_>>
    ensures { reading_view actions_view result ≡ actions_after no_actions 0 (items_view items.now) }
{
    let mut actions = Actions::none();
    for (index, item) in items.iter().enumerate() {
        let location = Location::FieldItem(SPEC, "validationActions", index);
        actions = next_action(location, actions, item)?;
    }
    Ok(actions)
}

/// Returns the actions, unless they deny and warn.
fn unless_both<'v>(actions: Actions) -> Result<Actions, Found<'v>>
    ensures { reading_view actions_view result ≡ unless_both (actions_view actions) }
{
    if actions.denies && actions.warns {
        return Err(Found {
            location: Location::Field(SPEC, "validationActions"),
            problem: Problem::Beside("Deny"),
        });
    }
    Ok(actions)
}

/// Reads the actions of a `spec`.
fn actions_in(spec: &Value) -> Result<Actions, Found<'_>>
    ensures { reading_view actions_view result ≡ actions_in (view spec.now) }
{
    let items = required_items_at(SPEC, spec, "validationActions")?;
    unless_both(actions_of(items)?)
}

/// Reads the `matchResources` of a `spec`, if there are any.
fn match_resources_in(spec: &Value) -> Result<Option<Constraints<'_>>, Found<'_>>
    ensures { reading_view (option_map constraints_view) result ≡ match_resources_in (view spec.now) }
{
    match object_at(SPEC, spec, "matchResources")? {
        Some(value) => Ok(Some(constraints_of(MATCH_RESOURCES, value)?)),
        None => Ok(None),
    }
}

/// Reads the binding that this is the header of.
#[tactic(auto, unfolding(crate::specs::Bindings::binding_in))]
fn binding_in(header: Header<'_>) -> Result<Binding<'_>, Found<'_>>
    ensures { reading_view binding_view result ≡ binding_in (header_view header.entry) }
{
    let Header { name, spec } = header;
    let policy = required_text_at(SPEC, spec, "policyName", Form::Filled)?;
    let param_ref = param_ref_in(spec)?;
    let constraints = match_resources_in(spec)?;
    let actions = actions_in(spec)?;
    Ok(Binding {
        name,
        policy,
        param_ref,
        constraints,
        actions,
    })
}

/// Reads a binding from its document. The error is the first fault.
pub fn binding_of(document: &Value) -> Result<Binding<'_>, Found<'_>>
    ensures { reading_view binding_view result ≡ binding_of (view document.now) }
{
    check_type(document, Form::OneOf(&BINDING_KINDS))?;
    let header = header_of(document)?;
    check_fields(SPEC, header.spec, &BINDING_FIELDS)?;
    binding_in(header)
}
