//! The constraints of policies and bindings.
ghost use Rattle.kube_manifests_bindings.specs.Constraints.{checked_constraints, constraints_fit, constraints_view, needed_lists_fit, pointers_view, rule_fits, rule_lists_fit, rule_of, rule_view, rules_fit, rules_of, scope_of};
ghost use Rattle.kube_manifests_bindings.specs.Selectors.{selector_view};
ghost use Rattle.kube_manifests_bindings.specs.Faults.{place_pointer, reading_view};
ghost use Rattle.kube_manifests_bindings.specs.Fields.{each_fits, object_fits};
ghost use Rattle.kube_manifests_documents.specs.Pointers.{keyword_pointer};
ghost use Rattle.serde_json.specs.View.{items_view, view};
ghost use Rattle.std.specs.Prelude.{◌≡◌};

use crate::fault::{Found, Problem};
use crate::fields::{Form, check_fields, check_list, check_required_list, items_at, text_at};
use crate::location::{Location, Place};
use crate::parts::{items_in, text_in};
use crate::selector::{Selector, selector_in};
use serde_json::Value;

/// The scope of the resources that a rule matches.
#[derive(Clone, Copy, Drop)]
pub enum Scope {
    /// Any scope, `*`.
    Whole,
    /// The cluster.
    Cluster,
    /// A namespace.
    Namespaced,
}

/// A rule of constraints. The items of its lists are strings.
#[derive(Clone, Copy, Drop)]
pub struct Rule<'v> {
    /// `operations`.
    pub operations: &'v [Value],
    /// `apiGroups`.
    pub groups: &'v [Value],
    /// `apiVersions`.
    pub versions: &'v [Value],
    /// `resources`.
    pub resources: &'v [Value],
    /// `resourceNames`. No names are all names.
    pub names: &'v [Value],
    /// `scope`.
    pub scope: Scope,
}

/// Which requests a policy or a binding is for.
#[derive(Clone, Copy, Drop)]
pub struct Constraints<'v> {
    pub(crate) value: &'v Value,
}

/// Where constraints are, and their selectors, as JSON Pointers.
#[derive(Clone, Copy, Drop)]
pub(crate) struct Pointers {
    pub(crate) base: &'static str,
    pub(crate) namespace_selector: &'static str,
    pub(crate) object_selector: &'static str,
}

const OPERATIONS: [&str; 5] = ["*", "CREATE", "UPDATE", "DELETE", "CONNECT"];

const SCOPES: [&str; 3] = ["*", "Cluster", "Namespaced"];

const MATCH_POLICIES: [&str; 2] = ["Exact", "Equivalent"];

const RULE_FIELDS: [&str; 6] = [
    "resourceNames",
    "operations",
    "apiGroups",
    "apiVersions",
    "resources",
    "scope",
];

const CONSTRAINTS_FIELDS: [&str; 5] = [
    "namespaceSelector",
    "objectSelector",
    "resourceRules",
    "excludeResourceRules",
    "matchPolicy",
];

fn scope_of(text: &str) -> Scope
    ensures { result ≡ scope_of text.now }
{
    match text {
        "Cluster" => Scope::Cluster,
        "Namespaced" => Scope::Namespaced,
        _ => Scope::Whole,
    }
}

impl<'v> Rule<'v> {
    /// Reads an entry of `resourceRules` or `excludeResourceRules`.
    pub fn of(value: &'v Value) -> Rule<'v>
        ensures { rule_view result ≡ rule_of (view value.now) }
    {
        Rule {
            operations: items_in(value, "operations"),
            groups: items_in(value, "apiGroups"),
            versions: items_in(value, "apiVersions"),
            resources: items_in(value, "resources"),
            names: items_in(value, "resourceNames"),
            scope: scope_of(text_in(value, "scope")),
        }
    }
}

impl<'v> Constraints<'v> {
    /// `namespaceSelector`.
    pub fn namespace_selector(self) -> Selector<'v>
        ensures { selector_view result ≡ (constraints_view self.entry).namespace_selector }
    {
        Selector {
            value: self.value.get("namespaceSelector"),
        }
    }

    /// `objectSelector`.
    pub fn object_selector(self) -> Selector<'v>
        ensures { selector_view result ≡ (constraints_view self.entry).object_selector }
    {
        Selector {
            value: self.value.get("objectSelector"),
        }
    }

    /// `resourceRules`, of which each is read by [`Rule::of`].
    pub fn rules(self) -> &'v [Value]
        ensures { rules_of (items_view result.now) ≡ (constraints_view self.entry).rules }
    {
        items_in(self.value, "resourceRules")
    }

    /// `excludeResourceRules`, of which each is read by [`Rule::of`].
    pub fn excluded(self) -> &'v [Value]
        ensures { rules_of (items_view result.now) ≡ (constraints_view self.entry).excluded }
    {
        items_in(self.value, "excludeResourceRules")
    }

    /// Whether `matchPolicy` is `Exact`.
    pub fn is_exact(self) -> bool
        ensures { result ≡ (constraints_view self.entry).is_exact }
    {
        text_in(self.value, "matchPolicy") == "Exact"
    }
}

/// Checks the lists that a rule has to have.
fn check_needed_lists<'v>(place: Place, value: &'v Value) -> Result<(), Found<'v>>
    ensures { reading_view (λ u. u) result
        ≡ needed_lists_fit (place_pointer place) (view value.now) }
{
    check_required_list(place, value, "operations", Form::OneOf(&OPERATIONS))?;
    check_required_list(place, value, "apiGroups", Form::Any)?;
    check_required_list(place, value, "apiVersions", Form::Filled)?;
    check_required_list(place, value, "resources", Form::Filled)
}

/// Checks the fields of a rule.
fn check_rule_fields<'v>(place: Place, value: &'v Value) -> Result<(), Found<'v>>
    ensures { reading_view (λ u. u) result ≡ rule_fits (place_pointer place) (view value.now) }
{
    check_fields(place, value, &RULE_FIELDS)?;
    check_needed_lists(place, value)?;
    check_list(place, value, "resourceNames", Form::Any)?;
    text_at(place, value, "scope", Form::OneOf(&SCOPES))?;
    Ok(())
}

/// Checks a rule.
fn check_rule<'v>(place: Place, value: &'v Value) -> Result<(), Found<'v>>
    ensures { reading_view (λ u. u) result
        ≡ object_fits rule_fits (place_pointer place) (view value.now) }
{
    match value {
        Value::Object(_) => check_rule_fields(place, value),
        _ => Err(Found {
            location: Location::Whole(place),
            problem: Problem::NotObject,
        }),
    }
}

/// Checks the rules in a list of the object at a pointer.
fn check_each_rule<'v>(
    pointer: &'static str,
    name: &'static str,
    items: &'v [Value],
) -> Result<(), Found<'v>>
    ensures { reading_view (λ u. u) result
        ≡ each_fits rule_fits (keyword_pointer pointer.now name.now) 0 (items_view items.now) }
{
    for (index, item) in items.iter().enumerate() {
        check_rule(Place::Item(pointer, name, index), item)?;
    }
    Ok(())
}

/// Checks the rules in a field of the object at a pointer.
fn check_rules<'v>(
    pointer: &'static str,
    value: &'v Value,
    name: &'static str,
) -> Result<(), Found<'v>>
    ensures { reading_view (λ u. u) result ≡ rules_fit pointer.now name.now (view value.now) }
{
    let items = items_at(Place::At(pointer), value, name)?;
    check_each_rule(pointer, name, items)
}

/// Checks the rules of constraints, and how they match.
fn check_rule_lists<'v>(base: &'static str, value: &'v Value) -> Result<(), Found<'v>>
    ensures { reading_view (λ u. u) result ≡ rule_lists_fit base.now (view value.now) }
{
    check_rules(base, value, "resourceRules")?;
    check_rules(base, value, "excludeResourceRules")?;
    let form = Form::OneOf(&MATCH_POLICIES);
    text_at(Place::At(base), value, "matchPolicy", form)?;
    Ok(())
}

/// Checks constraints.
fn check_constraints<'v>(pointers: Pointers, value: &'v Value) -> Result<(), Found<'v>>
    ensures { reading_view (λ u. u) result ≡ constraints_fit (pointers_view pointers) (view value.now) }
{
    let base = pointers.base;
    check_fields(Place::At(base), value, &CONSTRAINTS_FIELDS)?;
    selector_in(
        base,
        pointers.namespace_selector,
        "namespaceSelector",
        value,
    )?;
    selector_in(base, pointers.object_selector, "objectSelector", value)?;
    check_rule_lists(base, value)
}

/// Reads constraints.
pub(crate) fn constraints_of<'v>(
    pointers: Pointers,
    value: &'v Value,
) -> Result<Constraints<'v>, Found<'v>>
    ensures { reading_view constraints_view result
        ≡ checked_constraints (pointers_view pointers) (view value.now) }
{
    check_constraints(pointers, value)?;
    Ok(Constraints { value })
}
