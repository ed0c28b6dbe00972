//! Which requests constraints are for.
ghost use Rattle.kube_manifests_bindings.specs.Constraints.{constraints_view, rules_of};
ghost use Rattle.kube_manifests_bindings.specs.Selectors.{selector_view};
ghost use Rattle.kube_manifests_matching.specs.Attributes.{attributes_view};
ghost use Rattle.kube_manifests_matching.specs.Criteria.{and_also, any_or_none, doubts, fails, has_namespace, is_included, is_not_excluded, is_selected, meets_namespace_selector, meets_object_selector, namespace_of, namespace_selected, negated, own_namespace, with_constraints};
ghost use Rattle.serde_json.specs.View.{items_view, view};
ghost use Rattle.std.specs.Prelude.{◌≡◌, option_map};

use crate::attributes::{Attributes, Operation};
use crate::labels::{can_have_labels, is_empty, labels_of, selects};
use crate::rules::{any_matches, is_of_namespaces, truth};
use crate::truth::Truth;
use kube_manifests_bindings::{Constraints, Selector};
use serde_json::Value;

/// What has constraints.
#[derive(Clone, Copy, Drop)]
pub enum Owner {
    /// A policy has `matchConstraints`.
    Policy,
    /// A binding has `matchResources`.
    Binding,
}

/// A criterion of constraints.
#[derive(Clone, Copy, Drop)]
pub enum Criterion {
    /// `namespaceSelector` selects the namespace of the object.
    NamespaceSelector,
    /// `objectSelector` selects the object or the old object.
    ObjectSelector,
    /// No rule of `excludeResourceRules` matches the request.
    ExcludeResourceRules,
    /// A rule of `resourceRules` matches the request, if there are rules.
    ResourceRules,
}

/// Why a policy doesn't apply to a request by a binding, or isn't judged.
#[derive(Clone, Copy, Drop)]
pub enum Reason {
    /// The request is for a policy or a binding, to which no policy applies.
    Exempt,
    /// The binding is one of another policy.
    OtherPolicy,
    /// A criterion of constraints.
    Constraint(Owner, Criterion),
}

/// Whether a policy applies to a request by a binding.
#[derive(Clone, Copy, Drop)]
pub enum Applicability {
    /// It applies.
    Applies,
    /// It doesn't apply, since this isn't met.
    DoesNotApply(Reason),
    /// What is given doesn't say whether this is met.
    NotJudged(Reason),
}

/// The Namespace that a request makes, changes or deletes.
fn own_namespace<'a>(attributes: &Attributes<'a>) -> Option<&'a Value>
    ensures { option_map (λ v. view v.now) result
        ≡ own_namespace (attributes_view attributes.now).operation (attributes_view attributes.now) }
{
    match attributes.operation {
        Operation::Create => attributes.object,
        Operation::Update => attributes.object,
        Operation::Delete => attributes.old_object,
        Operation::Connect => None,
    }
}

/// The Namespace that the namespaceSelector looks at.
fn namespace_of<'a>(attributes: &Attributes<'a>) -> Option<&'a Value>
    ensures { option_map (λ v. view v.now) result ≡ namespace_of (attributes_view attributes.now) }
{
    if is_of_namespaces(attributes) && attributes.subresource == "" {
        return own_namespace(attributes);
    }
    attributes.namespace_object
}

/// Reports whether a request has a Namespace whose labels count.
fn has_namespace(attributes: &Attributes<'_>) -> bool
    ensures { result ≡ has_namespace (attributes_view attributes.now) }
{
    attributes.namespace != "" || is_of_namespaces(attributes)
}

/// Returns whether a selector selects a Namespace.
fn namespace_selected(selector: Selector<'_>, namespace: Option<&Value>) -> Truth
    ensures { result
        ≡ namespace_selected (selector_view selector.entry) (option_map (λ v. view v.now) namespace.entry) }
{
    match namespace {
        Some(namespace) => truth(selects(selector, labels_of(namespace))),
        None => Truth::Unknown,
    }
}

/// Returns whether a request meets a namespaceSelector.
fn meets_namespace_selector(selector: Selector<'_>, attributes: &Attributes<'_>) -> Truth
    ensures { result
        ≡ meets_namespace_selector (selector_view selector.entry) (attributes_view attributes.now) }
{
    if !has_namespace(attributes) || is_empty(selector) {
        return Truth::Yes;
    }
    namespace_selected(selector, namespace_of(attributes))
}

/// Reports whether a selector selects an object.
fn is_selected(selector: Selector<'_>, object: Option<&Value>) -> bool
    ensures { result
        ≡ is_selected (selector_view selector.entry) (option_map (λ v. view v.now) object.entry) }
{
    match object {
        Some(object) => can_have_labels(object) && selects(selector, labels_of(object)),
        None => false,
    }
}

/// Returns whether a request meets an objectSelector.
fn meets_object_selector(selector: Selector<'_>, attributes: &Attributes<'_>) -> Truth
    ensures { result
        ≡ meets_object_selector (selector_view selector.entry) (attributes_view attributes.now) }
{
    truth(
        is_empty(selector)
            || is_selected(selector, attributes.object)
            || is_selected(selector, attributes.old_object),
    )
}

fn negated(truth: Truth) -> Truth
    ensures { result ≡ negated truth }
{
    match truth {
        Truth::Yes => Truth::No,
        Truth::No => Truth::Yes,
        Truth::Unknown => Truth::Unknown,
    }
}

/// Returns whether no excluding rule matches a request.
fn is_not_excluded(constraints: Constraints<'_>, attributes: &Attributes<'_>) -> Truth
    ensures { result
        ≡ is_not_excluded (constraints_view constraints.entry) (attributes_view attributes.now) }
{
    negated(any_matches(constraints.is_exact(), constraints.excluded(), attributes))
}

/// Returns whether one of these rules matches a request, or there are no rules.
fn any_or_none(is_exact: bool, rules: &[Value], attributes: &Attributes<'_>) -> Truth
    ensures { result
        ≡ any_or_none is_exact (rules_of (items_view rules.now)) (attributes_view attributes.now) }
{
    if rules.is_empty() {
        return Truth::Yes;
    }
    any_matches(is_exact, rules, attributes)
}

/// Returns whether a rule matches a request, or there are no rules.
fn is_included(constraints: Constraints<'_>, attributes: &Attributes<'_>) -> Truth
    ensures { result
        ≡ is_included (constraints_view constraints.entry) (attributes_view attributes.now) }
{
    any_or_none(constraints.is_exact(), constraints.rules(), attributes)
}

impl Applicability {
    /// Returns this with a criterion that isn't met.
    fn fails(self, reason: Reason) -> Applicability
        ensures { result ≡ fails self reason }
    {
        match self {
            Applicability::Applies => Applicability::DoesNotApply(reason),
            Applicability::NotJudged(_) => Applicability::DoesNotApply(reason),
            Applicability::DoesNotApply(earlier) => Applicability::DoesNotApply(earlier),
        }
    }

    /// Returns this with a criterion of which it isn't known whether it is met.
    fn doubts(self, reason: Reason) -> Applicability
        ensures { result ≡ doubts self reason }
    {
        match self {
            Applicability::Applies => Applicability::NotJudged(reason),
            Applicability::NotJudged(earlier) => Applicability::NotJudged(earlier),
            Applicability::DoesNotApply(earlier) => Applicability::DoesNotApply(earlier),
        }
    }

    /// Returns this with one more criterion.
    pub(crate) fn and_also(self, reason: Reason, truth: Truth) -> Applicability
        ensures { result ≡ and_also self reason truth }
    {
        match truth {
            Truth::Yes => self,
            Truth::No => self.fails(reason),
            Truth::Unknown => self.doubts(reason),
        }
    }

    /// Returns this with the criteria of constraints.
    pub(crate) fn with_constraints(
        self,
        owner: Owner,
        constraints: Constraints<'_>,
        attributes: &Attributes<'_>,
    ) -> Applicability
        ensures { result
            ≡ with_constraints self owner (constraints_view constraints.entry) (attributes_view attributes.now) }
    {
        let namespace = meets_namespace_selector(constraints.namespace_selector(), attributes);
        let object = meets_object_selector(constraints.object_selector(), attributes);
        self.and_also(
            Reason::Constraint(owner, Criterion::NamespaceSelector),
            namespace,
        )
        .and_also(Reason::Constraint(owner, Criterion::ObjectSelector), object)
        .and_also(
            Reason::Constraint(owner, Criterion::ExcludeResourceRules),
            is_not_excluded(constraints, attributes),
        )
        .and_also(
            Reason::Constraint(owner, Criterion::ResourceRules),
            is_included(constraints, attributes),
        )
    }
}
