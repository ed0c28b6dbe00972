//! Which params a policy is evaluated with by a binding.
ghost use Rattle.kube_manifests_bindings.specs.Bindings.{param_kind_view, param_ref_view, source_view};
ghost use Rattle.kube_manifests_matching.specs.Params.{failure_of, filter_view, in_cluster, in_namespace, in_scope, is_from, is_in, is_of_kind, metadata_text, namespace_or, plan_of, plan_view, takes, unless_taken};
ghost use Rattle.serde_json.specs.View.{view};
ghost use Rattle.std.specs.List.{list_any};
ghost use Rattle.std.specs.Prelude.{◌≡◌, map, option_map};

use crate::attributes::text_in;
use crate::labels::{labels_of, selects};
use kube_manifests_bindings::{ParamKind, ParamRef, ParamSource};
use kube_manifests_resources::ResourceScope;
use serde_json::Value;

/// A failure to find params, on which `failurePolicy` decides.
#[derive(Clone, Copy, Drop)]
pub enum ParamsFailure {
    /// The binding names a namespace for a kind that isn't in namespaces.
    NamespaceOfCluster,
    /// Neither the binding nor the request names a namespace, and the kind is in namespaces.
    NoNamespace,
    /// No object is taken, and `parameterNotFoundAction` is `Deny`.
    NotFound,
}

/// Which objects are taken as params.
#[derive(Clone, Copy, Drop)]
pub struct ParamFilter<'v> {
    /// Their apiVersion and kind.
    pub kind: ParamKind<'v>,
    /// Their namespace. `None` if they aren't in namespaces.
    pub namespace: Option<&'v str>,
    /// Their name, or a selector.
    pub source: ParamSource<'v>,
}

/// How often a policy is evaluated by a binding, and with which params.
#[derive(Clone, Copy, Drop)]
pub enum Plan<'v> {
    /// Once. `params` is null.
    Once,
    /// Once with each object that is taken. If the second part is true, it is a failure that none is.
    Each(ParamFilter<'v>, bool),
    /// Not at all, for this failure.
    Failed(ParamsFailure),
    /// It isn't known whether the kind of the params is in namespaces.
    NotJudged,
}

/// A string of an object's metadata. Empty if there is none.
pub(crate) fn metadata_text<'v>(object: &'v Value, key: &str) -> &'v str
    ensures { result.now ≡ metadata_text key.now (view object.now) }
{
    match object.get("metadata") {
        Some(metadata) => text_in(metadata, key),
        None => "",
    }
}

/// Reports whether an object is of a kind.
fn is_of_kind(kind: ParamKind<'_>, object: &Value) -> bool
    ensures { result ≡ is_of_kind (param_kind_view kind.entry) (view object.now) }
{
    text_in(object, "apiVersion") == kind.api_version && text_in(object, "kind") == kind.kind
}

/// Reports whether an object is in this namespace, if there is one.
fn is_in(namespace: Option<&str>, object: &Value) -> bool
    ensures { result ≡ is_in (option_map (λ s. s.now) namespace.entry) (view object.now) }
{
    match namespace {
        Some(namespace) => metadata_text(object, "namespace") == namespace,
        None => true,
    }
}

/// Reports whether an object has this name, or is selected.
fn is_from(source: ParamSource<'_>, object: &Value) -> bool
    ensures { result ≡ is_from (source_view source.entry) (view object.now) }
{
    match source {
        ParamSource::Named(name) => metadata_text(object, "name") == name,
        ParamSource::Selected(selector) => selects(selector, labels_of(object)),
    }
}

impl<'v> ParamFilter<'v> {
    /// Reports whether an object is taken as params.
    pub fn takes(&self, object: &Value) -> bool
        ensures { result ≡ takes (filter_view self.now) (view object.now) }
    {
        is_of_kind(self.kind, object)
            && is_in(self.namespace, object)
            && is_from(self.source, object)
    }

    /// Reports whether one of these objects is taken.
    fn takes_any(&self, objects: &[&Value]) -> bool
        ensures { result
            ≡ list_any (takes (filter_view self.now)) (map (λ v. view v.now) objects.now) }
    {
        for object in objects {
            if self.takes(object) {
                return true;
            }
        }
        false
    }
}

/// The namespace of the params or, if it isn't given, that of the request, unless it is empty.
fn namespace_or<'v>(namespace: Option<&'v str>, other: &'v str) -> Option<&'v str>
    ensures { option_map (λ s. s.now) result
        ≡ namespace_or (option_map (λ s. s.now) namespace.entry) other.now }
{
    match namespace {
        Some(namespace) => Some(namespace),
        None => { if other.is_empty() { None } else { Some(other) } }
    }
}

/// Returns the plan for params that aren't in namespaces.
fn in_cluster<'v>(kind: ParamKind<'v>, params: ParamRef<'v>) -> Plan<'v>
    ensures { plan_view result ≡ in_cluster (param_kind_view kind.entry)
        (param_ref_view params.entry) (option_map (λ s. s.now) params.entry.namespace) }
{
    match params.namespace {
        None => {
            let source = params.source;
            let filter = ParamFilter {
                kind,
                namespace: None,
                source,
            };
            Plan::Each(filter, params.denies)
        }
        Some(_) => Plan::Failed(ParamsFailure::NamespaceOfCluster),
    }
}

/// Returns the plan for params that are in this namespace, if there is one.
fn in_namespace<'v>(
    kind: ParamKind<'v>,
    params: ParamRef<'v>,
    namespace: Option<&'v str>,
) -> Plan<'v>
    ensures { plan_view result ≡ in_namespace (param_kind_view kind.entry)
        (param_ref_view params.entry) (option_map (λ s. s.now) namespace.entry) }
{
    match namespace {
        None => Plan::Failed(ParamsFailure::NoNamespace),
        Some(_) => {
            let source = params.source;
            let filter = ParamFilter {
                kind,
                namespace,
                source,
            };
            Plan::Each(filter, params.denies)
        }
    }
}

/// Returns the plan for params of a kind, of which it may be known whether it is in namespaces.
fn in_scope<'v>(
    kind: ParamKind<'v>,
    params: ParamRef<'v>,
    scope: Option<ResourceScope>,
    namespace: &'v str,
) -> Plan<'v>
    ensures { plan_view result ≡ in_scope (param_kind_view kind.entry)
        (param_ref_view params.entry) scope namespace.now }
{
    match scope {
        None => Plan::NotJudged,
        Some(ResourceScope::Cluster) => in_cluster(kind, params),
        Some(ResourceScope::Namespaced) => {
            in_namespace(kind, params, namespace_or(params.namespace, namespace))
        }
    }
}

impl<'v> Plan<'v> {
    /// Returns the plan for the `paramKind` of a policy, of which `scope` says whether it is in
    /// namespaces, if that is known, and the `paramRef` of a binding. `namespace` is that of the
    /// request, empty if there is none.
    pub fn of(
        kind: Option<ParamKind<'v>>,
        params: Option<ParamRef<'v>>,
        scope: Option<ResourceScope>,
        namespace: &'v str,
    ) -> Plan<'v>
        ensures { plan_view result ≡ plan_of (option_map param_kind_view kind.entry)
            (option_map param_ref_view params.entry) scope namespace.now }
    {
        match kind {
            None => Plan::Once,
            Some(kind) => match params {
                None => Plan::Once,
                Some(params) => in_scope(kind, params, scope, namespace),
            },
        }
    }

    /// Returns the failure to find params among these objects, if there is one: that of the plan, or
    /// that none is taken.
    pub fn failure(&self, objects: &[&Value]) -> Option<ParamsFailure>
        ensures { result ≡ failure_of (plan_view self.now) (map (λ v. view v.now) objects.now) }
    {
        match self {
            Plan::Once => None,
            Plan::Each(filter, denies) => unless_taken(*denies, filter.takes_any(objects)),
            Plan::Failed(failure) => Some(*failure),
            Plan::NotJudged => None,
        }
    }
}

/// Returns the failure that no object is taken, if it is one.
fn unless_taken(denies: bool, taken: bool) -> Option<ParamsFailure>
    ensures { result ≡ unless_taken denies taken }
{
    if denies && !taken {
        return Some(ParamsFailure::NotFound);
    }
    None
}
