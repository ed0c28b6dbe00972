//! The resources of CustomResourceDefinitions.
ghost use Rattle.kube_manifests_resources.specs.Resources.{crd_resource_in, crd_resource_of, crd_view, has_subresource, is_served, names_in, names_view, scope_in, scope_of, served_name, versions_in};
ghost use Rattle.serde_json.specs.View.{items_view, view};
ghost use Rattle.std.specs.Prelude.{◌≡◌, option_map};

use crate::resources::ResourceScope;
use kube_manifests_documents::{is_crd, text_at};
use serde_json::Value;

/// The resource of a CustomResourceDefinition.
#[derive(Clone, Copy, Drop)]
pub struct CrdResource<'v> {
    /// The group.
    pub group: &'v str,
    /// The kind of its objects.
    pub kind: &'v str,
    /// Its plural name.
    pub plural: &'v str,
    /// Whether its objects are in namespaces.
    pub scope: ResourceScope,
    /// The entries of its versions.
    pub versions: &'v [Value],
}

/// The names of a definition.
#[derive(Clone, Copy, Drop)]
pub(crate) struct Names<'v> {
    kind: &'v str,
    plural: &'v str,
}

fn scope_of(text: &str) -> Option<ResourceScope>
    ensures { result ≡ scope_of text.now }
{
    match text {
        "Namespaced" => Some(ResourceScope::Namespaced),
        "Cluster" => Some(ResourceScope::Cluster),
        _ => None,
    }
}

/// Reads the names of a definition from its `spec`.
#[tactic(auto, unfolding(crate::specs::Resources::names_in))]
fn names_in(spec: &Value) -> Option<Names<'_>>
    ensures { option_map names_view result ≡ names_in (view spec.now) }
{
    let names = spec.get("names")?;
    let kind = text_at(names, "kind")?;
    let plural = text_at(names, "plural")?;
    Some(Names { kind, plural })
}

/// Reads the scope of a definition from its `spec`.
#[tactic(auto, unfolding(crate::specs::Resources::scope_in))]
fn scope_in(spec: &Value) -> Option<ResourceScope>
    ensures { result ≡ scope_in (view spec.now) }
{
    scope_of(text_at(spec, "scope")?)
}

/// The entries of the versions of a definition, from its `spec`.
#[tactic(auto, unfolding(crate::specs::Resources::versions_in))]
fn versions_in(spec: &Value) -> Option<&[Value]>
    ensures { option_map (λ v. items_view v.now) result ≡ versions_in (view spec.now) }
{
    Some(spec.get("versions")?.as_array()?.as_slice())
}

/// Reads the resource of a definition from its `spec`.
#[tactic(auto, unfolding(crate::specs::Resources::crd_resource_in))]
fn crd_resource_in(spec: &Value) -> Option<CrdResource<'_>>
    ensures { option_map crd_view result ≡ crd_resource_in (view spec.now) }
{
    let names = names_in(spec)?;
    let group = text_at(spec, "group")?;
    let scope = scope_in(spec)?;
    let versions = versions_in(spec)?;
    Some(CrdResource {
        group,
        kind: names.kind,
        plural: names.plural,
        scope,
        versions,
    })
}

/// Reads the resource of a CustomResourceDefinition. `None` if the document is none, or doesn't say
/// what its group, its kind, its plural name, its scope and its versions are.
pub fn crd_resource_of(document: &Value) -> Option<CrdResource<'_>>
    ensures { option_map crd_view result ≡ crd_resource_of (view document.now) }
{
    if !is_crd(document) {
        return None;
    }
    crd_resource_in(document.get("spec")?)
}

/// Reports whether a version has this subresource, or the name is empty.
fn has_subresource(version: &Value, subresource: &str) -> bool
    ensures { result ≡ has_subresource subresource.now (view version.now) }
{
    if subresource.is_empty() {
        return true;
    }
    match version.get("subresources") {
        Some(subresources) => subresources.get(subresource).is_some(),
        None => false,
    }
}

/// Reports whether a version is served.
fn is_served(version: &Value) -> bool
    ensures { result ≡ is_served (view version.now) }
{
    match version.get("served") {
        Some(Value::Bool(served)) => *served,
        _ => false,
    }
}

/// The name of a version, if an API server has the resource under it, with this subresource unless the
/// name of the subresource is empty.
pub fn served_name<'v>(version: &'v Value, subresource: &str) -> Option<&'v str>
    ensures { option_map (λ s. s.now) result ≡ served_name subresource.now (view version.now) }
{
    if is_served(version) && has_subresource(version, subresource) {
        return text_at(version, "name");
    }
    None
}
