//! Requests that are made up of objects.
ghost use Rattle.kube_manifests_matching.specs.Attributes.{attributes_view};
ghost use Rattle.kube_manifests_matching.specs.Made.{cluster_namespace, made_about, made_of, made_view, namespace_by, served_of, subject};
ghost use Rattle.kube_manifests_resources.specs.Resources.{served_view};
ghost use Rattle.serde_json.specs.View.{view};
ghost use Rattle.std.specs.Prelude.{◌≡◌, option_map};

use crate::attributes::{Attributes, Equivalents, Operation, text_in};
use crate::params::metadata_text;
use kube_manifests_resources::{GroupVersion, ResourceScope};
use serde_json::Value;

/// What is said of a request that is made up of an object.
#[derive(Clone, Copy, Drop)]
pub struct MadeRequest<'a> {
    /// The operation.
    pub operation: Operation,
    /// The plural name of the resource.
    pub plural: &'a str,
    /// Whether its objects are in namespaces.
    pub scope: ResourceScope,
    /// The subresource. Empty if there is none.
    pub subresource: &'a str,
    /// The object. `None` if it is null.
    pub object: Option<&'a Value>,
    /// The object before the request. `None` if it is null.
    pub old_object: Option<&'a Value>,
    /// The Namespace object of the namespace, if it is given.
    pub namespace_object: Option<&'a Value>,
    /// Under which groups and versions the API server has the same resource.
    pub equivalents: Equivalents<'a>,
}

/// The group and the version in an apiVersion.
fn served_of(text: &str) -> GroupVersion<'_>
    ensures { served_view result ≡ served_of text.now }
{
    match text.split_once('/') {
        Some((group, version)) => GroupVersion { group, version },
        None => GroupVersion {
            group: "",
            version: text,
        },
    }
}

/// The namespace that a request for an object names that isn't in one.
fn cluster_namespace<'a>(group: &str, plural: &str, object: &'a Value) -> &'a str
    ensures { result.now ≡ cluster_namespace group.now plural.now (view object.now) }
{
    if group == "" && plural == "namespaces" {
        return metadata_text(object, "name");
    }
    ""
}

/// The namespace that a request for an object names.
fn namespace_by<'a>(scope: ResourceScope, group: &str, plural: &str, object: &'a Value) -> &'a str
    ensures { result.now ≡ namespace_by scope group.now plural.now (view object.now) }
{
    match scope {
        ResourceScope::Cluster => cluster_namespace(group, plural, object),
        ResourceScope::Namespaced => metadata_text(object, "namespace"),
    }
}

impl<'a> MadeRequest<'a> {
    /// The object that the request is about.
    fn subject(&self) -> Option<&'a Value>
        ensures { option_map (λ v. view v.now) result
            ≡ subject (made_view self.now).operation (made_view self.now) }
    {
        match self.operation {
            Operation::Create => self.object,
            Operation::Update => self.object,
            Operation::Delete => self.old_object,
            Operation::Connect => self.object,
        }
    }

    /// The attributes of the request about this object.
    fn about(&self, object: &'a Value) -> Attributes<'a>
        ensures { attributes_view result ≡ made_about (made_view self.now) (view object.now) }
    {
        let served = served_of(text_in(object, "apiVersion"));
        Attributes {
            operation: self.operation,
            served,
            resource: self.plural,
            subresource: self.subresource,
            namespace: namespace_by(self.scope, served.group, self.plural, object),
            name: metadata_text(object, "name"),
            object: self.object,
            old_object: self.old_object,
            namespace_object: self.namespace_object,
            equivalents: self.equivalents,
        }
    }

    /// The attributes of the request. Its group, version, namespace and name are those of the object,
    /// or of the old object if it is deleted. `None` if there is no such object.
    pub fn attributes(&self) -> Option<Attributes<'a>>
        ensures { option_map attributes_view result ≡ made_of (made_view self.now) }
    {
        match self.subject() {
            Some(object) => Some(self.about(object)),
            None => None,
        }
    }
}
