//! What decides of a request which policies apply to it.
ghost use Rattle.kube_manifests_bindings.specs.Fields.{text_in};
ghost use Rattle.kube_manifests_matching.specs.Attributes.{attributes_of, attributes_view, equivalents_view, object_in, operation_of, operation_word, or_other, resource_in, subresource_in, with_resource};
ghost use Rattle.serde_json.specs.Find.{get};
ghost use Rattle.serde_json.specs.View.{view};
ghost use Rattle.std.specs.Prelude.{◌≡◌, option_map};

use kube_manifests_resources::{CrdResource, GroupVersion};
use serde_json::Value;

/// The operation of a request.
#[derive(Clone, Copy, Drop)]
pub enum Operation {
    /// `CREATE`.
    Create,
    /// `UPDATE`.
    Update,
    /// `DELETE`.
    Delete,
    /// `CONNECT`.
    Connect,
}

/// Under which groups and versions an API server has the same resource.
#[derive(Clone, Copy, Drop)]
pub enum Equivalents<'a> {
    /// They aren't known.
    Unknown,
    /// Under all of these.
    Listed(&'a [GroupVersion<'a>]),
    /// Under the versions of a definition that are served.
    Defined(CrdResource<'a>),
}

/// What decides of a request which policies apply to it.
#[derive(Clone, Copy, Drop)]
pub struct Attributes<'a> {
    /// The operation.
    pub operation: Operation,
    /// The group and the version under which the resource is asked for.
    pub served: GroupVersion<'a>,
    /// The plural name of the resource.
    pub resource: &'a str,
    /// The subresource. Empty if there is none.
    pub subresource: &'a str,
    /// The namespace. Empty if there is none.
    pub namespace: &'a str,
    /// The name of the object. Empty if it isn't known yet.
    pub name: &'a str,
    /// The object. `None` if it is null.
    pub object: Option<&'a Value>,
    /// The object before the request. `None` if it is null.
    pub old_object: Option<&'a Value>,
    /// The Namespace object of the namespace, if it is given.
    pub namespace_object: Option<&'a Value>,
    /// Under which groups and versions the API server has the same resource.
    pub equivalents: Equivalents<'a>,
}

impl Operation {
    /// The word for the operation in rules and requests.
    pub fn word(self) -> &'static str
        ensures { result.now ≡ operation_word self }
    {
        match self {
            Operation::Create => "CREATE",
            Operation::Update => "UPDATE",
            Operation::Delete => "DELETE",
            Operation::Connect => "CONNECT",
        }
    }

    /// The operation for a word, if it is one.
    pub fn of(word: &str) -> Option<Operation>
        ensures { result ≡ operation_of word.now }
    {
        match word {
            "CREATE" => Some(Operation::Create),
            "UPDATE" => Some(Operation::Update),
            "DELETE" => Some(Operation::Delete),
            "CONNECT" => Some(Operation::Connect),
            _ => None,
        }
    }
}

/// The string in a field. Empty if there is no string.
pub(crate) fn text_in<'v>(value: &'v Value, name: &str) -> &'v str
    ensures { result.now ≡ text_in (get name.now (view value.now)) }
{
    match value.get(name) {
        Some(Value::String(text)) => text.as_str(),
        _ => "",
    }
}

/// The object in a field, if there is one.
fn object_in<'v>(value: &'v Value, name: &str) -> Option<&'v Value>
    ensures { option_map (λ v. view v.now) result ≡ object_in (get name.now (view value.now)) }
{
    let found = value.get(name)?;
    if found.is_object() { Some(found) } else { None }
}

/// The resource that a request was made for.
fn resource_in(request: &Value) -> Option<&Value>
    ensures { option_map (λ v. view v.now) result ≡ resource_in (view request.now) }
{
    match object_in(request, "requestResource") {
        Some(resource) => Some(resource),
        None => object_in(request, "resource"),
    }
}

/// The subresource that a request was made for.
fn subresource_in(request: &Value) -> &str
    ensures { result.now ≡ subresource_in (view request.now) }
{
    match object_in(request, "requestResource") {
        Some(_) => text_in(request, "requestSubResource"),
        None => text_in(request, "subResource"),
    }
}

impl<'a> Attributes<'a> {
    /// The attributes of a request whose operation and resource are these.
    fn with_resource(
        request: &'a Value,
        namespace_object: Option<&'a Value>,
        equivalents: Equivalents<'a>,
        operation: Operation,
        resource: &'a Value,
    ) -> Attributes<'a>
        ensures { attributes_view result ≡ with_resource (view request.now)
            (option_map (λ v. view v.now) namespace_object.entry)
            (equivalents_view equivalents.entry) operation (view resource.now) }
    {
        Attributes {
            operation,
            served: GroupVersion {
                group: text_in(resource, "group"),
                version: text_in(resource, "version"),
            },
            resource: text_in(resource, "resource"),
            subresource: subresource_in(request),
            namespace: text_in(request, "namespace"),
            name: text_in(request, "name"),
            object: object_in(request, "object"),
            old_object: object_in(request, "oldObject"),
            namespace_object,
            equivalents,
        }
    }

    /// Reads the attributes of a request, which is the field `request` of an AdmissionReview. `None` if
    /// it has no operation or no resource.
    #[tactic(auto, unfolding(crate::specs::Attributes::attributes_of))]
    pub fn of_request(
        request: &'a Value,
        namespace_object: Option<&'a Value>,
        equivalents: Equivalents<'a>,
    ) -> Option<Attributes<'a>>
        ensures { option_map attributes_view result ≡ attributes_of (view request.now)
            (option_map (λ v. view v.now) namespace_object.entry)
            (equivalents_view equivalents.entry) }
    {
        let operation = Operation::of(text_in(request, "operation"))?;
        let resource = resource_in(request)?;
        Some(Attributes::with_resource(request, namespace_object, equivalents, operation, resource))
    }
}
