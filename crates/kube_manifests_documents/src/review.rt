//! Reads the inputs that an AdmissionReview carries.
ghost use Rattle.kube_manifests_documents.specs.Faults.{pointer_at};
ghost use Rattle.kube_manifests_documents.specs.Inputs.{inputs_view};
ghost use Rattle.kube_manifests_documents.specs.Policies.{reading_view};
ghost use Rattle.kube_manifests_documents.specs.Reviews.{bool_of, extra_fits, extra_of, inputs_in, inputs_seen, inputs_with, is_with, kind_in, names_fit, object_if, object_in, objects_of, objects_view, operation_in, optional_in, request_in, request_kind_in, request_of, request_resource_in, required_text_fits, resource_in, review_of, served_fits, strings_fit, strings_of, text_fits, texts_fit, user_fits, user_in, value_or_null, with_object, with_old_object};
ghost use Rattle.serde_json.specs.Find.{get};
ghost use Rattle.serde_json.specs.View.{items_view, members_view, view};
ghost use Rattle.std.specs.Prelude.{◌≡◌, IfErr, IfOk, codes, map, option_map};

use crate::fault::{Found, PolicyFault, Problem, reported};
use crate::inputs::PolicyInputs;
use crate::item::{check_known, required_one_at, required_text_at, text_at};
use crate::location::Location;
use crate::policy::object_at;
use kube_types_refused::Refused;
use serde_json::{Map as Members, Value};
use std::alloc::{AllocError, Global};

/// The apiVersions of a review.
const REVIEW_VERSIONS: [&str; 2] = ["admission.k8s.io/v1", "admission.k8s.io/v1beta1"];

const REVIEW_KINDS: [&str; 1] = ["AdmissionReview"];

/// The fields of a review.
const REVIEW_FIELDS: [&str; 4] = ["apiVersion", "kind", "request", "response"];

/// The fields of a request.
const REQUEST_FIELDS: [&str; 15] = [
    "uid",
    "kind",
    "resource",
    "subResource",
    "requestKind",
    "requestResource",
    "requestSubResource",
    "name",
    "namespace",
    "operation",
    "userInfo",
    "object",
    "oldObject",
    "dryRun",
    "options",
];

/// The fields of a kind with its group and version, and those of such a resource.
const KIND_FIELDS: [&str; 3] = ["group", "version", "kind"];

const RESOURCE_FIELDS: [&str; 3] = ["group", "version", "resource"];

/// The fields of the user who makes a request.
const USER_FIELDS: [&str; 4] = ["username", "uid", "groups", "extra"];

/// The operations that a request may have.
const OPERATIONS: [&str; 4] = ["CREATE", "UPDATE", "DELETE", "CONNECT"];

/// Checks an optional string field of the object at the pointer `base`.
fn check_text<'v>(base: &'static str, value: &'v Value, name: &'static str) -> Result<(), Found<'v>>
    ensures { reading_view (λ u. u) result ≡ text_fits base.now (view value.now) name.now }
{
    text_at(value, name, Location::Field(base, name))?;
    Ok(())
}

/// Checks a required string field of the object at the pointer `base`.
fn check_required_text<'v>(
    base: &'static str,
    value: &'v Value,
    name: &'static str,
) -> Result<(), Found<'v>>
    ensures { reading_view (λ u. u) result ≡ required_text_fits base.now (view value.now) name.now }
{
    required_text_at(value, name, Location::Field(base, name))?;
    Ok(())
}

/// Checks optional string fields of these names.
fn check_texts<'v>(
    base: &'static str,
    value: &'v Value,
    names: &[&'static str],
) -> Result<(), Found<'v>>
    ensures { reading_view (λ u. u) result
        ≡ texts_fit base.now (view value.now) (map (λ s. s.now) names.now) }
{
    for name in names {
        check_text(base, value, *name)?;
    }
    Ok(())
}

/// Checks an optional bool field.
fn check_bool<'v>(
    value: &'v Value,
    name: &'static str,
    location: Location<'v>,
) -> Result<(), Found<'v>>
    ensures { reading_view (λ u. u) result
        ≡ bool_of (pointer_at location.entry) (get name.now (view value.now)) }
{
    match value.get(name) {
        None | Some(Value::Null) | Some(Value::Bool(_)) => Ok(()),
        Some(_) => Err(Found {
            location,
            problem: Problem::NotBool,
        }),
    }
}

/// The object in a required field of the object at the pointer `base`.
fn object_in<'v>(
    base: &'static str,
    value: &'v Value,
    name: &'static str,
) -> Result<&'v Value, Found<'v>>
    ensures { reading_view (λ v. view v.now) result ≡ object_in base.now (view value.now) name.now }
{
    object_at(value, name, Location::Field(base, name))
}

/// The object in an optional field of the object at the pointer `base`, if any.
fn optional_in<'v>(
    base: &'static str,
    value: &'v Value,
    name: &'static str,
) -> Result<Option<&'v Value>, Found<'v>>
    ensures { reading_view (option_map (λ v. view v.now)) result
        ≡ optional_in base.now (view value.now) name.now }
{
    match value.get(name) {
        None | Some(Value::Null) => Ok(None),
        Some(found) => {
            if found.is_object() {
                return Ok(Some(found));
            }
            Err(Found {
                location: Location::Field(base, name),
                problem: Problem::NotObject,
            })
        }
    }
}

/// Checks that the items of the list in a field are strings.
fn check_strings<'v>(base: &'static str, name: &'v str, items: &'v [Value]) -> Result<(), Found<'v>>
    ensures { reading_view (λ u. u) result ≡ strings_fit base.now name.now 0 (items_view items.now) }
{
    for (index, item) in items.iter().enumerate() {
        if !item.is_string() {
            return Err(Found {
                location: Location::FieldItem(base, name, index),
                problem: Problem::NotString,
            });
        }
    }
    Ok(())
}

/// Checks that a field, if it is there, is a list of strings.
fn check_list<'v>(
    base: &'static str,
    name: &'v str,
    found: Option<&'v Value>,
) -> Result<(), Found<'v>>
    ensures { reading_view (λ u. u) result
        ≡ strings_of base.now name.now (option_map (λ v. view v.now) found.entry) }
{
    match found {
        None | Some(Value::Null) => Ok(()),
        Some(Value::Array(items)) => check_strings(base, name, items.as_slice()),
        Some(_) => Err(Found {
            location: Location::Field(base, name),
            problem: Problem::NotList,
        }),
    }
}

/// Checks the group, the version and the name, in the field `key`, of a kind or a resource.
fn check_names<'v>(base: &'static str, key: &'static str, value: &'v Value) -> Result<(), Found<'v>>
    ensures { reading_view (λ u. u) result ≡ names_fit base.now key.now (view value.now) }
{
    check_required_text(base, value, "group")?;
    check_required_text(base, value, "version")?;
    check_required_text(base, value, key)
}

/// Checks a kind.
#[tactic(auto, unfolding(crate::specs::Reviews::served_fits))]
fn check_kind<'v>(base: &'static str, value: &'v Value) -> Result<(), Found<'v>>
    ensures { reading_view (λ u. u) result ≡ served_fits base.now (codes "kind") (view value.now) }
{
    check_known(base, value, &KIND_FIELDS)?;
    check_names(base, "kind", value)
}

/// Checks a resource.
#[tactic(auto, unfolding(crate::specs::Reviews::served_fits))]
fn check_resource<'v>(base: &'static str, value: &'v Value) -> Result<(), Found<'v>>
    ensures { reading_view (λ u. u) result ≡ served_fits base.now (codes "resource") (view value.now) }
{
    check_known(base, value, &RESOURCE_FIELDS)?;
    check_names(base, "resource", value)
}

/// Checks that each member is a list of strings.
fn check_members(members: &Members<String, Value>) -> Result<(), Found<'_>>
    ensures { reading_view (λ u. u) result ≡ extra_fits (members_view members.now.entries) }
{
    for (key, value) in members.iter() {
        check_list("/request/userInfo/extra", key.as_str(), Some(value))?;
    }
    Ok(())
}

/// Checks the extra information on a user.
fn check_extra(found: Option<&Value>) -> Result<(), Found<'_>>
    ensures { reading_view (λ u. u) result ≡ extra_of (option_map (λ v. view v.now) found.entry) }
{
    match found {
        None | Some(Value::Null) => Ok(()),
        Some(Value::Object(members)) => check_members(members),
        Some(_) => Err(Found {
            location: Location::Field("/request/userInfo", "extra"),
            problem: Problem::NotObject,
        }),
    }
}

/// Checks the information on a user.
#[tactic(auto, unfolding(crate::specs::Reviews::user_fits))]
fn check_user(user: &Value) -> Result<(), Found<'_>>
    ensures { reading_view (λ u. u) result ≡ user_fits (view user.now) }
{
    let base = "/request/userInfo";
    check_known(base, user, &USER_FIELDS)?;
    check_texts(base, user, &["username", "uid"])?;
    check_list(base, "groups", user.get("groups"))?;
    check_extra(user.get("extra"))
}

/// Checks the user of a request.
fn user_in(request: &Value) -> Result<(), Found<'_>>
    ensures { reading_view (λ u. u) result ≡ user_in (view request.now) }
{
    let user = object_in("/request", request, "userInfo")?;
    check_user(user)
}

/// Checks the kind of a request's object.
fn kind_in(request: &Value) -> Result<(), Found<'_>>
    ensures { reading_view (λ u. u) result ≡ kind_in (view request.now) }
{
    let kind = object_in("/request", request, "kind")?;
    check_kind("/request/kind", kind)
}

/// Checks the resource of a request's object.
fn resource_in(request: &Value) -> Result<(), Found<'_>>
    ensures { reading_view (λ u. u) result ≡ resource_in (view request.now) }
{
    let resource = object_in("/request", request, "resource")?;
    check_resource("/request/resource", resource)
}

/// Checks the kind that the request was made for.
fn request_kind_in(request: &Value) -> Result<(), Found<'_>>
    ensures { reading_view (λ u. u) result ≡ request_kind_in (view request.now) }
{
    match optional_in("/request", request, "requestKind")? {
        None => Ok(()),
        Some(kind) => check_kind("/request/requestKind", kind),
    }
}

/// Checks the resource that the request was made for.
fn request_resource_in(request: &Value) -> Result<(), Found<'_>>
    ensures { reading_view (λ u. u) result ≡ request_resource_in (view request.now) }
{
    match optional_in("/request", request, "requestResource")? {
        None => Ok(()),
        Some(resource) => check_resource("/request/requestResource", resource),
    }
}

/// Reads the operation of a request.
fn operation_in(request: &Value) -> Result<&str, Found<'_>>
    ensures { reading_view (λ s. s.now) result ≡ operation_in (view request.now) }
{
    let location = Location::Field("/request", "operation");
    required_one_at(request, "operation", &OPERATIONS, location)
}

/// Checks a request, which may have no field but those of a request, and returns its operation.
#[tactic(auto, unfolding(crate::specs::Reviews::request_of))]
fn request_of(request: &Value) -> Result<&str, Found<'_>>
    ensures { reading_view (λ s. s.now) result ≡ request_of (view request.now) }
{
    let base = "/request";
    check_known(base, request, &REQUEST_FIELDS)?;
    let operation = operation_in(request)?;
    let texts = ["name", "namespace", "subResource", "requestSubResource"];
    check_texts(base, request, &texts)?;
    check_bool(request, "dryRun", Location::Field(base, "dryRun"))?;
    user_in(request)?;
    kind_in(request)?;
    resource_in(request)?;
    request_kind_in(request)?;
    request_resource_in(request)?;
    optional_in(base, request, "options")?;
    Ok(operation)
}

/// The `request` of a review's document, after its apiVersion, its kind and its fields are checked.
#[tactic(auto, unfolding(crate::specs::Reviews::request_in))]
fn request_in(document: &Value) -> Result<&Value, Found<'_>>
    ensures { reading_view (λ v. view v.now) result ≡ request_in (view document.now) }
{
    let version = Location::Field("", "apiVersion");
    required_one_at(document, "apiVersion", &REVIEW_VERSIONS, version)?;
    required_one_at(document, "kind", &REVIEW_KINDS, Location::Field("", "kind"))?;
    check_known("", document, &REVIEW_FIELDS)?;
    object_at(document, "request", Location::Field("", "request"))
}

/// The two objects of a request. `None` is null.
#[derive(Clone, Copy, Drop)]
pub(crate) struct Objects<'v> {
    object: Option<&'v Value>,
    old_object: Option<&'v Value>,
}

/// Reports whether the requests of an operation have an object.
fn has_object(operation: &str) -> bool
    ensures { result ≡ is_with with_object operation.now }
{
    operation == "CREATE" || operation == "UPDATE"
}

/// Reports whether the requests of an operation have an old object.
fn has_old_object(operation: &str) -> bool
    ensures { result ≡ is_with with_old_object operation.now }
{
    operation == "UPDATE" || operation == "DELETE"
}

/// Returns the object in a field of a request, which must be there if `required` is true.
fn object_if<'v>(
    required: bool,
    request: &'v Value,
    name: &'static str,
) -> Result<Option<&'v Value>, Found<'v>>
    ensures { reading_view (λ o. value_or_null (option_map (λ v. view v.now) o)) result
        ≡ object_if required (view request.now) name.now }
{
    if required {
        return Ok(Some(object_in("/request", request, name)?));
    }
    Ok(request.get(name))
}

/// Reads the objects of a request with this operation. An object that the operation has must be
/// there.
#[tactic(auto, unfolding(crate::specs::Reviews::objects_of))]
fn objects_of<'v>(operation: &str, request: &'v Value) -> Result<Objects<'v>, Found<'v>>
    ensures { reading_view objects_view result ≡ objects_of operation.now (view request.now) }
{
    let object = object_if(has_object(operation), request, "object")?;
    let old_object = object_if(has_old_object(operation), request, "oldObject")?;
    Ok(Objects { object, old_object })
}

/// Returns a copy of a value, or null if there is none.
fn value_or_null(value: Option<&Value>) -> Result<Value, AllocError>
    ensures { IfOk result (λ v. view v ≡ value_or_null (option_map (λ u. view u.now) value.entry)) }
{
    match value {
        Some(found) => found.clone(),
        None => Ok(Value::Null),
    }
}

/// Returns the inputs with this request and with the objects that it has.
fn inputs_with<'v>(
    request: &'v Value,
    operation: &str,
) -> Result<Result<PolicyInputs, Found<'v>>, AllocError>
    ensures inputs { IfOk result (λ r. reading_view inputs_view r
        ≡ inputs_with (view request.now) operation.now) }
{
    match objects_of(operation, request) {
        Err(found) => Ok(Err(found)),
        Ok(objects) => Ok(Ok(PolicyInputs {
            object: Some(value_or_null(objects.object)?),
            old_object: Some(value_or_null(objects.old_object)?),
            params: None,
            namespace_object: None,
            request: Some(request.clone()?),
        })),
    }
}

/// Reads the inputs that a request carries.
fn inputs_in(request: &Value) -> Result<Result<PolicyInputs, Found<'_>>, AllocError>
    ensures inputs { IfOk result (λ r. reading_view inputs_view r ≡ inputs_in (view request.now)) }
{
    match request_of(request) {
        Err(found) => Ok(Err(found)),
        Ok(operation) => inputs_with(request, operation),
    }
}

/// Reads the inputs that a review carries, or its first fault.
#[tactic(auto, unfolding(crate::specs::Reviews::review_of))]
fn review_of(document: &Value) -> Result<Result<PolicyInputs, Found<'_>>, AllocError>
    ensures inputs { IfOk result (λ r. reading_view inputs_view r ≡ review_of (view document.now)) }
{
    match request_in(document) {
        Ok(request) => inputs_in(request),
        Err(found) => Ok(Err(found)),
    }
}

impl PolicyInputs {
    /// Reads `request`, `object` and `oldObject` from an AdmissionReview (`admission.k8s.io`). A
    /// CREATE must have an object, a DELETE an old object, and an UPDATE both; any other object that
    /// the review leaves out is known to be null. Neither the review nor its request, kinds,
    /// resources and user may have a field that isn't theirs. `params` and `namespaceObject` are
    /// unknown: set these fields afterwards.
    ///
    /// The inner error is the first [`PolicyFault`] if the document is not such a review.
    ///
    /// # Errors
    ///
    /// [`Refused`] if memory is refused.
    pub fn from_review(
        alloc: Global,
        review: &Value,
    ) -> Result<Result<PolicyInputs, PolicyFault>, Refused>
        ensures inputs { IfOk result (λ r. inputs_seen r ≡ review_of (view review.now)) }
        ensures memory { IfErr result (λ e. e ≡ Refused.Memory) }
    {
        match review_of(review)? {
            Ok(inputs) => Ok(Ok(inputs)),
            Err(found) => Ok(Err(reported(alloc, found)?)),
        }
    }
}
