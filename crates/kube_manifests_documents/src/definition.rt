//! Reads CustomResourceDefinitions and their versions from JSON.
ghost use Rattle.kube_manifests_documents.specs.Defined.{crd_view, entry_view, shape_view, type_meta_view};
ghost use Rattle.kube_manifests_documents.specs.Definitions.{crd_of, entries_of, entry_of, full_text_at, group_of, has_text, is_crd, is_list_kind, kind_of, list_of, name_of, schema_of, unless_none};
ghost use Rattle.kube_manifests_documents.specs.Versions.{text_at, type_meta_of};
ghost use Rattle.serde_json.specs.View.{items_view, view};
ghost use Rattle.std.specs.List.{ends_with};
ghost use Rattle.std.specs.Prelude.{◌≡◌, nat_eq, option_and_then, option_map};

use crate::crd_fault::CrdFault;
use crate::item::has_unknown_field;
use serde_json::Value;

/// The fields of a `List`.
const LIST_FIELDS: [&str; 4] = ["apiVersion", "kind", "metadata", "items"];

/// The fields of a definition that all its versions share, and the entries of the versions.
#[derive(Clone, Copy)]
pub struct CrdParts<'v> {
    pub(crate) group: &'v str,
    pub(crate) kind: &'v str,
    pub(crate) versions: &'v [Value],
}

/// The fields of the entry of one version.
#[derive(Clone, Copy)]
pub struct EntryParts<'v> {
    pub(crate) name: &'v str,
    pub(crate) served: bool,
    pub(crate) schema: &'v Value,
}

/// What an object says of its type.
#[derive(Clone, Copy)]
pub struct TypeMeta<'v> {
    /// The string in `apiVersion`.
    pub api_version: &'v str,
    /// The string in `kind`.
    pub kind: &'v str,
}

/// Reports whether a document declares itself a CustomResourceDefinition of
/// `apiextensions.k8s.io/v1`.
#[tactic(auto, unfolding(crate::specs::Definitions::is_crd))]
pub fn is_crd(document: &Value) -> bool
    ensures { result ≡ is_crd (view document.now) }
{
    has_text(document, "apiVersion", "apiextensions.k8s.io/v1")
        && has_text(document, "kind", "CustomResourceDefinition")
}

/// Reports whether a kind is that of a list. A `List` has no fields but those of a list.
fn is_list_kind(kind: &str, document: &Value) -> bool
    ensures { result ≡ is_list_kind kind.now (view document.now) }
{
    has_end(kind, "List") && !(kind == "List" && has_unknown_field(document, &LIST_FIELDS))
}

/// The items of a list: a value whose kind ends in `List`, with an array in `items`; a `List` may
/// have no other fields but `apiVersion`, `kind` and `metadata`. `None` if the value is no such list.
#[tactic(auto, unfolding(crate::specs::Definitions::list_of))]
pub fn list_of(document: &Value) -> Option<&[Value]>
    ensures { option_map (λ v. items_view v.now) result ≡ list_of (view document.now) }
{
    if !is_list_kind(text_at(document, "kind")?, document) {
        return None;
    }
    Some(document.get("items")?.as_array()?.as_slice())
}

/// Reads the fields of a definition. Returns its first fault if it has one.
#[tactic(auto, unfolding(crate::specs::Definitions::crd_of))]
pub(crate) fn crd_parts(document: &Value) -> Result<CrdParts<'_>, CrdFault>
    ensures { shape_view crd_view result ≡ crd_of (view document.now) }
{
    if !is_crd(document) {
        return Err(CrdFault::NotACrd);
    }
    let Some(_) = name_of(document) else {
        return Err(CrdFault::NoName);
    };
    let Some(group) = group_of(document) else {
        return Err(CrdFault::NoGroup);
    };
    let Some(kind) = kind_of(document) else {
        return Err(CrdFault::NoKind);
    };
    let Some(versions) = full_entries_of(document) else {
        return Err(CrdFault::NoVersions);
    };
    Ok(CrdParts {
        group,
        kind,
        versions,
    })
}

/// Reads the fields of a version of a definition. Returns its first fault if it has one.
#[tactic(auto, unfolding(crate::specs::Definitions::entry_of))]
pub(crate) fn entry_parts(version: &Value) -> Result<EntryParts<'_>, CrdFault>
    ensures { shape_view entry_view result ≡ entry_of (view version.now) }
{
    let Some(name) = full_text_at(version, "name") else {
        return Err(CrdFault::NoVersionName);
    };
    let Some(served) = version.get("served").and_then(Value::as_bool) else {
        return Err(CrdFault::NoServed);
    };
    let Some(schema) = schema_of(version) else {
        return Err(CrdFault::NoSchema);
    };
    if !schema.is_object() {
        return Err(CrdFault::SchemaNotAnObject);
    }
    Ok(EntryParts {
        name,
        served,
        schema,
    })
}

/// The string in a member, if any.
pub fn text_at<'v>(value: &'v Value, key: &str) -> Option<&'v str>
    ensures { option_map (λ s. s.now) result ≡ text_at key.now (view value.now) }
{
    value.get(key)?.as_str()
}

/// Reports whether a member is this string.
fn has_text(value: &Value, key: &str, text: &str) -> bool
    ensures { result ≡ has_text key.now text.now (view value.now) }
{
    match text_at(value, key) {
        Some(found) => found == text,
        None => false,
    }
}

/// The string in a member, if it is there and not empty.
fn full_text_at<'v>(value: &'v Value, key: &str) -> Option<&'v str>
    ensures { option_map (λ s. s.now) result ≡ full_text_at key.now (view value.now) }
{
    let text = text_at(value, key)?;
    if text.is_empty() { None } else { Some(text) }
}

#[tactic(auto, unfolding(crate::specs::Definitions::name_of))]
fn name_of(document: &Value) -> Option<&str>
    ensures { option_map (λ s. s.now) result ≡ name_of (view document.now) }
{
    full_text_at(document.get("metadata")?, "name")
}

#[tactic(auto, unfolding(crate::specs::Definitions::group_of))]
fn group_of(document: &Value) -> Option<&str>
    ensures { option_map (λ s. s.now) result ≡ group_of (view document.now) }
{
    full_text_at(document.get("spec")?, "group")
}

#[tactic(auto, unfolding(crate::specs::Definitions::kind_of))]
fn kind_of(document: &Value) -> Option<&str>
    ensures { option_map (λ s. s.now) result ≡ kind_of (view document.now) }
{
    full_text_at(document.get("spec")?.get("names")?, "kind")
}

/// The entries of a definition's versions. `None` if the list is missing.
#[tactic(auto, unfolding(crate::specs::Definitions::entries_of))]
pub fn entries_of(document: &Value) -> Option<&[Value]>
    ensures { option_map (λ v. items_view v.now) result ≡ entries_of (view document.now) }
{
    Some(
        document
            .get("spec")?
            .get("versions")?
            .as_array()?
            .as_slice(),
    )
}

/// The same. `None` also if the list is empty.
fn full_entries_of(document: &Value) -> Option<&[Value]>
    ensures { option_map (λ v. items_view v.now) result
        ≡ option_and_then unless_none (entries_of (view document.now)) }
{
    unless_none(entries_of(document)?)
}

/// Returns the slice, or `None` if it is empty.
pub(crate) fn unless_none(entries: &[Value]) -> Option<&[Value]>
    ensures { option_map (λ v. items_view v.now) result ≡ unless_none (items_view entries.now) }
{
    if entries.is_empty() {
        None
    } else {
        Some(entries)
    }
}

/// The schema in the entry of a version, if there is one.
#[tactic(auto, unfolding(crate::specs::Definitions::schema_of))]
pub fn schema_of(version: &Value) -> Option<&Value>
    ensures { option_map (λ v. view v.now) result ≡ schema_of (view version.now) }
{
    version.get("schema")?.get("openAPIV3Schema")
}

/// The apiVersion and the kind of an object that has both.
pub fn type_meta_of(object: &Value) -> Option<TypeMeta<'_>>
    ensures { option_map type_meta_view result ≡ type_meta_of (view object.now) }
{
    let api_version = text_at(object, "apiVersion")?;
    let kind = text_at(object, "kind")?;
    Some(TypeMeta { api_version, kind })
}

fn has_end(text: &str, end: &str) -> bool
    ensures { result ≡ ends_with nat_eq text.now end.now }
{
    text.ends_with(end)
}
