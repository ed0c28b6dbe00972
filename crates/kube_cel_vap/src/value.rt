//! The CEL value of an admission request: a map whose keys aren't escaped.
ghost use Rattle.cel_value.specs.Data.{bool, map_of, no_entries, text, text_key};
ghost use Rattle.cel_value.specs.Keys.{put};
ghost use Rattle.cel_value.specs.View.{entries_view, view};
ghost use Rattle.kube_cel_vap.specs.Requests.{entries_with, kind_value, kind_view, map_with, request_value, request_view, resource_value, resource_view, texts_value, user_value};
ghost use Rattle.std.specs.Prelude.{◌≡◌, [], ◌∷◌, codes, IfErr, IfOk, IsOk, map, OnOk, string_bytes};
ghost use Rattle.std.specs.Result.{IsOkAnd};

use crate::owned::or_refused;
use crate::request::{AdmissionRequest, GroupVersionKind, GroupVersionResource};
use cel_syntax_ast::both;
use cel_value::{Entries, Value};
use kube_schema_values::{bind_text, put_entry};
use kube_types::Refused;
use std::alloc::Global;

/// Inserts a value into a map, if it was made.
fn put_value(
    alloc: Global,
    entries: &mut Entries,
    key: &str,
    value: Result<Value, Refused>,
) -> Result<(), Refused>
    requires { IfErr value (λ e. e ≡ Refused.Memory) }
    ensures entered { OnOk result (IsOkAnd value (λ v. entries_view entries.new.entries
        ≡ put (text_key key.now) (view v) (entries_view entries.old.entries))) }
    ensures memory { IfErr result (λ e. e ≡ Refused.Memory) }
{
    let key = String::from_str(alloc, key);
    let (value, key) = both(value, or_refused(key))?;
    put_entry(alloc, entries, key, value)
}

/// Inserts a string into a map.
fn put_text(alloc: Global, entries: &mut Entries, key: &str, chars: &str) -> Result<(), Refused>
    ensures entered { OnOk result (entries_view entries.new.entries
        ≡ put (text_key key.now) (text chars.now) (entries_view entries.old.entries)) }
    ensures memory { IfErr result (λ e. e ≡ Refused.Memory) }
{
    put_value(alloc, entries, key, bind_text(alloc, chars))
}

/// Returns the value of a map, if its entries were inserted.
fn map_value(
    alloc: Global,
    inserted: Result<(), Refused>,
    entries: Entries,
) -> Result<Value, Refused>
    requires { IfErr inserted (λ e. e ≡ Refused.Memory) }
    ensures value { IfOk result (λ v. IsOk inserted × (view v ≡ map_of (entries_view entries.entries))) }
    ensures memory { IfErr result (λ e. e ≡ Refused.Memory) }
{
    let (_, entries) = both(inserted, Ok(entries))?;
    Value::from_entries(alloc, entries)
}

/// Returns a CEL bool.
fn bool_value(truth: bool) -> Value
    ensures { view result ≡ bool truth }
{
    Value::Bool(truth)
}

/// Returns the CEL list of these strings.
fn texts_value(alloc: Global, texts: &[String]) -> Result<Value, Refused>
    ensures value { IfOk result (λ v. view v ≡ texts_value (map string_bytes texts.now)) }
    ensures memory { IfErr result (λ e. e ≡ Refused.Memory) }
{
    let mut values = Vec::with_capacity(alloc, texts.len())?;
    for chars in texts {
        values.push(bind_text(alloc, chars.as_str())?)?;
    }
    let value = Value::from_items(alloc, values)?;
    Ok(value)
}

/// Inserts a name under the given key, a version and an API group into an empty map.
fn put_versioned(
    alloc: Global,
    entries: &mut Entries,
    key: &str,
    name: &str,
    version: &str,
    group: &str,
) -> Result<(), Refused>
    requires { entries_view entries.old.entries ≡ no_entries }
    ensures entered { OnOk result (map_of (entries_view entries.new.entries)
        ≡ map_with ((codes "group", text group.now)
        ∷ (codes "version", text version.now) ∷ (key.now, text name.now) ∷ [])) }
    ensures memory { IfErr result (λ e. e ≡ Refused.Memory) }
{
    put_text(alloc, entries, key, name)?;
    put_text(alloc, entries, "version", version)?;
    put_text(alloc, entries, "group", group)?;
    Ok(())
}

/// Returns the CEL value of a kind or a resource: the map of its API group,
/// its version and, under the given key, its name.
fn versioned_value(
    alloc: Global,
    key: &str,
    name: &str,
    version: &str,
    group: &str,
) -> Result<Value, Refused>
    ensures value { IfOk result (λ v. view v ≡ map_with ((codes "group", text group.now)
        ∷ (codes "version", text version.now) ∷ (key.now, text name.now) ∷ [])) }
    ensures memory { IfErr result (λ e. e ≡ Refused.Memory) }
{
    let mut entries = Entries::new(alloc);
    let inserted = put_versioned(alloc, &mut entries, key, name, version, group);
    map_value(alloc, inserted, entries)
}

/// Returns the CEL value of a kind.
fn kind_value(alloc: Global, kind: &GroupVersionKind) -> Result<Value, Refused>
    ensures value { IfOk result (λ v. view v ≡ kind_value (kind_view kind.now)) }
    ensures memory { IfErr result (λ e. e ≡ Refused.Memory) }
{
    let name = kind.kind.as_str();
    let version = kind.version.as_str();
    let group = kind.group.as_str();
    let value = versioned_value(alloc, "kind", name, version, group)?;
    Ok(value)
}

/// Returns the CEL value of a resource.
fn resource_value(alloc: Global, resource: &GroupVersionResource) -> Result<Value, Refused>
    ensures value { IfOk result (λ v. view v ≡ resource_value (resource_view resource.now)) }
    ensures memory { IfErr result (λ e. e ≡ Refused.Memory) }
{
    let name = resource.resource.as_str();
    let version = resource.version.as_str();
    let group = resource.group.as_str();
    let value = versioned_value(alloc, "resource", name, version, group)?;
    Ok(value)
}

/// Inserts the parts of the user of a request into an empty map.
fn put_user(alloc: Global, entries: &mut Entries, request: &AdmissionRequest) -> Result<(), Refused>
    requires { entries_view entries.old.entries ≡ no_entries }
    ensures entered { OnOk result (map_of (entries_view entries.new.entries)
        ≡ user_value (request_view request.now)) }
    ensures memory { IfErr result (λ e. e ≡ Refused.Memory) }
{
    let groups = texts_value(alloc, request.groups.as_slice());
    put_value(alloc, entries, "groups", groups)?;
    put_text(alloc, entries, "uid", request.uid.as_str())?;
    put_text(alloc, entries, "username", request.username.as_str())?;
    Ok(())
}

/// Returns the CEL value of the user of a request.
fn user_value(alloc: Global, request: &AdmissionRequest) -> Result<Value, Refused>
    ensures value { IfOk result (λ v. view v ≡ user_value (request_view request.now)) }
    ensures memory { IfErr result (λ e. e ≡ Refused.Memory) }
{
    let mut entries = Entries::new(alloc);
    let inserted = put_user(alloc, &mut entries, request);
    map_value(alloc, inserted, entries)
}

/// Inserts the parts of a request that aren't strings into an empty map.
fn put_parts(
    alloc: Global,
    entries: &mut Entries,
    request: &AdmissionRequest,
) -> Result<(), Refused>
    requires { entries_view entries.old.entries ≡ no_entries }
    ensures entered { OnOk result (entries_view entries.new.entries
        ≡ entries_with ((codes "dryRun", bool request.now.dry_run)
        ∷ (codes "kind", kind_value (kind_view request.now.kind))
        ∷ (codes "resource", resource_value (resource_view request.now.resource))
        ∷ (codes "userInfo", user_value (request_view request.now)) ∷ [])) }
    ensures memory { IfErr result (λ e. e ≡ Refused.Memory) }
{
    let user = user_value(alloc, request);
    put_value(alloc, entries, "userInfo", user)?;
    let resource = resource_value(alloc, &request.resource);
    put_value(alloc, entries, "resource", resource)?;
    let kind = kind_value(alloc, &request.kind);
    put_value(alloc, entries, "kind", kind)?;
    let dry_run = bool_value(request.dry_run);
    put_value(alloc, entries, "dryRun", Ok(dry_run))?;
    Ok(())
}

/// Inserts all parts of a request into an empty map.
fn put_request(
    alloc: Global,
    entries: &mut Entries,
    request: &AdmissionRequest,
) -> Result<(), Refused>
    requires { entries_view entries.old.entries ≡ no_entries }
    ensures entered { OnOk result (map_of (entries_view entries.new.entries)
        ≡ request_value (request_view request.now)) }
    ensures memory { IfErr result (λ e. e ≡ Refused.Memory) }
{
    put_parts(alloc, entries, request)?;
    put_text(alloc, entries, "namespace", request.namespace.as_str())?;
    put_text(alloc, entries, "name", request.name.as_str())?;
    put_text(alloc, entries, "operation", request.operation.as_str())?;
    Ok(())
}

/// Returns the CEL value of a request, as the expressions of a policy read it.
///
/// # Errors
///
/// [`Refused`] if memory is refused.
pub fn request_value(alloc: Global, request: &AdmissionRequest) -> Result<Value, Refused>
    ensures value { IfOk result (λ v. view v ≡ request_value (request_view request.now)) }
    ensures memory { IfErr result (λ e. e ≡ Refused.Memory) }
{
    let mut entries = Entries::new(alloc);
    let inserted = put_request(alloc, &mut entries, request);
    map_value(alloc, inserted, entries)
}
