//! The CEL value of a request.
ghost use Rattle.cel_value.specs.View.{entries_view, view};
ghost use Rattle.kube_manifests_names.specs.Requests.{is_blank, is_null, leaf, part_value, parts_onto, record_onto, record_value, request_value, unless_null, with_member};
ghost use Rattle.serde_json.specs.Find.{get};
ghost use Rattle.serde_json.specs.View.{view as json_view};
ghost use Rattle.std.specs.Prelude.{◌≡◌, IfOk, map, OnOk, option_and_then, option_map};

use crate::values::unstructured;
use cel_value::{Entries, Value};
use kube_schema_values::put_entry;
use kube_types::Refused;
use serde_json::Value as Json;
use std::alloc::Global;

/// How a field of a request becomes a member of its value.
#[derive(Clone, Copy, Drop)]
pub(crate) enum Part {
    /// As it is.
    Kept,
    /// As it is, unless it is empty.
    Filled,
    /// A kind with its group and version.
    Kind,
    /// A resource with its group and version.
    Resource,
    /// The user.
    User,
}

pub(crate) fn is_null(value: &Json) -> bool
    ensures { result ≡ is_null (json_view value.now) }
{
    match value {
        Json::Null => true,
        Json::Bool(_) => false,
        Json::Number(_) => false,
        Json::String(_) => false,
        Json::Array(_) => false,
        Json::Object(_) => false,
    }
}

/// Reports whether the value is an empty string, list or object.
fn is_blank(value: &Json) -> bool
    ensures { result ≡ is_blank (json_view value.now) }
{
    match value {
        Json::Null => false,
        Json::Bool(_) => false,
        Json::Number(_) => false,
        Json::String(text) => text.is_empty(),
        Json::Array(items) => items.as_slice().is_empty(),
        Json::Object(members) => members.len() == 0,
    }
}

/// Returns the value of a member, unless it is left out. `fills` says whether an empty one is.
fn leaf(alloc: Global, fills: bool, value: &Json) -> Result<Option<Value>, Refused>
    ensures value { IfOk result (λ o. option_map view o ≡ leaf fills (json_view value.now)) }
{
    if is_null(value) || fills && is_blank(value) {
        return Ok(None);
    }
    let kept = unstructured(alloc, value)?;
    Ok(Some(kept))
}

/// Returns the value of such a member of an object, if it is there.
fn leaf_in(alloc: Global, fills: bool, value: Option<&Json>) -> Result<Option<Value>, Refused>
    ensures value { IfOk result (λ o. option_map view o
        ≡ option_and_then (leaf fills) (option_map (λ v. json_view v.now) value.entry)) }
{
    match value {
        None => Ok(None),
        Some(found) => leaf(alloc, fills, found),
    }
}

/// Adds a member, if it is there.
fn put_member(
    alloc: Global,
    entries: &mut Entries,
    name: &str,
    value: Option<Value>,
) -> Result<(), Refused>
    ensures entered { OnOk result (entries_view entries.new.entries
        ≡ with_member name.now (option_map view value) (entries_view entries.old.entries)) }
{
    match value {
        None => Ok(()),
        Some(value) => put_entry(alloc, entries, String::from_str(alloc, name)?, value),
    }
}

/// Adds a member for each of these fields.
fn put_record(
    alloc: Global,
    entries: &mut Entries,
    fields: &[(&'static str, bool)],
    value: &Json,
) -> Result<(), Refused>
    ensures entered { OnOk result (entries_view entries.new.entries
        ≡ record_onto (entries_view entries.old.entries)
        (map (λ f. (f.0.now, f.1)) fields.now) (json_view value.now)) }
{
    for field in fields {
        let found = leaf_in(alloc, field.1, value.get(field.0))?;
        put_member(alloc, entries, field.0, found)?;
    }
    Ok(())
}

/// Returns the map of these fields.
#[tactic(auto, unfolding(crate::specs::Requests::record_value))]
fn record_value(
    alloc: Global,
    fields: &[(&'static str, bool)],
    value: &Json,
) -> Result<Value, Refused>
    ensures value { IfOk result (λ v. view v
        ≡ record_value (map (λ f. (f.0.now, f.1)) fields.now) (json_view value.now)) }
{
    let mut entries = Entries::new(alloc);
    put_record(alloc, &mut entries, fields, value)?;
    let value = Value::from_entries(alloc, entries)?;
    Ok(value)
}

/// Returns the map of these fields, unless the value is null.
fn unless_null(
    alloc: Global,
    fields: &[(&'static str, bool)],
    value: &Json,
) -> Result<Option<Value>, Refused>
    ensures value { IfOk result (λ o. option_map view o
        ≡ unless_null (map (λ f. (f.0.now, f.1)) fields.now) (json_view value.now)) }
{
    if is_null(value) {
        return Ok(None);
    }
    let made = record_value(alloc, fields, value)?;
    Ok(Some(made))
}

/// Returns the value of a field of a request, unless it is left out.
fn part_value(alloc: Global, part: Part, value: &Json) -> Result<Option<Value>, Refused>
    ensures value { IfOk result (λ o. option_map view o ≡ part_value part (json_view value.now)) }
{
    match part {
        Part::Kept => leaf(alloc, false, value),
        Part::Filled => leaf(alloc, true, value),
        Part::Kind => {
            let fields = [("group", false), ("version", false), ("kind", false)];
            unless_null(alloc, &fields, value)
        }
        Part::Resource => {
            let fields = [("group", false), ("version", false), ("resource", false)];
            unless_null(alloc, &fields, value)
        }
        Part::User => {
            let fields = [
                ("username", true),
                ("uid", true),
                ("groups", true),
                ("extra", true),
            ];
            unless_null(alloc, &fields, value)
        }
    }
}

/// Returns the value of such a field, if it is there.
fn part_in(alloc: Global, part: Part, value: Option<&Json>) -> Result<Option<Value>, Refused>
    ensures value { IfOk result (λ o. option_map view o
        ≡ option_and_then (part_value part) (option_map (λ v. json_view v.now) value.entry)) }
{
    match value {
        None => Ok(None),
        Some(found) => part_value(alloc, part, found),
    }
}

/// Adds a member for each of these fields of a request.
fn put_parts(
    alloc: Global,
    entries: &mut Entries,
    fields: &[(&'static str, Part)],
    request: &Json,
) -> Result<(), Refused>
    ensures entered { OnOk result (entries_view entries.new.entries
        ≡ parts_onto (entries_view entries.old.entries)
        (map (λ f. (f.0.now, f.1)) fields.now) (json_view request.now)) }
{
    for field in fields {
        let found = part_in(alloc, field.1, request.get(field.0))?;
        put_member(alloc, entries, field.0, found)?;
    }
    Ok(())
}

/// Returns the CEL value of the `request` of an AdmissionReview, as the expressions of a policy
/// read it.
///
/// # Errors
///
/// [`Refused`] if memory is refused.
#[tactic(auto, unfolding(crate::specs::Requests::request_value))]
pub fn request_value(alloc: Global, request: &Json) -> Result<Value, Refused>
    ensures value { IfOk result (λ v. view v ≡ request_value (json_view request.now)) }
{
    let fields = [
        ("kind", Part::Kind),
        ("resource", Part::Resource),
        ("subResource", Part::Filled),
        ("requestKind", Part::Kind),
        ("requestResource", Part::Resource),
        ("requestSubResource", Part::Filled),
        ("name", Part::Filled),
        ("namespace", Part::Filled),
        ("operation", Part::Kept),
        ("userInfo", Part::User),
        ("dryRun", Part::Kept),
        ("options", Part::Kept),
    ];
    let mut entries = Entries::new(alloc);
    put_parts(alloc, &mut entries, &fields, request)?;
    let value = Value::from_entries(alloc, entries)?;
    Ok(value)
}
