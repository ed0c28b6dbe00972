//! Finds the schemas within a schema.
ghost use Rattle.std.specs.Prelude.{◌≡◌, OnOk, false, option_map};
ghost use Rattle.kube_manifests_review.specs.Locations.{AddsLocations, branch_locations, locations_of, locations_within, maybe_locations, named_schemas, names_locations, passed_over, unread_within};
ghost use Rattle.kube_manifests_documents.specs.Pointers.{keyword_pointer};
ghost use Rattle.kube_schema.specs.RulesRaw.{undeclared_property};
ghost use Rattle.kube_schema.specs.DefaultsAccessors.{additional, preserves};
ghost use Rattle.kube_schema.specs.View.{branches};
ghost use Rattle.serde_json.specs.View.{items_view, members_view, view};

use kube_manifests_documents::{index_pointer, key_pointer, keyword_pointer};
use serde_json::{Map, Value};
use std::alloc::{AllocError, Global};

/// A schema, with its JSON Pointer into the document.
#[derive(Drop)]
pub(crate) struct SchemaLocation<'a> {
    pub(crate) pointer: String,
    pub(crate) schema: &'a Value,
    /// Whether objects are judged by it.
    pub(crate) is_read: bool,
}

/// The members of a field of a schema, if it is an object.
#[tactic(auto, unfolding(crate::specs::Locations::named_schemas))]
fn named_schemas<'s>(schema: &'s Value, field: &str) -> Option<&'s Map<String, Value>>
    ensures { option_map (λ m. members_view m.now.entries) result ≡ named_schemas field.now (view schema.now) }
{
    schema.get(field)?.as_object()
}

/// The `additionalProperties` schema, if it is an object.
#[tactic(auto, unfolding(kube_schema_values::specs::DefaultsAccessors::additional))]
fn additional(schema: &Value) -> Option<&Value>
    ensures { option_map (λ n. view n.now) result ≡ additional (view schema.now) }
{
    let node = schema.get("additionalProperties")?;
    if node.is_object() { Some(node) } else { None }
}

/// Reports whether a schema preserves unknown fields.
#[tactic(auto, unfolding(kube_schema_values::specs::DefaultsAccessors::preserves))]
fn preserves(schema: &Value) -> bool
    ensures { result ≡ preserves (view schema.now) }
{
    schema
        .get("x-kubernetes-preserve-unknown-fields")
        .and_then(Value::as_bool)
        .unwrap_or(false)
}

/// The schema of undeclared members that the walk over an object goes to. `None` if unknown fields
/// are preserved.
#[tactic(auto, unfolding(kube_schema_rules::specs::Raw::undeclared_property, kube_schema_values::specs::DefaultsAccessors::additional, kube_schema_values::specs::DefaultsAccessors::preserves))]
fn undeclared(schema: &Value) -> Option<&Value>
    ensures { option_map (λ n. view n.now) result ≡ undeclared_property (view schema.now) }
{
    if preserves(schema) {
        None
    } else {
        additional(schema)
    }
}

/// The schema of undeclared members that the walk passes over, since unknown fields are preserved.
#[tactic(auto, unfolding(crate::specs::Locations::passed_over))]
fn passed_over(schema: &Value) -> Option<&Value>
    ensures { option_map (λ n. view n.now) result ≡ passed_over (view schema.now) }
{
    if preserves(schema) {
        additional(schema)
    } else {
        None
    }
}

/// The branches of a keyword, if it has any.
#[tactic(auto, unfolding(kube_schema::specs::View::branches))]
fn branches<'s>(schema: &'s Value, keyword: &str) -> Option<&'s Vec<Value>>
    ensures { option_map (λ v. items_view v.now.items) result ≡ branches keyword.now (view schema.now) }
{
    schema.get(keyword)?.as_array()
}

/// Adds a schema, which is read or isn't, and the schemas within it, `levels` levels of nesting at
/// most.
#[cycle(locations)]
pub(crate) fn add_locations<'a>(
    alloc: Global,
    pointer: &str,
    schema: &'a Value,
    is_read: bool,
    levels: usize,
    locations: &mut Vec<SchemaLocation<'a>>,
) -> Result<(), AllocError>
    ensures { OnOk result (AddsLocations locations.old.items locations.new.items
        (locations_of levels is_read pointer.now (view schema.now))) }
{
    if levels == 0 {
        return Ok(());
    }
    locations.push(SchemaLocation {
        pointer: String::from_str(alloc, pointer)?,
        schema,
        is_read,
    })?;
    let left = levels - 1;
    add_within(alloc, pointer, schema, is_read, left, locations)?;
    add_unread(alloc, pointer, schema, left, locations)?;
    Ok(())
}

/// Adds the schemas of the fields that a walk over an object goes through, and those within them.
#[cycle(locations)]
fn add_within<'a>(
    alloc: Global,
    pointer: &str,
    schema: &'a Value,
    is_read: bool,
    levels: usize,
    locations: &mut Vec<SchemaLocation<'a>>,
) -> Result<(), AllocError>
    ensures { OnOk result (AddsLocations locations.old.items locations.new.items
        (locations_within (locations_of levels is_read) pointer.now (view schema.now))) }
{
    let items = schema.get("items");
    let others = undeclared(schema);
    add_names(
        alloc,
        pointer,
        "properties",
        schema,
        is_read,
        levels,
        locations,
    )?;
    add_maybe(alloc, pointer, "items", items, is_read, levels, locations)?;
    add_maybe(
        alloc,
        pointer,
        "additionalProperties",
        others,
        is_read,
        levels,
        locations,
    )?;
    add_branches(alloc, pointer, "allOf", schema, is_read, levels, locations)?;
    add_branches(alloc, pointer, "oneOf", schema, is_read, levels, locations)?;
    add_branches(alloc, pointer, "anyOf", schema, is_read, levels, locations)?;
    Ok(())
}

/// Adds the schemas of the fields that no walk goes through, and those within them: none is read.
#[cycle(locations)]
fn add_unread<'a>(
    alloc: Global,
    pointer: &str,
    schema: &'a Value,
    levels: usize,
    locations: &mut Vec<SchemaLocation<'a>>,
) -> Result<(), AllocError>
    ensures { OnOk result (AddsLocations locations.old.items locations.new.items
        (unread_within (locations_of levels false) pointer.now (view schema.now))) }
{
    let passed = passed_over(schema);
    let not = schema.get("not");
    let others = schema.get("additionalItems");
    add_maybe(
        alloc,
        pointer,
        "additionalProperties",
        passed,
        false,
        levels,
        locations,
    )?;
    add_maybe(alloc, pointer, "not", not, false, levels, locations)?;
    add_maybe(
        alloc,
        pointer,
        "additionalItems",
        others,
        false,
        levels,
        locations,
    )?;
    add_branches(alloc, pointer, "items", schema, false, levels, locations)?;
    add_names(
        alloc,
        pointer,
        "patternProperties",
        schema,
        false,
        levels,
        locations,
    )?;
    add_names(
        alloc,
        pointer,
        "definitions",
        schema,
        false,
        levels,
        locations,
    )?;
    add_names(
        alloc,
        pointer,
        "dependencies",
        schema,
        false,
        levels,
        locations,
    )?;
    Ok(())
}

/// Adds the named schemas of a field and those within them, in the order of their names.
#[cycle(locations)]
fn add_names<'a>(
    alloc: Global,
    pointer: &str,
    field: &str,
    schema: &'a Value,
    is_read: bool,
    levels: usize,
    locations: &mut Vec<SchemaLocation<'a>>,
) -> Result<(), AllocError>
    ensures { OnOk result (AddsLocations locations.old.items locations.new.items
        (names_locations (locations_of levels is_read) pointer.now field.now (view schema.now))) }
{
    let Some(members) = named_schemas(schema, field) else {
        return Ok(());
    };
    let inner = keyword_pointer(alloc, pointer, field)?;
    for (key, member) in members.iter() {
        let named = key_pointer(alloc, inner.as_str(), key.as_str())?;
        add_locations(alloc, named.as_str(), member, is_read, levels, locations)?;
    }
    Ok(())
}

/// Adds the schema of this keyword and those within it, if there is one.
#[cycle(locations)]
fn add_maybe<'a>(
    alloc: Global,
    pointer: &str,
    keyword: &str,
    schema: Option<&'a Value>,
    is_read: bool,
    levels: usize,
    locations: &mut Vec<SchemaLocation<'a>>,
) -> Result<(), AllocError>
    ensures { OnOk result (AddsLocations locations.old.items locations.new.items
        (maybe_locations (locations_of levels is_read) (keyword_pointer pointer.now keyword.now)
        (option_map (λ s. view s.now) schema.entry))) }
{
    let Some(schema) = schema else {
        return Ok(());
    };
    let inner = keyword_pointer(alloc, pointer, keyword)?;
    add_locations(alloc, inner.as_str(), schema, is_read, levels, locations)?;
    Ok(())
}

/// Adds the branches of a keyword and the schemas within them, in order.
#[cycle(locations)]
fn add_branches<'a>(
    alloc: Global,
    pointer: &str,
    keyword: &str,
    schema: &'a Value,
    is_read: bool,
    levels: usize,
    locations: &mut Vec<SchemaLocation<'a>>,
) -> Result<(), AllocError>
    ensures { OnOk result (AddsLocations locations.old.items locations.new.items
        (branch_locations (locations_of levels is_read) pointer.now keyword.now (view schema.now))) }
{
    let Some(items) = branches(schema, keyword) else {
        return Ok(());
    };
    let inner = keyword_pointer(alloc, pointer, keyword)?;
    for (index, item) in items.iter().enumerate() {
        let branch = index_pointer(alloc, inner.as_str(), index)?;
        add_locations(alloc, branch.as_str(), item, is_read, levels, locations)?;
    }
    Ok(())
}
