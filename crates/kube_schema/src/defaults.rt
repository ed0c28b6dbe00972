//! Filling with the defaults of a schema (Kubernetes documentation, "Extend
//! the Kubernetes API with CustomResourceDefinitions", "Defaulting").
ghost use Rattle.std.specs.Prelude.{◌≡◌, IfErr, IfOk, OnOk, option_map};
ghost use Rattle.serde_json.specs.View.{view, items_view, members_view};
ghost use Rattle.kube_schema_values.specs.Defaults.{defaulted_value, map_items, member_schema, member_by, object_by, default_by, with_defaults, put_new, FillsMembers};
ghost use Rattle.kube_schema_values.specs.DefaultsAccessors.{raw};
ghost use Rattle.kube_schema.specs.CompiledDefaults.{tree_accessors};
ghost use Rattle.kube_schema.specs.Shown.{node_tree};
ghost use Rattle.kube_schema.specs.Tree.{named_of, names, default_of};

use crate::LEVELS;
use crate::compile::compile_on_demand;
use crate::node::SchemaNode;
use crate::node_keywords::NodeKeywords;
use kube_types::Refused;
use serde_json::{Map, Value};
use std::alloc::{AllocError, Global};

/// Returns the value filled with the defaults of the schema. An object gets each missing
/// key of `properties` that has a `default`, and all members and list items that it
/// already had are filled by their own schemas. A default that is added is itself filled.
///
/// A member that `properties` doesn't declare takes its schema from
/// `additionalProperties`, if that is an object and unknown fields aren't preserved.
/// Nothing changes beyond depth 64. `allOf`, `oneOf` and `anyOf` are ignored.
///
/// The schema is compiled at each call: where it is used more often, call [`fill_node`].
///
/// # Errors
///
/// [`Refused`] if memory is refused.
pub fn apply_defaults(alloc: Global, schema: &Value, value: &Value) -> Result<Value, Refused>
    ensures filled { IfOk result (λ v. view v ≡ defaulted_value raw 65 (view schema.now) (view value.now)) }
    ensures members { IfOk result (λ v.
        FillsMembers raw 64 (view schema.now) (view value.now) (view v)) }
    ensures memory { IfErr result (λ e. e ≡ Refused.Memory) }
{
    let compiled = compile_on_demand(alloc, schema)?;
    let root = compiled.root();
    let filled = fill_node(alloc, &root, value)?;
    Ok(filled)
}

/// Returns the value filled with the defaults of a node, as the root of a schema.
///
/// # Errors
///
/// [`Refused`] if memory is refused.
pub fn fill_node<K: NodeKeywords>(
    alloc: Global,
    node: &SchemaNode<'_, K>,
    value: &Value,
) -> Result<Value, Refused>
    ensures filled { IfOk result (λ v. view v
        ≡ defaulted_value tree_accessors 65 (node_tree node.now) (view value.now)) }
    ensures members { IfOk result (λ v. FillsMembers tree_accessors 64 (node_tree node.now) (view value.now)
        (view v)) }
    ensures memory { IfErr result (λ e. e ≡ Refused.Memory) }
{
    let filled = fill(alloc, node, value, LEVELS)?;
    Ok(filled)
}

// Returns the value filled with the defaults of this number of levels.
#[cycle(fill)]
#[tactic(auto, using(kube_schema_values::proofs::Filling::levels), unfolding(crate::specs::CompiledDefaults::tree_accessors))]
pub(crate) fn fill<K: NodeKeywords>(
    alloc: Global,
    node: &SchemaNode<'_, K>,
    value: &Value,
    levels: usize,
) -> Result<Value, AllocError>
    ensures { IfOk result (λ v. view v
        ≡ defaulted_value tree_accessors levels (node_tree node.now) (view value.now)) }
{
    if levels == 0 {
        return Ok(value.clone()?);
    }
    if let Some(members) = value.as_object() {
        return Ok(Value::Object(fill_members(alloc, node, members, levels - 1)?));
    }
    let Some(items) = value.as_array() else {
        return Ok(value.clone()?);
    };
    let Some(inner) = node.items() else {
        return Ok(value.clone()?);
    };
    Ok(Value::Array(fill_items(alloc, &inner, items, levels - 1)?))
}

#[cycle(fill)]
fn fill_items<K: NodeKeywords>(
    alloc: Global,
    node: &SchemaNode<'_, K>,
    items: &Vec<Value>,
    levels: usize,
) -> Result<Vec<Value>, AllocError>
    ensures { IfOk result (λ v. items_view v.items
        ≡ map_items (defaulted_value tree_accessors levels (node_tree node.now))
        (items_view items.now.items)) }
{
    let mut filled = Vec::with_capacity(alloc, items.len())?;
    for item in items {
        filled.push(fill(alloc, node, item, levels)?)?;
    }
    Ok(filled)
}

#[cycle(fill)]
fn fill_members<K: NodeKeywords>(
    alloc: Global,
    node: &SchemaNode<'_, K>,
    members: &Map<String, Value>,
    levels: usize,
) -> Result<Map<String, Value>, AllocError>
    ensures { IfOk result (λ m. members_view m.entries
        ≡ object_by tree_accessors (defaulted_value tree_accessors levels) (node_tree node.now)
        (members_view members.now.entries)) }
{
    let mut filled = Map::new(alloc);
    for (key, member) in members.iter() {
        let name = key.clone()?;
        let value = fill_member(alloc, node, key.as_str(), member, levels)?;
        drop(filled.insert(name, value)?);
    }
    add_defaults(alloc, node, &mut filled, levels)?;
    Ok(filled)
}

#[cycle(fill)]
#[tactic(auto, using(kube_schema_values::proofs::Fills::member_none, kube_schema_values::proofs::Fills::member_some))]
fn fill_member<K: NodeKeywords>(
    alloc: Global,
    node: &SchemaNode<'_, K>,
    key: &str,
    member: &Value,
    levels: usize,
) -> Result<Value, AllocError>
    ensures { IfOk result (λ v. view v
        ≡ member_by tree_accessors (defaulted_value tree_accessors levels) (node_tree node.now) key.now
        (view member.now)) }
{
    let Some(inner) = node_of_member(node, key) else {
        return Ok(member.clone()?);
    };
    let filled = fill(alloc, &inner, member, levels)?;
    Ok(filled)
}

// Adds the missing keys that have a default.
#[cycle(fill)]
fn add_defaults<K: NodeKeywords>(
    alloc: Global,
    node: &SchemaNode<'_, K>,
    target: &mut Map<String, Value>,
    levels: usize,
) -> Result<(), AllocError>
    ensures { OnOk result (members_view target.new.entries
        ≡ with_defaults (default_by tree_accessors (defaulted_value tree_accessors levels)
        (node_tree node.now)) (names (named_of (node_tree node.now))) (members_view target.old.entries)) }
{
    for index in 0..node.property_count() {
        let Some((key, property)) = node.property(index) else {
            return Ok(());
        };
        add_default(alloc, key, &property, target, levels)?;
    }
    Ok(())
}

#[cycle(fill)]
#[tactic(auto, using(kube_schema_values::proofs::Filling::defaults))]
fn add_default<K: NodeKeywords>(
    alloc: Global,
    key: &str,
    property: &SchemaNode<'_, K>,
    target: &mut Map<String, Value>,
    levels: usize,
) -> Result<(), AllocError>
    ensures { OnOk result (members_view target.new.entries
        ≡ put_new key.now (option_map (defaulted_value tree_accessors levels (node_tree property.now))
        (default_of (node_tree property.now))) (members_view target.old.entries)) }
{
    let Some(default) = property.default() else {
        return Ok(());
    };
    if target.contains_key(key) {
        return Ok(());
    }
    let value = fill(alloc, property, default, levels)?;
    let name = String::from_str(alloc, key)?;
    drop(target.insert(name, value)?);
    Ok(())
}

// Returns the node of a member, if it has one.
pub(crate) fn node_of_member<'a, K: NodeKeywords>(
    node: &SchemaNode<'a, K>,
    key: &str,
) -> Option<SchemaNode<'a, K>>
    ensures { option_map node_tree result ≡ member_schema tree_accessors (node_tree node.now) key.now }
{
    if let Some(property) = node.property_named(key) {
        return Some(property);
    }
    if node.preserve_unknown_fields() {
        return None;
    }
    node.additional_properties()
}
