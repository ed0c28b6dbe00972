//! Filling by a node of a compiled schema, without a copy if nothing is missing.
ghost use Rattle.std.specs.Bool.{IsTrue};
ghost use Rattle.std.specs.Cow.{cow_value};
ghost use Rattle.std.specs.Prelude.{◌≡◌, IfErr, IfOk, option_map};
ghost use Rattle.serde_json.specs.Data.{Data};
ghost use Rattle.serde_json.specs.View.{view, items_view, members_view};
ghost use Rattle.kube_schema_values.specs.Defaults.{defaulted_value, map_items, map_members, member_by, default_by, with_defaults, put_new};
ghost use Rattle.kube_schema.specs.CompiledDefaults.{tree_accessors};
ghost use Rattle.kube_schema.specs.Shown.{node_tree};
ghost use Rattle.kube_schema.specs.Tree.{Node, named_of, names, default_of};

use crate::LEVELS;
use crate::defaults::{fill, node_of_member};
use crate::node::SchemaNode;
use crate::node_keywords::NodeKeywords;
use kube_types::Refused;
use serde_json::{Map, Value};
use std::alloc::Global;
use std::borrow::Cow;

/// Returns the value that `fill_node` returns. If no default is missing, it lends the value
/// itself and allocates nothing. For a schema without defaults this costs one comparison.
///
/// # Errors
///
/// [`Refused`] if memory is refused.
pub fn filled_by_node<'v, K: NodeKeywords>(
    alloc: Global,
    node: &SchemaNode<'_, K>,
    value: &'v Value,
) -> Result<Cow<'v, Value>, Refused>
    ensures filled { IfOk result (λ v. view (cow_value v)
        ≡ defaulted_value tree_accessors 65 (node_tree node.now) (view value.now)) }
    ensures memory { IfErr result (λ e. e ≡ Refused.Memory) }
{
    if is_filled(node, value) {
        return Ok(Cow::Borrowed(value));
    }
    let made = fill(alloc, node, value, LEVELS)?;
    Ok(Cow::Owned(made))
}

// Reports whether a value has all defaults. The contract only covers true.
fn is_filled<K: NodeKeywords>(node: &SchemaNode<'_, K>, value: &Value) -> bool
    ensures { IsTrue result → defaulted_value tree_accessors 65 (node_tree node.now) (view value.now)
        ≡ view value.now }
{
    if !node.may_have_defaults() {
        return true;
    }
    has_defaults(node, value, LEVELS)
}

// Reports whether a value has the defaults of this number of levels. The contract only covers true.
#[cycle(has)]
#[tactic(auto, using(kube_schema_values::proofs::Whole::whole_levels), unfolding(crate::specs::CompiledDefaults::tree_accessors))]
fn has_defaults<K: NodeKeywords>(node: &SchemaNode<'_, K>, value: &Value, levels: usize) -> bool
    ensures { IsTrue result → defaulted_value tree_accessors levels (node_tree node.now) (view value.now)
        ≡ view value.now }
{
    if levels == 0 {
        return true;
    }
    if let Some(members) = value.as_object() {
        return lacks_no_key(node, members) && members_have_defaults(node, members, levels - 1);
    }
    let Some(items) = value.as_array() else {
        return true;
    };
    let Some(inner) = node.items() else {
        return true;
    };
    items_have_defaults(&inner, items, levels - 1)
}

#[cycle(has)]
fn items_have_defaults<K: NodeKeywords>(
    node: &SchemaNode<'_, K>,
    items: &Vec<Value>,
    levels: usize,
) -> bool
    ensures { IsTrue result
        → map_items (defaulted_value tree_accessors levels (node_tree node.now)) (items_view items.now.items)
        ≡ items_view items.now.items }
{
    for item in items {
        if !has_defaults(node, item, levels) {
            return false;
        }
    }
    true
}

#[cycle(has)]
#[tactic(auto, using(kube_schema_values::proofs::Whole::stays))]
fn members_have_defaults<K: NodeKeywords>(
    node: &SchemaNode<'_, K>,
    members: &Map<String, Value>,
    levels: usize,
) -> bool
    ensures { IsTrue result
        → map_members (member_by tree_accessors (defaulted_value tree_accessors levels) (node_tree node.now))
        (members_view members.now.entries) ≡ members_view members.now.entries }
{
    for (key, member) in members.iter() {
        if !member_has_defaults(node, key.as_str(), member, levels) {
            return false;
        }
    }
    true
}

#[cycle(has)]
#[tactic(auto, using(kube_schema_values::proofs::Fills::member_none, kube_schema_values::proofs::Fills::member_some))]
fn member_has_defaults<K: NodeKeywords>(
    node: &SchemaNode<'_, K>,
    key: &str,
    member: &Value,
    levels: usize,
) -> bool
    ensures { IsTrue result
        → member_by tree_accessors (defaulted_value tree_accessors levels)
        (node_tree node.now) key.now (view member.now) ≡ view member.now }
{
    match node_of_member(node, key) {
        Some(inner) => has_defaults(&inner, member, levels),
        None => true,
    }
}

// Reports whether all keys that have a default are present. The contract only covers true.
fn lacks_no_key<K: NodeKeywords>(node: &SchemaNode<'_, K>, members: &Map<String, Value>) -> bool
    ensures { IsTrue result → (f : Node → Data → Data)
        → with_defaults (default_by tree_accessors f (node_tree node.now))
        (names (named_of (node_tree node.now))) (members_view members.now.entries)
        ≡ members_view members.now.entries }
{
    for index in 0..node.property_count() {
        let Some((key, property)) = node.property(index) else {
            return true;
        };
        if !lacks_no_default(key, &property, members) {
            return false;
        }
    }
    true
}

// Reports whether a key is present or has no default. The contract only covers true.
#[tactic(auto, using(kube_schema_values::proofs::Filling::default_there))]
fn lacks_no_default<K: NodeKeywords>(
    key: &str,
    property: &SchemaNode<'_, K>,
    members: &Map<String, Value>,
) -> bool
    ensures { IsTrue result → (f : Data → Data)
        → members_view members.now.entries
        ≡ put_new key.now (option_map f (default_of (node_tree property.now)))
        (members_view members.now.entries) }
{
    match property.default() {
        Some(_) => members.contains_key(key),
        None => true,
    }
}
