//! Conversion of JSON values to CEL by a schema (Kubernetes documentation,
//! "Use CEL validation rules", the CEL types of schema types and the escaping of property names).
ghost use Rattle.std.specs.Prelude.{◌≡◌, IfErr, IfOk, OnOk, option_map};
ghost use Rattle.serde_json.specs.View.{view as json_view};
ghost use Rattle.cel.specs.Alike.{Alike};
ghost use Rattle.cel.specs.Demand.{part_of};
ghost use Rattle.cel_value.specs.View.{view};
ghost use Rattle.kube_schema_values.specs.Conversion.{to_cel, levels, member_node, raw};
ghost use Rattle.kube_schema.specs.Shown.{node_tree};
ghost use Rattle.kube_schema.specs.CompiledConversion.{tree_accessors};

use crate::compile::compile_on_demand;
use crate::node::SchemaNode;
use crate::node_keywords::NodeKeywords;
use cel_demand::Demand;
use cel_value::{Refused, Value};
use kube_schema_parts::{bind_part_at, rebind_part_at};
use kube_schema_values::{Node, SchemaFormat, bind_at};
use serde_json::Value as Json;
use std::alloc::Global;

impl<K: NodeKeywords> Node for SchemaNode<'_, K> {
    ghost use Rattle.kube_schema.specs.Shown.{node_tree};
    ghost use Rattle.kube_schema.specs.Tree.{Node as Tree};
    ghost use Rattle.kube_schema.specs.CompiledConversion.{tree_accessors};

    ghost Seen = { Tree };

    ghost seen = { node_tree };

    ghost accessors = { tree_accessors };

    fn member(&self, name: &str) -> Option<Self> {
        node_of_member(self, name)
    }

    #[tactic(auto, unfolding(crate::specs::CompiledConversion::tree_accessors))]
    fn items(&self) -> Option<Self> {
        SchemaNode::items(self)
    }

    #[tactic(auto, unfolding(crate::specs::CompiledConversion::tree_accessors))]
    fn is_map(&self) -> bool {
        SchemaNode::is_map(self)
    }

    #[tactic(auto, unfolding(crate::specs::CompiledConversion::tree_accessors))]
    fn is_embedded(&self) -> bool {
        self.embedded_resource()
    }

    #[tactic(auto, unfolding(crate::specs::CompiledConversion::tree_accessors))]
    fn format(&self) -> SchemaFormat {
        self.keywords().string_format()
    }
}

/// Converts a JSON value to CEL by a schema as JSON, `depth` steps below the root.
///
/// Strings are converted by the node's format, members and items by
/// their own nodes, and keys are escaped unless the node is a map node.
/// From depth 65 on, values are converted plainly, without a schema.
///
/// The schema is compiled at each call: where it is used more often, call [`bind_node`].
///
/// # Errors
///
/// [`Refused`] if memory is refused.
pub fn bind(alloc: Global, schema: &Json, value: &Json, depth: usize) -> Result<Value, Refused>
    ensures value { IfOk result (λ v. view v
        ≡ to_cel raw (levels depth) (json_view schema.now) (json_view value.now)) }
    ensures memory { IfErr result (λ e. e ≡ Refused.Memory) }
{
    let compiled = compile_on_demand(alloc, schema)?;
    let root = compiled.root();
    let bound = bind_node(alloc, &root, value, depth)?;
    Ok(bound)
}

/// Converts a JSON value to CEL by a node of a compiled schema, `depth` steps below the root.
///
/// Strings are converted by the node's format, members and items by
/// their own nodes, and keys are escaped unless the node is a map node.
/// From depth 65 on, values are converted plainly, without a schema.
///
/// # Errors
///
/// [`Refused`] if memory is refused.
pub fn bind_node<K: NodeKeywords>(
    alloc: Global,
    node: &SchemaNode<'_, K>,
    value: &Json,
    depth: usize,
) -> Result<Value, Refused>
    ensures value { IfOk result (λ v. view v
        ≡ to_cel tree_accessors (levels depth) (node_tree node.now) (json_view value.now)) }
    ensures memory { IfErr result (λ e. e ≡ Refused.Memory) }
{
    bind_at(alloc, *node, value, depth)
}

/// Converts the demanded part of a JSON value to CEL by a node of a compiled
/// schema, `depth` steps below the root. What isn't demanded may be missing.
///
/// # Errors
///
/// [`Refused`] if memory is refused.
pub fn bind_node_part<K: NodeKeywords>(
    alloc: Global,
    node: &SchemaNode<'_, K>,
    value: &Json,
    depth: usize,
    demand: &Demand,
) -> Result<Value, Refused>
    ensures value { IfOk result (λ v. Alike (part_of demand.now) (view v)
        (to_cel tree_accessors (levels depth) (node_tree node.now) (json_view value.now))) }
    ensures memory { IfErr result (λ e. e ≡ Refused.Memory) }
{
    let part = bind_part_at(alloc, *node, value, depth, demand)?;
    Ok(part)
}

/// Converts a JSON value to CEL like [`bind_node_part`], and puts the result in place of another
/// value, whose memory is used again if that was made by the same demand and nothing else shares it.
///
/// # Errors
///
/// [`Refused`] if memory is refused. Nothing is known of the value in its place then.
pub fn rebind_node_part<K: NodeKeywords>(
    alloc: Global,
    node: &SchemaNode<'_, K>,
    value: &Json,
    depth: usize,
    demand: &Demand,
    place: &mut Value,
) -> Result<(), Refused>
    ensures value { OnOk result (Alike (part_of demand.now) (view place.new)
        (to_cel tree_accessors (levels depth) (node_tree node.now) (json_view value.now))) }
    ensures memory { IfErr result (λ e. e ≡ Refused.Memory) }
{
    rebind_part_at(alloc, *node, value, depth, demand, place)?;
    Ok(())
}

// Returns the node of a member: that of its property, else that of members that aren't declared.
#[tactic(auto, unfolding(crate::specs::CompiledConversion::tree_accessors))]
fn node_of_member<'a, K: NodeKeywords>(
    node: &SchemaNode<'a, K>,
    name: &str,
) -> Option<SchemaNode<'a, K>>
    ensures { option_map node_tree result ≡ member_node tree_accessors (node_tree node.now) name.now }
{
    if let Some(property) = node.property_named(name) {
        return Some(property);
    }
    node.additional_properties()
}
