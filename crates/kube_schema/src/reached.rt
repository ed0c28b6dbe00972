//! Compilation of the rules that a validation comes to.
//!
//! No contract says which nodes a value reaches, because the tree is the same either way: the
//! rules of a node that was left out are compiled when they are asked for.
ghost use Rattle.std.specs.Prelude.{◌≡◌, IfErr};
ghost use Rattle.kube_schema.specs.Shown.{whole};
ghost use Rattle.kube_schema.specs.Raw.{AreSame};
ghost use Rattle.kube_schema.specs.Source.{source_own};

use crate::LEVELS;
use crate::defaults::node_of_member;
use crate::node::{CompiledSchema, SchemaNode};
use crate::node_keywords::NodeKeywords;
use crate::source::SourceKeywords;
use crate::table::Table;
use kube_schema_rules::BranchKind;
use kube_types::Refused;
use serde_json::{Map, Value};
use std::alloc::Global;

// Which nodes a value reaches.
#[derive(Drop)]
struct Reached {
    // Whether each node is reached.
    nodes: Vec<bool>,
    // How many places may still be visited.
    left: usize,
}

impl Reached {
    // Marks a node as reached. Returns whether any place may still be visited.
    fn mark(&mut self, number: usize) -> bool {
        if self.left == 0 {
            return false;
        }
        self.left -= 1;
        if let Some(reached) = self.nodes.get_mut(number) {
            *reached = true;
        }
        true
    }
}

/// Compiles the rules of the nodes that a value reaches. It visits at most as many places of the
/// value as the schema has nodes; for a value with more, it compiles all rules.
///
/// # Errors
///
/// [`Refused`] if memory is refused. The tree stays the same then too.
pub fn compile_reached(
    alloc: Global,
    schema: &mut CompiledSchema<SourceKeywords<'_>>,
    value: &Value,
) -> Result<(), Refused>
    ensures same { whole schema.new ≡ whole schema.old }
    ensures memory { IfErr result (λ e. e ≡ Refused.Memory) }
{
    let count = schema.node_count();
    let mut reached = Reached {
        nodes: vec![in alloc; false; count]?,
        left: count,
    };
    reach(&schema.root(), value, LEVELS, &mut reached);
    compile_marked(alloc, &mut schema.table, &reached)?;
    Ok(())
}

// Marks a node, and those within it, that a value reaches by this number of levels.
#[cycle(reach)]
fn reach<K: NodeKeywords>(
    node: &SchemaNode<'_, K>,
    value: &Value,
    levels: usize,
    reached: &mut Reached,
) {
    if levels == 0 || !reached.mark(node.number()) || node.has_no_rules_below(LEVELS) {
        return;
    }
    reach_parts(node, value, levels - 1, reached);
    reach_branches(BranchKind::AllOf, node, value, levels - 1, reached);
    reach_branches(BranchKind::OneOf, node, value, levels - 1, reached);
    reach_branches(BranchKind::AnyOf, node, value, levels - 1, reached);
}

// Marks the nodes that the members of an object or the items of a list reach.
#[cycle(reach)]
fn reach_parts<K: NodeKeywords>(
    node: &SchemaNode<'_, K>,
    value: &Value,
    levels: usize,
    reached: &mut Reached,
) {
    if let Some(members) = value.as_object() {
        reach_members(node, members, levels, reached);
        return;
    }
    let Some(items) = value.as_array() else {
        return;
    };
    let Some(inner) = node.items() else {
        return;
    };
    reach_items(&inner, items, levels, reached);
}

#[cycle(reach)]
fn reach_members<K: NodeKeywords>(
    node: &SchemaNode<'_, K>,
    members: &Map<String, Value>,
    levels: usize,
    reached: &mut Reached,
) {
    for (key, member) in members.iter() {
        if reached.left == 0 {
            return;
        }
        if let Some(inner) = node_of_member(node, key.as_str()) {
            reach(&inner, member, levels, reached);
        }
    }
}

#[cycle(reach)]
fn reach_items<K: NodeKeywords>(
    node: &SchemaNode<'_, K>,
    items: &Vec<Value>,
    levels: usize,
    reached: &mut Reached,
) {
    for item in items {
        if reached.left == 0 {
            return;
        }
        reach(node, item, levels, reached);
    }
}

#[cycle(reach)]
fn reach_branches<K: NodeKeywords>(
    kind: BranchKind,
    node: &SchemaNode<'_, K>,
    value: &Value,
    levels: usize,
    reached: &mut Reached,
) {
    for index in 0..node.branch_count(kind) {
        if let Some(branch) = node.branch(kind, index) {
            reach(&branch, value, levels, reached);
        }
    }
}

// Compiles the rules of the marked nodes, or of all if the visits came to their end.
fn compile_marked(
    alloc: Global,
    table: &mut Table<SourceKeywords<'_>>,
    reached: &Reached,
) -> Result<(), Refused>
    ensures same { AreSame source_own source_own table.old.nodes.items table.new.nodes.items }
    ensures memory { IfErr result (λ e. e ≡ Refused.Memory) }
{
    for number in 0..reached.nodes.len() {
        if reached.left == 0 || reached.nodes[number] {
            compile_node(alloc, table, number)?;
        }
    }
    Ok(())
}

// Compiles the rules of the node at a number, if there is one.
fn compile_node(
    alloc: Global,
    table: &mut Table<SourceKeywords<'_>>,
    number: usize,
) -> Result<(), Refused>
    ensures same { AreSame source_own source_own table.old.nodes.items table.new.nodes.items }
    ensures memory { IfErr result (λ e. e ≡ Refused.Memory) }
{
    if number >= table.nodes.len() {
        return Ok(());
    }
    let node = &mut table.nodes[number];
    node.keywords.compile(alloc)?;
    Ok(())
}
