//! Counts the rules of a schema.
ghost use Rattle.kube_manifests.specs.Rules.{saturated_count, rules_in, rules_in_named, rules_in_nodes, rules_in_option};
ghost use Rattle.kube_schema.specs.Shown.{node_tree, whole};
ghost use Rattle.kube_schema.specs.Tree.{branches_of, additional_of, items_of, named_of, nodes_length, nth_node};
ghost use Rattle.std.specs.Prelude.{◌≡◌, ◌+◌, ◌<◌, option_map};

use kube_cel::{CompiledSchema, SchemaNode};
use kube_schema::BranchKind;

/// Returns the number of rules of all nodes of a schema together, or `u64::MAX` if there are more.
/// A node past the depth limit has an error in place of its rules, which counts as one.
pub fn rule_count(schema: &CompiledSchema) -> u64
    ensures { result ≡ saturated_count (rules_in (whole schema.now)) }
{
    with_node(0, &schema.root())
}

/// Adds to `count` the number of rules of a node and of all nodes within it.
#[cycle(count)]
fn with_node(count: u64, node: &SchemaNode<'_>) -> u64
    ensures { result ≡ saturated_count (count + rules_in (node_tree node.now)) }
{
    let own = count.saturating_add(node.validations().len() as u64);
    let properties = with_properties(own, node);
    let items = with_items(properties, node);
    let additional = with_additional(items, node);
    let all_of = with_branches(additional, BranchKind::AllOf, node);
    let one_of = with_branches(all_of, BranchKind::OneOf, node);
    with_branches(one_of, BranchKind::AnyOf, node)
}

/// Adds to `count` the number of rules of a node's properties.
#[cycle(count)]
fn with_properties(count: u64, node: &SchemaNode<'_>) -> u64
    ensures { result ≡ saturated_count (count + rules_in_named (named_of (node_tree node.now))) }
{
    let mut all = count;
    for index in 0..node.property_count() {
        let Some((_, property)) = node.property(index) else {
            return all;
        };
        all = with_node(all, &property);
    }
    all
}

/// Adds to `count` the number of rules of a node's `items` schema.
#[cycle(count)]
fn with_items(count: u64, node: &SchemaNode<'_>) -> u64
    ensures { result ≡ saturated_count (count + rules_in_option (items_of (node_tree node.now))) }
{
    match node.items() {
        Some(items) => with_node(count, &items),
        None => count,
    }
}

/// Adds to `count` the number of rules of a node's `additionalProperties` schema.
#[cycle(count)]
fn with_additional(count: u64, node: &SchemaNode<'_>) -> u64
    ensures { result ≡ saturated_count (count + rules_in_option (additional_of (node_tree node.now))) }
{
    match node.additional_properties() {
        Some(additional) => with_node(count, &additional),
        None => count,
    }
}

/// Adds to `count` the number of rules of the branches of one keyword.
#[cycle(count)]
fn with_branches(count: u64, kind: BranchKind, node: &SchemaNode<'_>) -> u64
    ensures { result ≡ saturated_count (count + rules_in_nodes (branches_of kind (node_tree node.now))) }
{
    let mut all = count;
    for index in 0..node.branch_count(kind) {
        let Some(branch) = node.branch(kind, index) else {
            return all;
        };
        all = with_node(all, &branch);
    }
    all
}
