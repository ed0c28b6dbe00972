//! Which nodes of a table are known to have no rules below them.
ghost use Rattle.std.specs.Prelude.{◌≡◌, ℕ, Some, IfOk, IfSome, slice_get};
ghost use Rattle.kube_schema.specs.declared.nodes.NodeId.{NodeId};
ghost use Rattle.kube_schema.specs.declared.nodes.PropertyLink.{PropertyLink};
ghost use Rattle.kube_schema.specs.NoRules.{AreKnown, HasNoRules, HasNoRulesBelow};
ghost use Rattle.kube_schema.specs.Raw.{assemble, tree};

use crate::node_keywords::NodeKeywords;
use crate::nodes::{NodeId, PropertyLink, TableNode};
use crate::table::Table;
use std::alloc::{AllocError, Global};

// Returns, for each node of a table, how many levels are below it at most, if it is
// known that none of them has a rule. The contract only covers what is known.
pub(crate) fn levels_below<K: NodeKeywords>(
    alloc: Global,
    table: &Table<K>,
) -> Result<Vec<Option<u8>>, AllocError>
    ensures { IfOk result (λ v. AreKnown K.own table.now.nodes.items v.items) }
{
    let count = table.nodes.len();
    let mut below: Vec<Option<u8>> = vec![in alloc; None; count]?;
    // The nodes within a node stand behind it in the table, so the last node comes first.
    for done in 0..count {
        let number = count - 1 - done;
        below[number] = children_levels(table, &below, &table.nodes[number]);
    }
    Ok(below)
}

// The number of levels of all trees within a node, if it is known that none of them has a rule.
fn children_levels<K: NodeKeywords>(
    table: &Table<K>,
    below: &[Option<u8>],
    node: &TableNode<K>,
) -> Option<u8>
    requires { AreKnown K.own table.now.nodes.items below.now }
    ensures { IfSome result (λ m. HasNoRulesBelow m (assemble K.own (tree K.own table.now.nodes.items) node.now)) }
{
    let children = &node.children;
    let properties = links_levels(table, below, &children.properties)?;
    let items = maybe_levels(table, below, children.items)?;
    let additional = maybe_levels(table, below, children.additional)?;
    let all_of = numbers_levels(table, below, &children.all_of)?;
    let one_of = numbers_levels(table, below, &children.one_of)?;
    let any_of = numbers_levels(table, below, &children.any_of)?;
    let single = properties.max(items).max(additional);
    Some(single.max(all_of).max(one_of).max(any_of))
}

// The number of levels of all trees of properties, if it is known that none of them has a rule.
fn links_levels<K: NodeKeywords>(
    table: &Table<K>,
    below: &[Option<u8>],
    links: &[PropertyLink],
) -> Option<u8>
    requires { AreKnown K.own table.now.nodes.items below.now }
    ensures { IfSome result (λ m. (i : ℕ) (l : PropertyLink) → slice_get links.now i ≡ Some l
        → HasNoRules m (tree K.own table.now.nodes.items l.node.0)) }
{
    let mut most: u8 = 0;
    for link in links {
        let levels = node_levels(table, below, link.node)?;
        most = most.max(levels);
    }
    Some(most)
}

// The number of levels of all trees of nodes, if it is known that none of them has a rule.
fn numbers_levels<K: NodeKeywords>(
    table: &Table<K>,
    below: &[Option<u8>],
    numbers: &[NodeId],
) -> Option<u8>
    requires { AreKnown K.own table.now.nodes.items below.now }
    ensures { IfSome result (λ m. (i : ℕ) (n : NodeId) → slice_get numbers.now i ≡ Some n
        → HasNoRules m (tree K.own table.now.nodes.items n.0)) }
{
    let mut most: u8 = 0;
    for number in numbers {
        let levels = node_levels(table, below, *number)?;
        most = most.max(levels);
    }
    Some(most)
}

// The number of levels of the tree of a node, if it is known that none of
// them has a rule. If there is no node, 0.
fn maybe_levels<K: NodeKeywords>(
    table: &Table<K>,
    below: &[Option<u8>],
    number: Option<NodeId>,
) -> Option<u8>
    requires { AreKnown K.own table.now.nodes.items below.now }
    ensures { IfSome result (λ m. (n : NodeId) → number ≡ Some n
        → HasNoRules m (tree K.own table.now.nodes.items n.0)) }
{
    match number {
        Some(number) => node_levels(table, below, number),
        None => Some(0),
    }
}

// The number of levels of the tree of a node, if it is known that none of them has a rule.
fn node_levels<K: NodeKeywords>(
    table: &Table<K>,
    below: &[Option<u8>],
    number: NodeId,
) -> Option<u8>
    requires { AreKnown K.own table.now.nodes.items below.now }
    ensures { IfSome result (λ m. HasNoRules m (tree K.own table.now.nodes.items number.0)) }
{
    let node = table.nodes.get(number.0)?;
    if node.keywords.may_have_rules() {
        return None;
    }
    let levels = (*below.get(number.0)?)?;
    levels.checked_add(1)
}
