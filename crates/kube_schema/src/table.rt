//! Tables of nodes. Each number in a node is the index of a later node of the table.
ghost use Rattle.std.specs.Prelude.{◌≡◌, ◌<◌, [], suc, length, IfOk};
ghost use Rattle.std.proofs.Math.ListN.{set};
ghost use Rattle.std.proofs.Props.{props};
ghost use Rattle.kube_schema.specs.Raw.{any_default, Closed, closed_prop, AllOrdered, IsWithin, LinksOrdered, Appends};

use crate::node_keywords::NodeKeywords;
use crate::nodes::{Children, NodeId, TableNode};
use std::alloc::{AllocError, Global};

#[derive(Debug, Drop)]
pub struct Table<K: NodeKeywords> {
    pub(crate) nodes: Vec<TableNode<K>>,
    ghost closed: { Closed nodes.items } by { closed_prop nodes.items },
    ghost ordered: { AllOrdered nodes.items } by { Prim.hlevel props },
}

pub(crate) fn new_table<K: NodeKeywords>(alloc: Global) -> Table<K>
    ensures { result.nodes.items ≡ [] }
{
    Table {
        nodes: Vec::new(alloc),
    }
}

// Appends a node without children.
pub(crate) fn push_leaf<K: NodeKeywords>(
    table: &mut Table<K>,
    alloc: Global,
    keywords: K,
) -> Result<NodeId, AllocError>
    ensures { IfOk result (λ n. Appends K.own table.old.nodes.items table.new.nodes.items n keywords) }
{
    let number = NodeId(table.nodes.len());
    let children = Children {
        properties: Vec::new(alloc),
        items: None,
        additional: None,
        all_of: Vec::new(alloc),
        one_of: Vec::new(alloc),
        any_of: Vec::new(alloc),
    };
    let leaf = TableNode { keywords, children };
    table.nodes.push(leaf)?;
    Ok(number)
}

// Replaces the node at a number.
pub(crate) fn replace_node<K: NodeKeywords>(
    table: &mut Table<K>,
    number: NodeId,
    node: TableNode<K>,
)
    requires stands { number.0 < length table.old.nodes.items }
    requires within { IsWithin (suc number.0) (length table.old.nodes.items) node.children }
    requires ordered { LinksOrdered node.children.properties.items }
    ensures { table.new.nodes.items ≡ set table.old.nodes.items number.0 node }
{
    table.nodes[number.0] = node;
}

// Reports whether any node has a default.
pub(crate) fn has_defaults<K: NodeKeywords>(table: &Table<K>) -> bool
    ensures { result ≡ any_default K.own table.now.nodes.items }
{
    for node in table.nodes.as_slice() {
        if node.keywords.default().is_some() {
            return true;
        }
    }
    false
}
