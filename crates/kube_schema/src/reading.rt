//! Tables with all keywords read.
ghost use Rattle.std.specs.Prelude.{◌≡◌, IfErr, IfOk};
ghost use Rattle.kube_schema.specs.Raw.{AreSame, shape};
ghost use Rattle.kube_schema.specs.Source.{source_own};

use crate::keywords::{keywords_with, marker_with};
use crate::node_keywords::NodeKeywords;
use crate::nodes::{Keywords, TableNode};
use crate::source::SourceKeywords;
use crate::table::Table;
use kube_types::Refused;
use std::alloc::Global;

/// Keywords that are read from a schema, with whatever else is kept of it.
pub trait ReadKeywords: NodeKeywords + Sized {
    ghost use Rattle.std.specs.Prelude.{◌≡◌, IfErr, IfOk};
    ghost use Rattle.kube_schema.specs.Source.{source_own};

    /// Reads the keywords of a node.
    ///
    /// # Errors
    ///
    /// [`Refused`] if memory is refused.
    fn read(alloc: Global, source: SourceKeywords<'_>) -> Result<Self, Refused>
        ensures same { IfOk result (λ k. Self.own k ≡ source_own source.entry) }
        ensures memory { IfErr result (λ e. e ≡ Refused.Memory) };
}

impl ReadKeywords for Keywords {
    fn read(alloc: Global, source: SourceKeywords<'_>) -> Result<Keywords, Refused> {
        match source {
            SourceKeywords::Unread(schema, default) => keywords_with(alloc, schema, default),
            SourceKeywords::Read(keywords) => Ok(keywords),
            SourceKeywords::TooDeep(default) => marker_with(alloc, default),
        }
    }
}

// Reads the keywords of all nodes of a table.
pub(crate) fn read_table<K: ReadKeywords>(
    alloc: Global,
    source: Table<SourceKeywords<'_>>,
) -> Result<Table<K>, Refused>
    ensures same { IfOk result (λ t. AreSame source_own K.own source.entry.nodes.items t.nodes.items) }
    ensures memory { IfErr result (λ e. e ≡ Refused.Memory) }
{
    let Table { nodes: sources } = source;
    let nodes = read_nodes(alloc, sources)?;
    Ok(Table { nodes })
}

// Reads the keywords of these nodes, in order.
fn read_nodes<K: ReadKeywords>(
    alloc: Global,
    sources: Vec<TableNode<SourceKeywords<'_>>>,
) -> Result<Vec<TableNode<K>>, Refused>
    ensures same { IfOk result (λ v. AreSame source_own K.own sources.entry.items v.items) }
    ensures memory { IfErr result (λ e. e ≡ Refused.Memory) }
{
    let mut nodes = Vec::with_capacity(alloc, sources.len())?;
    for node in sources {
        let read = read_node(alloc, node)?;
        nodes.push(read)?;
    }
    Ok(nodes)
}

fn read_node<K: ReadKeywords>(
    alloc: Global,
    node: TableNode<SourceKeywords<'_>>,
) -> Result<TableNode<K>, Refused>
    ensures same { IfOk result (λ r. shape K.own r ≡ shape source_own node.entry) }
    ensures memory { IfErr result (λ e. e ≡ Refused.Memory) }
{
    let TableNode { keywords, children } = node;
    let keywords = K::read(alloc, keywords)?;
    Ok(TableNode { keywords, children })
}
