//! Compilation of a schema to a table of nodes.
ghost use Rattle.std.specs.Prelude.{◌≡◌, ◌<◌, length, IfErr, IfOk, option_map};
ghost use Rattle.serde_json.specs.View.{view, items_view, members_view};
ghost use Rattle.kube_schema_values.specs.DefaultsAccessors.{declared_properties, members_or_none};
ghost use Rattle.kube_schema.specs.View.{view_of, children_view, named_view, maybe_view, nodes_view, branch_view};
ghost use Rattle.kube_schema.specs.Tree.{count};
ghost use Rattle.kube_schema.specs.Raw.{tree, Adds, AddsChildren, AddsProperties, AddsMaybe, AddsNodes};
ghost use Rattle.kube_schema.specs.Shown.{whole};
ghost use Rattle.kube_schema.specs.Source.{source_own};

use crate::LEVELS;
use crate::keywords::{additional, branches, declared};
use crate::no_rules::levels_below;
use crate::node::CompiledSchema;
use crate::node_keywords::NodeKeywords;
use crate::nodes::{Children, Keywords, NodeId, PropertyLink, TableNode};
use crate::reading::{ReadKeywords, read_table};
use crate::source::SourceKeywords;
use crate::table::{Table, has_defaults, new_table, push_leaf, replace_node};
use kube_types::Refused;
use serde_json::{Map, Value};
use std::alloc::{AllocError, Global};

/// Compiles a schema to one node for itself and one for each schema within it, down to depth 65.
/// Schemas at depth 65 become markers, which keep only their default.
///
/// # Errors
///
/// [`Refused`] if memory is refused.
pub fn compile_schema(alloc: Global, schema: &Value) -> Result<CompiledSchema, Refused>
    ensures tree { IfOk result (λ c. whole c ≡ view_of 65 (view schema.now)) }
    ensures memory { IfErr result (λ e. e ≡ Refused.Memory) }
{
    let compiled = read_schema::<Keywords>(alloc, schema)?;
    Ok(compiled)
}

/// Compiles a schema to a table that keeps `K` of the keywords of each node.
///
/// # Errors
///
/// [`Refused`] if memory is refused.
pub fn read_schema<K: ReadKeywords>(
    alloc: Global,
    schema: &Value,
) -> Result<CompiledSchema<K>, Refused>
    ensures tree { IfOk result (λ c. whole c ≡ view_of 65 (view schema.now)) }
    ensures memory { IfErr result (λ e. e ≡ Refused.Memory) }
{
    let source = source_table(alloc, schema)?;
    let table = read_table(alloc, source)?;
    let compiled = schema_of(alloc, table)?;
    Ok(compiled)
}

/// Compiles a schema like [`compile_schema`], but reads its keywords and compiles its rules only
/// at the nodes that [`compile_reached`](crate::compile_reached) or a visit comes to.
///
/// # Errors
///
/// [`Refused`] if memory is refused.
pub fn compile_on_demand(
    alloc: Global,
    schema: &Value,
) -> Result<CompiledSchema<SourceKeywords<'_>>, Refused>
    ensures tree { IfOk result (λ c. whole c ≡ view_of 65 (view schema.now)) }
    ensures memory { IfErr result (λ e. e ≡ Refused.Memory) }
{
    let source = source_table(alloc, schema)?;
    let compiled = schema_of(alloc, source)?;
    Ok(compiled)
}

// Makes a compiled schema of a table with a root that stands for all of its nodes.
fn schema_of<K: NodeKeywords>(
    alloc: Global,
    table: Table<K>,
) -> Result<CompiledSchema<K>, AllocError>
    requires rooted { 0 < length table.nodes.items }
    requires counted { length table.nodes.items ≡ count (tree K.own table.nodes.items 0) }
    ensures { IfOk result (λ c. whole c ≡ tree K.own table.nodes.items 0) }
{
    let defaults = has_defaults(&table);
    let below = levels_below(alloc, &table)?;
    Ok(CompiledSchema {
        table,
        defaults,
        below,
    })
}

// Returns the table of a schema, with nothing read but defaults.
fn source_table(alloc: Global, schema: &Value) -> Result<Table<SourceKeywords<'_>>, Refused>
    ensures rooted { IfOk result (λ t. 0 < length t.nodes.items) }
    ensures counted { IfOk result (λ t. length t.nodes.items ≡ count (tree source_own t.nodes.items 0)) }
    ensures tree { IfOk result (λ t. tree source_own t.nodes.items 0 ≡ view_of 65 (view schema.now)) }
    ensures memory { IfErr result (λ e. e ≡ Refused.Memory) }
{
    let mut table = new_table(alloc);
    let _root = add_node(&mut table, alloc, schema, LEVELS)?;
    Ok(table)
}

// Appends the node of a schema with this number of
// levels, followed by the nodes of the schemas within it.
#[cycle(add)]
fn add_node<'s>(
    table: &mut Table<SourceKeywords<'s>>,
    alloc: Global,
    schema: &'s Value,
    levels: usize,
) -> Result<NodeId, Refused>
    ensures adds { IfOk result
        (λ n. Adds source_own table.old.nodes.items table.new.nodes.items n (view_of levels (view schema.now))) }
    ensures memory { IfErr result (λ e. e ≡ Refused.Memory) }
{
    if levels == 0 {
        let marker = SourceKeywords::marker(schema);
        let number = push_leaf(table, alloc, marker)?;
        return Ok(number);
    }
    let keywords = SourceKeywords::of(schema);
    let number = push_leaf(table, alloc, SourceKeywords::TooDeep(None))?;
    let children = add_children(table, alloc, schema, levels - 1)?;
    replace_node(table, number, TableNode { keywords, children });
    Ok(number)
}

#[cycle(add)]
fn add_children<'s>(
    table: &mut Table<SourceKeywords<'s>>,
    alloc: Global,
    schema: &'s Value,
    levels: usize,
) -> Result<Children, Refused>
    ensures adds { IfOk result
        (λ c. AddsChildren source_own table.old.nodes.items table.new.nodes.items c
        (children_view (view_of levels) (view schema.now))) }
    ensures memory { IfErr result (λ e. e ≡ Refused.Memory) }
{
    let properties = add_properties(table, alloc, schema, levels)?;
    let items = add_maybe(table, alloc, schema.get("items"), levels)?;
    let additional = add_maybe(table, alloc, additional(schema), levels)?;
    let all_of = add_branches(table, alloc, schema, "allOf", levels)?;
    let one_of = add_branches(table, alloc, schema, "oneOf", levels)?;
    let any_of = add_branches(table, alloc, schema, "anyOf", levels)?;
    Ok(Children {
        properties,
        items,
        additional,
        all_of,
        one_of,
        any_of,
    })
}

#[cycle(add)]
fn add_properties<'s>(
    table: &mut Table<SourceKeywords<'s>>,
    alloc: Global,
    schema: &'s Value,
    levels: usize,
) -> Result<Vec<PropertyLink>, Refused>
    ensures adds { IfOk result
        (λ ls. AddsProperties source_own table.old.nodes.items table.new.nodes.items ls.items
        (named_view (view_of levels) (members_or_none (declared_properties (view schema.now))))) }
    ensures memory { IfErr result (λ e. e ≡ Refused.Memory) }
{
    match declared(schema) {
        Some(members) => add_members(table, alloc, members, levels),
        None => Ok(Vec::new(alloc)),
    }
}

#[cycle(add)]
fn add_members<'s>(
    table: &mut Table<SourceKeywords<'s>>,
    alloc: Global,
    members: &'s Map<String, Value>,
    levels: usize,
) -> Result<Vec<PropertyLink>, Refused>
    ensures adds { IfOk result
        (λ ls. AddsProperties source_own table.old.nodes.items table.new.nodes.items ls.items
        (named_view (view_of levels) (members_view members.now.entries))) }
    ensures memory { IfErr result (λ e. e ≡ Refused.Memory) }
{
    let mut links = Vec::new(alloc);
    for (key, member) in members.iter() {
        let name = key.clone()?;
        let node = add_node(table, alloc, member, levels)?;
        links.push(PropertyLink { name, node })?;
    }
    Ok(links)
}

#[cycle(add)]
fn add_maybe<'s>(
    table: &mut Table<SourceKeywords<'s>>,
    alloc: Global,
    schema: Option<&'s Value>,
    levels: usize,
) -> Result<Option<NodeId>, Refused>
    ensures adds { IfOk result
        (λ o. AddsMaybe source_own table.old.nodes.items table.new.nodes.items o
        (maybe_view (view_of levels) (option_map (λ s. view s.now) schema.entry))) }
    ensures memory { IfErr result (λ e. e ≡ Refused.Memory) }
{
    let Some(schema) = schema else {
        return Ok(None);
    };
    let node = add_node(table, alloc, schema, levels)?;
    Ok(Some(node))
}

// Appends the branches under a keyword.
#[cycle(add)]
fn add_branches<'s>(
    table: &mut Table<SourceKeywords<'s>>,
    alloc: Global,
    schema: &'s Value,
    keyword: &str,
    levels: usize,
) -> Result<Vec<NodeId>, Refused>
    ensures adds { IfOk result
        (λ ns. AddsNodes source_own table.old.nodes.items table.new.nodes.items ns.items
        (branch_view (view_of levels) keyword.now (view schema.now))) }
    ensures memory { IfErr result (λ e. e ≡ Refused.Memory) }
{
    match branches(schema, keyword) {
        Some(items) => add_items(table, alloc, items, levels),
        None => Ok(Vec::new(alloc)),
    }
}

#[cycle(add)]
fn add_items<'s>(
    table: &mut Table<SourceKeywords<'s>>,
    alloc: Global,
    items: &'s Vec<Value>,
    levels: usize,
) -> Result<Vec<NodeId>, Refused>
    ensures adds { IfOk result
        (λ ns. AddsNodes source_own table.old.nodes.items table.new.nodes.items ns.items
        (nodes_view (view_of levels) (items_view items.now.items))) }
    ensures memory { IfErr result (λ e. e ≡ Refused.Memory) }
{
    let mut numbers = Vec::with_capacity(alloc, items.len())?;
    for item in items {
        let node = add_node(table, alloc, item, levels)?;
        numbers.push(node)?;
    }
    Ok(numbers)
}
