//! Calls, lists and maps while their parts are read.

ghost use Rattle.std.specs.Prelude.{◌≡◌, [], List, MatchResult, codes, map};
ghost use Rattle.std.specs.Str.{bytes_eq};
ghost use Rattle.kube_server_syntax.specs.Grammar as grammar;
ghost use Rattle.kube_server_syntax.specs.Placed as placed;
ghost use Rattle.kube_server_syntax.specs.Tree as spec;
ghost use Rattle.kube_server_syntax.specs.Tree.{tree, place_of, trees_of, items_of, entries_of};
ghost use Rattle.kube_server_parser.specs.Calls.{AddsArgument, AddsItem, AddsEntry};
ghost use Rattle.kube_server_parser.specs.Results.{Builds};
ghost use Rattle.kube_server_parser.specs.Trees.{item_view, entry_view, target_view};
ghost use Rattle.kube_server_parser.specs.declared.stop.Stop.TheVariants.{Memory};

use crate::level::{above, across, in_box, pushed};
use crate::part::{Call, Entries, Items, Part};
use crate::stop::Stop;
use cel_syntax_ast::both;
use cel_value::Text;
use kube_server_syntax::node::{Node, Place};
use std::alloc::Global;

/// A call without a target, of no arguments yet.
pub(crate) fn global(alloc: Global, place: Place, name: Text) -> Call
    ensures place { result.place ≡ place }
    ensures target { target_view result.target ≡ spec.no_trees }
    ensures name { result.name ≡ name }
    ensures arguments { result.arguments.items ≡ [] }
{
    Call {
        place,
        target: None,
        name,
        arguments: Vec::new(alloc),
        level: 0,
    }
}

/// A call on a target, of no arguments yet.
pub(crate) fn method(alloc: Global, target: Part, name: Text) -> Result<Call, Stop>
    ensures { MatchResult result (λ c. (c.place ≡ place_of (tree target.node))
        × (target_view c.target ≡ spec.tree_and (tree target.node) spec.no_trees)
        × (c.name ≡ name) × (c.arguments.items ≡ [])) (λ e. e ≡ Memory) }
{
    let place = target.node.place();
    let level = target.level;
    let target = in_box(alloc, target.node)?;
    Ok(Call {
        place,
        target: Some(target),
        name,
        arguments: Vec::new(alloc),
        level,
    })
}

/// The call with one more argument.
pub(crate) fn with_argument(call: Call, argument: Part) -> Result<Call, Stop>
    ensures { AddsArgument call (tree argument.node) result }
{
    let Call {
        place,
        target,
        name,
        arguments,
        level,
    } = call;
    let arguments = pushed(arguments, argument.node)?;
    Ok(Call {
        place,
        target,
        name,
        arguments,
        level: level.max(argument.level),
    })
}

/// Whether it is the name of `has`.
fn is_named_has(name: &Text) -> bool
    ensures { result ≡ bytes_eq name.now (codes "has") }
{
    name.as_str() == "has"
}

/// Whether the call is one of `has`.
fn is_has(target: &Option<Box<Node>>, name: &Text, arguments: &[Node]) -> bool
    ensures { result ≡ grammar.is_has (target_view target.now) name.now (trees_of (map tree arguments.now)) }
{
    match (target, arguments) {
        (None, [_]) => is_named_has(name),
        (None, []) => false,
        (None, [_, _, ..]) => false,
        (Some(_), _) => false,
    }
}

/// The call, which ends at the place.
pub(crate) fn called(call: Call, end: Place) -> Result<Part, Stop>
    ensures { Builds (spec.call (placed.across call.place end) (target_view call.target) call.name
        (trees_of (map tree call.arguments.items))) result }
{
    let Call {
        place,
        target,
        name,
        arguments,
        level,
    } = call;
    let place = across(place, end);
    let level = if is_has(&target, &name, &arguments) {
        level
    } else {
        above(level)?
    };
    Ok(Part {
        node: Node::Call {
            place,
            target,
            name,
            arguments,
        },
        level,
    })
}

/// A list without items yet.
pub(crate) fn no_items(alloc: Global, place: Place) -> Items
    ensures place { result.place ≡ place }
    ensures items { result.items.items ≡ [] }
{
    Items {
        place,
        items: Vec::new(alloc),
        level: 0,
    }
}

/// The list with one more item.
pub(crate) fn with_item(items: Items, is_optional: bool, item: Part) -> Result<Items, Stop>
    ensures { AddsItem items is_optional (tree item.node) result }
{
    let Items {
        place,
        items,
        level,
    } = items;
    let items = pushed(items, (is_optional, item.node))?;
    Ok(Items {
        place,
        items,
        level: level.max(item.level),
    })
}

/// The list, which ends at the place.
pub(crate) fn list(items: Items, end: Place) -> Result<Part, Stop>
    ensures { Builds (spec.list_of (placed.across items.place end)
        (items_of (map item_view items.items.items))) result }
{
    let level = above(items.level)?;
    let Items {
        place,
        items,
        level: _,
    } = items;
    let place = across(place, end);
    Ok(Part {
        node: Node::List { place, items },
        level,
    })
}

/// A map without entries yet.
pub(crate) fn no_entries(alloc: Global, place: Place) -> Entries
    ensures place { result.place ≡ place }
    ensures entries { result.entries.items ≡ [] }
{
    Entries {
        place,
        entries: Vec::new(alloc),
        level: 0,
    }
}

/// The map with one more entry.
pub(crate) fn with_entry(
    entries: Entries,
    is_optional: bool,
    key: Part,
    value: Part,
) -> Result<Entries, Stop>
    ensures { AddsEntry entries is_optional (tree key.node) (tree value.node) result }
{
    let Entries {
        place,
        entries,
        level,
    } = entries;
    let high = key.level.max(value.level);
    let entries = pushed(entries, (is_optional, key.node, value.node))?;
    Ok(Entries {
        place,
        entries,
        level: level.max(high),
    })
}

/// The map, which ends at the place.
pub(crate) fn map(entries: Entries, end: Place) -> Result<Part, Stop>
    ensures { Builds (spec.map_of (placed.across entries.place end)
        (entries_of (map entry_view entries.entries.items))) result }
{
    let level = above(entries.level)?;
    let Entries {
        place,
        entries,
        level: _,
    } = entries;
    let place = across(place, end);
    Ok(Part {
        node: Node::Map { place, entries },
        level,
    })
}
