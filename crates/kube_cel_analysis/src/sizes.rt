//! The greatest sizes that a schema allows.
ghost use Rattle.std.specs.Prelude.{◌≡◌};
ghost use Rattle.kube_cel_analysis.specs.Sizes.{sizes_view};
ghost use Rattle.kube_cel_analysis.specs.Bounds.{first_bound, has_unbounded, is_unbounded, list_bound, sizes_of, text_bound};
ghost use Rattle.kube_schema.specs.Shown.{node_tree};
ghost use Rattle.kube_schema.specs.Tree.{named_of};

use crate::cost::Sizes;
use kube_schema::SchemaNode;

/// The size that is assumed if a schema sets none.
const USUAL_SIZE: u64 = 1000;

/// Returns the greatest sizes of lists and strings that a node allows: those that
/// it sets itself, else those of its properties, else 1000. Among the properties,
/// the first in name order with `items` decides the size of lists, as 1000 if it
/// sets no `maxItems`. The first with `maxLength` decides the size of strings.
#[tactic(auto, unfolding(crate::specs::Bounds::sizes_of))]
pub fn sizes_of(node: &SchemaNode<'_>) -> Sizes
    ensures { sizes_view result ≡ sizes_of (node_tree node.now) }
{
    Sizes {
        items: node.max_items().unwrap_or(list_size(node)),
        length: node.max_length().unwrap_or(text_size(node)),
    }
}

/// The greatest number of items of a node's list; None if the node has no `items`.
fn list_bound(node: &SchemaNode<'_>) -> Option<u64>
    ensures { result ≡ list_bound (node_tree node.now) }
{
    match node.items() {
        Some(_items) => Some(node.max_items().unwrap_or(USUAL_SIZE)),
        None => None,
    }
}

/// The greatest number of items that the first property with `items` allows.
fn list_size(node: &SchemaNode<'_>) -> u64
    ensures { result ≡ first_bound list_bound (named_of (node_tree node.now)) }
{
    for index in 0..node.property_count() {
        let Some((_name, property)) = node.property(index) else {
            return USUAL_SIZE;
        };
        if let Some(size) = list_bound(&property) {
            return size;
        }
    }
    USUAL_SIZE
}

/// The greatest length of strings that the first property with `maxLength` allows.
fn text_size(node: &SchemaNode<'_>) -> u64
    ensures { result ≡ first_bound text_bound (named_of (node_tree node.now)) }
{
    for index in 0..node.property_count() {
        let Some((_name, property)) = node.property(index) else {
            return USUAL_SIZE;
        };
        if let Some(length) = property.max_length() {
            return length;
        }
    }
    USUAL_SIZE
}

/// Reports whether a node has `items` but no `maxItems`.
fn is_unbounded(node: &SchemaNode<'_>) -> bool
    ensures { result ≡ is_unbounded (node_tree node.now) }
{
    match node.items() {
        Some(_items) => node.max_items().is_none(),
        None => false,
    }
}

/// Reports whether any property has `items` but no `maxItems`.
pub(crate) fn has_unbounded(node: &SchemaNode<'_>) -> bool
    ensures { result ≡ has_unbounded (named_of (node_tree node.now)) }
{
    for index in 0..node.property_count() {
        let Some((_name, property)) = node.property(index) else {
            return false;
        };
        if is_unbounded(&property) {
            return true;
        }
    }
    false
}
