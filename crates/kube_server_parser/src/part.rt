//! Trees that are complete, and what brackets hold, each with its level.

ghost use Rattle.std.specs.Prelude.{◌≡◌, ◌≤◌, max};
ghost use Rattle.kube_server_syntax.specs.Grammar.{level as level_of, highest, level_of_items, level_of_entries};
ghost use Rattle.kube_server_syntax.specs.Tree.{tree};
ghost use Rattle.kube_server_parser.specs.Trees.{items_view, entries_view, target_view, arguments_view};

use cel_value::Text;
use kube_server_syntax::node::{Node, Place};

/// The largest level of a tree that is parsed.
pub(crate) const MAX_LEVEL: usize = 250;

/// An expression.
#[derive(Drop)]
pub(crate) struct Part {
    pub node: Node,
    pub level: usize,
    ghost known: { level ≡ level_of (tree node) },
    ghost within: { level ≤ 250 },
}

/// The items of a list so far.
#[derive(Drop)]
pub(crate) struct Items {
    /// That of the bracket.
    pub place: Place,
    pub items: Vec<(bool, Node)>,
    pub level: usize,
    ghost known: { level ≡ level_of_items (items_view items) },
    ghost within: { level ≤ 250 },
}

/// The entries of a map so far.
#[derive(Drop)]
pub(crate) struct Entries {
    /// That of the bracket.
    pub place: Place,
    pub entries: Vec<(bool, Node, Node)>,
    pub level: usize,
    ghost known: { level ≡ level_of_entries (entries_view entries) },
    ghost within: { level ≤ 250 },
}

/// A call with its arguments so far.
#[derive(Drop)]
pub(crate) struct Call {
    /// Where it begins.
    pub place: Place,
    pub target: Option<Box<Node>>,
    pub name: Text,
    pub arguments: Vec<Node>,
    pub level: usize,
    ghost known: { level ≡ max (highest (target_view target)) (highest (arguments_view arguments)) },
    ghost within: { level ≤ 250 },
}
