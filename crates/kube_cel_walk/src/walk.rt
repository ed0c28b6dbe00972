//! The walk over the places that a schema and a value share.
ghost use Rattle.cel.specs.Book.{Extends, Book};
ghost use Rattle.cel.specs.Entries.{entries_of};
ghost use Rattle.kube_cel_walk.specs.AddedErrors.{AreAdded};
ghost use Rattle.kube_cel_walk.specs.Answers.{answer, found_by, answer_if_reached};
ghost use Rattle.kube_cel_walk.specs.Paths.{path_view};
ghost use Rattle.kube_cel_walk.specs.Visits.{visit_at};
ghost use Rattle.kube_schema_rules.specs.Visit.{branch_steps, additional_steps, further, goes, item_path, item_steps, member_path, property_steps, unless_there};
ghost use Rattle.kube_schema_rules.specs.Step.{branch};
ghost use Rattle.serde_json.specs.View.{view};
ghost use Rattle.std.specs.Prelude.{◌≡◌, ◌≤◌, ◌-◌, None, OnOk, option_and_then, option_map, Some};

use crate::error::ValidationError;
use crate::judge::{TOO_DEEP, validate_at};
use crate::kept::KeptContext;
use crate::node::Node;
use crate::path::Path;
use crate::state::{WalkState, old_item, old_member};
use cel::PatternBook;
use kube_schema_rules::BranchKind;
use kube_types::Refused;
use serde_json::Value;

/// Adds the errors at a place and at all places beyond it.
#[cycle(walk)]
pub fn walk_node<N: Node>(
    state: &WalkState<'_, N>,
    path: &Path<'_>,
    kept: &mut KeptContext<'_, N::FunctionSet>,
    book: &mut PatternBook,
    errors: &mut Vec<ValidationError>,
) -> Result<(), Refused>
    requires { state.now.depth ≤ 65 }
    ensures found { OnOk result (AreAdded (entries_of book.new) errors.old.items errors.new.items
        (λ b. answer N.form b (65 - state.now.depth) (visit_at N.seen state.now (path_view path.now)))) }
    ensures keeps { (b : Book) → Extends b (entries_of book.new) → Extends b (entries_of book.old) }
{
    validate_at(state, path, kept, book, errors)?;
    if state.depth == TOO_DEEP {
        return Ok(());
    }
    if state.node.has_no_rules_below(TOO_DEEP - 1 - state.depth) {
        return Ok(());
    }
    walk_properties(state, path, kept, book, errors)?;
    walk_items(state, path, kept, book, errors)?;
    walk_extras(state, path, kept, book, errors)?;
    walk_branches(BranchKind::AllOf, state, path, kept, book, errors)?;
    walk_branches(BranchKind::OneOf, state, path, kept, book, errors)?;
    walk_branches(BranchKind::AnyOf, state, path, kept, book, errors)?;
    Ok(())
}

/// Adds the errors found through the declared members, in the order of their names.
#[cycle(walk)]
fn walk_properties<N: Node>(
    state: &WalkState<'_, N>,
    path: &Path<'_>,
    kept: &mut KeptContext<'_, N::FunctionSet>,
    book: &mut PatternBook,
    errors: &mut Vec<ValidationError>,
) -> Result<(), Refused>
    requires { state.now.depth ≤ 64 }
    ensures found { OnOk result (AreAdded (entries_of book.new) errors.old.items errors.new.items
        (λ b. found_by N.form (property_steps N.form.steps) b (64 - state.now.depth)
        (visit_at N.seen state.now (path_view path.now)))) }
    ensures keeps { (b : Book) → Extends b (entries_of book.new) → Extends b (entries_of book.old) }
{
    let Some(members) = state.value.as_object() else {
        return Ok(());
    };
    for (key, member) in members.iter() {
        let name = key.as_str();
        let node = state.node.property(name);
        walk_member(state, node, name, member, path, kept, book, errors)?;
    }
    Ok(())
}

/// Adds the errors found through the members that aren't declared, in the order of their names.
#[cycle(walk)]
fn walk_extras<N: Node>(
    state: &WalkState<'_, N>,
    path: &Path<'_>,
    kept: &mut KeptContext<'_, N::FunctionSet>,
    book: &mut PatternBook,
    errors: &mut Vec<ValidationError>,
) -> Result<(), Refused>
    requires { state.now.depth ≤ 64 }
    ensures found { OnOk result (AreAdded (entries_of book.new) errors.old.items errors.new.items
        (λ b. found_by N.form (additional_steps N.form.steps) b (64 - state.now.depth)
        (visit_at N.seen state.now (path_view path.now)))) }
    ensures keeps { (b : Book) → Extends b (entries_of book.new) → Extends b (entries_of book.old) }
{
    let Some(other) = state.node.additional_property() else {
        return Ok(());
    };
    let Some(members) = state.value.as_object() else {
        return Ok(());
    };
    for (key, member) in members.iter() {
        let name = key.as_str();
        let node = unless_declared(&state.node, name, other);
        walk_member(state, node, name, member, path, kept, book, errors)?;
    }
    Ok(())
}

/// Adds the errors found through one member, if there is a node for it.
#[cycle(walk)]
fn walk_member<'a, N: Node>(
    state: &WalkState<'a, N>,
    node: Option<N>,
    key: &str,
    value: &'a Value,
    path: &Path<'_>,
    kept: &mut KeptContext<'_, N::FunctionSet>,
    book: &mut PatternBook,
    errors: &mut Vec<ValidationError>,
) -> Result<(), Refused>
    requires { state.now.depth ≤ 64 }
    ensures found { OnOk result (AreAdded (entries_of book.new) errors.old.items errors.new.items
        (λ b. answer_if_reached N.form b (64 - state.now.depth)
        (further None state.now.depth (member_path (path_view path.now) key.now)
        (option_map N.seen node) (Some (view value.now))
        (option_and_then (N.form.steps.old_member key.now (N.seen state.now.node))
        (option_map (λ v. view v.now) state.now.old))))) }
    ensures keeps { (b : Book) → Extends b (entries_of book.new) → Extends b (entries_of book.old) }
{
    let Some(node) = node else {
        return Ok(());
    };
    let member = WalkState {
        node,
        value,
        old: old_member(state, key),
        root: None,
        depth: state.depth + 1,
    };
    let path = Path::Member(&*path, key);
    walk_node(&member, &path, kept, book, errors)?;
    Ok(())
}

/// Adds the errors found through the items of a list, in order.
#[cycle(walk)]
fn walk_items<N: Node>(
    state: &WalkState<'_, N>,
    path: &Path<'_>,
    kept: &mut KeptContext<'_, N::FunctionSet>,
    book: &mut PatternBook,
    errors: &mut Vec<ValidationError>,
) -> Result<(), Refused>
    requires { state.now.depth ≤ 64 }
    ensures found { OnOk result (AreAdded (entries_of book.new) errors.old.items errors.new.items
        (λ b. found_by N.form (item_steps N.form.steps) b (64 - state.now.depth)
        (visit_at N.seen state.now (path_view path.now)))) }
    ensures keeps { (b : Book) → Extends b (entries_of book.new) → Extends b (entries_of book.old) }
{
    let Some(node) = state.node.items() else {
        return Ok(());
    };
    let Some(items) = state.value.as_array() else {
        return Ok(());
    };
    for index in 0..items.len() {
        walk_item(state, node, index, &items[index], path, kept, book, errors)?;
    }
    Ok(())
}

/// Adds the errors found through one item.
#[cycle(walk)]
fn walk_item<'a, N: Node>(
    state: &WalkState<'a, N>,
    node: N,
    index: usize,
    value: &'a Value,
    path: &Path<'_>,
    kept: &mut KeptContext<'_, N::FunctionSet>,
    book: &mut PatternBook,
    errors: &mut Vec<ValidationError>,
) -> Result<(), Refused>
    requires { state.now.depth ≤ 64 }
    ensures found { OnOk result (AreAdded (entries_of book.new) errors.old.items errors.new.items
        (λ b. answer_if_reached N.form b (64 - state.now.depth)
        (further None state.now.depth (item_path (path_view path.now) index)
        (Some (N.seen node)) (Some (view value.now))
        (option_and_then (N.form.steps.old_item index (N.seen state.now.node) (view state.now.value.now))
        (option_map (λ v. view v.now) state.now.old))))) }
    ensures keeps { (b : Book) → Extends b (entries_of book.new) → Extends b (entries_of book.old) }
{
    let item = WalkState {
        node,
        value,
        old: old_item(state, index),
        root: None,
        depth: state.depth + 1,
    };
    let path = Path::Item(&*path, index);
    walk_node(&item, &path, kept, book, errors)?;
    Ok(())
}

/// Adds the errors found through the branches of one keyword, in order. A
/// branch is visited with the same value, old counterpart and root context.
#[cycle(walk)]
fn walk_branches<N: Node>(
    kind: BranchKind,
    state: &WalkState<'_, N>,
    path: &Path<'_>,
    kept: &mut KeptContext<'_, N::FunctionSet>,
    book: &mut PatternBook,
    errors: &mut Vec<ValidationError>,
) -> Result<(), Refused>
    requires { state.now.depth ≤ 64 }
    ensures found { OnOk result (AreAdded (entries_of book.new) errors.old.items errors.new.items
        (λ b. found_by N.form (branch_steps N.form.steps kind) b
        (64 - state.now.depth) (visit_at N.seen state.now (path_view path.now)))) }
    ensures keeps { (b : Book) → Extends b (entries_of book.new) → Extends b (entries_of book.old) }
{
    for index in 0..state.node.branch_count(kind) {
        walk_branch(kind, state, index, path, kept, book, errors)?;
    }
    Ok(())
}

/// Adds the errors found through one branch, if it exists.
#[cycle(walk)]
fn walk_branch<N: Node>(
    kind: BranchKind,
    state: &WalkState<'_, N>,
    index: usize,
    path: &Path<'_>,
    kept: &mut KeptContext<'_, N::FunctionSet>,
    book: &mut PatternBook,
    errors: &mut Vec<ValidationError>,
) -> Result<(), Refused>
    requires { state.now.depth ≤ 64 }
    ensures found { OnOk result (AreAdded (entries_of book.new) errors.old.items errors.new.items
        (λ b. answer_if_reached N.form b (64 - state.now.depth)
        (goes N.form.steps (branch kind index) (visit_at N.seen state.now (path_view path.now))))) }
    ensures keeps { (b : Book) → Extends b (entries_of book.new) → Extends b (entries_of book.old) }
{
    let Some(node) = state.node.branch(kind, index) else {
        return Ok(());
    };
    let branch = WalkState {
        node,
        value: state.value,
        old: state.old,
        root: state.root,
        depth: state.depth + 1,
    };
    walk_node(&branch, path, kept, book, errors)?;
    Ok(())
}

/// Returns `other`, the node of additional members, unless the node declares this key.
fn unless_declared<N: Node>(node: &N, key: &str, other: N) -> Option<N>
    ensures { option_map N.seen result
        ≡ unless_there (N.form.steps.property key.now (N.seen node.now)) (Some (N.seen other)) }
{
    match node.property(key) {
        Some(_) => None,
        None => Some(other),
    }
}
