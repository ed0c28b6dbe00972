//! The errors at one place.
ghost use Rattle.cel.specs.Alike.{NamesAlike, ReadAlike};
ghost use Rattle.cel.specs.Demand.{part_of};
ghost use Rattle.cel.specs.Part.{Part};
ghost use Rattle.cel.specs.Book.{Extends, Book};
ghost use Rattle.cel.specs.Entries.{entries_of};
ghost use Rattle.cel.specs.Bindings.{Bindings, binding, bindings_of};
ghost use Rattle.kube_cel_walk.specs.AddedErrors.{AreAdded};
ghost use Rattle.kube_cel_walk.specs.Answers.{bound_at, place_bindings, rule_verdicts, verdicts};
ghost use Rattle.kube_cel_walk.specs.Errors.{error_view};
ghost use Rattle.kube_cel_walk.specs.Kept.{AreSameOthers};
ghost use Rattle.kube_cel_walk.specs.Paths.{path_view};
ghost use Rattle.kube_cel_walk.specs.RuleErrors.{too_deep};
ghost use Rattle.kube_cel_walk.specs.Verdicts.{list_of_option, verdict, with_old};
ghost use Rattle.kube_cel_walk.specs.Visits.{IsAlone, visit_at};
ghost use Rattle.kube_schema_rules.specs.Compilation.{compiled_seen};
ghost use Rattle.kube_schema_rules.specs.Demands.{rules_read};
ghost use Rattle.serde_json.specs.View.{view};
ghost use Rattle.std.specs.List.{flat_map};
ghost use Rattle.std.specs.Prelude.{◌≡◌, ◌∷◌, ◌++◌, [], codes, List, map, OnOk, Option, option_map, Some, ℕ};

use crate::error::ValidationError;
use crate::kept::KeptContext;
use crate::node::Node;
use crate::path::Path;
use crate::rule_error::deep_error;
use crate::state::{WalkState, is_alone};
use crate::verdict::{add_verdicts, bind_root};
use cel::{Context, Functions, PatternBook, Stacks};
use cel_demand::Demand;
use cel_value::Value as CelValue;
use kube_schema_rules::{CompiledRules, NodeRules};
use kube_schema_values::MAX_SCHEMA_DEPTH;
use kube_types::Refused;
use serde_json::Value;
use std::alloc::{AllocError, Global};

/// The number of steps from the root at which a schema is too deep: rules apply up to depth 64.
pub(crate) const TOO_DEEP: usize = MAX_SCHEMA_DEPTH + 1;

/// Binds a name to the demanded part of a value at a node. Binds nothing if there is no demand.
/// What other names are bound to stays the same, even if memory is refused.
fn bind_name<N: Node>(
    alloc: Global,
    context: &mut Context<'_, N::FunctionSet>,
    name: &str,
    node: &N,
    value: &Value,
    depth: usize,
    demand: &Option<Demand>,
) -> Result<(), Refused>
    ensures bound { OnOk result (ReadAlike (option_map part_of demand.now)
        (binding name.now (bindings_of context.new))
        (Some (N.form.bound depth (N.seen node.now) (view value.now)))) }
    ensures others { AreSameOthers name.now (bindings_of context.new) (bindings_of context.old) }
{
    let Some(demand) = demand else {
        return Ok(());
    };
    let part = node.bind_part(alloc, value, depth, demand)?;
    context.add_variable(name, part)?;
    Ok(())
}

/// Takes the value that a name is bound to; null if it isn't bound. What other names are bound to
/// stays the same.
fn taken<F: Functions>(context: &mut Context<'_, F>, name: &str) -> CelValue
    ensures { AreSameOthers name.now (bindings_of context.new) (bindings_of context.old) }
{
    match context.take_variable(name) {
        Some(value) => value,
        None => CelValue::Null,
    }
}

/// Binds a name like [`bind_name`], in place of the value that it is bound to.
fn rebind_name<N: Node>(
    alloc: Global,
    context: &mut Context<'_, N::FunctionSet>,
    name: &str,
    node: &N,
    value: &Value,
    depth: usize,
    demand: &Option<Demand>,
) -> Result<(), Refused>
    ensures bound { OnOk result (ReadAlike (option_map part_of demand.now)
        (binding name.now (bindings_of context.new))
        (Some (N.form.bound depth (N.seen node.now) (view value.now)))) }
    ensures others { AreSameOthers name.now (bindings_of context.new) (bindings_of context.old) }
{
    let Some(demand) = demand else {
        return Ok(());
    };
    let mut place = taken(context, name);
    node.rebind_part(alloc, value, depth, demand, &mut place)?;
    context.add_variable(name, place)?;
    Ok(())
}

/// Binds `oldSelf` to the demanded part of the old counterpart, if there is one.
fn bind_old<N: Node>(
    alloc: Global,
    context: &mut Context<'_, N::FunctionSet>,
    state: &WalkState<'_, N>,
    demand: &Option<Demand>,
) -> Result<(), Refused>
    ensures bound { OnOk result ((read : List ℕ → Option Part) (f : Bindings) (path : List ℕ)
        → option_map part_of demand.now ≡ read (codes "oldSelf") → NamesAlike read (bindings_of context.old) f
        → NamesAlike read (bindings_of context.new)
        (with_old (option_map (bound_at N.form (visit_at N.seen state.now path))
        (option_map (λ v. view v.now) state.now.old)) f)) }
{
    let Some(old) = state.old else {
        return Ok(());
    };
    let node = &state.node;
    bind_name(alloc, context, "oldSelf", node, old, state.depth, demand)?;
    Ok(())
}

/// Binds the names that all rules at a place share, each as far as
/// the rules read it: `self`, `oldSelf` if there is an old counterpart,
/// and `apiVersion`, `apiGroup` and `kind` if there is a root context.
fn bind_place<N: Node>(
    alloc: Global,
    context: &mut Context<'_, N::FunctionSet>,
    state: &WalkState<'_, N>,
    rules: &NodeRules,
) -> Result<(), Refused>
    requires unbound { bindings_of context.old ≡ [] }
    requires rules { map compiled_seen rules.now.rules.items ≡ N.form.rules (N.seen state.now.node) }
    ensures bound { OnOk result ((path : List ℕ)
        → NamesAlike (λ x. rules_read x (N.form.rules (N.seen state.now.node)))
        (bindings_of context.new) (place_bindings N.form (visit_at N.seen state.now path))) }
{
    let demands = &rules.demands;
    let (node, value) = (&state.node, state.value);
    bind_name(
        alloc,
        context,
        "self",
        node,
        value,
        state.depth,
        &demands.value,
    )?;
    bind_old(alloc, context, state, &demands.old)?;
    bind_root(alloc, context, state.root)?;
    Ok(())
}

/// Binds `self` like [`bind_place`], in place of the value that the kept context binds it to.
/// There is no other name to bind.
fn bind_alone<N: Node>(
    alloc: Global,
    kept: &mut KeptContext<'_, N::FunctionSet>,
    state: &WalkState<'_, N>,
    rules: &NodeRules,
) -> Result<(), Refused>
    requires alone { IsAlone state.now }
    requires rules { map compiled_seen rules.now.rules.items ≡ N.form.rules (N.seen state.now.node) }
    ensures bound { OnOk result ((path : List ℕ)
        → NamesAlike (λ x. rules_read x (N.form.rules (N.seen state.now.node)))
        (bindings_of kept.new.context) (place_bindings N.form (visit_at N.seen state.now path))) }
{
    let (node, value) = (&state.node, state.value);
    let (context, demand) = (&mut kept.context, &rules.demands.value);
    rebind_name(alloc, context, "self", node, value, state.depth, demand)?;
    Ok(())
}

/// Adds the error of a place beyond the maximum depth.
#[inline(never)]
fn add_deep(path: &Path<'_>, errors: &mut Vec<ValidationError>) -> Result<(), AllocError>
    ensures { OnOk result (map error_view errors.new.items
        ≡ map error_view errors.old.items ++ too_deep (path_view path.now) ∷ []) }
{
    let error = deep_error(*errors.allocator(), path)?;
    errors.push(error)?;
    Ok(())
}

/// Adds the verdicts of the rules of a place, in order. Their names are bound in `context`, and
/// they run on `stacks`.
fn add_rules<N: Node>(
    state: &WalkState<'_, N>,
    rules: &NodeRules,
    context: &Context<'_, N::FunctionSet>,
    path: &Path<'_>,
    book: &mut PatternBook,
    stacks: &mut Stacks,
    errors: &mut Vec<ValidationError>,
) -> Result<(), Refused>
    requires { map compiled_seen rules.now.rules.items ≡ N.form.rules (N.seen state.now.node) }
    ensures keeps { (b : Book) → Extends b (entries_of book.new) → Extends b (entries_of book.old) }
    ensures found { OnOk result (AreAdded (entries_of book.new) errors.old.items errors.new.items
        (λ b. flat_map (λ r. list_of_option
        (verdict N.form b (bindings_of context.now) (visit_at N.seen state.now (path_view path.now)) r))
        (N.form.rules (N.seen state.now.node)))) }
{
    let rules = rules.rules.as_slice();
    add_verdicts(rules, context, state, path, book, stacks, errors)?;
    Ok(())
}

/// Adds the errors of the rules at a place in a context of its own.
#[inline(never)]
fn add_anew<N: Node>(
    state: &WalkState<'_, N>,
    rules: &NodeRules,
    path: &Path<'_>,
    book: &mut PatternBook,
    stacks: &mut Stacks,
    errors: &mut Vec<ValidationError>,
) -> Result<(), Refused>
    requires { map compiled_seen rules.now.rules.items ≡ N.form.rules (N.seen state.now.node) }
    ensures keeps { (b : Book) → Extends b (entries_of book.new) → Extends b (entries_of book.old) }
    ensures found { OnOk result (AreAdded (entries_of book.new) errors.old.items errors.new.items
        (λ b. rule_verdicts N.form b (place_bindings N.form (visit_at N.seen state.now (path_view path.now)))
        (visit_at N.seen state.now (path_view path.now)))) }
{
    let alloc = *errors.allocator();
    let mut context = Context::default(alloc);
    bind_place(alloc, &mut context, state, rules)?;
    add_rules(state, rules, &context, path, book, stacks, errors)?;
    Ok(())
}

/// Adds the errors of the rules at a place in the kept context.
fn add_kept<N: Node>(
    state: &WalkState<'_, N>,
    rules: &NodeRules,
    path: &Path<'_>,
    kept: &mut KeptContext<'_, N::FunctionSet>,
    book: &mut PatternBook,
    errors: &mut Vec<ValidationError>,
) -> Result<(), Refused>
    requires alone { IsAlone state.now }
    requires rules { map compiled_seen rules.now.rules.items ≡ N.form.rules (N.seen state.now.node) }
    ensures keeps { (b : Book) → Extends b (entries_of book.new) → Extends b (entries_of book.old) }
    ensures found { OnOk result (AreAdded (entries_of book.new) errors.old.items errors.new.items
        (λ b. rule_verdicts N.form b (place_bindings N.form (visit_at N.seen state.now (path_view path.now)))
        (visit_at N.seen state.now (path_view path.now)))) }
{
    bind_alone(*errors.allocator(), kept, state, rules)?;
    let (context, stacks) = (&kept.context, &mut kept.stacks);
    add_rules(state, rules, context, path, book, stacks, errors)?;
    Ok(())
}

/// Adds the errors of the rules at a place. Names are bound once
/// for all of its rules, and not at all if it has none.
fn add_by_rules<N: Node>(
    state: &WalkState<'_, N>,
    rules: &NodeRules,
    path: &Path<'_>,
    kept: &mut KeptContext<'_, N::FunctionSet>,
    book: &mut PatternBook,
    errors: &mut Vec<ValidationError>,
) -> Result<(), Refused>
    requires { map compiled_seen rules.now.rules.items ≡ N.form.rules (N.seen state.now.node) }
    ensures keeps { (b : Book) → Extends b (entries_of book.new) → Extends b (entries_of book.old) }
    ensures found { OnOk result (AreAdded (entries_of book.new) errors.old.items errors.new.items
        (λ b. rule_verdicts N.form b (place_bindings N.form (visit_at N.seen state.now (path_view path.now)))
        (visit_at N.seen state.now (path_view path.now)))) }
{
    if rules.rules.as_slice().is_empty() {
        return Ok(());
    }
    if is_alone(state) {
        add_kept(state, rules, path, kept, book, errors)?;
        return Ok(());
    }
    add_anew(state, rules, path, book, &mut kept.stacks, errors)?;
    Ok(())
}

/// Adds the errors of the rules at a place, by rules that were compiled for this place alone.
#[inline(never)]
fn add_by_made<N: Node>(
    state: &WalkState<'_, N>,
    rules: NodeRules,
    path: &Path<'_>,
    kept: &mut KeptContext<'_, N::FunctionSet>,
    book: &mut PatternBook,
    errors: &mut Vec<ValidationError>,
) -> Result<(), Refused>
    requires { map compiled_seen rules.rules.items ≡ N.form.rules (N.seen state.now.node) }
    ensures keeps { (b : Book) → Extends b (entries_of book.new) → Extends b (entries_of book.old) }
    ensures found { OnOk result (AreAdded (entries_of book.new) errors.old.items errors.new.items
        (λ b. rule_verdicts N.form b (place_bindings N.form (visit_at N.seen state.now (path_view path.now)))
        (visit_at N.seen state.now (path_view path.now)))) }
{
    add_by_rules(state, &rules, path, kept, book, errors)
}

/// Adds the errors at one place.
pub(crate) fn validate_at<N: Node>(
    state: &WalkState<'_, N>,
    path: &Path<'_>,
    kept: &mut KeptContext<'_, N::FunctionSet>,
    book: &mut PatternBook,
    errors: &mut Vec<ValidationError>,
) -> Result<(), Refused>
    ensures keeps { (b : Book) → Extends b (entries_of book.new) → Extends b (entries_of book.old) }
    ensures found { OnOk result (AreAdded (entries_of book.new) errors.old.items errors.new.items
        (λ b. verdicts N.form b (visit_at N.seen state.now (path_view path.now)))) }
{
    if state.depth == TOO_DEEP {
        add_deep(path, errors)?;
        return Ok(());
    }
    if !state.node.runs_at(state.value) {
        return Ok(());
    }
    match state.node.rules(*errors.allocator())? {
        CompiledRules::Lent(rules) => {
            add_by_rules(state, rules, path, kept, book, errors)?;
            Ok(())
        }
        CompiledRules::Made(rules) => {
            add_by_made(state, rules, path, kept, book, errors)?;
            Ok(())
        }
    }
}
