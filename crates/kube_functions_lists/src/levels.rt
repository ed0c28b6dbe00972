//! `flatten`: replaces lists inside a list by their items.
ghost use Rattle.std.specs.Prelude.{◌≡◌, ◌++◌, ◌∷◌, [], IfOk, OnOk, Ok, map, option_map};
ghost use Rattle.cel_value.specs.View.{view};
ghost use Rattle.cel_semantics.specs.Outcome.{outcome_view};
ghost use Rattle.kube_functions_lists.specs.Lists as spec;

use crate::items::list_of;
use cel_semantics::operators::{Answer, no_such_overload};
use cel_stdlib::faults::function_error;
use cel_value::{List, Refused, Value};
use std::alloc::Global;

#[cycle(push)]
#[tactic(auto, using(crate::proofs::Lent::flat_deeper))]
fn push_item(item: &Value, depth: u64, out: &mut Vec<Value>) -> Result<(), Refused>
    ensures pushed { OnOk result (map view out.new.items
        ≡ map view out.old.items ++ spec.flat_item (view item.now) depth) }
{
    match item {
        Value::List(items) => {
            if depth == 0 {
                push_copy(item, out)
            } else {
                push_items(items.as_ref(), depth - 1, out)
            }
        }
        _ => push_copy(item, out),
    }
}

#[cycle(push)]
fn push_items(items: &List, depth: u64, out: &mut Vec<Value>) -> Result<(), Refused>
    ensures pushed { OnOk result (map view out.new.items
        ≡ map view out.old.items ++ spec.flat_items items.now depth) }
{
    for item in items.as_slice() {
        push_item(item, depth, out)?;
    }
    Ok(())
}

fn push_copy(item: &Value, out: &mut Vec<Value>) -> Result<(), Refused>
    ensures pushed { OnOk result (map view out.new.items ≡ map view out.old.items ++ view item.now ∷ []) }
{
    out.push(item.try_clone()?)?;
    Ok(())
}

fn flat_items(alloc: Global, items: &List, depth: u64) -> Result<Vec<Value>, Refused>
    ensures value { IfOk result (λ v. map view v.items ≡ spec.flat_items items.now depth) }
{
    let mut flat = Vec::new(alloc);
    push_items(items, depth, &mut flat)?;
    Ok(flat)
}

fn flatten_outcome(alloc: Global, items: &List, depth: i64) -> Result<Answer, Refused>
    ensures value { IfOk result (λ r. outcome_view r ≡ spec.flatten_outcome items.now depth) }
{
    if depth < 0 {
        Ok(Err(function_error(alloc, "flatten", "depth must be non-negative")?))
    } else {
        list_of(alloc, flat_items(alloc, items, depth as u64)?)
    }
}

// The depth that an argument gives, or 1 if it is absent. None if it isn't an int.
fn depth_of(depth: Option<&Value>) -> Option<i64>
    ensures { result ≡ spec.depth_in (option_map (λ v. view v.now) depth.entry) }
{
    match depth {
        Some(value) => value.as_int(),
        None => Some(1),
    }
}

/// Flattens a list: replaces the lists inside it by their items, down to `depth` levels, or one if
/// no depth is given. A negative depth is an error.
///
/// # Errors
/// [`Refused::Memory`] if memory is refused.
pub fn flatten(alloc: Global, value: &Value, depth: Option<&Value>) -> Result<Answer, Refused>
    ensures value { IfOk result (λ r. outcome_view r
        ≡ spec.flatten (view value.now) (option_map (λ v. view v.now) depth.entry)) }
{
    match value.as_list() {
        Some(items) => match depth_of(depth) {
            Some(depth) => flatten_outcome(alloc, items, depth),
            None => Ok(Err(no_such_overload(alloc, "flatten")?)),
        },
        None => Ok(Err(no_such_overload(alloc, "flatten")?)),
    }
}
