//! `min` and `max`: the first of several least or greatest values.
ghost use Rattle.std.specs.Prelude.{◌≡◌, ◌∷◌, IfOk, map, option_map};
ghost use Rattle.cel_value.specs.Faults.{fault_view};
ghost use Rattle.cel_value.specs.Parts.{items_in};
ghost use Rattle.cel_value.specs.View.{view};
ghost use Rattle.cel_semantics.specs.Outcome.{outcome_view};
ghost use Rattle.cel_semantics.specs.Ranges.{items_list};
ghost use Rattle.cel_stdlib.specs.Extremes as spec;

use crate::faults::function_error;
use cel_semantics::operators::Answer;
use cel_value::{ExecutionError, Refused, Value};
use std::alloc::Global;
use std::cmp::Ordering;

/// Which extreme is asked for.
#[derive(Clone, Copy, Debug, PartialEq, Eq)]
pub enum Extreme {
    /// `min`.
    Least,
    /// `max`.
    Greatest,
}

fn goes_before(end: Extreme, order: Ordering) -> bool
    ensures { result ≡ spec.goes_before end order }
{
    match end {
        Extreme::Least => order.is_lt(),
        Extreme::Greatest => order.is_gt(),
    }
}

fn different_types(alloc: Global) -> Result<ExecutionError, Refused>
    ensures value { IfOk result (λ e. fault_view e ≡ spec.different_types) }
{
    function_error(alloc, "compare", "cannot compare values of different types")
}

fn no_items(alloc: Global, end: Extreme) -> Result<ExecutionError, Refused>
    ensures value { IfOk result (λ e. fault_view e ≡ spec.no_items end) }
{
    match end {
        Extreme::Least => function_error(alloc, "min", "cannot call min on empty list"),
        Extreme::Greatest => function_error(alloc, "max", "cannot call max on empty list"),
    }
}

// Returns the value if it precedes the best one so far, and
// otherwise that one. None if the two can't be compared.
fn better<'a>(end: Extreme, best: &'a Value, value: &'a Value) -> Option<&'a Value>
    ensures { option_map (λ v. view v.now) result ≡ spec.better end (view best.now) (view value.now) }
{
    match value.compare(best) {
        Some(order) => {
            if goes_before(end, order) {
                Some(value)
            } else {
                Some(best)
            }
        }
        None => None,
    }
}

// Returns None if two of the values can't be compared.
fn choose<'a>(end: Extreme, first: &'a Value, rest: &'a [Value]) -> Option<&'a Value>
    ensures { option_map (λ v. view v.now) result
        ≡ spec.least_or_greatest end (view first.now) (map view rest.now) }
{
    let mut best = first;
    for value in rest {
        match better(end, best, value) {
            Some(next) => best = next,
            None => return None,
        }
    }
    Some(best)
}

fn least_or_greatest(
    alloc: Global,
    end: Extreme,
    first: &Value,
    rest: &[Value],
) -> Result<Answer, Refused>
    ensures value { IfOk result
        (λ r. outcome_view r ≡ spec.extreme_of end (view first.now ∷ map view rest.now)) }
{
    match choose(end, first, rest) {
        Some(value) => Ok(Ok(value.try_clone()?)),
        None => Ok(Err(different_types(alloc)?)),
    }
}

/// Returns the least or the greatest value, the first one if
/// several are equal. A single value is not compared.
///
/// # Errors
/// Only [`Refused::Memory`], if memory is refused.
pub fn extreme_of(alloc: Global, end: Extreme, values: &[Value]) -> Result<Answer, Refused>
    ensures value { IfOk result (λ r. outcome_view r ≡ spec.extreme_of end (map view values.now)) }
{
    match values {
        [] => Ok(Err(no_items(alloc, end)?)),
        [first, rest @ ..] => least_or_greatest(alloc, end, first, rest),
    }
}

fn items_of(value: &Value) -> Option<&[Value]>
    ensures { option_map (λ s. map view s.now) result ≡ option_map items_list (items_in (view value.now)) }
{
    match value.as_list() {
        Some(items) => Some(items.as_slice()),
        None => None,
    }
}

#[tactic(auto, using(crate::proofs::Leading::among_more))]
fn extreme_from(
    alloc: Global,
    end: Extreme,
    first: &Value,
    rest: &[Value],
) -> Result<Answer, Refused>
    ensures value { IfOk result (λ r. outcome_view r
        ≡ spec.extreme_of end (spec.values_among (view first.now ∷ map view rest.now))) }
{
    match rest {
        [] => match items_of(first) {
            Some(items) => extreme_of(alloc, end, items),
            None => least_or_greatest(alloc, end, first, rest),
        },
        _ => least_or_greatest(alloc, end, first, rest),
    }
}

/// Returns the least or the greatest of the arguments of `min` or `max`. If the only
/// argument is a list, it returns that of its items.
///
/// # Errors
/// Only [`Refused::Memory`], if memory is refused.
pub fn extreme_among(alloc: Global, end: Extreme, args: &[Value]) -> Result<Answer, Refused>
    ensures value { IfOk result
        (λ r. outcome_view r ≡ spec.extreme_of end (spec.values_among (map view args.now))) }
{
    match args {
        [] => Ok(Err(no_items(alloc, end)?)),
        [first, rest @ ..] => extreme_from(alloc, end, first, rest),
    }
}
