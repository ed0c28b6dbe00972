//! The stacks of values, of pending errors and of loops. The topmost element is last.
ghost use Rattle.std.specs.Prelude.{◌≡◌, ◌≢◌, ◌∷◌, ◌++◌, [], List, Ok, OnOk, IsTrue, MatchBool, MatchOption, None, Option, option_map};
ghost use Rattle.cel_value.specs.Data.{bool};
ghost use Rattle.cel_value.specs.Faults.{Fault, fault_view};
ghost use Rattle.cel_value.specs.View.{view};
ghost use Rattle.cel_semantics.specs.Outcome.{Outcome, outcome_view};
ghost use Rattle.cel_vm.specs.State.{outcomes, pending, loop_view, loops_view};

use crate::state::LoopState;
use cel_semantics::operators::Answer;
use cel_value::{ExecutionError, Refused, Value};
use std::alloc::AllocError;
use std::mem::forget;

/// Pushes an element.
// With spare capacity this takes only a few stores, so it is inlined, as
// is everything that each item of a loop needs.
#[inline(always)]
pub fn push_last<T: Drop>(list: &mut Vec<T>, last: T) -> Result<(), AllocError>
    ensures { OnOk result (list.new.items ≡ list.old.items ++ last ∷ []) }
{
    if list.capacity() <= list.len() {
        list.reserve(1)?;
    }
    list.push_reserved(last);
    Ok(())
}

#[inline(always)]
pub fn push_answer(values: &mut Vec<Answer>, answer: Answer) -> Result<(), AllocError>
    ensures { OnOk result (outcomes values.new.items ≡ outcome_view answer ∷ outcomes values.old.items) }
{
    push_last(values, answer)
}

/// Pushes a copy of a value of any kind.
#[inline(never)]
pub fn push_any(values: &mut Vec<Answer>, value: &Value) -> Result<(), Refused>
    ensures value { OnOk result
        (outcomes values.new.items ≡ Ok (view value.now) ∷ outcomes values.old.items) }
{
    push_answer(values, Ok(value.try_clone()?))?;
    Ok(())
}

/// Pushes a copy of a value. The cheap kinds (int, bool, string, list, map) are inlined,
/// with one push for all of them.
#[inline(always)]
pub fn push_copy(values: &mut Vec<Answer>, value: &Value) -> Result<(), Refused>
    ensures value { OnOk result
        (outcomes values.new.items ≡ Ok (view value.now) ∷ outcomes values.old.items) }
{
    let copy = match value {
        Value::Int(n) => Value::Int(*n),
        Value::Bool(b) => Value::Bool(*b),
        Value::String(text) => Value::String(text.clone()?),
        Value::List(items) => Value::List(items.clone()?),
        Value::Map(entries) => Value::Map(entries.try_clone()?),
        _ => return push_any(values, value),
    };
    push_answer(values, Ok(copy))?;
    Ok(())
}

/// Pushes a copy of a literal.
#[inline(never)]
pub fn push_literal(values: &mut Vec<Answer>, value: &Value) -> Result<(), Refused>
    ensures value { OnOk result
        (outcomes values.new.items ≡ Ok (view value.now) ∷ outcomes values.old.items) }
{
    push_copy(values, value)
}

pub fn pop_answer(values: &mut Vec<Answer>) -> Option<Answer>
    ensures { MatchOption result (outcomes values.old.items ≡ [])
        (λ r. outcomes values.old.items ≡ outcome_view r ∷ outcomes values.new.items) }
{
    values.pop()
}

/// The topmost answer, if any.
#[inline(always)]
pub fn top(values: &Vec<Answer>) -> Option<&Answer>
    ensures { MatchOption result (outcomes values.now.items ≡ [])
        (λ r. (vs : List Outcome) × (outcomes values.now.items ≡ outcome_view r.now ∷ vs)) }
{
    match values.as_slice().split_last() {
        Some((answer, _)) => Some(answer),
        None => None,
    }
}

/// Reports whether the topmost answer is this bool.
#[inline(always)]
pub fn is_on_top(values: &Vec<Answer>, sought: bool) -> bool
    ensures { IsTrue result → (vs : List Outcome) × (outcomes values.now.items ≡ Ok (bool sought) ∷ vs) }
{
    match top(values) {
        Some(Ok(Value::Bool(b))) => *b == sought,
        _ => false,
    }
}

/// Drops an answer.
// A null, a bool and an int hold no memory. They are told apart by one comparison, where the
// drop of a value jumps to its kind.
#[inline(always)]
pub fn discard(answer: Answer) {
    if matches!(&answer, Ok(Value::Null | Value::Bool(_) | Value::Int(_))) {
        forget(answer);
    }
}

/// Drops the topmost answer.
#[inline(always)]
pub fn drop_answer(values: &mut Vec<Answer>)
    ensures { (r : Outcome) (vs : List Outcome)
        → outcomes values.old.items ≡ r ∷ vs → outcomes values.new.items ≡ vs }
{
    let count = values.len();
    if 0 < count {
        discard(values.take_last());
    }
}

/// Replaces the topmost answer.
#[inline(always)]
pub fn put_top(values: &mut Vec<Answer>, answer: Answer)
    ensures { (r : Outcome) (vs : List Outcome)
        → outcomes values.old.items ≡ r ∷ vs → outcomes values.new.items ≡ outcome_view answer ∷ vs }
{
    let count = values.len();
    if 0 < count {
        values[count - 1] = answer;
    }
}

/// Replaces the answer below the topmost one.
#[inline(always)]
pub fn put_below(values: &mut Vec<Answer>, answer: Answer)
    ensures { (r : Outcome) (s : Outcome) (vs : List Outcome) → outcomes values.old.items ≡ r ∷ s ∷ vs
        → outcomes values.new.items ≡ r ∷ outcome_view answer ∷ vs }
{
    let count = values.len();
    if 1 < count {
        values[count - 2] = answer;
    }
}

#[inline(always)]
pub fn push_pending(
    absorbed: &mut Vec<Option<ExecutionError>>,
    fault: Option<ExecutionError>,
) -> Result<(), AllocError>
    ensures { OnOk result
        (pending absorbed.new.items ≡ option_map fault_view fault ∷ pending absorbed.old.items) }
{
    push_last(absorbed, fault)
}

pub fn pop_pending(absorbed: &mut Vec<Option<ExecutionError>>) -> Option<Option<ExecutionError>>
    ensures { MatchOption result (pending absorbed.old.items ≡ [])
        (λ k. pending absorbed.old.items ≡ option_map fault_view k ∷ pending absorbed.new.items) }
{
    absorbed.pop()
}

/// Reports whether there is a slot for a pending error and the topmost one is empty.
#[inline(always)]
pub fn is_clear(absorbed: &Vec<Option<ExecutionError>>) -> bool
    ensures { IsTrue result → (ks : List (Option Fault)) × (pending absorbed.now.items ≡ None ∷ ks) }
{
    match absorbed.as_slice().split_last() {
        Some((None, _)) => true,
        _ => false,
    }
}

/// Drops the topmost slot for a pending error.
#[inline(always)]
pub fn drop_pending(absorbed: &mut Vec<Option<ExecutionError>>)
    ensures { (k : Option Fault) (ks : List (Option Fault))
        → pending absorbed.old.items ≡ k ∷ ks → pending absorbed.new.items ≡ ks }
{
    let count = absorbed.len();
    if 0 < count {
        let _ = absorbed.take_last();
    }
}

/// Reports whether there is no slot for a pending error.
pub fn keeps_none(absorbed: &Vec<Option<ExecutionError>>) -> bool
    ensures { MatchBool result (pending absorbed.now.items ≡ []) (pending absorbed.now.items ≢ []) }
{
    absorbed.is_empty()
}

pub fn push_loop(loops: &mut Vec<LoopState>, state: LoopState) -> Result<(), AllocError>
    ensures { OnOk result (loops_view loops.new.items ≡ loop_view state ∷ loops_view loops.old.items) }
{
    loops.push(state)?;
    Ok(())
}

pub fn pop_loop(loops: &mut Vec<LoopState>) -> Option<LoopState>
    ensures { MatchOption result (loops_view loops.old.items ≡ [])
        (λ l. loops_view loops.old.items ≡ loop_view l ∷ loops_view loops.new.items) }
{
    loops.pop()
}
