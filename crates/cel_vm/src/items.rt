//! The items of loops, updated in place.
ghost use Rattle.std.specs.Prelude.{◌≡◌, ◌∷◌, [], List, OnOk, MatchOption, Some, None, slice_get};
ghost use Rattle.cel_value.specs.View.{view};
ghost use Rattle.cel_vm.specs.Machine.{Loop, with_more};
ghost use Rattle.cel_vm.specs.State.{loop_view, loops_view, GoesOn};

use crate::stack::push_last;
use crate::state::LoopState;
use cel_value::Value;
use std::alloc::AllocError;

/// The current item of a loop.
#[inline(always)]
pub fn item_of(state: &LoopState) -> &Value
    ensures { view result.now ≡ (loop_view state.now).item }
{
    match state.range.as_slice().get(state.index) {
        Some(item) => item,
        None => unreachable!(),
    }
}

/// The current item of the innermost loop.
pub fn top_item(loops: &Vec<LoopState>) -> Option<&Value>
    ensures { MatchOption result (loops_view loops.now.items ≡ [])
        (λ v. (l : Loop) × (ls : List Loop) × (loops_view loops.now.items ≡ l ∷ ls) × (view v.now ≡ l.item)) }
{
    match loops.as_slice().split_last() {
        Some((state, _)) => Some(item_of(state)),
        None => None,
    }
}

/// The current item of the loop `outward` levels out from the
/// innermost one, or None if there are fewer loops.
#[inline(always)]
pub fn outer_item(loops: &Vec<LoopState>, outward: usize) -> Option<&Value>
    ensures { MatchOption result (slice_get (loops_view loops.now.items) outward ≡ None)
        (λ v. (l : Loop)
        × (slice_get (loops_view loops.now.items) outward ≡ Some l) × (view v.now ≡ l.item)) }
{
    let count = loops.len();
    if outward < count {
        Some(item_of(&loops[count - 1 - outward]))
    } else {
        None
    }
}

/// Moves the innermost loop to its next item. Returns false if there is none.
#[inline(always)]
pub fn go_on(loops: &mut Vec<LoopState>) -> bool
    ensures { GoesOn result (loops_view loops.old.items) (loops_view loops.new.items) }
{
    let count = loops.len();
    if count == 0 {
        return false;
    }
    let state = &mut loops[count - 1];
    let left = state.range.as_slice().len() - state.index;
    if 1 < left {
        state.index += 1;
        true
    } else {
        false
    }
}

/// Adds a value to the results of the innermost loop.
#[inline(always)]
pub fn give(loops: &mut Vec<LoopState>, value: Value) -> Result<(), AllocError>
    ensures { OnOk result ((l : Loop) (ls : List Loop) → loops_view loops.old.items ≡ l ∷ ls
        → loops_view loops.new.items ≡ with_more (Some (view value)) l ∷ ls) }
{
    let count = loops.len();
    if 0 < count {
        let state = &mut loops[count - 1];
        push_last(&mut state.results, value)?;
    }
    Ok(())
}
