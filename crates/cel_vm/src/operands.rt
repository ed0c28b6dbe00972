//! Operands on the stack, and the instructions that test them.
ghost use Rattle.std.specs.Prelude.{◌≡◌, ◌∷◌, [], ◌<◌, ◌≤◌, ◌+◌, IfOk, List, Ok, Err, drop, length, map, Some, None, MatchBool, MatchOption, MatchResult};
ghost use Rattle.cel_value.specs.Data.{Data};
ghost use Rattle.cel_value.specs.Faults.{fault_view};
ghost use Rattle.cel_value.specs.View.{view};
ghost use Rattle.cel_semantics.specs.Decisions.{truth};
ghost use Rattle.cel_semantics.specs.Outcome.{Outcome, outcome_view};
ghost use Rattle.cel_vm.specs.Machine.{after_guard, after_branch, after_left_operand, after_right_operand, logic_name, taken};
ghost use Rattle.cel_vm_code.specs.Op.{test_name};
ghost use Rattle.cel_vm.specs.State.{outcomes, pending};
ghost use Rattle.cel_vm.specs.Correct.{Turns, TurnsValues, Lacks};

use crate::stack::{
    drop_answer, drop_pending, is_clear, is_on_top, pop_answer, pop_pending, push_answer,
    push_pending, put_below, top,
};
use cel_semantics::operators::{Answer, Progress, absorb, no_such_overload, undecided_answer};
use cel_value::{ExecutionError, Refused, Value};
use cel_vm_code::Test;
use std::alloc::{AllocError, Global};

/// The program counter after a jump over `offset` instructions, or None if it is past the end.
#[inline(always)]
pub(crate) fn jump(pc: usize, offset: usize, end: usize) -> Option<usize>
    requires { pc < end }
    ensures { MatchOption result (end < pc + 1 + offset) (λ q. (q ≡ pc + 1 + offset) × (pc < q) × (q ≤ end)) }
{
    if offset < end - pc {
        Some(pc + 1 + offset)
    } else {
        None
    }
}

/// The operator that this bool decides, for error messages.
fn logic_text(stop: bool) -> &'static str
    ensures { result.now ≡ logic_name stop }
{
    if stop { "||" } else { "&&" }
}

/// Drops the `count` topmost answers.
fn drop_top(values: &mut Vec<Answer>, count: usize)
    ensures { outcomes values.new.items ≡ drop count (outcomes values.old.items) }
{
    let kept = values.len().saturating_sub(count);
    values.truncate(kept);
}

/// Handles an error that a guard finds: drops the `depth` answers
/// below it and jumps over `offset` instructions.
#[inline(never)]
fn fail(
    depth: usize,
    offset: usize,
    pc: usize,
    end: usize,
    values: &mut Vec<Answer>,
) -> Result<Option<usize>, AllocError>
    requires { pc < end }
    ensures { IfOk result (λ q. TurnsValues pc end
        (after_guard depth offset pc (outcomes values.old.items)) q (outcomes values.new.items)) }
{
    match pop_answer(values) {
        None => Ok(None),
        Some(answer) => match answer {
            Ok(value) => {
                push_answer(values, Ok(value))?;
                Ok(Some(pc + 1))
            }
            Err(e) => {
                drop_top(values, depth);
                push_answer(values, Err(e))?;
                Ok(jump(pc, offset, end))
            }
        },
    }
}

/// Runs a guard: a value stays where it is, an error jumps over `offset` instructions.
#[inline(always)]
pub(crate) fn guard(
    depth: usize,
    offset: usize,
    pc: usize,
    end: usize,
    values: &mut Vec<Answer>,
) -> Result<Option<usize>, AllocError>
    requires { pc < end }
    ensures { IfOk result (λ q. TurnsValues pc end
        (after_guard depth offset pc (outcomes values.old.items)) q (outcomes values.new.items)) }
{
    match top(values) {
        None => Ok(None),
        Some(Ok(_)) => Ok(Some(pc + 1)),
        Some(Err(_)) => fail(depth, offset, pc, end, values),
    }
}

/// The name by which errors refer to a test.
fn test_text(test: Test) -> &'static str
    ensures { result.now ≡ test_name test }
{
    match test {
        Test::Condition => "?:",
        Test::Filter => "map",
    }
}

/// Returns the bool of a tested value, or the error if it is no bool.
fn truth_of(
    alloc: Global,
    test: Test,
    value: &Value,
) -> Result<Result<bool, ExecutionError>, Refused>
    ensures value { IfOk result (λ r. MatchResult r (λ b. truth (test_name test) (Ok (view value.now)) ≡ Ok b)
        (λ e. truth (test_name test) (Ok (view value.now)) ≡ Err (fault_view e))) }
{
    match value {
        Value::Bool(b) => Ok(Ok(*b)),
        _ => Ok(Err(no_such_overload(alloc, test_text(test))?)),
    }
}

/// Runs a test of any outcome on top of the stack.
#[inline(never)]
fn branch_on_any(
    alloc: Global,
    test: Test,
    on_false: usize,
    offset: usize,
    pc: usize,
    end: usize,
    values: &mut Vec<Answer>,
) -> Result<Option<usize>, Refused>
    requires { pc < end }
    ensures value { IfOk result (λ q. TurnsValues pc end (after_branch (test_name test) on_false offset pc
        (outcomes values.old.items)) q (outcomes values.new.items)) }
{
    match pop_answer(values) {
        None => Ok(None),
        Some(answer) => match answer {
            Ok(value) => match truth_of(alloc, test, &value)? {
                Ok(true) => Ok(Some(pc + 1)),
                Ok(false) => Ok(jump(pc, on_false, end)),
                Err(e) => {
                    push_answer(values, Err(e))?;
                    Ok(jump(pc, offset, end))
                }
            },
            Err(e) => {
                push_answer(values, Err(e))?;
                Ok(jump(pc, offset, end))
            }
        },
    }
}

/// Runs a test of what is on top of the stack. A bool is read where it lies.
#[inline(never)]
fn branch_on_top(
    alloc: Global,
    test: Test,
    on_false: usize,
    offset: usize,
    pc: usize,
    end: usize,
    values: &mut Vec<Answer>,
) -> Result<Option<usize>, Refused>
    requires { pc < end }
    ensures value { IfOk result (λ q. TurnsValues pc end (after_branch (test_name test) on_false offset pc
        (outcomes values.old.items)) q (outcomes values.new.items)) }
{
    match top(values) {
        Some(Ok(Value::Bool(true))) => {
            drop_answer(values);
            Ok(Some(pc + 1))
        }
        Some(Ok(Value::Bool(false))) => {
            drop_answer(values);
            Ok(jump(pc, on_false, end))
        }
        _ => branch_on_any(alloc, test, on_false, offset, pc, end, values),
    }
}

/// Runs a test. A bool is read where it lies on the stack.
// The result is taken apart and made anew, here and in `take_right`, so that the
// machine's turn never passes the place of its own: it then stays in registers.
#[inline(always)]
pub(crate) fn branch(
    alloc: Global,
    test: Test,
    on_false: usize,
    offset: usize,
    pc: usize,
    end: usize,
    values: &mut Vec<Answer>,
) -> Result<Option<usize>, Refused>
    requires { pc < end }
    ensures value { IfOk result (λ q. TurnsValues pc end (after_branch (test_name test) on_false offset pc
        (outcomes values.old.items)) q (outcomes values.new.items)) }
{
    let next = branch_on_top(alloc, test, on_false, offset, pc, end, values)?;
    Ok(next)
}

/// Handles the left operand of `&&` or `||`, for any outcome.
#[inline(never)]
fn absorb_left(
    alloc: Global,
    stop: bool,
    offset: usize,
    pc: usize,
    end: usize,
    values: &mut Vec<Answer>,
    kept: &mut Vec<Option<ExecutionError>>,
) -> Result<Option<usize>, Refused>
    requires { pc < end }
    ensures value { IfOk result
        (λ q. Turns pc end (after_left_operand stop offset pc (outcomes values.old.items)
        (pending kept.old.items)) q (outcomes values.new.items) (pending kept.new.items)) }
{
    match pop_answer(values) {
        None => Ok(None),
        Some(answer) => match absorb(alloc, stop, logic_text(stop), None, answer)? {
            Progress::Decided => {
                push_answer(values, Ok(Value::Bool(stop)))?;
                Ok(jump(pc, offset, end))
            }
            Progress::Open(fault) => {
                push_pending(kept, fault)?;
                Ok(Some(pc + 1))
            }
        },
    }
}

/// Handles the left operand of `&&` or `||`. A bool that doesn't decide is read where it lies.
#[inline(always)]
pub(crate) fn take_left(
    alloc: Global,
    stop: bool,
    offset: usize,
    pc: usize,
    end: usize,
    values: &mut Vec<Answer>,
    kept: &mut Vec<Option<ExecutionError>>,
) -> Result<Option<usize>, Refused>
    requires { pc < end }
    ensures value { IfOk result
        (λ q. Turns pc end (after_left_operand stop offset pc (outcomes values.old.items)
        (pending kept.old.items)) q (outcomes values.new.items) (pending kept.new.items)) }
{
    if is_on_top(values, !stop) {
        drop_answer(values);
        push_pending(kept, None)?;
        return Ok(Some(pc + 1));
    }
    absorb_left(alloc, stop, offset, pc, end, values, kept)
}

/// Handles the right operand of `&&` or `||`, for any outcome.
#[inline(never)]
fn absorb_right(
    alloc: Global,
    stop: bool,
    pc: usize,
    end: usize,
    values: &mut Vec<Answer>,
    kept: &mut Vec<Option<ExecutionError>>,
) -> Result<Option<usize>, Refused>
    requires { pc < end }
    ensures value { IfOk result (λ q. Turns pc end (after_right_operand stop pc (outcomes values.old.items)
        (pending kept.old.items)) q (outcomes values.new.items) (pending kept.new.items)) }
{
    match pop_answer(values) {
        None => Ok(None),
        Some(answer) => match pop_pending(kept) {
            None => Ok(None),
            Some(fault) => match absorb(alloc, stop, logic_text(stop), fault, answer)? {
                Progress::Decided => {
                    push_answer(values, Ok(Value::Bool(stop)))?;
                    Ok(Some(pc + 1))
                }
                Progress::Open(last) => {
                    push_answer(values, undecided_answer(stop, last))?;
                    Ok(Some(pc + 1))
                }
            },
        },
    }
}

/// Handles the right operand of `&&` or `||`. A bool that doesn't decide stays on the
/// stack as the result, unless an error is pending.
#[inline(never)]
fn take_right_on_top(
    alloc: Global,
    stop: bool,
    pc: usize,
    end: usize,
    values: &mut Vec<Answer>,
    kept: &mut Vec<Option<ExecutionError>>,
) -> Result<Option<usize>, Refused>
    requires { pc < end }
    ensures value { IfOk result (λ q. Turns pc end (after_right_operand stop pc (outcomes values.old.items)
        (pending kept.old.items)) q (outcomes values.new.items) (pending kept.new.items)) }
{
    if is_on_top(values, !stop) && is_clear(kept) {
        drop_pending(kept);
        return Ok(Some(pc + 1));
    }
    absorb_right(alloc, stop, pc, end, values, kept)
}

/// Handles the right operand of `&&` or `||`. A bool that doesn't decide stays on the
/// stack as the result, unless an error is pending.
#[inline(always)]
pub(crate) fn take_right(
    alloc: Global,
    stop: bool,
    pc: usize,
    end: usize,
    values: &mut Vec<Answer>,
    kept: &mut Vec<Option<ExecutionError>>,
) -> Result<Option<usize>, Refused>
    requires { pc < end }
    ensures value { IfOk result (λ q. Turns pc end (after_right_operand stop pc (outcomes values.old.items)
        (pending kept.old.items)) q (outcomes values.new.items) (pending kept.new.items)) }
{
    let next = take_right_on_top(alloc, stop, pc, end, values, kept)?;
    Ok(next)
}

/// Pops the topmost value. Returns None if the stack is empty or an error is on top.
pub(crate) fn pop_operand(values: &mut Vec<Answer>) -> Option<Value>
    ensures { MatchOption result (Lacks (outcomes values.old.items))
        (λ v. outcomes values.old.items ≡ Ok (view v) ∷ outcomes values.new.items) }
{
    match pop_answer(values) {
        None => None,
        Some(answer) => match answer {
            Ok(value) => Some(value),
            Err(_) => None,
        },
    }
}

/// Pops the two topmost values and returns the lower one first. Returns None
/// if there are fewer, or one of them is an error.
pub(crate) fn pop_two(values: &mut Vec<Answer>) -> Option<(Value, Value)>
    ensures { MatchOption result ((ds : List Data) → taken 2 (outcomes values.old.items) ds ≡ None)
        (λ p. outcomes values.old.items ≡ Ok (view p.1) ∷ Ok (view p.0) ∷ outcomes values.new.items) }
{
    match pop_operand(values) {
        None => None,
        Some(second) => match pop_operand(values) {
            None => None,
            Some(first) => Some((first, second)),
        },
    }
}

/// The topmost value, or None if the stack is empty or an error is on top.
#[inline(always)]
pub(crate) fn top_value(values: &Vec<Answer>) -> Option<&Value>
    ensures { MatchOption result (Lacks (outcomes values.now.items))
        (λ v. (vs : List Outcome) × (outcomes values.now.items ≡ Ok (view v.now) ∷ vs)) }
{
    match top(values) {
        Some(Ok(value)) => Some(value),
        Some(Err(_)) => None,
        None => None,
    }
}

/// The two topmost values, the lower one first, or None
/// if there are fewer or one of them is an error.
#[inline(always)]
pub(crate) fn top_two(values: &Vec<Answer>) -> Option<(&Value, &Value)>
    ensures { MatchOption result ((ds : List Data) → taken 2 (outcomes values.now.items) ds ≡ None)
        (λ p. (vs : List Outcome)
        × (outcomes values.now.items ≡ Ok (view p.1.now) ∷ Ok (view p.0.now) ∷ vs)) }
{
    match values.as_slice().split_last() {
        None => None,
        Some((Err(_), _)) => None,
        Some((Ok(upper), rest)) => match rest.split_last() {
            None => None,
            Some((Err(_), _)) => None,
            Some((Ok(lower), _)) => Some((lower, upper)),
        },
    }
}

/// Replaces the two topmost answers by this one.
// The lower one is replaced first: where its kind was just seen, the compiler drops it without a
// look, as long as nothing was written in between.
#[inline(always)]
pub(crate) fn put_over_two(values: &mut Vec<Answer>, answer: Answer)
    ensures { (r : Outcome) (s : Outcome) (vs : List Outcome) → outcomes values.old.items ≡ r ∷ s ∷ vs
        → outcomes values.new.items ≡ outcome_view answer ∷ vs }
{
    put_below(values, answer);
    drop_answer(values);
}

/// Pops `count` values into `found`, the lowest first. Returns false
/// if there are fewer, or one of them is an error.
pub(crate) fn take_values(
    count: usize,
    values: &mut Vec<Answer>,
    found: &mut Vec<Value>,
) -> Result<bool, AllocError>
    ensures { IfOk result (λ done. MatchBool done
        ((length found.new.items ≡ count) × (taken count (outcomes values.old.items) []
        ≡ Some (map view found.new.items, outcomes values.new.items)))
        (taken count (outcomes values.old.items) [] ≡ None)) }
{
    found.clear();
    while found.len() < count {
        match pop_operand(values) {
            None => return Ok(false),
            Some(value) => found.push(value)?,
        }
    }
    found.reverse();
    Ok(true)
}
