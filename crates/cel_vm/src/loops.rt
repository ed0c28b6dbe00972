//! The instructions that begin and end loops.
ghost use Rattle.std.specs.Prelude.{◌≡◌, ◌≢◌, ◌∷◌, [], ◌<◌, ◌+◌, ℕ, IfOk, IfSome, List, Option, Ok, Some, false, option_map, map, nat_lt, MatchOption};
ghost use Rattle.cel_value.specs.Data.{bool};
ghost use Rattle.cel_value.specs.Faults.{Fault, fault_view};
ghost use Rattle.cel_value.specs.View.{view};
ghost use Rattle.cel_semantics.specs.Macros.{iteration_result_of, iteration_result_view};
ghost use Rattle.cel_semantics.specs.Outcome.{Outcome, and_then, outcome_view};
ghost use Rattle.cel_semantics.specs.Ranges.{range_list};
ghost use Rattle.cel_vm.specs.Machine.{Loop, go, after_begin, after_next, may_lead_to, limit, loop_name, next_iteration, first_iteration, over_none, after_deciding_item, after_collected_item, after_filter, after_filtered_item, after_iteration};
ghost use Rattle.cel_vm_code.specs.Op.{op, next};
ghost use Rattle.cel_vm.specs.State.{at_end, outcomes, values_of, pending_of, loops_of};
ghost use Rattle.cel_vm.specs.Correct.{Enters, Advances, Top};
ghost use Rattle.cel_vm.specs.declared.state.LoopStep.TheVariants.{AfterLoop};
ghost use Rattle.cel_vm.specs.declared.state.ResultRule.TheVariants.{Collected};

use crate::items::{give, go_on, top_item};
use crate::operands::pop_operand;
use crate::stack::{
    drop_answer, keeps_none, pop_answer, pop_loop, pop_pending, push_answer, push_loop,
    push_pending, top,
};
use crate::state::{End, LoopState, LoopStep, ResultRule, Stacks};
use cel_semantics::macros::{finish, iteration_result, name_of};
use cel_semantics::operators::{Answer, Progress, absorb, undecided_answer};
use cel_semantics::ranges::{Range, range_in};
use cel_syntax_ast::MacroKind;
use cel_value::{ExecutionError, Refused, Value};
use cel_vm_code::Instr;
use std::alloc::{AllocError, Global};

/// The name of the macro that stops at this bool, for error messages.
fn loop_text(stop: bool) -> &'static str
    ensures { result.now ≡ loop_name stop }
{
    if stop { "exists" } else { "all" }
}

/// Pushes an outcome and jumps over a loop. Returns `OutOfRange` if the jump would go past the end.
fn leave(
    answer: Answer,
    offset: usize,
    pc: usize,
    end: usize,
    values: &mut Vec<Answer>,
) -> Result<LoopStep, AllocError>
    requires { pc < end }
    ensures { IfOk result (λ e. (size : ℕ) (ab : List (Option Fault)) (ls : List Loop) → limit size ls ≡ end
        → Enters size end (go (pc + 1 + offset) (outcome_view answer ∷ outcomes values.old.items) ab ls)
        pc offset e (outcomes values.new.items) ab ls ls) }
{
    push_answer(values, answer)?;
    if offset < end - pc {
        Ok(LoopStep::AfterLoop)
    } else {
        Ok(LoopStep::OutOfRange)
    }
}

/// Returns the outcome of a macro over no items.
fn answer_over_none(alloc: Global, kind: MacroKind) -> Result<Answer, Refused>
    ensures value { IfOk result (λ r. outcome_view r ≡ over_none kind) }
{
    match kind {
        MacroKind::All => Ok(Ok(Value::Bool(true))),
        MacroKind::Exists => Ok(Ok(Value::Bool(false))),
        MacroKind::ExistsOne => finish(alloc, MacroKind::ExistsOne, Vec::new(alloc)),
        MacroKind::Map => finish(alloc, MacroKind::Map, Vec::new(alloc)),
        MacroKind::Filter => finish(alloc, MacroKind::Filter, Vec::new(alloc)),
    }
}

/// Enters a loop over these items: pushes its state, at the first item, and an empty slot for a
/// pending error. If there are no items, pushes the macro's outcome and jumps over the loop.
fn enter(
    alloc: Global,
    kind: MacroKind,
    offset: usize,
    pc: usize,
    end: usize,
    range: Range,
    stacks: &mut Stacks,
) -> Result<LoopStep, Refused>
    requires { pc < end }
    ensures value { IfOk result (λ e. (size : ℕ) → limit size (loops_of stacks.old) ≡ end →
        Enters size end (first_iteration size kind offset pc
        (Ok (range_list range)) (values_of stacks.old) (pending_of stacks.old) (loops_of stacks.old))
        pc offset e
        (values_of stacks.new) (pending_of stacks.new) (loops_of stacks.old) (loops_of stacks.new)) }
{
    let count = range.as_slice().len();
    if count == 0 {
        let answer = answer_over_none(alloc, kind)?;
        return Ok(leave(answer, offset, pc, end, &mut stacks.values)?);
    }
    if offset == 0 {
        return Ok(LoopStep::OutOfRange);
    }
    if offset < end - pc {
        let results = Vec::new(alloc);
        push_loop(
            &mut stacks.loops,
            LoopState {
                range,
                index: 0,
                results,
                start: pc + 1,
                finish: pc + offset,
            },
        )?;
        push_pending(&mut stacks.absorbed, None)?;
        Ok(LoopStep::Inside)
    } else {
        Ok(LoopStep::OutOfRange)
    }
}

/// Begins a loop: pops its range and enters it. An error, or the error for a value that is no
/// range, is pushed as the macro's outcome, and the loop is jumped over.
#[inline(never)]
pub(crate) fn begin(
    alloc: Global,
    kind: MacroKind,
    offset: usize,
    pc: usize,
    end: usize,
    stacks: &mut Stacks,
) -> Result<LoopStep, Refused>
    requires { pc < end }
    ensures value { IfOk result (λ e. (size : ℕ) → limit size (loops_of stacks.old) ≡ end →
        Enters size end
        (after_begin size kind offset pc (values_of stacks.old) (pending_of stacks.old) (loops_of stacks.old))
        pc offset e
        (values_of stacks.new) (pending_of stacks.new) (loops_of stacks.old) (loops_of stacks.new)) }
{
    match pop_answer(&mut stacks.values) {
        None => Ok(LoopStep::OutOfRange),
        Some(answer) => match answer {
            Err(e) => Ok(leave(Err(e), offset, pc, end, &mut stacks.values)?),
            Ok(value) => match range_in(alloc, name_of(kind), value)? {
                Err(e) => Ok(leave(Err(e), offset, pc, end, &mut stacks.values)?),
                Ok(range) => enter(alloc, kind, offset, pc, end, range, stacks),
            },
        },
    }
}

/// Returns the outcome of a macro once all items are done, from the pending error and the results.
fn outcome_after(
    alloc: Global,
    rule: ResultRule,
    kept: Option<ExecutionError>,
    results: Vec<Value>,
) -> Result<Answer, Refused>
    ensures value { IfOk result
        (λ r. outcome_view r ≡ at_end rule (option_map fault_view kept) (map view results.items)) }
{
    match rule {
        ResultRule::Decided(stop) => Ok(undecided_answer(stop, kept)),
        ResultRule::Collected(kind) => finish(alloc, kind, results),
    }
}

/// Ends the innermost loop early: pops it and its slot
/// for a pending error, and pushes this outcome.
#[inline(never)]
fn close(answer: Answer, stacks: &mut Stacks) -> Result<LoopStep, AllocError>
    ensures { IfOk result (λ e. (k : Option Fault) (ab : List (Option Fault)) (l : Loop) (ls : List Loop)
        → pending_of stacks.old ≡ k ∷ ab → loops_of stacks.old ≡ l ∷ ls
        → (e ≡ AfterLoop) × (values_of stacks.new ≡ outcome_view answer ∷ values_of stacks.old)
        × (pending_of stacks.new ≡ ab) × (loops_of stacks.new ≡ ls)) }
{
    let _ = pop_loop(&mut stacks.loops);
    let _ = pop_pending(&mut stacks.absorbed);
    push_answer(&mut stacks.values, answer)?;
    Ok(LoopStep::AfterLoop)
}

/// Ends the innermost loop after its last item: pops it and its slot for a
/// pending error, and pushes the macro's outcome.
#[inline(never)]
fn end_loop(alloc: Global, rule: ResultRule, stacks: &mut Stacks) -> Result<LoopStep, Refused>
    ensures value { IfOk result
        (λ e. (k : Option Fault) (ab : List (Option Fault)) (l : Loop) (ls : List Loop)
        → pending_of stacks.old ≡ k ∷ ab → loops_of stacks.old ≡ l ∷ ls
        → (e ≡ AfterLoop) × (values_of stacks.new ≡ at_end rule k l.results ∷ values_of stacks.old)
        × (pending_of stacks.new ≡ ab) × (loops_of stacks.new ≡ ls)) }
{
    match pop_pending(&mut stacks.absorbed) {
        None => Ok(LoopStep::OutOfRange),
        Some(kept) => match pop_loop(&mut stacks.loops) {
            None => Ok(LoopStep::OutOfRange),
            Some(state) => {
                let answer = outcome_after(alloc, rule, kept, state.results)?;
                push_answer(&mut stacks.values, answer)?;
                Ok(LoopStep::AfterLoop)
            }
        },
    }
}

/// Moves the innermost loop to its next item, or ends it.
#[inline(always)]
fn next_item(
    alloc: Global,
    rule: ResultRule,
    pc: usize,
    stacks: &mut Stacks,
) -> Result<LoopStep, Refused>
    ensures value { IfOk result
        (λ e. (body : ℕ) (k : Option Fault) (ab : List (Option Fault)) (l : Loop) (ls : List Loop)
        → pending_of stacks.old ≡ k ∷ ab → loops_of stacks.old ≡ l ∷ ls → l.start ≡ body → l.finish ≡ pc →
        Advances (next_iteration (at_end rule k l.results) pc k l l.rest (values_of stacks.old) ab ls)
        body pc e (values_of stacks.new) (pending_of stacks.new) (l ∷ ls) (loops_of stacks.new)) }
{
    if go_on(&mut stacks.loops) {
        Ok(LoopStep::Inside)
    } else {
        end_loop(alloc, rule, stacks)
    }
}

/// Handles the outcome at an item of `all` or `exists`. The bool `stop` ends the loop. Otherwise
/// its error, if any, is kept pending and the loop moves to its next item.
#[inline(never)]
fn take_outcome(
    alloc: Global,
    stop: bool,
    pc: usize,
    answer: Answer,
    stacks: &mut Stacks,
) -> Result<LoopStep, Refused>
    ensures value { IfOk result
        (λ e. (body : ℕ) (k : Option Fault) (ab : List (Option Fault)) (l : Loop) (ls : List Loop)
        → pending_of stacks.old ≡ k ∷ ab → loops_of stacks.old ≡ l ∷ ls → l.start ≡ body → l.finish ≡ pc →
        Advances (after_deciding_item stop pc (outcome_view answer) (values_of stacks.old) k ab l ls)
        body pc e (values_of stacks.new) (pending_of stacks.new) (l ∷ ls) (loops_of stacks.new)) }
{
    match pop_pending(&mut stacks.absorbed) {
        None => Ok(LoopStep::OutOfRange),
        Some(kept) => match absorb(alloc, stop, loop_text(stop), kept, answer)? {
            Progress::Decided => {
                let _ = pop_loop(&mut stacks.loops);
                push_answer(&mut stacks.values, Ok(Value::Bool(stop)))?;
                Ok(LoopStep::AfterLoop)
            }
            Progress::Open(last) => {
                push_pending(&mut stacks.absorbed, last)?;
                next_item(alloc, ResultRule::Decided(stop), pc, stacks)
            }
        },
    }
}

/// Adds the result at an item to the innermost loop, if there is one, and
/// moves to the next item. An error ends the loop.
fn gather(
    alloc: Global,
    kind: MacroKind,
    pc: usize,
    iteration_result: Result<Option<Value>, ExecutionError>,
    stacks: &mut Stacks,
) -> Result<LoopStep, Refused>
    ensures value { IfOk result
        (λ e. (body : ℕ) (k : Option Fault) (ab : List (Option Fault)) (l : Loop) (ls : List Loop)
        → pending_of stacks.old ≡ k ∷ ab → loops_of stacks.old ≡ l ∷ ls → l.start ≡ body → l.finish ≡ pc →
        Advances (after_collected_item kind pc
        (iteration_result_view iteration_result) (values_of stacks.old) k ab l ls)
        body pc e (values_of stacks.new) (pending_of stacks.new) (l ∷ ls) (loops_of stacks.new)) }
{
    match iteration_result {
        Err(e) => Ok(close(Err(e), stacks)?),
        Ok(None) => next_item(alloc, ResultRule::Collected(kind), pc, stacks),
        Ok(Some(value)) => {
            give(&mut stacks.loops, value)?;
            next_item(alloc, ResultRule::Collected(kind), pc, stacks)
        }
    }
}

/// Handles the outcome at an item of a macro that collects: adds the result at
/// the item, if any, and moves to the next item.
#[inline(never)]
fn collect(
    alloc: Global,
    kind: MacroKind,
    pc: usize,
    answer: Answer,
    stacks: &mut Stacks,
) -> Result<LoopStep, Refused>
    ensures value { IfOk result
        (λ e. (body : ℕ) (k : Option Fault) (ab : List (Option Fault)) (l : Loop) (ls : List Loop)
        → pending_of stacks.old ≡ k ∷ ab → loops_of stacks.old ≡ l ∷ ls → l.start ≡ body → l.finish ≡ pc →
        Advances (after_collected_item kind pc
        (iteration_result_of kind l.item [] (outcome_view answer)) (values_of stacks.old) k ab l ls)
        body pc e (values_of stacks.new) (pending_of stacks.new) (l ∷ ls) (loops_of stacks.new)) }
{
    match top_item(&stacks.loops) {
        None => Ok(LoopStep::OutOfRange),
        Some(item) => {
            let iteration_result = iteration_result(alloc, kind, item, answer)?;
            gather(alloc, kind, pc, iteration_result, stacks)
        }
    }
}

/// Handles the bool that a filter left: adds the value below
/// it if it is true, adds nothing if it is false.
#[inline(always)]
fn take_filtered_value(
    alloc: Global,
    pc: usize,
    kept: Option<bool>,
    stacks: &mut Stacks,
) -> Result<LoopStep, Refused>
    ensures value { IfOk result
        (λ e. (body : ℕ) (k : Option Fault) (ab : List (Option Fault)) (l : Loop) (ls : List Loop)
        → pending_of stacks.old ≡ k ∷ ab → loops_of stacks.old ≡ l ∷ ls → l.start ≡ body → l.finish ≡ pc →
        Advances (after_filter pc kept (values_of stacks.old) k ab l ls)
        body pc e (values_of stacks.new) (pending_of stacks.new) (l ∷ ls) (loops_of stacks.new)) }
{
    match kept {
        None => Ok(LoopStep::OutOfRange),
        Some(false) => gather(alloc, MacroKind::Map, pc, Ok(None), stacks),
        Some(true) => match pop_operand(&mut stacks.values) {
            None => Ok(LoopStep::OutOfRange),
            Some(image) => gather(alloc, MacroKind::Map, pc, Ok(Some(image)), stacks),
        },
    }
}

/// Handles the outcome at an item of a `map` with a filter.
#[inline(always)]
fn take_filtered(
    alloc: Global,
    pc: usize,
    answer: Answer,
    stacks: &mut Stacks,
) -> Result<LoopStep, Refused>
    ensures value { IfOk result
        (λ e. (body : ℕ) (k : Option Fault) (ab : List (Option Fault)) (l : Loop) (ls : List Loop)
        → pending_of stacks.old ≡ k ∷ ab → loops_of stacks.old ≡ l ∷ ls → l.start ≡ body → l.finish ≡ pc →
        Advances (after_filtered_item pc (outcome_view answer) (values_of stacks.old) k ab l ls)
        body pc e (values_of stacks.new) (pending_of stacks.new) (l ∷ ls) (loops_of stacks.new)) }
{
    match answer {
        Err(e) => gather(alloc, MacroKind::Map, pc, Err(e), stacks),
        Ok(value) => take_filtered_value(alloc, pc, value.as_bool(), stacks),
    }
}

/// Handles the outcome at an item of a `map` without a filter: adds it and
/// moves to the next item. An error ends the loop.
#[inline(always)]
fn take_image(
    alloc: Global,
    pc: usize,
    answer: Answer,
    stacks: &mut Stacks,
) -> Result<LoopStep, Refused>
    ensures value { IfOk result
        (λ e. (body : ℕ) (k : Option Fault) (ab : List (Option Fault)) (l : Loop) (ls : List Loop)
        → pending_of stacks.old ≡ k ∷ ab → loops_of stacks.old ≡ l ∷ ls → l.start ≡ body → l.finish ≡ pc →
        Advances (after_collected_item MacroKind.Map pc
        (and_then (outcome_view answer) (λ v. Ok (Some v))) (values_of stacks.old) k ab l ls)
        body pc e (values_of stacks.new) (pending_of stacks.new) (l ∷ ls) (loops_of stacks.new)) }
{
    match answer {
        Err(e) => Ok(close(Err(e), stacks)?),
        Ok(image) => {
            give(&mut stacks.loops, image)?;
            next_item(alloc, ResultRule::Collected(MacroKind::Map), pc, stacks)
        }
    }
}

/// Handles the outcome at an item of a macro of any kind.
#[inline(always)]
fn turn_back(
    alloc: Global,
    end: End,
    pc: usize,
    answer: Answer,
    stacks: &mut Stacks,
) -> Result<LoopStep, Refused>
    ensures value { IfOk result
        (λ e. (body : ℕ) (k : Option Fault) (ab : List (Option Fault)) (l : Loop) (ls : List Loop)
        → pending_of stacks.old ≡ k ∷ ab → loops_of stacks.old ≡ l ∷ ls → l.start ≡ body → l.finish ≡ pc →
        Advances
        (after_iteration end.kind end.filtered pc (outcome_view answer) (values_of stacks.old) k ab l ls)
        body pc e (values_of stacks.new) (pending_of stacks.new) (l ∷ ls) (loops_of stacks.new)) }
{
    match end.kind {
        MacroKind::All => take_outcome(alloc, false, pc, answer, stacks),
        MacroKind::Exists => take_outcome(alloc, true, pc, answer, stacks),
        MacroKind::ExistsOne => collect(alloc, MacroKind::ExistsOne, pc, answer, stacks),
        MacroKind::Map => {
            if end.filtered {
                take_filtered(alloc, pc, answer, stacks)
            } else {
                take_image(alloc, pc, answer, stacks)
            }
        }
        MacroKind::Filter => collect(alloc, MacroKind::Filter, pc, answer, stacks),
    }
}

/// Returns how a macro that collects makes its outcome, if this bool adds no result; else None.
#[inline(always)]
fn passing_by(kind: MacroKind, outcome: bool) -> Option<ResultRule>
    ensures { IfSome result (λ rule. (rule ≡ Collected kind) × (outcome ≡ false)) }
{
    if !outcome {
        Some(ResultRule::Collected(kind))
    } else {
        None
    }
}

/// Returns how a loop makes its outcome, if this bool at an item
/// neither decides it nor adds a result; else None.
#[inline(always)]
fn passing(end: End, outcome: bool) -> Option<ResultRule>
    ensures { IfSome result (λ rule.
        (p : ℕ) (vs : List Outcome) (k : Option Fault) (ab : List (Option Fault)) (l : Loop) (ls : List Loop)
        → after_iteration end.kind end.filtered p (Ok (bool outcome)) vs k ab l ls
        ≡ next_iteration (at_end rule k l.results) p k l l.rest vs ab ls) }
{
    match end.kind {
        MacroKind::All => {
            if outcome {
                Some(ResultRule::Decided(false))
            } else {
                None
            }
        }
        MacroKind::Exists => {
            if outcome {
                None
            } else {
                Some(ResultRule::Decided(true))
            }
        }
        MacroKind::ExistsOne => passing_by(MacroKind::ExistsOne, outcome),
        MacroKind::Filter => passing_by(MacroKind::Filter, outcome),
        MacroKind::Map => {
            if end.filtered {
                passing_by(MacroKind::Map, outcome)
            } else {
                None
            }
        }
    }
}

/// Returns how the innermost loop makes its outcome, if the top of the stack is a bool that
/// neither decides it nor adds a result; else None.
#[inline(always)]
fn passing_on_top(end: End, stacks: &Stacks) -> Option<ResultRule>
    ensures { IfSome result (λ rule. (pending_of stacks.now ≢ [])
        × (r : Outcome) × (vs : List Outcome) × (values_of stacks.now ≡ r ∷ vs)
        × ((p : ℕ) (k : Option Fault) (ab : List (Option Fault)) (l : Loop) (ls : List Loop)
        → after_iteration end.kind end.filtered p r vs k ab l ls
        ≡ next_iteration (at_end rule k l.results) p k l l.rest vs ab ls)) }
{
    match top(&stacks.values) {
        Some(Ok(Value::Bool(outcome))) => {
            if keeps_none(&stacks.absorbed) {
                None
            } else {
                passing(end, *outcome)
            }
        }
        _ => None,
    }
}

/// Runs the instruction at the end of a loop's body. A bool that neither decides
/// the loop nor adds a result takes a fast path.
#[inline(always)]
pub(crate) fn advance(
    alloc: Global,
    end: End,
    pc: usize,
    stacks: &mut Stacks,
) -> Result<LoopStep, Refused>
    ensures value { IfOk result (λ e. (body : ℕ) → Top body pc (loops_of stacks.old) →
        Advances (after_next end.kind end.filtered pc
        (values_of stacks.old) (pending_of stacks.old) (loops_of stacks.old))
        body pc e
        (values_of stacks.new) (pending_of stacks.new) (loops_of stacks.old) (loops_of stacks.new)) }
{
    match passing_on_top(end, stacks) {
        Some(rule) => {
            drop_answer(&mut stacks.values);
            next_item(alloc, rule, pc, stacks)
        }
        None => take_item(alloc, end, pc, stacks),
    }
}

/// Runs the instruction at the end of a loop's body, for any outcome on top.
#[inline(always)]
fn take_item(alloc: Global, end: End, pc: usize, stacks: &mut Stacks) -> Result<LoopStep, Refused>
    ensures value { IfOk result (λ e. (body : ℕ) → Top body pc (loops_of stacks.old) →
        Advances (after_next end.kind end.filtered pc
        (values_of stacks.old) (pending_of stacks.old) (loops_of stacks.old))
        body pc e
        (values_of stacks.new) (pending_of stacks.new) (loops_of stacks.old) (loops_of stacks.new)) }
{
    match pop_answer(&mut stacks.values) {
        None => Ok(LoopStep::OutOfRange),
        Some(answer) => {
            if keeps_none(&stacks.absorbed) {
                Ok(LoopStep::OutOfRange)
            } else {
                turn_back(alloc, end, pc, answer, stacks)
            }
        }
    }
}

/// The loop that an instruction ends, if any.
pub(crate) fn end_of(instr: &Instr) -> Option<End>
    ensures { MatchOption result ((p m : ℕ) → may_lead_to (op instr.now) p m ≡ nat_lt p m)
        (λ end. op instr.now ≡ next end.kind end.filtered) }
{
    match instr {
        Instr::Next { kind, filtered } => Some(End {
            kind: *kind,
            filtered: *filtered,
        }),
        _ => None,
    }
}
