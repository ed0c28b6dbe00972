//! The results of macros.
ghost use Rattle.std.specs.Prelude.{◌≡◌, [], Ok, Err, Result, Option, IfOk, map};
ghost use Rattle.cel_value.specs.View.{view};
ghost use Rattle.cel_semantics.specs.Decisions.{truth};
ghost use Rattle.cel_semantics.specs.Macros.{item_if, iteration_result_of, made_of, macro_name, iteration_result_view};
ghost use Rattle.cel_semantics.specs.Outcome.{and_then, outcome_view};

use crate::operators::{Answer, no_such_overload};
use cel_syntax_ast::MacroKind;
use cel_value::{ExecutionError, Refused, Value};
use std::alloc::Global;

/// The name of a macro.
pub fn name_of(kind: MacroKind) -> &'static str
    ensures { result.now ≡ macro_name kind }
{
    match kind {
        MacroKind::All => "all",
        MacroKind::Exists => "exists",
        MacroKind::ExistsOne => "exists_one",
        MacroKind::Map => "map",
        MacroKind::Filter => "filter",
    }
}

/// Returns the item if the predicate of the named macro is true of
/// it. `answer` is the outcome of the predicate.
fn keep(
    alloc: Global,
    name: &str,
    item: &Value,
    answer: Answer,
) -> Result<Result<Option<Value>, ExecutionError>, Refused>
    ensures value { IfOk result (λ g. iteration_result_view g
        ≡ and_then (truth name.now (outcome_view answer)) (λ b. Ok (item_if (view item.now) b))) }
{
    match answer {
        Ok(Value::Bool(true)) => Ok(Ok(Some(item.try_clone()?))),
        Ok(Value::Bool(false)) => Ok(Ok(None)),
        Ok(_) => Ok(Err(no_such_overload(alloc, name)?)),
        Err(error) => Ok(Err(error)),
    }
}

/// Returns what an item adds to the result of a macro without a filter: a value, nothing, or an
/// error. `answer` is the outcome of the macro's body at the item.
///
/// # Errors
/// Only [`Refused::Memory`], if memory is refused.
pub fn iteration_result(
    alloc: Global,
    kind: MacroKind,
    item: &Value,
    answer: Answer,
) -> Result<Result<Option<Value>, ExecutionError>, Refused>
    ensures value { IfOk result (λ g. iteration_result_view g
        ≡ iteration_result_of kind (view item.now) [] (outcome_view answer)) }
{
    match kind {
        MacroKind::All => keep(alloc, "all", item, answer),
        MacroKind::Exists => keep(alloc, "exists", item, answer),
        MacroKind::ExistsOne => keep(alloc, "exists_one", item, answer),
        MacroKind::Filter => keep(alloc, "filter", item, answer),
        MacroKind::Map => match answer {
            Ok(value) => Ok(Ok(Some(value))),
            Err(fault) => Ok(Err(fault)),
        },
    }
}

/// Makes the result of a macro from what its items added.
///
/// # Errors
/// Only [`Refused::Memory`], if memory is refused.
pub fn finish(alloc: Global, kind: MacroKind, given: Vec<Value>) -> Result<Answer, Refused>
    ensures value { IfOk result (λ r. outcome_view r ≡ made_of kind (map view given.items)) }
{
    match kind {
        MacroKind::ExistsOne => Ok(Ok(Value::Bool(given.len() == 1))),
        MacroKind::All => Ok(Ok(Value::from_items(alloc, given)?)),
        MacroKind::Exists => Ok(Ok(Value::from_items(alloc, given)?)),
        MacroKind::Map => Ok(Ok(Value::from_items(alloc, given)?)),
        MacroKind::Filter => Ok(Ok(Value::from_items(alloc, given)?)),
    }
}
