//! The result of one expression.
ghost use Rattle.cel.specs.Checks.{check_view, false_message, judgement, judgement_view};
ghost use Rattle.cel.specs.Book.{Extends};
ghost use Rattle.cel.specs.Entries.{entries_of};
ghost use Rattle.cel.specs.Extensions.{HoldsForExtensions};
ghost use Rattle.cel.specs.Bindings.{bindings_of};
ghost use Rattle.cel.specs.Outcome.{outcome_view};
ghost use Rattle.kube_cel_vap.specs.Validations.{result_view};
ghost use Rattle.kube_cel_vap.specs.Expressions.{compiled_seen, compiled_view, error_view, unread_text};
ghost use Rattle.kube_cel_vap.specs.Results.{compiled_result, judged_message, message_in, outcome_in, own_message, result_with};
ghost use Rattle.kube_cel_vap.specs.CallResults.{AreResultsUnder};
ghost use Rattle.std.specs.Prelude.{◌≡◌, IfOk, map, option_map, Some, string_bytes};

use crate::compilation::{CompiledVapExpression, VapError};
use crate::context::PolicyContext;
use crate::expression::VapResult;
use cel::{Answer, Check, Judgement, PatternBook, judge, message_text};
use kube_types::Refused;
use std::alloc::{AllocError, Global};

/// Returns the result of an expression with this message. It passed if there is none.
fn result_with(
    alloc: Global,
    expression: &str,
    message: Option<String>,
) -> Result<VapResult, AllocError>
    ensures { IfOk result (λ r. result_view r
        ≡ result_with expression.now (option_map string_bytes message)) }
{
    Ok(VapResult {
        expression: String::from_str(alloc, expression)?,
        passed: message.is_none(),
        message,
    })
}

/// Returns the message of an expression or, if it has none, a message made of its text.
fn own_message(alloc: Global, compiled: &CompiledVapExpression) -> Result<String, AllocError>
    ensures { IfOk result (λ s. string_bytes s ≡ own_message (compiled_view compiled.now)) }
{
    if let Some(message) = &compiled.message {
        let copied = message.clone()?;
        return Ok(copied);
    }
    let text = compiled.text();
    let made = format!(in alloc; "validation expression '{text}' evaluated to false")?;
    Ok(made)
}

/// Returns the message of an expression that is false: the string that
/// its messageExpression evaluated to, if it did, else its own message.
fn false_message(
    alloc: Global,
    compiled: &CompiledVapExpression,
    evaluated: &Option<Answer>,
) -> Result<String, AllocError>
    ensures { IfOk result (λ s. string_bytes s
        ≡ false_message (own_message (compiled_view compiled.now)) (option_map outcome_view evaluated.now)) }
{
    match message_text(evaluated) {
        Some(text) => String::from_str(alloc, text),
        None => own_message(alloc, compiled),
    }
}

/// Returns the message of an expression by what it is judged to be; None if it is true.
fn judged_message(
    alloc: Global,
    compiled: &CompiledVapExpression,
    judgement: &Judgement<Answer>,
) -> Result<Option<String>, AllocError>
    ensures { IfOk result (λ o. option_map string_bytes o
        ≡ judged_message (compiled_view compiled.now) (judgement_view outcome_view judgement.now)) }
{
    let message = match judgement {
        Judgement::True => return Ok(None),
        Judgement::False(evaluated) => false_message(alloc, compiled, evaluated),
        Judgement::NotBool(kind) => format!(in alloc; "expression returned non-boolean: {kind}"),
        Judgement::Error(error) => format!(in alloc; "evaluation error: {error}"),
    };
    Ok(Some(message?))
}

/// Evaluates a compiled expression and judges it.
#[tactic(auto, unfolding(crate::specs::Results::outcome_in))]
fn judged(
    alloc: Global,
    check: &Check,
    context: &PolicyContext<'_>,
    book: &mut PatternBook,
) -> Result<Judgement<Answer>, Refused>
    ensures keeps { Extends (entries_of book.new) (entries_of book.old) }
    ensures judged { IfOk result
        (λ j. HoldsForExtensions (entries_of book.new) (judgement_view outcome_view j)
        (λ b. judgement (option_map (outcome_in b (bindings_of context.now)) (check_view check.now).message_tree)
        (outcome_in b (bindings_of context.now) (check_view check.now).tree))) }
{
    let outcome = check.program.execute_with(alloc, context, book)?;
    judge(alloc, outcome, &check.message_program, context, book)
}

/// Evaluates a compiled expression. Returns its message; None if it is true.
#[tactic(auto, unfolding(crate::specs::Results::message_in))]
fn message_of(
    alloc: Global,
    compiled: &CompiledVapExpression,
    context: &PolicyContext<'_>,
    book: &mut PatternBook,
) -> Result<Option<String>, Refused>
    ensures keeps { Extends (entries_of book.new) (entries_of book.old) }
    ensures reported { IfOk result (λ o. HoldsForExtensions (entries_of book.new) (option_map string_bytes o)
        (λ b. message_in b (bindings_of context.now) (compiled_view compiled.now))) }
{
    let judgement = judged(alloc, &compiled.check, context, book)?;
    let message = judged_message(alloc, compiled, &judgement);
    drop(judgement);
    Ok(message?)
}

/// Returns the result of an expression that doesn't compile.
fn unread_result(alloc: Global, error: &VapError) -> Result<VapResult, AllocError>
    ensures { IfOk result (λ r. result_view r
        ≡ result_with (error_view error.now).original (Some (unread_text (error_view error.now)))) }
{
    let message = format!(in alloc; "{error}")?;
    result_with(alloc, error.original.as_str(), Some(message))
}

/// Returns the result of one expression.
fn result_of(
    alloc: Global,
    compiled: &Result<CompiledVapExpression, VapError>,
    context: &PolicyContext<'_>,
    book: &mut PatternBook,
) -> Result<VapResult, Refused>
    ensures keeps { Extends (entries_of book.new) (entries_of book.old) }
    ensures reported { IfOk result (λ r. HoldsForExtensions (entries_of book.new) (result_view r)
        (λ b. compiled_result b (bindings_of context.now) (compiled_seen compiled.now))) }
{
    match compiled {
        Err(error) => Ok(unread_result(alloc, error)?),
        Ok(compiled) => {
            let message = message_of(alloc, compiled, context, book)?;
            let judged = result_with(alloc, compiled.text(), message)?;
            Ok(judged)
        }
    }
}

/// Returns the results of expressions, one for each, in order.
pub(crate) fn results_of(
    alloc: Global,
    compiled: &[Result<CompiledVapExpression, VapError>],
    context: &PolicyContext<'_>,
    book: &mut PatternBook,
) -> Result<Vec<VapResult>, Refused>
    ensures keeps { Extends (entries_of book.new) (entries_of book.old) }
    ensures reported { IfOk result (λ v. AreResultsUnder (entries_of book.new) (bindings_of context.now)
        (map compiled_seen compiled.now) v.items) }
{
    let mut results = Vec::with_capacity(alloc, compiled.len())?;
    for one in compiled {
        let judged = result_of(alloc, one, context, book)?;
        results.push(judged)?;
    }
    Ok(results)
}
