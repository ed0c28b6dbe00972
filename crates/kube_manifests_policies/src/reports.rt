//! Evaluates the entries of a policy's lists and reports their results.
ghost use Rattle.cel.specs.Checks.{check_view, error_view, judgement, judgement_view, unread_in};
ghost use Rattle.cel.specs.Program.{program_term};
ghost use Rattle.cel.specs.Book.{Extends};
ghost use Rattle.cel.specs.Entries.{entries_of};
ghost use Rattle.cel.specs.Extensions.{HoldsForExtensions};
ghost use Rattle.cel.specs.Outcome.{outcome_view};
ghost use Rattle.cel_value.specs.Parts.{text_in};
ghost use Rattle.cel_value.specs.View.{view};
ghost use Rattle.kube_manifests_policies.specs.Reports.{annotation_outcome, annotation_report, annotation_value, condition_report, false_condition, false_report, is_line_feed, is_message, is_null, judged_report, message_from, message_or, message_outcome, message_report, message_value, not_bool_report, own_message, quoted, report_as, result_as, results_as, text_or_nothing, validation_report, validation_with};
ghost use Rattle.kube_manifests_documents.specs.Policies.{item_view};
ghost use Rattle.kube_manifests_policies.specs.Scopes.{outcome_or_reason, outcome_seen, scope_view, unread_report};
ghost use Rattle.kube_manifests_policies.specs.Verdicts.{report_text, report_view, result_view};
ghost use Rattle.std.specs.List.{list_any};
ghost use Rattle.std.specs.Prelude.{◌≡◌, ◌++◌, codes, IfOk, map, None, option_map, string_bytes};

use crate::scope::{Scope, evaluate, fault_report, reach, unread_report};
use crate::verdict::{ItemReport, PolicyResult, with_report};
use cel::{
    Answer, Check, CheckError, Judgement, Kind, ParseErrors, PatternBook, Program, Untyped, Value,
    judge,
};
use kube_manifests_documents::Item;
use kube_types::Refused;
use std::alloc::{AllocError, Global};

/// The most bytes that the text of a messageExpression may have: 5 KiB.
const LONGEST_MESSAGE: usize = 5120;

/// The list that an expression belongs to.
#[derive(Clone, Copy, Drop)]
pub(crate) enum Subject {
    /// A match condition.
    Condition,
    /// A validation.
    Validation,
    /// An audit annotation.
    Annotation,
}

/// Returns the report of an entry that should be a bool, but is of this kind.
fn not_bool_report(alloc: Global, kind: Kind) -> Result<ItemReport, AllocError>
    ensures { IfOk result (λ t. report_view t ≡ not_bool_report kind) }
{
    let message = format!(in alloc; "expression returned non-boolean: {kind}")?;
    Ok(ItemReport::NotCompiled(message))
}

fn is_null(kind: Kind) -> bool
    ensures { result ≡ is_null kind }
{
    matches!(kind, Kind::Null)
}

/// Returns the report of an audit annotation's text: null if it is empty.
fn text_or_nothing(alloc: Global, text: &str) -> Result<ItemReport, AllocError>
    ensures { IfOk result (λ t. report_view t ≡ text_or_nothing text.now) }
{
    if text.is_empty() {
        return Ok(ItemReport::Null);
    }
    Ok(ItemReport::Text(String::from_str(alloc, text)?))
}

/// Returns the report of an audit annotation with this value.
fn annotation_value(alloc: Global, value: &Value) -> Result<ItemReport, AllocError>
    ensures { IfOk result (λ t. report_view t ≡ annotation_value (view value.now)) }
{
    if let Some(text) = value.as_str() {
        return text_or_nothing(alloc, text);
    }
    let kind = value.type_of();
    if is_null(kind) {
        return Ok(ItemReport::Null);
    }
    let message = format!(in alloc; "expression returned neither a string nor null: {kind}")?;
    Ok(ItemReport::NotCompiled(message))
}

/// Returns the report of an audit annotation with this outcome.
fn annotation_outcome(alloc: Global, answer: Answer) -> Result<ItemReport, AllocError>
    ensures { IfOk result (λ t. report_view t ≡ annotation_outcome (outcome_view answer)) }
{
    match answer {
        Ok(value) => {
            let reported = annotation_value(alloc, &value);
            drop(value);
            reported
        }
        Err(fault) => fault_report(alloc, &fault),
    }
}

/// Evaluates an audit annotation.
#[tactic(auto, unfolding(crate::specs::Reports::annotation_report))]
fn annotation_report(
    alloc: Global,
    item: &Item<'_>,
    scope: &Scope<'_>,
    book: &mut PatternBook,
) -> Result<ItemReport, Refused>
    ensures keeps { Extends (entries_of book.new) (entries_of book.old) }
    ensures reported { IfOk result (λ t. HoldsForExtensions (entries_of book.new) (report_view t)
        (λ b. annotation_report (outcome_or_reason b (scope_view scope.now)) (item_view item.now))) }
{
    match evaluate(alloc, item.expression, scope, book)? {
        Err(reported) => Ok(reported),
        Ok(answer) => {
            let reported = annotation_outcome(alloc, answer)?;
            Ok(reported)
        }
    }
}

/// Returns the report of a match condition that is false.
fn false_condition(alloc: Global, name: &str) -> Result<ItemReport, AllocError>
    ensures { IfOk result (λ t. report_view t ≡ false_condition name.now None) }
{
    let message = format!(in alloc; "match condition '{name}' is false")?;
    Ok(ItemReport::False(message))
}

/// Returns the report of a match condition by what it is judged to be.
fn judged_condition(
    alloc: Global,
    name: &str,
    judgement: &Judgement<Result<Answer, ItemReport>>,
) -> Result<ItemReport, AllocError>
    ensures { IfOk result (λ t. report_view t
        ≡ judged_report (false_condition name.now) (judgement_view outcome_seen judgement.now)) }
{
    match judgement {
        Judgement::True => Ok(ItemReport::True),
        Judgement::False(_) => false_condition(alloc, name),
        Judgement::NotBool(kind) => not_bool_report(alloc, *kind),
        Judgement::Error(fault) => fault_report(alloc, fault),
    }
}

/// Returns the report of a match condition with this outcome.
fn condition_with(
    alloc: Global,
    name: &str,
    answer: Answer,
    scope: &Scope<'_>,
    book: &mut PatternBook,
) -> Result<ItemReport, Refused>
    ensures keeps { Extends (entries_of book.new) (entries_of book.old) }
    ensures reported { IfOk result (λ t. HoldsForExtensions (entries_of book.new) (report_view t)
        (λ b. judged_report (false_condition name.now) (judgement None (outcome_view answer)))) }
{
    let judgement = judge(alloc, answer, &None, scope, book)?;
    let reported = judged_condition(alloc, name, &judgement);
    drop(judgement);
    Ok(reported?)
}

/// Evaluates a match condition.
#[tactic(auto, unfolding(crate::specs::Reports::condition_report))]
fn condition_report(
    alloc: Global,
    item: &Item<'_>,
    scope: &Scope<'_>,
    book: &mut PatternBook,
) -> Result<ItemReport, Refused>
    ensures keeps { Extends (entries_of book.new) (entries_of book.old) }
    ensures reported { IfOk result (λ t. HoldsForExtensions (entries_of book.new) (report_view t)
        (λ b. condition_report (outcome_or_reason b (scope_view scope.now)) (item_view item.now))) }
{
    match evaluate(alloc, item.expression, scope, book)? {
        Err(reported) => Ok(reported),
        Ok(answer) => {
            let settled = condition_with(alloc, item.label, answer, scope, book)?;
            Ok(settled)
        }
    }
}

/// Returns a message that quotes an expression.
fn quoted(alloc: Global, expression: &str) -> Result<String, AllocError>
    ensures { IfOk result (λ s. string_bytes s ≡ quoted expression.now) }
{
    let trimmed = expression.trim();
    format!(in alloc; "failed expression: {trimmed}")
}

/// Returns the text of a message or, if it is empty, one that quotes an expression.
fn message_or(alloc: Global, text: &str, expression: &str) -> Result<String, AllocError>
    ensures { IfOk result (λ s. string_bytes s ≡ message_or text.now expression.now) }
{
    if text.is_empty() {
        return quoted(alloc, expression);
    }
    String::from_str(alloc, text)
}

/// Returns the message of a false validation: its `message` or, if that is blank or missing, one
/// that quotes its expression.
fn own_message(alloc: Global, item: &Item<'_>) -> Result<String, AllocError>
    ensures { IfOk result (λ s. string_bytes s ≡ own_message (item_view item.now)) }
{
    match item.message {
        None => quoted(alloc, item.expression),
        Some(message) => message_or(alloc, message.trim(), item.expression),
    }
}

/// Reports whether a text has a line break.
fn has_line_feed(text: &str) -> bool
    ensures { result ≡ list_any is_line_feed text.now }
{
    for byte in text.as_bytes() {
        if *byte == 10 {
            return true;
        }
    }
    false
}

/// Reports whether the text of a messageExpression is taken for the message.
fn is_message(text: &str) -> bool
    ensures { result ≡ is_message text.now }
{
    !text.is_empty() && !has_line_feed(text) && !(text.len() > LONGEST_MESSAGE)
}

/// Returns the message of a false validation whose messageExpression has this text.
fn message_from(alloc: Global, item: &Item<'_>, text: &str) -> Result<String, AllocError>
    ensures { IfOk result (λ s. string_bytes s ≡ message_from (item_view item.now) text.now) }
{
    if is_message(text) {
        return String::from_str(alloc, text);
    }
    own_message(alloc, item)
}

/// Returns the report of a false validation whose messageExpression has this value.
fn message_value(alloc: Global, item: &Item<'_>, value: &Value) -> Result<ItemReport, AllocError>
    ensures { IfOk result (λ t. report_view t
        ≡ message_value (item_view item.now) (view value.now) (text_in (view value.now))) }
{
    match value.as_str() {
        Some(text) => Ok(ItemReport::False(message_from(alloc, item, text.trim())?)),
        None => {
            let kind = value.type_of();
            let message = format!(in alloc; "messageExpression returned non-string: {kind}")?;
            Ok(ItemReport::NotCompiled(message))
        }
    }
}

/// Returns the report of a false validation whose messageExpression has this outcome.
fn message_outcome(
    alloc: Global,
    item: &Item<'_>,
    answer: &Answer,
) -> Result<ItemReport, AllocError>
    ensures { IfOk result (λ t. report_view t
        ≡ message_outcome (item_view item.now) (outcome_view answer.now)) }
{
    match answer {
        Ok(value) => message_value(alloc, item, value),
        Err(_) => Ok(ItemReport::False(own_message(alloc, item)?)),
    }
}

/// Returns the validation's own message, followed by the reason why its messageExpression wasn't
/// evaluated.
fn message_with(alloc: Global, item: &Item<'_>, reported: &ItemReport) -> Result<String, AllocError>
    ensures { IfOk result (λ s. string_bytes s
        ≡ own_message (item_view item.now)
        ++ (codes " (messageExpression: " ++ (report_text (report_view reported.now) ++ codes ")"))) }
{
    let own = own_message(alloc, item)?;
    format!(in alloc; "{own} (messageExpression: {reported})")
}

/// Returns the report of a false validation, given the result of its messageExpression.
fn message_report(
    alloc: Global,
    item: &Item<'_>,
    reached: &Result<Answer, ItemReport>,
) -> Result<ItemReport, AllocError>
    ensures { IfOk result (λ t. report_view t
        ≡ message_report (item_view item.now) (outcome_seen reached.now)) }
{
    match reached {
        Ok(answer) => message_outcome(alloc, item, answer),
        Err(reported) => Ok(ItemReport::False(message_with(alloc, item, reported)?)),
    }
}

/// Returns the report of a false validation, given the result of its messageExpression, if it has
/// one.
fn false_report(
    alloc: Global,
    item: &Item<'_>,
    message: &Option<Result<Answer, ItemReport>>,
) -> Result<ItemReport, AllocError>
    ensures { IfOk result (λ t. report_view t
        ≡ false_report (item_view item.now) (option_map outcome_seen message.now)) }
{
    match message {
        Some(reached) => message_report(alloc, item, reached),
        None => Ok(ItemReport::False(own_message(alloc, item)?)),
    }
}

/// Returns the report of a validation by what it is judged to be.
fn judged_validation(
    alloc: Global,
    item: &Item<'_>,
    judgement: &Judgement<Result<Answer, ItemReport>>,
) -> Result<ItemReport, AllocError>
    ensures { IfOk result (λ t. report_view t
        ≡ judged_report (false_report (item_view item.now)) (judgement_view outcome_seen judgement.now)) }
{
    match judgement {
        Judgement::True => Ok(ItemReport::True),
        Judgement::False(message) => false_report(alloc, item, message),
        Judgement::NotBool(kind) => not_bool_report(alloc, *kind),
        Judgement::Error(fault) => fault_report(alloc, fault),
    }
}

/// Returns the report of a validation whose expression has this outcome.
fn outcome_report(
    alloc: Global,
    item: &Item<'_>,
    answer: Answer,
    message_program: &Option<Program>,
    scope: &Scope<'_>,
    book: &mut PatternBook,
) -> Result<ItemReport, Refused>
    ensures keeps { Extends (entries_of book.new) (entries_of book.old) }
    ensures reported { IfOk result (λ t. HoldsForExtensions (entries_of book.new) (report_view t)
        (λ b. judged_report (false_report (item_view item.now)) (judgement
        (option_map (outcome_or_reason b (scope_view scope.now)) (option_map program_term message_program.now))
        (outcome_view answer)))) }
{
    let judgement = judge(alloc, answer, message_program, scope, book)?;
    let reported = judged_validation(alloc, item, &judgement);
    drop(judgement);
    Ok(reported?)
}

/// Evaluates a validation, given its programs.
#[tactic(auto, unfolding(crate::specs::Reports::validation_with))]
fn validation_with(
    alloc: Global,
    item: &Item<'_>,
    check: &Check,
    scope: &Scope<'_>,
    book: &mut PatternBook,
) -> Result<ItemReport, Refused>
    ensures keeps { Extends (entries_of book.new) (entries_of book.old) }
    ensures reported { IfOk result (λ t. HoldsForExtensions (entries_of book.new) (report_view t)
        (λ b. validation_with (outcome_or_reason b (scope_view scope.now))
        (item_view item.now) (check_view check.now))) }
{
    match reach(alloc, &check.program, scope, book)? {
        Err(reported) => Ok(reported),
        Ok(answer) => {
            let message = &check.message_program;
            let settled = outcome_report(alloc, item, answer, message, scope, book)?;
            Ok(settled)
        }
    }
}

/// Returns the report of a validation one of whose texts doesn't parse.
fn unread_validation(
    alloc: Global,
    text: &str,
    error: &CheckError<'_, ParseErrors>,
) -> Result<ItemReport, AllocError>
    ensures { IfOk result (λ t. report_view t ≡ unread_report (unread_in text.now (error_view error.now))) }
{
    match error {
        CheckError::Expression(errors) => unread_report(alloc, text, errors),
        CheckError::MessageExpression(text, errors) => unread_report(alloc, *text, errors),
    }
}

/// Evaluates a validation.
#[tactic(auto, unfolding(crate::specs::Reports::validation_report))]
fn validation_report(
    alloc: Global,
    item: &Item<'_>,
    scope: &Scope<'_>,
    book: &mut PatternBook,
) -> Result<ItemReport, Refused>
    ensures keeps { Extends (entries_of book.new) (entries_of book.old) }
    ensures reported { IfOk result (λ t. HoldsForExtensions (entries_of book.new) (report_view t)
        (λ b. validation_report (outcome_or_reason b (scope_view scope.now)) (item_view item.now))) }
{
    match Check::compile(alloc, &Untyped, item.expression, item.message_expression)? {
        Err(error) => Ok(unread_validation(alloc, item.expression, &error)?),
        Ok(check) => {
            let reported = validation_with(alloc, item, &check, scope, book);
            drop(check);
            reported
        }
    }
}

/// Evaluates an entry and returns its report.
fn report_as(
    alloc: Global,
    subject: Subject,
    item: &Item<'_>,
    scope: &Scope<'_>,
    book: &mut PatternBook,
) -> Result<ItemReport, Refused>
    ensures keeps { Extends (entries_of book.new) (entries_of book.old) }
    ensures reported { IfOk result (λ t. HoldsForExtensions (entries_of book.new) (report_view t)
        (λ b. report_as subject (outcome_or_reason b (scope_view scope.now)) (item_view item.now))) }
{
    match subject {
        Subject::Condition => condition_report(alloc, item, scope, book),
        Subject::Validation => validation_report(alloc, item, scope, book),
        Subject::Annotation => annotation_report(alloc, item, scope, book),
    }
}

/// Evaluates an entry and returns its report with its label.
#[tactic(auto, unfolding(crate::specs::Reports::result_as))]
fn result_as(
    alloc: Global,
    subject: Subject,
    item: &Item<'_>,
    scope: &Scope<'_>,
    book: &mut PatternBook,
) -> Result<PolicyResult, Refused>
    ensures keeps { Extends (entries_of book.new) (entries_of book.old) }
    ensures reported { IfOk result (λ r. HoldsForExtensions (entries_of book.new) (result_view r)
        (λ b. result_as subject (outcome_or_reason b (scope_view scope.now)) (item_view item.now))) }
{
    let reported = report_as(alloc, subject, item, scope, book)?;
    let judged = with_report(alloc, item.label, reported)?;
    Ok(judged)
}

/// Evaluates entries and returns their results, one for each, in order.
pub(crate) fn results_as(
    alloc: Global,
    subject: Subject,
    items: &[Item<'_>],
    scope: &Scope<'_>,
    book: &mut PatternBook,
) -> Result<Vec<PolicyResult>, Refused>
    ensures keeps { Extends (entries_of book.new) (entries_of book.old) }
    ensures reported { IfOk result (λ v. HoldsForExtensions (entries_of book.new) (map result_view v.items)
        (λ b. results_as subject (outcome_or_reason b (scope_view scope.now)) (map item_view items.now))) }
{
    let mut results = Vec::with_capacity(alloc, items.len())?;
    for item in items {
        let judged = result_as(alloc, subject, item, scope, book)?;
        results.push(judged)?;
    }
    Ok(results)
}
