//! The functions that take a pattern, which an API server reads in the syntax of RE2.
ghost use Rattle.std.specs.Prelude.{◌≡◌, IfOk, option_map, string_bytes};
ghost use Rattle.cel_patterns.specs.Book.{Extends};
ghost use Rattle.cel_patterns.specs.Entries.{entries_of};
ghost use Rattle.cel_patterns.specs.Extensions.{HoldsForExtensions};
ghost use Rattle.cel_stdlib.specs.Strings.{matches, pattern_found};
ghost use Rattle.cel_value.specs.Data as plain;
ghost use Rattle.cel_value.specs.Faults.{fault_view};
ghost use Rattle.cel_value.specs.View.{view};
ghost use Rattle.cel_semantics.specs.Outcome.{outcome_view};
ghost use Rattle.kube_server_functions.specs.Patterns as spec;
ghost use Rattle.kube_server_patterns.specs.Translation.{text_of};

use crate::operands::Operands;
use cel_patterns::PatternBook;
use cel_semantics::operators::{Answer, no_such_overload};
use cel_value::{ExecutionError, Refused, Value};
use kube_functions_strings::{find, find_all};
use kube_server_patterns::{Limit, Refusal, translate};
use std::alloc::Global;

fn takes_pattern(name: &str) -> bool
    ensures { result ≡ spec.takes_pattern name.now }
{
    name == "matches" || name == "find" || name == "findAll"
}

/// Returns the text and the pattern, if the function takes them.
pub(crate) fn pattern_in<'a>(name: &str, operands: Operands<'a>) -> Option<(&'a Value, &'a str)>
    ensures { option_map (λ found. ((view found.0.now), found.1.now)) result
        ≡ spec.pattern_in name.now (option_map (λ v. view v.now) operands.entry.first)
        (option_map (λ v. view v.now) operands.entry.second) }
{
    match (operands.first, operands.second) {
        (Some(value), Some(Value::String(pattern))) => match value {
            Value::String(_) => {
                if takes_pattern(name) {
                    Some((value, pattern.as_str()))
                } else {
                    None
                }
            }
            _ => None,
        },
        _ => None,
    }
}

fn limit_name(limit: Limit) -> &'static str
    ensures { result.now ≡ spec.limit_name limit }
{
    match limit {
        Limit::UnicodeClass => "class of Unicode in a pattern",
        Limit::NotWordBoundary => "\\B in a pattern",
        Limit::Surrogate => "surrogate in a pattern",
        Limit::FoldedCharacter => "character beyond ASCII in a pattern without case",
        Limit::FoldedClass => "class in a pattern without case",
        Limit::ColonInBrackets => "[: in a pattern",
        Limit::RepeatedRepetition => "repeated repetition in a pattern",
        Limit::DeepGroups => "deep groups in a pattern",
    }
}

/// The error of a pattern that isn't translated.
fn not_translated(alloc: Global, name: &str, refusal: Refusal) -> Result<ExecutionError, Refused>
    ensures value { IfOk result (λ e. fault_view e ≡ spec.not_translated name.now refusal) }
{
    match refusal {
        Refusal::Invalid => Ok(ExecutionError::InvalidPattern(String::from_str(alloc, name)?)),
        Refusal::Unsupported(limit) => Ok(ExecutionError::UndeclaredReference(String::from_str(
            alloc,
            limit_name(limit),
        )?)),
    }
}

/// The error, or that a pattern is too large if the book refused it.
fn of_pattern(alloc: Global, error: ExecutionError) -> Result<ExecutionError, Refused>
    ensures value { IfOk result (λ e. fault_view e ≡ spec.of_pattern (fault_view error)) }
{
    match error {
        ExecutionError::InvalidPattern(_) => Ok(ExecutionError::UndeclaredReference(
            String::from_str(alloc, "large pattern")?,
        )),
        other => Ok(other),
    }
}

fn judged(alloc: Global, answer: Answer) -> Result<Answer, Refused>
    ensures value { IfOk result (λ r. outcome_view r ≡ spec.judged (outcome_view answer)) }
{
    match answer {
        Ok(value) => Ok(Ok(value)),
        Err(error) => Ok(Err(of_pattern(alloc, error)?)),
    }
}

fn found(alloc: Global, answer: Option<bool>) -> Result<Answer, Refused>
    ensures value { IfOk result (λ r. outcome_view r ≡ pattern_found answer) }
{
    match answer {
        Some(found) => Ok(Ok(Value::Bool(found))),
        None => Ok(Err(ExecutionError::InvalidPattern(String::from_str(alloc, "matches")?))),
    }
}

/// Reports whether a pattern matches anywhere in a string.
fn matched(
    alloc: Global,
    value: &Value,
    pattern: &Value,
    book: &mut PatternBook,
) -> Result<Answer, Refused>
    ensures keeps { Extends (entries_of book.new) (entries_of book.old) }
    ensures value { IfOk result (λ r. HoldsForExtensions (entries_of book.new) (outcome_view r)
        (λ b. matches (view value.now) (view pattern.now) b)) }
{
    match (value, pattern) {
        (Value::String(text), Value::String(pattern)) => {
            let answer = book.matches(pattern.as_str(), text.as_str())?;
            found(alloc, answer)
        }
        _ => Ok(Err(no_such_overload(alloc, "matches")?)),
    }
}

fn answer_by_name(
    alloc: Global,
    name: &str,
    value: &Value,
    pattern: &Value,
    third: Option<&Value>,
    book: &mut PatternBook,
) -> Result<Answer, Refused>
    ensures keeps { Extends (entries_of book.new) (entries_of book.old) }
    ensures value { IfOk result (λ r. HoldsForExtensions (entries_of book.new) (outcome_view r)
        (λ b. spec.answer_by_name name.now (view value.now) (view pattern.now)
        (option_map (λ v. view v.now) third.entry) b)) }
{
    match name {
        "find" => find(alloc, value, pattern, book),
        "findAll" => find_all(alloc, value, pattern, third, book),
        _ => matched(alloc, value, pattern, book),
    }
}

fn judged_by_name(
    alloc: Global,
    name: &str,
    value: &Value,
    pattern: &Value,
    third: Option<&Value>,
    book: &mut PatternBook,
) -> Result<Answer, Refused>
    ensures keeps { Extends (entries_of book.new) (entries_of book.old) }
    ensures value { IfOk result (λ r. HoldsForExtensions (entries_of book.new) (outcome_view r)
        (λ b. spec.judged (spec.answer_by_name name.now (view value.now) (view pattern.now)
        (option_map (λ v. view v.now) third.entry) b))) }
{
    judged(
        alloc,
        answer_by_name(alloc, name, value, pattern, third, book)?,
    )
}

fn answer_by_translation(
    alloc: Global,
    name: &str,
    value: &Value,
    pattern: String,
    third: Option<&Value>,
    book: &mut PatternBook,
) -> Result<Answer, Refused>
    ensures keeps { Extends (entries_of book.new) (entries_of book.old) }
    ensures value { IfOk result (λ r. HoldsForExtensions (entries_of book.new) (outcome_view r)
        (λ b. spec.judged (spec.answer_by_name name.now (view value.now) (plain.text (string_bytes pattern))
        (option_map (λ v. view v.now) third.entry) b))) }
{
    let pattern = Value::from_text(alloc, pattern)?;
    judged_by_name(alloc, name, value, &pattern, third, book)
}

/// Answers a call of a function that takes a pattern.
///
/// # Errors
/// [`Refused::Memory`] if memory is refused.
pub(crate) fn answer_by_pattern(
    alloc: Global,
    name: &str,
    value: &Value,
    pattern: &str,
    third: Option<&Value>,
    book: &mut PatternBook,
) -> Result<Answer, Refused>
    ensures keeps { Extends (entries_of book.new) (entries_of book.old) }
    ensures value { IfOk result (λ r. HoldsForExtensions (entries_of book.new) (outcome_view r)
        (λ b. spec.answer_by_pattern name.now (view value.now) pattern.now
        (option_map (λ v. view v.now) third.entry) b)) }
{
    match translate(alloc, pattern)? {
        Ok(translated) => answer_by_translation(alloc, name, value, translated, third, book),
        Err(refusal) => Ok(Err(not_translated(alloc, name, refusal)?)),
    }
}
