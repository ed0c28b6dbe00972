//! `find` and `findAll`: the matches of a pattern in a string.
ghost use Rattle.std.specs.Prelude.{◌≡◌, All, IfOk, Some, option_map};
ghost use Rattle.cel_patterns.specs.Book.{Extends, IsSpanIn};
ghost use Rattle.cel_patterns.specs.Entries.{entries_of};
ghost use Rattle.cel_patterns.specs.Extensions.{HoldsForExtensions};
ghost use Rattle.cel_value.specs.Data as plain;
ghost use Rattle.cel_value.specs.Faults as fault;
ghost use Rattle.cel_value.specs.View.{view};
ghost use Rattle.cel_semantics.specs.Outcome.{outcome_view};
ghost use Rattle.kube_functions_strings.specs.Regex as spec;

use crate::operands::{both_texts, optional_int};
use cel_patterns::PatternBook;
use cel_semantics::operators::{Answer, no_such_overload};
use cel_value::{ExecutionError, Refused, Value};
use std::alloc::Global;

fn invalid_pattern(alloc: Global, function: &str) -> Result<ExecutionError, Refused>
    ensures value { IfOk result (λ e. fault.fault_view e ≡ fault.invalid_pattern function.now) }
{
    Ok(ExecutionError::InvalidPattern(String::from_str(alloc, function)?))
}

fn match_text(alloc: Global, text: &str, span: (usize, usize)) -> Result<Value, Refused>
    requires { IsSpanIn text.now span }
    ensures value { IfOk result (λ v. view v ≡ plain.text (spec.match_text text.now span)) }
{
    Value::from_text(alloc, String::from_str(alloc, &text[span.0..span.1])?)
}

fn first_match(alloc: Global, text: &str, spans: &[(usize, usize)]) -> Result<Value, Refused>
    requires { All (IsSpanIn text.now) spans.now }
    ensures value { IfOk result (λ v. view v ≡ spec.first_match text.now spans.now) }
{
    match spans {
        [first, ..] => match_text(alloc, text, *first),
        [] => Value::from_text(alloc, String::new(alloc)),
    }
}

fn match_texts(alloc: Global, text: &str, spans: &[(usize, usize)]) -> Result<Value, Refused>
    requires { All (IsSpanIn text.now) spans.now }
    ensures value { IfOk result (λ v. view v ≡ spec.match_texts text.now spans.now) }
{
    let mut texts = Vec::with_capacity(alloc, spans.len())?;
    for span in spans {
        texts.push(match_text(alloc, text, *span)?)?;
    }
    Value::from_items(alloc, texts)
}

// The limit that an argument sets, or None if it is absent or negative.
fn limit_of(count: Option<i64>) -> Option<usize>
    ensures { result ≡ spec.limit_of count }
{
    match count {
        Some(count) => usize::try_from(count).ok(),
        None => None,
    }
}

fn find_first(
    alloc: Global,
    text: &str,
    pattern: &str,
    book: &mut PatternBook,
) -> Result<Answer, Refused>
    ensures keeps { Extends (entries_of book.new) (entries_of book.old) }
    ensures value { IfOk result (λ r. HoldsForExtensions (entries_of book.new) (outcome_view r)
        (λ b. spec.first_found text.now pattern.now b)) }
{
    match book.find_all(pattern, text, Some(1))? {
        Some(spans) => Ok(Ok(first_match(alloc, text, spans.as_slice())?)),
        None => Ok(Err(invalid_pattern(alloc, "find")?)),
    }
}

fn find_each(
    alloc: Global,
    text: &str,
    pattern: &str,
    limit: Option<usize>,
    book: &mut PatternBook,
) -> Result<Answer, Refused>
    ensures keeps { Extends (entries_of book.new) (entries_of book.old) }
    ensures value { IfOk result (λ r. HoldsForExtensions (entries_of book.new) (outcome_view r)
        (λ b. spec.each_found text.now pattern.now limit b)) }
{
    match book.find_all(pattern, text, limit)? {
        Some(spans) => Ok(Ok(match_texts(alloc, text, spans.as_slice())?)),
        None => Ok(Err(invalid_pattern(alloc, "findAll")?)),
    }
}

/// Returns the text of a pattern's first match in a string, or an empty string if there is no
/// match. A pattern that the book refuses is an error. The book keeps its entries in any case.
///
/// # Errors
/// [`Refused::Memory`] if memory is refused.
pub fn find(
    alloc: Global,
    value: &Value,
    pattern: &Value,
    book: &mut PatternBook,
) -> Result<Answer, Refused>
    ensures keeps { Extends (entries_of book.new) (entries_of book.old) }
    ensures value { IfOk result (λ r. HoldsForExtensions (entries_of book.new) (outcome_view r)
        (λ b. spec.find_outcome (view value.now) (view pattern.now) b)) }
{
    match both_texts(value, pattern) {
        Some((text, pattern)) => find_first(alloc, text, pattern, book),
        None => Ok(Err(no_such_overload(alloc, "find")?)),
    }
}

/// Returns the texts of a pattern's matches in a string, at most `count`
/// of them if a count is given and isn't negative. A pattern that the
/// book refuses is an error. The book keeps its entries in any case.
///
/// # Errors
/// [`Refused::Memory`] if memory is refused.
pub fn find_all(
    alloc: Global,
    value: &Value,
    pattern: &Value,
    count: Option<&Value>,
    book: &mut PatternBook,
) -> Result<Answer, Refused>
    ensures keeps { Extends (entries_of book.new) (entries_of book.old) }
    ensures value { IfOk result (λ r. HoldsForExtensions (entries_of book.new) (outcome_view r)
        (λ b. spec.find_all_outcome (view value.now) (view pattern.now)
        (option_map (λ v. view v.now) count.entry) b)) }
{
    match both_texts(value, pattern) {
        Some((text, pattern)) => match optional_int(count) {
            Some(count) => find_each(alloc, text, pattern, limit_of(count), book),
            None => Ok(Err(no_such_overload(alloc, "findAll")?)),
        },
        None => Ok(Err(no_such_overload(alloc, "findAll")?)),
    }
}
