//! The string tests `contains`, `startsWith`, `endsWith` and `matches`.
ghost use Rattle.std.specs.Prelude.{◌≡◌, nat_eq, IfOk, option_map};
ghost use Rattle.std.specs.List.{starts_with, ends_with};
ghost use Rattle.cel_patterns.specs.Book.{Extends, matched_by};
ghost use Rattle.cel_patterns.specs.Entries.{entries_of};
ghost use Rattle.cel_patterns.specs.Extensions.{HoldsForExtensions};
ghost use Rattle.cel_value.specs.Faults as fault;
ghost use Rattle.cel_value.specs.View.{view};
ghost use Rattle.cel_semantics.specs.Outcome.{outcome_view};
ghost use Rattle.cel_stdlib.specs.Strings as spec;

use cel_patterns::PatternBook;
use cel_semantics::operators::{Answer, no_such_overload};
use cel_value::{ExecutionError, Refused, Value};
use std::alloc::Global;

fn both_texts<'a>(value: &'a Value, other: &'a Value) -> Option<(&'a str, &'a str)>
    ensures { option_map (λ p. (p.0.now, p.1.now)) result ≡ spec.texts_in (view value.now) (view other.now) }
{
    match value.as_str() {
        Some(text) => match other.as_str() {
            Some(part) => Some((text, part)),
            None => None,
        },
        None => None,
    }
}

fn has_part(text: &str, part: &str) -> bool
    ensures { result ≡ spec.has_part text.now part.now }
{
    text.contains(part)
}

fn has_start(text: &str, part: &str) -> bool
    ensures { result ≡ starts_with nat_eq text.now part.now }
{
    text.starts_with(part)
}

fn has_end(text: &str, part: &str) -> bool
    ensures { result ≡ ends_with nat_eq text.now part.now }
{
    text.ends_with(part)
}

/// Reports whether a string contains another one.
pub(crate) fn contains(alloc: Global, value: &Value, part: &Value) -> Result<Answer, Refused>
    ensures value { IfOk result (λ r. outcome_view r ≡ spec.contains (view value.now) (view part.now)) }
{
    match both_texts(value, part) {
        Some((text, part)) => Ok(Ok(Value::Bool(has_part(text, part)))),
        None => Ok(Err(no_such_overload(alloc, "contains")?)),
    }
}

/// Reports whether a string starts with another one.
pub(crate) fn starts_with(alloc: Global, value: &Value, part: &Value) -> Result<Answer, Refused>
    ensures value { IfOk result (λ r. outcome_view r ≡ spec.begins (view value.now) (view part.now)) }
{
    match both_texts(value, part) {
        Some((text, part)) => Ok(Ok(Value::Bool(has_start(text, part)))),
        None => Ok(Err(no_such_overload(alloc, "startsWith")?)),
    }
}

/// Reports whether a string ends with another one.
pub(crate) fn ends_with(alloc: Global, value: &Value, part: &Value) -> Result<Answer, Refused>
    ensures value { IfOk result (λ r. outcome_view r ≡ spec.ends (view value.now) (view part.now)) }
{
    match both_texts(value, part) {
        Some((text, part)) => Ok(Ok(Value::Bool(has_end(text, part)))),
        None => Ok(Err(no_such_overload(alloc, "endsWith")?)),
    }
}

fn invalid_pattern(alloc: Global) -> Result<ExecutionError, Refused>
    ensures value { IfOk result (λ e. fault.fault_view e ≡ spec.refused_pattern) }
{
    Ok(ExecutionError::InvalidPattern(String::from_str(alloc, "matches")?))
}

fn found(alloc: Global, answer: Option<bool>) -> Result<Answer, Refused>
    ensures value { IfOk result (λ r. outcome_view r ≡ spec.pattern_found answer) }
{
    match answer {
        Some(found) => Ok(Ok(Value::Bool(found))),
        None => Ok(Err(invalid_pattern(alloc)?)),
    }
}

fn find(alloc: Global, text: &str, pattern: &str, book: &mut PatternBook) -> Result<Answer, Refused>
    ensures keeps { Extends (entries_of book.new) (entries_of book.old) }
    ensures value { IfOk result (λ r. HoldsForExtensions (entries_of book.new) (outcome_view r)
        (λ b. spec.pattern_found (matched_by b pattern.now text.now))) }
{
    let answer = book.matches(pattern, text)?;
    found(alloc, answer)
}

/// Reports whether a pattern matches anywhere in a string. The book keeps its entries in any case.
pub(crate) fn matches(
    alloc: Global,
    value: &Value,
    pattern: &Value,
    book: &mut PatternBook,
) -> Result<Answer, Refused>
    ensures keeps { Extends (entries_of book.new) (entries_of book.old) }
    ensures value { IfOk result (λ r. HoldsForExtensions (entries_of book.new) (outcome_view r)
        (λ b. spec.matches (view value.now) (view pattern.now) b)) }
{
    match both_texts(value, pattern) {
        Some((text, pattern)) => find(alloc, text, pattern, book),
        None => Ok(Err(no_such_overload(alloc, "matches")?)),
    }
}
