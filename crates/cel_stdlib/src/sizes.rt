//! `size` of strings, bytes, lists and maps.
ghost use Rattle.std.specs.Prelude.{◌≡◌, IfOk, length, pos};
ghost use Rattle.std.specs.Str.{chars};
ghost use Rattle.cel_value.specs.View.{view};
ghost use Rattle.cel_semantics.specs.Arithmetic.{int_or_overflow};
ghost use Rattle.cel_semantics.specs.Outcome.{outcome_view};
ghost use Rattle.cel_stdlib.specs.Sizes.{item_count, entry_count, size_outcome};

use cel_semantics::operators::{Answer, no_such_overload};
use cel_value::{ExecutionError, List, Map, Refused, Value};
use std::alloc::Global;

fn counted_characters(text: &str) -> usize
    ensures { result ≡ length (chars text.now) }
{
    text.chars().count()
}

/// The number of characters in a text. An ASCII text isn't
/// decoded, since each of its bytes is one character.
fn character_count(text: &str) -> usize
    ensures { result ≡ length (chars text.now) }
{
    if text.is_ascii() {
        text.len()
    } else {
        counted_characters(text)
    }
}

fn item_count(items: &List) -> usize
    ensures { result ≡ item_count items.now }
{
    items.len()
}

fn entry_count(entries: &Map) -> usize
    ensures { result ≡ entry_count entries.now }
{
    entries.len()
}

fn counted(count: usize) -> Answer
    ensures { outcome_view result ≡ int_or_overflow (pos count) }
{
    match i64::try_from(count) {
        Ok(n) => Ok(Value::Int(n)),
        Err(_) => Err(ExecutionError::Overflow),
    }
}

/// Returns the size of a string (in characters), of bytes, of a list or of a map.
pub(crate) fn size(alloc: Global, value: &Value) -> Result<Answer, Refused>
    ensures value { IfOk result (λ r. outcome_view r ≡ size_outcome (view value.now)) }
{
    match value {
        Value::String(text) => Ok(counted(character_count(text.as_str()))),
        Value::Bytes(bytes) => Ok(counted(bytes.as_slice().len())),
        Value::List(items) => Ok(counted(item_count(items.as_ref()))),
        Value::Map(entries) => Ok(counted(entry_count(entries))),
        _ => Ok(Err(no_such_overload(alloc, "size")?)),
    }
}
