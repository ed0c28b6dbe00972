//! `charAt`, `substring`, `indexOf` and `lastIndexOf`: characters
//! at offsets, and offsets of parts. All offsets count characters.
ghost use Rattle.std.specs.Prelude.{◌≡◌, ◌≤◌, ◌<◌, ◌^◌, ℕ, suc, min, pos, List, length, take, drop, slice_get, slice_range, IfOk, IfSome, option_map, string_bytes};
ghost use Rattle.std.specs.Option.{unwrap_or};
ghost use Rattle.std.specs.Str.{chars};
ghost use Rattle.cel_value.specs.View.{view};
ghost use Rattle.cel_semantics.specs.Outcome.{outcome_view};
ghost use Rattle.kube_functions_strings.specs.Cuts as cuts;
ghost use Rattle.kube_functions_strings.specs.Offsets as spec;

use crate::answers::{function_fault, text_answer};
use crate::cuts::{around_first, around_last, around_offset, character_count, copied};
use crate::operands::{both_texts, optional_int, text_and_int};
use cel_semantics::operators::{Answer, no_such_overload};
use cel_value::{Refused, Value};
use std::alloc::{AllocError, Global};

// The int as an offset, or None if it is negative.
fn as_offset(index: i64) -> Option<usize>
    ensures value { result ≡ cuts.offset_of index }
    ensures small { IfSome result (λ k. k < 2 ^ 63) }
{
    match usize::try_from(index) {
        Ok(offset) => Some(offset),
        Err(_) => None,
    }
}

// The int as an offset into the text, with the text from
// there on. None if it is negative or past the end.
fn from_index(text: &str, index: i64) -> Option<(usize, &str)>
    ensures { option_map (λ p. (p.0, chars p.1.now)) result ≡ cuts.from_index (chars text.now) index }
{
    match as_offset(index) {
        Some(offset) => match around_offset(text, offset) {
            Some((_, rest)) => Some((offset, rest)),
            None => None,
        },
        None => None,
    }
}

// The first character of the text as a string, which is empty if the text is.
fn first_character(alloc: Global, text: &str) -> Result<String, AllocError>
    ensures { IfOk result (λ t. string_bytes t ≡ spec.character_text (slice_get (chars text.now) 0)) }
{
    let mut first = String::new(alloc);
    match text.chars().next() {
        Some(character) => {
            first.push(character)?;
            Ok(first)
        }
        None => Ok(first),
    }
}

fn past_length(alloc: Global, what: &str, index: i64, length: usize) -> Result<String, AllocError>
    ensures { IfOk result (λ t. string_bytes t ≡ spec.past_length what.now index length) }
{
    format!(in alloc; "{what} {index} out of range for string of length {length}")
}

fn character_at(alloc: Global, text: &str, index: i64) -> Result<Answer, Refused>
    ensures value { IfOk result (λ r. outcome_view r ≡ spec.character_at (chars text.now) index) }
{
    match from_index(text, index) {
        Some((_, rest)) => text_answer(alloc, first_character(alloc, rest)?),
        None => {
            let message = past_length(alloc, "index", index, character_count(text))?;
            function_fault(alloc, "charAt", message)
        }
    }
}

/// Returns the character at an offset as a string, which is empty
/// at the end of the text. An offset outside the text is an error.
///
/// # Errors
/// [`Refused::Memory`] if memory is refused.
pub fn char_at(alloc: Global, value: &Value, index: &Value) -> Result<Answer, Refused>
    ensures value { IfOk result (λ r. outcome_view r ≡ spec.char_at (view value.now) (view index.now)) }
{
    match text_and_int(value, index) {
        Some((text, index)) => character_at(alloc, text, index),
        None => Ok(Err(no_such_overload(alloc, "charAt")?)),
    }
}

// The start of `rest` up to the offset `end`, where `rest` is a text from `offset` on. None if
// `end` is before `offset` or past the end of the text.
fn up_to(rest: &str, offset: usize, end: i64) -> Option<&str>
    ensures { (cs : List ℕ) → offset ≤ length cs → chars rest.now ≡ drop offset cs
        → option_map (λ t. chars t.now) result
        ≡ option_map (λ m. slice_range cs offset m) (spec.offset_within offset (length cs) end) }
{
    match as_offset(end) {
        Some(end) if offset <= end => match around_offset(rest, end - offset) {
            Some((front, _)) => Some(front),
            None => None,
        },
        _ => None,
    }
}

fn characters_up_to(alloc: Global, rest: &str, offset: usize, end: i64) -> Result<Answer, Refused>
    ensures value { IfOk result (λ r. (cs : List ℕ) → offset ≤ length cs → chars rest.now ≡ drop offset cs
        → outcome_view r ≡ spec.characters_up_to cs offset end) }
{
    match up_to(rest, offset, end) {
        Some(part) => text_answer(alloc, copied(alloc, part)?),
        None => {
            let message = format!(in alloc; "end index {end} out of range")?;
            function_fault(alloc, "substring", message)
        }
    }
}

fn characters_between(
    alloc: Global,
    text: &str,
    start: i64,
    end: Option<i64>,
) -> Result<Answer, Refused>
    ensures value { IfOk result (λ r. outcome_view r ≡ spec.characters_between (chars text.now) start end) }
{
    match from_index(text, start) {
        Some((offset, rest)) => match end {
            Some(end) => characters_up_to(alloc, rest, offset, end),
            None => text_answer(alloc, copied(alloc, rest)?),
        },
        None => {
            let message = past_length(alloc, "start index", start, character_count(text))?;
            function_fault(alloc, "substring", message)
        }
    }
}

/// Returns the characters of a string from one offset up to another, or to the end if that is
/// absent. Offsets outside the text or in the wrong order are an error.
///
/// # Errors
/// [`Refused::Memory`] if memory is refused.
pub fn substring(
    alloc: Global,
    value: &Value,
    start: &Value,
    end: Option<&Value>,
) -> Result<Answer, Refused>
    ensures value { IfOk result (λ r. outcome_view r
        ≡ spec.substring (view value.now) (view start.now) (option_map (λ v. view v.now) end.entry)) }
{
    match text_and_int(value, start) {
        Some((text, start)) => match optional_int(end) {
            Some(end) => characters_between(alloc, text, start, end),
            None => Ok(Err(no_such_overload(alloc, "substring")?)),
        },
        None => Ok(Err(no_such_overload(alloc, "substring")?)),
    }
}

// The lowest offset at or after `start` at which the part occurs.
fn offset_from(text: &str, part: &str, start: usize) -> Option<usize>
    ensures value { result ≡ spec.offset_from (chars text.now) (chars part.now) start }
    ensures within { IfSome result (λ k. k ≤ length text.now) }
{
    match around_offset(text, start) {
        Some((_, rest)) => match around_first(rest, part) {
            Some((before, _)) => Some(start + character_count(before)),
            None => None,
        },
        None => None,
    }
}

// The first `count` characters of the text, or all of it if it is shorter.
fn first_characters(text: &str, count: usize) -> &str
    ensures { chars result.now ≡ take count (chars text.now) }
{
    match around_offset(text, count) {
        Some((front, _)) => front,
        None => text,
    }
}

// The highest offset at or before `most` at which the part occurs. The part isn't empty.
fn offset_up_to(text: &str, part: &str, most: usize) -> Option<usize>
    requires some { 0 < length part.now }
    requires small { most < 2 ^ 63 }
    ensures value { result ≡ spec.greatest_below (spec.stands_at (chars text.now) (chars part.now))
        (suc (min most (length (chars text.now)))) }
    ensures within { IfSome result (λ k. k ≤ length text.now) }
{
    let front = first_characters(text, most + character_count(part));
    match around_last(front, part) {
        Some((before, _)) => Some(character_count(before)),
        None => None,
    }
}

fn at_least_zero(index: i64) -> usize
    ensures { result ≡ spec.at_least_zero index }
{
    match usize::try_from(index) {
        Ok(offset) => offset,
        Err(_) => 0,
    }
}

fn or_no_offset(offset: Option<usize>) -> i64
    requires { IfSome offset (λ k. k < 2 ^ 63) }
    ensures { result ≡ spec.or_no_offset offset }
{
    match offset {
        Some(offset) => offset as i64,
        None => -1,
    }
}

fn first_index(text: &str, part: &str, start: i64) -> i64
    ensures { result ≡ spec.first_index (chars text.now) (chars part.now) start }
{
    let start = at_least_zero(start);
    if part.is_empty() {
        start as i64
    } else {
        or_no_offset(offset_from(text, part, start))
    }
}

// The highest offset at or before `start` at which the part occurs. The part isn't empty.
fn last_offset(text: &str, part: &str, start: i64) -> Option<usize>
    requires { 0 < length part.now }
    ensures value { result ≡ spec.greatest_below (spec.stands_at (chars text.now) (chars part.now))
        (spec.offsets_up_to (length (chars text.now)) start) }
    ensures within { IfSome result (λ k. k ≤ length text.now) }
{
    match as_offset(start) {
        Some(most) => offset_up_to(text, part, most),
        None => None,
    }
}

fn last_index(text: &str, part: &str, start: i64) -> i64
    ensures { result ≡ spec.last_index (chars text.now) (chars part.now) start }
{
    if part.is_empty() {
        at_least_zero(start).min(character_count(text)) as i64
    } else {
        or_no_offset(last_offset(text, part, start))
    }
}

/// Returns the lowest offset at or after `start` at which a string contains another, or -1 if there
/// is none. An absent or negative `start` counts as 0. An empty string is found at `start` itself.
///
/// # Errors
/// [`Refused::Memory`] if memory is refused.
pub fn index_of(
    alloc: Global,
    value: &Value,
    part: &Value,
    start: Option<&Value>,
) -> Result<Answer, Refused>
    ensures value { IfOk result (λ r. outcome_view r
        ≡ spec.index_of (view value.now) (view part.now) (option_map (λ v. view v.now) start.entry)) }
{
    match both_texts(value, part) {
        Some((text, part)) => match optional_int(start) {
            Some(start) => {
                let index = first_index(text, part, start.unwrap_or(0));
                Ok(Ok(Value::Int(index)))
            }
            None => Ok(Err(no_such_overload(alloc, "indexOf")?)),
        },
        None => Ok(Err(no_such_overload(alloc, "indexOf")?)),
    }
}

// The int, or the offset of the end of the text if it is absent.
fn or_end(start: Option<i64>, text: &str) -> i64
    ensures { result ≡ unwrap_or start (pos (length (chars text.now))) }
{
    match start {
        Some(start) => start,
        None => character_count(text) as i64,
    }
}

/// Returns the highest offset at or before `start` at which a string contains
/// another, or -1 if there is none. An absent `start` counts as the string's
/// length. An empty string is found at the offset of the text nearest to `start`.
///
/// # Errors
/// [`Refused::Memory`] if memory is refused.
pub fn last_index_of(
    alloc: Global,
    value: &Value,
    part: &Value,
    start: Option<&Value>,
) -> Result<Answer, Refused>
    ensures value { IfOk result (λ r. outcome_view r
        ≡ spec.last_index_of (view value.now) (view part.now) (option_map (λ v. view v.now) start.entry)) }
{
    match both_texts(value, part) {
        Some((text, part)) => match optional_int(start) {
            Some(start) => {
                let index = last_index(text, part, or_end(start, text));
                Ok(Ok(Value::Int(index)))
            }
            None => Ok(Err(no_such_overload(alloc, "lastIndexOf")?)),
        },
        None => Ok(Err(no_such_overload(alloc, "lastIndexOf")?)),
    }
}
