//! `split` and `replace`: strings cut at a separator.
ghost use Rattle.std.specs.Prelude.{◌≡◌, ◌≤◌, [], ◌∷◌, ◌++◌, ◌+◌, min, length, map, IfOk, IfSome, MatchOption, option_map, string_bytes};
ghost use Rattle.std.specs.Str.{chars, IsUtf8};
ghost use Rattle.cel_value.specs.Data as plain;
ghost use Rattle.cel_value.specs.View.{view};
ghost use Rattle.cel_semantics.specs.Outcome.{outcome_view};
ghost use Rattle.kube_functions_strings.specs.Pieces as spec;
ghost use Rattle.kube_functions_strings.specs.Cuts as cuts;
ghost use Rattle.kube_functions_strings.specs.Operands.{optional_int_in};
ghost use Rattle.cel_value.specs.Parts.{text_in};
ghost use Rattle.std.specs.Option.{option_zip};

use crate::answers::text_answer;
use crate::cuts::{around_first, around_offset};
use crate::joins::joined;
use crate::operands::{both_texts, optional_int};
use cel_semantics::operators::{Answer, no_such_overload};
use cel_value::{Refused, Value};
use std::alloc::{AllocError, Global};

// Reports whether the limit allows one more separator after the `count` already found.
fn has_room(limit: Option<usize>, count: usize) -> bool
    ensures { result ≡ cuts.has_room limit count }
{
    match limit {
        Some(most) => count < most,
        None => true,
    }
}

// The text before the next separator and the text after it, or None
// if there is no further separator. An empty separator matches once
// at each offset, so after the first it is one character further on.
fn around_next<'a>(text: &'a str, separator: &str, count: usize) -> Option<(&'a str, &'a str)>
    ensures value { MatchOption result
        (cuts.StandsNowhere (cuts.characters_passed (chars separator.now) count) (chars text.now)
        (chars separator.now))
        (λ p. cuts.StandsFirst (cuts.characters_passed (chars separator.now) count) (chars text.now)
        (chars separator.now) (chars p.0.now) (chars p.1.now)) }
    ensures utf8 { IfSome result (λ p. IsUtf8 p.0.now) }
{
    if 0 < count && separator.is_empty() {
        around_offset(text, 1)
    } else {
        around_first(text, separator)
    }
}

// The piece before the next separator and the text after it, or
// None if there is no further separator or the limit is reached.
fn next_piece<'a>(
    text: &'a str,
    separator: &str,
    limit: Option<usize>,
    count: usize,
) -> Option<(&'a str, &'a str)>
    ensures value { MatchOption result
        (cuts.pieces_behind (chars text.now) (chars separator.now) limit count ≡ text.now ∷ [])
        (λ p. cuts.pieces_behind (chars text.now) (chars separator.now) limit count
        ≡ p.0.now ∷ cuts.pieces_behind (chars p.1.now) (chars separator.now) limit (count + 1)) }
    ensures shorter { IfSome result (λ p.
        length (chars p.1.now) + min count 1 ≤ length (chars text.now)) }
{
    if has_room(limit, count) {
        around_next(text, separator, count)
    } else {
        None
    }
}

// The pieces, with the text after the last separator added.
fn finished<'a>(mut pieces: Vec<&'a str>, rest: &'a str) -> Result<Vec<&'a str>, AllocError>
    ensures { IfOk result
        (λ v. map (λ s. s.now) v.items ≡ map (λ s. s.now) pieces.entry.items ++ rest.now ∷ []) }
{
    pieces.push(rest)?;
    Ok(pieces)
}

// The pieces of the text around its first `limit`
// separators, or around all of them if there is no limit.
fn pieces<'a>(
    alloc: Global,
    text: &'a str,
    separator: &str,
    limit: Option<usize>,
) -> Result<Vec<&'a str>, AllocError>
    ensures { IfOk result
        (λ v. map (λ s. s.now) v.items ≡ spec.pieces (chars text.now) (chars separator.now) limit) }
{
    let mut pieces = Vec::new(alloc);
    let mut rest = text;
    while let Some((piece, behind)) = next_piece(rest, separator, limit, pieces.len()) {
        pieces.push(piece)?;
        rest = behind;
    }
    let pieces = finished(pieces, rest)?;
    Ok(pieces)
}

fn split_pieces<'a>(
    alloc: Global,
    text: &'a str,
    separator: &str,
    count: Option<i64>,
) -> Result<Vec<&'a str>, AllocError>
    ensures { IfOk result
        (λ v. map (λ s. s.now) v.items ≡ spec.split_pieces (chars text.now) (chars separator.now) count) }
{
    match count {
        Some(count) => match usize::try_from(count) {
            Ok(count) => {
                if count == 0 {
                    Ok(Vec::new(alloc))
                } else {
                    pieces(alloc, text, separator, Some(count - 1))
                }
            }
            Err(_) => pieces(alloc, text, separator, None),
        },
        None => pieces(alloc, text, separator, None),
    }
}

fn text_values(alloc: Global, texts: &[&str]) -> Result<Vec<Value>, Refused>
    ensures value { IfOk result (λ v. map view v.items ≡ map plain.text (map (λ s. s.now) texts.now)) }
{
    let mut values = Vec::with_capacity(alloc, texts.len())?;
    for text in texts {
        values.push(Value::from_text(alloc, String::from_str(alloc, text)?)?)?;
    }
    Ok(values)
}

fn text_list(alloc: Global, texts: &[&str]) -> Result<Value, Refused>
    ensures value { IfOk result (λ v. view v ≡ spec.text_list (map (λ s. s.now) texts.now)) }
{
    let values = text_values(alloc, texts)?;
    Value::from_items(alloc, values)
}

fn split_text(
    alloc: Global,
    text: &str,
    separator: &str,
    count: Option<i64>,
) -> Result<Value, Refused>
    ensures value { IfOk result
        (λ v. view v ≡ spec.text_list (spec.split_pieces (chars text.now) (chars separator.now) count)) }
{
    let texts = split_pieces(alloc, text, separator, count)?;
    text_list(alloc, texts.as_slice())
}

/// Splits a string at a separator into at most `count` pieces, the last of which holds the rest.
/// Splits at every separator if the count is absent or negative.
///
/// # Errors
/// [`Refused::Memory`] if memory is refused.
pub fn split(
    alloc: Global,
    value: &Value,
    separator: &Value,
    count: Option<&Value>,
) -> Result<Answer, Refused>
    ensures value { IfOk result (λ r. outcome_view r
        ≡ spec.split_outcome (view value.now) (view separator.now)
        (option_map (λ v. view v.now) count.entry)) }
{
    match both_texts(value, separator) {
        Some((text, separator)) => match optional_int(count) {
            Some(count) => Ok(Ok(split_text(alloc, text, separator, count)?)),
            None => Ok(Err(no_such_overload(alloc, "split")?)),
        },
        None => Ok(Err(no_such_overload(alloc, "split")?)),
    }
}

fn most(count: Option<i64>) -> Option<usize>
    ensures { result ≡ spec.most count }
{
    match count {
        Some(count) => match usize::try_from(count) {
            Ok(count) => Some(count),
            Err(_) => Some(0),
        },
        None => None,
    }
}

fn replaced_text(
    alloc: Global,
    text: &str,
    separator: &str,
    new: &str,
    count: Option<i64>,
) -> Result<String, AllocError>
    ensures { IfOk result (λ t. string_bytes t ≡ spec.replaced_text text.now separator.now new.now count) }
{
    let texts = pieces(alloc, text, separator, most(count))?;
    joined(alloc, texts.as_slice(), new)
}

// The replacement text and the maximum number of replacements,
// or None if either argument is of the wrong kind.
fn new_and_count<'a>(new: &'a Value, count: Option<&Value>) -> Option<(&'a str, Option<i64>)>
    ensures { option_map (λ p. (p.0.now, p.1)) result
        ≡ option_zip (text_in (view new.now)) (optional_int_in (option_map (λ v. view v.now) count.entry)) }
{
    match new.as_str() {
        Some(text) => match optional_int(count) {
            Some(count) => Some((text, count)),
            None => None,
        },
        None => None,
    }
}

/// Replaces the first `count` matches of a part in a string, or all
/// of them if the count is absent. A negative count replaces none.
///
/// # Errors
/// [`Refused::Memory`] if memory is refused.
pub fn replace(
    alloc: Global,
    value: &Value,
    part: &Value,
    new: &Value,
    count: Option<&Value>,
) -> Result<Answer, Refused>
    ensures value { IfOk result (λ r. outcome_view r
        ≡ spec.replace_outcome (view value.now) (view part.now)
        (view new.now) (option_map (λ v. view v.now) count.entry)) }
{
    match both_texts(value, part) {
        Some((text, part)) => match new_and_count(new, count) {
            Some((new, count)) => text_answer(alloc, replaced_text(alloc, text, part, new, count)?),
            None => Ok(Err(no_such_overload(alloc, "replace")?)),
        },
        None => Ok(Err(no_such_overload(alloc, "replace")?)),
    }
}
