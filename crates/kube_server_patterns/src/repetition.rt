//! Operators of repetition.
ghost use Rattle.std.specs.Prelude.{◌≡◌, option_map};
ghost use Rattle.kube_server_patterns.specs.Fronts.{front};
ghost use Rattle.kube_server_patterns.specs.Repetitions as spec;

use crate::fronts::{after, begins, digits, number};
use crate::lexeme::{Lexeme, Repetition};
use crate::refusal::Refusal;

/// The largest number of repetitions.
const MOST: u32 = 1000;

/// Reads a count, which has no needless zero.
#[tactic(auto, unfolding(crate::specs::Repetitions::count))]
fn count(text: &[char]) -> Option<(u32, &[char])>
    ensures { option_map (λ p. (p.0, p.1.now)) result ≡ spec.count text.now }
{
    let (digits, rest) = digits(text);
    if digits.is_empty() || (digits.len() > 1 && digits[0] == '0') {
        return None;
    }
    Some((number(10, MOST + 1, digits)?, rest))
}

/// Reads what follows the least count: nothing, a comma, or a comma and the greatest count.
#[tactic(auto, unfolding(crate::specs::Repetitions::upper))]
fn upper(least: u32, text: &[char]) -> Option<(Option<u32>, &[char])>
    ensures { option_map (λ p. (p.0, p.1.now)) result ≡ spec.upper least text.now }
{
    match text {
        [',', rest @ ..] => {
            if begins('}', rest) {
                Some((None, rest))
            } else {
                let (most, rest) = count(rest)?;
                Some((Some(most), rest))
            }
        }
        _ => Some((Some(least), text)),
    }
}

/// Reads counts after an opening brace, if they are counts.
#[tactic(auto, unfolding(crate::specs::Repetitions::counts))]
fn counts(text: &[char]) -> Option<((u32, Option<u32>), &[char])>
    ensures { option_map (λ p. (p.0, p.1.now)) result ≡ spec.counts text.now }
{
    let (least, rest) = count(text)?;
    let (most, rest) = upper(least, rest)?;
    Some(((least, most), after('}', rest)?))
}

/// Reports whether the counts are in order and not too large.
fn are_counts(least: u32, most: Option<u32>) -> bool
    ensures { result ≡ spec.are_counts least most }
{
    match most {
        Some(most) => least <= most && most <= MOST,
        None => least <= MOST,
    }
}

/// The operator, with the question mark that may follow it.
pub(crate) fn operator(
    lazy: bool,
    least: u32,
    most: Option<u32>,
    text: &[char],
) -> (Lexeme, &[char])
    ensures lexeme { result.0 ≡ (spec.operator lazy least most text.now).0 }
    ensures rest { result.1.now ≡ (spec.operator lazy least most text.now).1 }
{
    match after('?', text) {
        Some(rest) => (
            Lexeme::Repeat(Repetition {
                least,
                most,
                greedy: lazy,
            }),
            rest,
        ),
        None => (
            Lexeme::Repeat(Repetition {
                least,
                most,
                greedy: !lazy,
            }),
            text,
        ),
    }
}

/// Reads what follows an opening brace. One that begins no counts is a character.
#[tactic(auto, unfolding(crate::specs::Repetitions::braces))]
pub(crate) fn braces(lazy: bool, text: &[char]) -> Result<(Lexeme, &[char]), Refusal>
    ensures { front result ≡ spec.braces lazy text.now }
{
    match counts(text) {
        Some(((least, most), rest)) => {
            if are_counts(least, most) {
                Ok(operator(lazy, least, most, rest))
            } else {
                Err(Refusal::Invalid)
            }
        }
        None => Ok((Lexeme::Character('{'), text)),
    }
}
