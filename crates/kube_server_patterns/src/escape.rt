//! Escapes of single characters.
ghost use Rattle.std.specs.Prelude.{◌≡◌, ◌≤◌, length};
ghost use Rattle.kube_server_patterns.specs.Fronts.{front};
ghost use Rattle.kube_server_patterns.specs.Escapes as spec;

use crate::fronts::{begins, digit_count, number, until};
use crate::refusal::{Limit, Refusal};

/// The character with this code.
#[tactic(auto, unfolding(crate::specs::Escapes::coded))]
fn coded(code: u32) -> Result<char, Refusal>
    ensures { result ≡ spec.coded code }
{
    match char::from_u32(code) {
        Some(c) => Ok(c),
        None => {
            if code > 0x10_FFFF {
                Err(Refusal::Invalid)
            } else {
                Err(Refusal::Unsupported(Limit::Surrogate))
            }
        }
    }
}

/// The character that digits denote.
#[tactic(auto, unfolding(crate::specs::Escapes::numbered))]
fn numbered(radix: u32, digits: &[char]) -> Result<char, Refusal>
    requires low { 2 ≤ radix }
    requires high { radix ≤ 16 }
    ensures { result ≡ spec.numbered radix digits.now }
{
    match number(radix, 0x11_0000, digits) {
        Some(code) => coded(code),
        None => Err(Refusal::Invalid),
    }
}

fn numbered_and_rest<'a>(
    radix: u32,
    digits: &[char],
    rest: &'a [char],
) -> Result<(char, &'a [char]), Refusal>
    requires low { 2 ≤ radix }
    requires high { radix ≤ 16 }
    ensures { front result ≡ spec.numbered_and_rest radix digits.now rest.now }
{
    match numbered(radix, digits) {
        Ok(c) => Ok((c, rest)),
        Err(refusal) => Err(refusal),
    }
}

/// Reads hexadecimal digits up to a brace.
#[tactic(auto, unfolding(crate::specs::Escapes::braced))]
fn braced(text: &[char]) -> Result<(char, &[char]), Refusal>
    ensures { front result ≡ spec.braced text.now }
{
    match until('}', text) {
        Some(([], _)) => Err(Refusal::Invalid),
        Some((digits, rest)) => numbered_and_rest(16, digits, rest),
        None => Err(Refusal::Invalid),
    }
}

/// Reads what follows `\x`.
#[tactic(auto, unfolding(crate::specs::Escapes::hexadecimal))]
fn hexadecimal(text: &[char]) -> Result<(char, &[char]), Refusal>
    ensures { front result ≡ spec.hexadecimal text.now }
{
    match text {
        ['{', rest @ ..] => braced(rest),
        [_, _, rest @ ..] => numbered_and_rest(16, &text[..2], rest),
        _ => Err(Refusal::Invalid),
    }
}

/// Reports whether the character is an octal digit.
fn is_octal(c: char) -> bool
    ensures { result ≡ spec.is_octal c }
{
    c.is_digit(8)
}

/// How many octal digits stand at the front, at most three.
fn octal_count(text: &[char]) -> usize
    ensures count { result ≡ spec.octal_count text.now }
    ensures within { result ≤ length text.now }
{
    digit_count(8, text).min(3)
}

/// Reads two or three octal digits, or a zero alone.
#[tactic(auto, unfolding(crate::specs::Escapes::octal))]
fn octal(text: &[char]) -> Result<(char, &[char]), Refusal>
    ensures { front result ≡ spec.octal text.now }
{
    let n = octal_count(text);
    if n > 1 || begins('0', text) {
        let (digits, rest) = text.split_at(n);
        numbered_and_rest(8, digits, rest)
    } else {
        Err(Refusal::Invalid)
    }
}

/// The control character that a letter stands for.
#[tactic(auto, unfolding(crate::specs::Escapes::control))]
fn control(c: char) -> Option<char>
    ensures { result ≡ spec.control c }
{
    match c {
        'a' => Some('\x07'),
        'f' => Some('\x0c'),
        'n' => Some('\n'),
        'r' => Some('\r'),
        't' => Some('\t'),
        'v' => Some('\x0b'),
        _ => None,
    }
}

/// Reports whether the character stands for itself after a backslash.
#[tactic(auto, unfolding(crate::specs::Escapes::is_itself))]
fn is_itself(c: char) -> bool
    ensures { result ≡ spec.is_itself c }
{
    c.is_ascii_punctuation() || c.is_ascii_control() || c == ' '
}

/// Reads what follows a backslash as a single character.
#[tactic(auto, unfolding(crate::specs::Escapes::escape))]
pub(crate) fn escape(text: &[char]) -> Result<(char, &[char]), Refusal>
    ensures { front result ≡ spec.escape text.now }
{
    match text {
        ['x', rest @ ..] => hexadecimal(rest),
        [c, rest @ ..] => {
            if is_octal(*c) {
                octal(text)
            } else if is_itself(*c) {
                Ok((*c, rest))
            } else {
                match control(*c) {
                    Some(made) => Ok((made, rest)),
                    None => Err(Refusal::Invalid),
                }
            }
        }
        [] => Err(Refusal::Invalid),
    }
}
