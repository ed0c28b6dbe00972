//! What is written in brackets.
ghost use Rattle.std.specs.Prelude.{◌≡◌, option_map};
ghost use Rattle.kube_server_patterns.specs.Fronts.{front};
ghost use Rattle.kube_server_patterns.specs.Brackets as spec;

use crate::escape::escape;
use crate::fronts::{after, begins, until};
use crate::lexeme::Lexeme;
use crate::named::{class_of_name, lettered, unless_folded};
use crate::refusal::{Limit, Refusal};

/// Reads a single character.
#[tactic(auto, unfolding(crate::specs::Brackets::single))]
fn single(text: &[char]) -> Result<(char, &[char]), Refusal>
    ensures { front result ≡ spec.single text.now }
{
    match text {
        ['\\', rest @ ..] => escape(rest),
        [c, rest @ ..] => Ok((*c, rest)),
        [] => Err(Refusal::Invalid),
    }
}

/// Reads the last character of a range after its first one, which is the last one if no other follows.
#[tactic(auto, unfolding(crate::specs::Brackets::range_end))]
fn range_end(first: char, text: &[char]) -> Result<(char, &[char]), Refusal>
    ensures { front result ≡ spec.range_end first text.now }
{
    match text {
        ['-', c, ..] => {
            if *c == ']' {
                Ok((first, text))
            } else {
                single(&text[1..])
            }
        }
        _ => Ok((first, text)),
    }
}

/// The range, if it has a character, and case isn't ignored beyond ASCII.
#[tactic(auto, unfolding(crate::specs::Brackets::range_between))]
fn range_between(folds: bool, first: char, last: char) -> Result<Lexeme, Refusal>
    ensures { result ≡ spec.range_between folds first last }
{
    if last < first {
        Err(Refusal::Invalid)
    } else if folds && !last.is_ascii() {
        Err(Refusal::Unsupported(Limit::FoldedCharacter))
    } else {
        Ok(Lexeme::Range(first, last))
    }
}

/// Reads a character or a range.
#[tactic(auto, unfolding(crate::specs::Brackets::range))]
fn range(folds: bool, text: &[char]) -> Result<(Lexeme, &[char]), Refusal>
    ensures { front result ≡ spec.range folds text.now }
{
    let (first, rest) = single(text)?;
    let (last, rest) = range_end(first, rest)?;
    Ok((range_between(folds, first, last)?, rest))
}

/// Reads the name of a class, up to `:]`.
#[tactic(auto, unfolding(crate::specs::Brackets::class_named))]
fn class_named(folds: bool, negated: bool, text: &[char]) -> Result<(Lexeme, &[char]), Refusal>
    ensures { front result ≡ spec.class_named folds negated text.now }
{
    let unknown = Err(Refusal::Unsupported(Limit::ColonInBrackets));
    let Some((name, rest)) = until(':', text) else {
        return unknown;
    };
    let Some(rest) = after(']', rest) else {
        return unknown;
    };
    match class_of_name(name) {
        Some(class) => Ok((Lexeme::Member(unless_folded(class, folds)?, negated), rest)),
        None => unknown,
    }
}

/// Reads the name of a class after `[:`.
#[tactic(auto, unfolding(crate::specs::Brackets::after_colon))]
fn after_colon(folds: bool, text: &[char]) -> Result<(Lexeme, &[char]), Refusal>
    ensures { front result ≡ spec.after_colon folds text.now }
{
    match after('^', text) {
        Some(rest) => class_named(folds, true, rest),
        None => class_named(folds, false, text),
    }
}

/// Reads a member that begins with a backslash, given what follows that.
#[tactic(auto, unfolding(crate::specs::Brackets::escaped_letter))]
fn escaped_letter<'a>(
    folds: bool,
    text: &'a [char],
    rest: &'a [char],
) -> Result<(Lexeme, &'a [char]), Refusal>
    ensures { front result ≡ spec.escaped_letter folds text.now rest.now }
{
    let [c, rest @ ..] = rest else {
        return range(folds, text);
    };
    if *c == 'p' || *c == 'P' {
        return Err(Refusal::Unsupported(Limit::UnicodeClass));
    }
    match lettered(*c) {
        Some((class, negated)) => Ok((Lexeme::Member(unless_folded(class, folds)?, negated), rest)),
        None => range(folds, text),
    }
}

/// Reads a member that is no class in brackets of its own.
#[tactic(auto, unfolding(crate::specs::Brackets::escaped))]
fn escaped(folds: bool, text: &[char]) -> Result<(Lexeme, &[char]), Refusal>
    ensures { front result ≡ spec.escaped folds text.now }
{
    match after('\\', text) {
        Some(rest) => escaped_letter(folds, text, rest),
        None => range(folds, text),
    }
}

/// What follows `[:`, if the text begins with it.
#[tactic(auto, unfolding(crate::specs::Brackets::colon))]
fn colon(text: &[char]) -> Option<&[char]>
    ensures { option_map (λ rest. rest.now) result ≡ spec.colon text.now }
{
    after(':', after('[', text)?)
}

/// Reads a member.
#[tactic(auto, unfolding(crate::specs::Brackets::member))]
fn member(folds: bool, text: &[char]) -> Result<(Lexeme, &[char]), Refusal>
    ensures { front result ≡ spec.member folds text.now }
{
    match colon(text) {
        Some(rest) => after_colon(folds, rest),
        None => escaped(folds, text),
    }
}

/// Reads a member, or the end of the brackets. It can't come before the first member.
#[tactic(auto, unfolding(crate::specs::Brackets::in_bracket))]
pub(crate) fn in_bracket(
    folds: bool,
    is_first: bool,
    text: &[char],
) -> Result<(Lexeme, &[char]), Refusal>
    ensures { front result ≡ spec.in_bracket folds is_first text.now }
{
    if !is_first && begins(']', text) {
        Ok((Lexeme::CloseBracket, &text[1..]))
    } else {
        member(folds, text)
    }
}
