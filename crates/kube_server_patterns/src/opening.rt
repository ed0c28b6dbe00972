//! The beginnings of groups.
ghost use Rattle.std.specs.Prelude.{◌≡◌};
ghost use Rattle.kube_server_patterns.specs.Fronts.{front};
ghost use Rattle.kube_server_patterns.specs.Openings as spec;

use crate::fronts::until;
use crate::lexeme::{Flags, Lexeme};
use crate::refusal::Refusal;

/// The flags with one of them set or cleared, if the letter is that of a flag.
#[tactic(auto, unfolding(crate::specs::Openings::with_flag))]
fn with_flag(flags: Flags, letter: char, on: bool) -> Option<Flags>
    ensures { result ≡ spec.with_flag flags letter on }
{
    match letter {
        'i' => Some(Flags { folds: on, ..flags }),
        'm' => Some(Flags { lines: on, ..flags }),
        's' => Some(Flags { dots: on, ..flags }),
        'U' => Some(Flags { lazy: on, ..flags }),
        _ => None,
    }
}

/// What the letters of flags say so far.
#[derive(Clone, Copy)]
pub(crate) struct Letters {
    pub(crate) flags: Flags,
    /// Whether no hyphen came yet.
    pub(crate) sets: bool,
    /// Whether they may end here.
    pub(crate) is_complete: bool,
}

/// The letters with a further one.
fn with_letter(letters: Letters, c: char) -> Option<Letters>
    ensures { result ≡ spec.with_letter letters c }
{
    if c == '-' {
        if letters.sets {
            Some(Letters {
                sets: false,
                is_complete: false,
                ..letters
            })
        } else {
            None
        }
    } else {
        match with_flag(letters.flags, c, letters.sets) {
            Some(flags) => Some(Letters {
                flags,
                is_complete: true,
                ..letters
            }),
            None => None,
        }
    }
}

/// What the letters say at a colon or at a closing parenthesis.
fn ended(letters: Letters, c: char) -> Result<Lexeme, Refusal>
    ensures { result ≡ spec.ended letters c }
{
    if !letters.is_complete {
        Err(Refusal::Invalid)
    } else if c == ':' {
        Ok(Lexeme::Open(letters.flags))
    } else {
        Ok(Lexeme::Set(letters.flags))
    }
}

fn ended_before(letters: Letters, c: char, rest: &[char]) -> Result<(Lexeme, &[char]), Refusal>
    ensures { front result ≡ spec.ended_before letters c rest.now }
{
    match ended(letters, c) {
        Ok(lexeme) => Ok((lexeme, rest)),
        Err(refusal) => Err(refusal),
    }
}

/// Reads the letters of flags, up to a colon or the end of the group.
#[tactic(auto, using(crate::proofs::Letters::letters_more, crate::proofs::Letters::letters_done), unfolding(crate::specs::Openings::flagged))]
fn flagged(flags: Flags, text: &[char]) -> Result<(Lexeme, &[char]), Refusal>
    ensures { front result ≡ spec.flagged flags text.now }
{
    let mut letters = Letters {
        flags,
        sets: true,
        is_complete: true,
    };
    for (i, c) in text.iter().enumerate() {
        if *c == ':' || *c == ')' {
            return ended_before(letters, *c, &text[i + 1..]);
        }
        match with_letter(letters, *c) {
            Some(more) => letters = more,
            None => return Err(Refusal::Invalid),
        }
    }
    Err(Refusal::Invalid)
}

fn is_name(name: &[char]) -> bool
    ensures { result ≡ spec.is_name name.now }
{
    !name.is_empty() && name.iter().all(|c| c.is_ascii_alphanumeric() || *c == '_')
}

/// Reads the name of a group.
#[tactic(auto, unfolding(crate::specs::Openings::named_group))]
fn named_group(flags: Flags, text: &[char]) -> Result<(Lexeme, &[char]), Refusal>
    ensures { front result ≡ spec.named_group flags text.now }
{
    match until('>', text) {
        Some((name, rest)) => {
            if is_name(name) {
                Ok((Lexeme::Open(flags), rest))
            } else {
                Err(Refusal::Invalid)
            }
        }
        None => Err(Refusal::Invalid),
    }
}

/// Reads the beginning of a group after its parenthesis.
#[tactic(auto, unfolding(crate::specs::Openings::opening))]
pub(crate) fn opening(flags: Flags, text: &[char]) -> Result<(Lexeme, &[char]), Refusal>
    ensures { front result ≡ spec.opening flags text.now }
{
    match text {
        ['?', 'P', '<', rest @ ..] => named_group(flags, rest),
        ['?', '<', rest @ ..] => named_group(flags, rest),
        ['?', rest @ ..] => flagged(flags, rest),
        _ => Ok((Lexeme::Open(flags), text)),
    }
}
