//! What is written for a lexeme in the syntax of the crate `regex`.
ghost use Rattle.std.specs.Prelude.{◌≡◌, ◌++◌, codes, OnOk, string_bytes};
ghost use Rattle.kube_server_patterns.specs.Pieces as spec;

use crate::lexeme::{Flags, Lexeme, Repetition};
use crate::named::Named;
use std::alloc::AllocError;
use std::fmt::Write;

/// Reports whether the character has a meaning of its own in a pattern.
#[tactic(auto, unfolding(crate::specs::Pieces::is_special))]
fn is_special(c: char) -> bool
    ensures { result ≡ spec.is_special c }
{
    matches!(
        c,
        '\\' | '.'
            | '+'
            | '*'
            | '?'
            | '('
            | ')'
            | '|'
            | '['
            | ']'
            | '{'
            | '}'
            | '^'
            | '$'
            | '#'
            | '&'
            | '-'
            | '~'
    )
}

/// Writes a character.
#[tactic(auto, unfolding(crate::specs::Pieces::character_text))]
fn write_character(c: char, out: &mut String) -> Result<(), AllocError>
    ensures { OnOk result (string_bytes out.new ≡ string_bytes out.old ++ spec.character_text c) }
{
    if is_special(c) {
        out.push('\\')?;
    }
    out.push(c)
}

/// Writes a character where case is ignored.
fn write_folded(c: char, out: &mut String) -> Result<(), AllocError>
    ensures { OnOk result (string_bytes out.new ≡ string_bytes out.old ++ spec.folded_text c) }
{
    out.push_str("(?i:")?;
    write_character(c, out)?;
    out.push(')')
}

fn write_class(class: Named, negated: bool, out: &mut String) -> Result<(), AllocError>
    ensures { OnOk result (string_bytes out.new ≡ string_bytes out.old ++ spec.class_written class negated) }
{
    if negated {
        out.push_str(class.negated_text())
    } else {
        out.push_str(class.text())
    }
}

fn write_bracketed(class: Named, negated: bool, out: &mut String) -> Result<(), AllocError>
    ensures { OnOk result (string_bytes out.new
        ≡ string_bytes out.old ++ (codes "[" ++ (spec.class_written class negated ++ codes "]"))) }
{
    out.push('[')?;
    write_class(class, negated, out)?;
    out.push(']')
}

fn write_range(first: char, last: char, out: &mut String) -> Result<(), AllocError>
    ensures { OnOk result (string_bytes out.new
        ≡ string_bytes out.old ++ (spec.character_text first ++ (codes "-" ++ spec.character_text last))) }
{
    write_character(first, out)?;
    out.push('-')?;
    write_character(last, out)
}

fn bracket_text(folds: bool, negated: bool) -> &'static str
    ensures { result.now ≡ spec.bracket_text folds negated }
{
    if folds {
        if negated { "(?i:[^" } else { "(?i:[" }
    } else {
        if negated { "[^" } else { "[" }
    }
}

fn write_counts(least: u32, most: Option<u32>, out: &mut String) -> Result<(), AllocError>
    ensures { OnOk result (string_bytes out.new ≡ string_bytes out.old ++ spec.counts_text least most) }
{
    match most {
        Some(most) => write!(out, "{{{least},{most}}}")?,
        None => write!(out, "{{{least},}}")?,
    }
    Ok(())
}

fn write_repetition(repetition: Repetition, out: &mut String) -> Result<(), AllocError>
    ensures { OnOk result (string_bytes out.new ≡ string_bytes out.old ++ spec.repetition_text repetition) }
{
    write_counts(repetition.least, repetition.most, out)?;
    if repetition.greedy {
        Ok(())
    } else {
        out.push('?')
    }
}

/// The text of a lexeme that has one text under the flags.
fn fixed_text(flags: Flags, lexeme: Lexeme) -> &'static str
    ensures { result.now ≡ spec.fixed_text flags lexeme }
{
    match lexeme {
        Lexeme::Dot => { if flags.dots { "(?s:.)" } else { "." } }
        Lexeme::Begin => { if flags.lines { "(?m:^)" } else { "\\A" } }
        Lexeme::End => { if flags.lines { "(?m:$)" } else { "\\z" } }
        Lexeme::TextBegin => "\\A",
        Lexeme::TextEnd => "\\z",
        Lexeme::WordBoundary => "(?-u:\\b)",
        Lexeme::Open(_) => "(?:",
        Lexeme::Close => ")",
        Lexeme::Or => "|",
        Lexeme::OpenBracket(negated) => bracket_text(flags.folds, negated),
        Lexeme::CloseBracket => { if flags.folds { "])" } else { "]" } }
        _ => "",
    }
}

/// Writes a lexeme at a place where these flags hold.
pub(crate) fn write_lexeme(flags: Flags, lexeme: Lexeme, out: &mut String) -> Result<(), AllocError>
    ensures { OnOk result (string_bytes out.new ≡ string_bytes out.old ++ spec.written flags lexeme) }
{
    match lexeme {
        Lexeme::Character(c) => {
            if flags.folds {
                write_folded(c, out)
            } else {
                write_character(c, out)
            }
        }
        Lexeme::Class(class, negated) => write_bracketed(class, negated, out),
        Lexeme::Range(first, last) => write_range(first, last, out),
        Lexeme::Member(class, negated) => write_class(class, negated, out),
        Lexeme::Repeat(repetition) => write_repetition(repetition, out),
        _ => out.push_str(fixed_text(flags, lexeme)),
    }
}
