//! Splits a text into tokens.

ghost use Rattle.std.specs.Prelude.{◌≡◌, ℕ, MatchOption};
ghost use Rattle.cel_syntax_lexer.specs.Token.{Token as SpecToken, token_of};
ghost use Rattle.cel_syntax_lexer.specs.Tokens as spec;
ghost use Rattle.cel_syntax_lexer.specs.Tokens.{Longest};
ghost use Rattle.kube_server_lexer.specs.Pieces as pieces;

use crate::bytes::{after, is_letter, is_quote, is_white_space, line_length, word_length};
use crate::number::number_length;
use crate::string_literal::{prefixed_length, string_length};
use cel_syntax_lexer::punctuator::Punctuator;
use cel_syntax_lexer::token::Token;

#[tactic(auto, unfolding(cel_syntax_lexer::specs::Tokens::one_byte))]
fn one_byte(byte: u8) -> Option<Punctuator>
    ensures { result ≡ spec.one_byte byte }
{
    match byte {
        b'(' => Some(Punctuator::OpenRound),
        b')' => Some(Punctuator::CloseRound),
        b'[' => Some(Punctuator::OpenSquare),
        b']' => Some(Punctuator::CloseSquare),
        b'{' => Some(Punctuator::OpenBrace),
        b'}' => Some(Punctuator::CloseBrace),
        b',' => Some(Punctuator::Comma),
        b'.' => Some(Punctuator::Dot),
        b':' => Some(Punctuator::Colon),
        b'?' => Some(Punctuator::Question),
        b'!' => Some(Punctuator::Not),
        b'-' => Some(Punctuator::Minus),
        b'+' => Some(Punctuator::Plus),
        b'*' => Some(Punctuator::Star),
        b'/' => Some(Punctuator::Slash),
        b'%' => Some(Punctuator::Percent),
        b'<' => Some(Punctuator::Less),
        b'>' => Some(Punctuator::Greater),
        _ => None,
    }
}

#[tactic(auto, unfolding(cel_syntax_lexer::specs::Tokens::two_bytes))]
fn two_bytes(first: u8, second: u8) -> Option<Punctuator>
    ensures { result ≡ spec.two_bytes first second }
{
    match (first, second) {
        (b'<', b'=') => Some(Punctuator::LessOrEqual),
        (b'>', b'=') => Some(Punctuator::GreaterOrEqual),
        (b'=', b'=') => Some(Punctuator::Equal),
        (b'!', b'=') => Some(Punctuator::NotEqual),
        (b'&', b'&') => Some(Punctuator::And),
        (b'|', b'|') => Some(Punctuator::Or),
        _ => None,
    }
}

fn two_at_front(text: &[u8]) -> Option<Punctuator>
    ensures { result ≡ spec.two_at_front text.now }
{
    match text {
        [first, second, ..] => two_bytes(*first, *second),
        _ => None,
    }
}

fn begins_comment(text: &[u8]) -> bool
    ensures { result ≡ spec.begins_comment text.now }
{
    match text {
        [first, second, ..] => *first == b'/' && *second == b'/',
        _ => false,
    }
}

/// Returns the longest token at the front, and its length in bytes.
fn first_token(text: &[u8]) -> Option<(Token<'_>, usize)>
    ensures { MatchOption result ((n : ℕ) (t : SpecToken) → Longest text.now n t → ⊥)
        (λ found. Longest text.now found.1 (token_of found.0)) }
{
    if text.is_empty() {
        return None;
    }
    let first = text[0];
    if is_letter(first) {
        let word = 1 + word_length(after(text, 1));
        let prefixed = prefixed_length(text);
        if prefixed > word {
            return Some((Token::Quoted(&text[..prefixed]), prefixed));
        }
        return Some((Token::Word(&text[..word]), word));
    }
    if is_quote(first) {
        let quoted = string_length(false, text);
        if quoted > 0 {
            return Some((Token::Quoted(&text[..quoted]), quoted));
        }
        return None;
    }
    let number = number_length(text);
    if number > 0 {
        return Some((Token::Number(&text[..number]), number));
    }
    match two_at_front(text) {
        Some(punctuator) => Some((Token::Punctuator(punctuator), 2)),
        None => match one_byte(first) {
            Some(punctuator) => Some((Token::Punctuator(punctuator), 1)),
            None => None,
        },
    }
}

/// What a text begins with.
#[derive(Clone, Copy)]
pub enum Piece<'a> {
    /// White space or a comment of so many bytes.
    Blank(usize),
    /// A token of so many bytes.
    Of(Token<'a>, usize),
    /// Neither: no token begins here, or a string literal that isn't closed.
    Unknown,
}

/// Reports whether the text begins with white space.
fn begins_white(text: &[u8]) -> bool
    ensures { result ≡ pieces.begins_white text.now }
{
    match text {
        [first, ..] => is_white_space(*first),
        [] => false,
    }
}

/// Returns what a text begins with, which isn't empty. A token is the longest possible one.
///
/// White space is a tab, newline, form feed, carriage return or space; a comment reaches from
/// `//` to the newline or the end of the text. A string with an invalid escape is a token, too. Source: section
/// "Syntax" of the CEL language definition.
pub fn first_piece(text: &[u8]) -> Piece<'_>
    ensures piece { pieces.IsFirst text.now result }
{
    if begins_comment(text) {
        return Piece::Blank(line_length(text));
    }
    if begins_white(text) {
        return Piece::Blank(1);
    }
    match first_token(text) {
        Some((token, length)) => Piece::Of(token, length),
        None => Piece::Unknown,
    }
}
