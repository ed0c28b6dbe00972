//! The values of literals.

ghost use Rattle.std.specs.Prelude.{◌≡◌, MatchResult, option_map};
ghost use Rattle.std.specs.Str.{bytes_eq};
ghost use Rattle.kube_types.specs.Refused.TheVariants.{Memory};
ghost use Rattle.cel_syntax_lexer.specs.Token.{token_of};
ghost use Rattle.cel_value.specs.View.{view};
ghost use Rattle.cel_syntax_lexer.specs.Literal as spec;

use crate::number_value::{goes_with_minus, number};
use crate::string_value::quoted;
use crate::token::Token;
use cel_value::Value;
use kube_types::Refused;
use std::alloc::Global;

fn is_word(word: &[u8], name: &[u8]) -> bool
    ensures { result ≡ bytes_eq word.now name.now }
{
    word == name
}

#[tactic(auto, unfolding(crate::specs::Literal::word_value))]
fn word(word: &[u8]) -> Option<Value>
    ensures { option_map view result ≡ spec.word_value word.now }
{
    if is_word(word, b"true") {
        Some(Value::Bool(true))
    } else if is_word(word, b"false") {
        Some(Value::Bool(false))
    } else if is_word(word, b"null") {
        Some(Value::Null)
    } else {
        None
    }
}

/// Reports whether a minus before the token is part of the
/// literal: the token is an int or a double, not a uint.
pub fn takes_minus(token: Token<'_>) -> bool
    ensures { result ≡ spec.takes_minus (token_of token.entry) }
{
    match token {
        Token::Number(spelling) => goes_with_minus(spelling),
        _ => false,
    }
}

/// Returns the value of a literal, or None if the token is no valid
/// literal. `negative` says that a minus is part of it.
///
/// An int has 64 bits with its sign, and a uint 64 bits. A double is returned without its number.
/// An escape denotes a code point in a string, and a byte in bytes. An unknown escape, a surrogate
/// or a code past 10FFFF makes the literal invalid. The only error is [`Refused::Memory`]. Source:
/// the sections "Syntax" and "Values" of the CEL language definition.
pub fn literal(alloc: Global, negative: bool, token: Token<'_>) -> Result<Option<Value>, Refused>
    ensures { MatchResult result
        (λ value. option_map view value ≡ spec.literal_value negative (token_of token.entry))
        (λ refused. refused ≡ Memory) }
{
    match token {
        Token::Number(spelling) => Ok(number(negative, spelling)),
        _ if negative => Ok(None),
        Token::Word(name) => Ok(word(name)),
        Token::Quoted(spelling) => quoted(alloc, spelling),
        Token::Punctuator(_) => Ok(None),
    }
}
