//! The tokens that are operators.

ghost use Rattle.std.specs.Prelude.{◌≡◌};
ghost use Rattle.cel_syntax_lexer.specs.Token.{token_of};
ghost use Rattle.cel_syntax.specs.Operator as spec;

use cel_syntax_ast::{BinaryOperator, UnaryOperator};
use cel_syntax_lexer::punctuator::Punctuator;
use cel_syntax_lexer::token::Token;

/// The punctuator that denotes the sign.
pub(crate) fn sign_punctuator(sign: UnaryOperator) -> Punctuator
    ensures { result ≡ spec.sign sign }
{
    match sign {
        UnaryOperator::Not => Punctuator::Not,
        UnaryOperator::Negate => Punctuator::Minus,
    }
}

/// The binary operator that the punctuator denotes, if any, and
/// its level. A larger level binds more loosely.
fn operator_of(punctuator: Punctuator) -> Option<(u8, BinaryOperator)>
    ensures { result ≡ spec.operator_of punctuator }
{
    match punctuator {
        Punctuator::Star => Some((1, BinaryOperator::Multiply)),
        Punctuator::Slash => Some((1, BinaryOperator::Divide)),
        Punctuator::Percent => Some((1, BinaryOperator::Remainder)),
        Punctuator::Plus => Some((2, BinaryOperator::Add)),
        Punctuator::Minus => Some((2, BinaryOperator::Subtract)),
        Punctuator::Less => Some((3, BinaryOperator::Less)),
        Punctuator::LessOrEqual => Some((3, BinaryOperator::LessOrEqual)),
        Punctuator::Greater => Some((3, BinaryOperator::Greater)),
        Punctuator::GreaterOrEqual => Some((3, BinaryOperator::GreaterOrEqual)),
        Punctuator::Equal => Some((3, BinaryOperator::Equal)),
        Punctuator::NotEqual => Some((3, BinaryOperator::NotEqual)),
        Punctuator::And => Some((4, BinaryOperator::And)),
        Punctuator::Or => Some((5, BinaryOperator::Or)),
        _ => None,
    }
}

/// The binary operator that the word denotes, if any, and its level.
fn word_operator(word: &[u8]) -> Option<(u8, BinaryOperator)>
    ensures { result ≡ spec.word_operator word.now }
{
    let name: &[u8] = b"in";
    if word == name {
        Some((3, BinaryOperator::In))
    } else {
        None
    }
}

/// The binary operator that the token denotes, if any, and its level.
pub(crate) fn token_operator(token: Token<'_>) -> Option<(u8, BinaryOperator)>
    ensures { result ≡ spec.operator (token_of token.entry) }
{
    match token {
        Token::Word(word) => word_operator(word),
        Token::Punctuator(punctuator) => operator_of(punctuator),
        _ => None,
    }
}
