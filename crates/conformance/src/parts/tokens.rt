//! Prints tokens as lines of text.

use cel_syntax_lexer::lexer::tokens;
use cel_syntax_lexer::punctuator::Punctuator;
use cel_syntax_lexer::token::Token;
use conformance_rows::Output;
use conformance_rows::texts::text_of;
use std::alloc::Global;

/// The spelling of a punctuator.
fn symbol(punctuator: Punctuator) -> &'static str {
    match punctuator {
        Punctuator::OpenRound => "(",
        Punctuator::CloseRound => ")",
        Punctuator::OpenSquare => "[",
        Punctuator::CloseSquare => "]",
        Punctuator::OpenBrace => "{",
        Punctuator::CloseBrace => "}",
        Punctuator::Comma => ",",
        Punctuator::Dot => ".",
        Punctuator::Colon => ":",
        Punctuator::Question => "?",
        Punctuator::Not => "!",
        Punctuator::Minus => "-",
        Punctuator::Plus => "+",
        Punctuator::Star => "*",
        Punctuator::Slash => "/",
        Punctuator::Percent => "%",
        Punctuator::Less => "<",
        Punctuator::LessOrEqual => "<=",
        Punctuator::Greater => ">",
        Punctuator::GreaterOrEqual => ">=",
        Punctuator::Equal => "==",
        Punctuator::NotEqual => "!=",
        Punctuator::And => "&&",
        Punctuator::Or => "||",
    }
}

/// Writes the class and the spelling of a token on a line.
fn put_token(token: &Token<'_>, out: &mut Output) {
    let (class, spelling) = match token {
        Token::Word(spelling) => ("word ", text_of(spelling)),
        Token::Number(spelling) => ("number ", text_of(spelling)),
        Token::Quoted(spelling) => ("string ", text_of(spelling)),
        Token::Punctuator(punctuator) => ("symbol ", symbol(*punctuator)),
    };
    out.push_line(class);
    out.push(spelling);
}

/// Writes the tokens of a text, one a line, or `invalid` if it can't be cut into tokens.
pub(crate) fn put_tokens(alloc: Global, text: &str, out: &mut Output) {
    match out.take(tokens(alloc, text.as_bytes())) {
        Some(Some(list)) => {
            for token in list.as_slice() {
                put_token(token, out);
            }
        }
        Some(None) => out.push("invalid"),
        None => {}
    }
}
