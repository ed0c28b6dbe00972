//! A cursor over tokens.

ghost use Rattle.std.specs.Prelude.{◌≡◌, ◌∷◌, [], MatchOption, drop, length};
ghost use Rattle.cel_syntax_lexer.specs.Token.{token_of};
ghost use Rattle.cel_syntax.specs.Ahead as spec;
ghost use Rattle.cel_syntax.specs.Ahead.{tokens_left};
ghost use Rattle.cel_syntax.specs.Operator.{begins_number, is_operator_before};

use crate::operators::{sign_punctuator, token_operator};
use cel_syntax_ast::{BinaryOperator, UnaryOperator};
use cel_syntax_lexer::punctuator::Punctuator;
use cel_syntax_lexer::takes_minus;
use cel_syntax_lexer::token::Token;

/// The tokens that are left to parse.
#[derive(Clone, Copy)]
pub struct Cursor<'a> {
    /// The tokens that aren't consumed yet, in order.
    pub rest: &'a [Token<'a>],
}

#[tactic(auto, unfolding(crate::specs::Ahead::same_punctuator))]
fn same_punctuator(a: Punctuator, b: Punctuator) -> bool
    ensures { result ≡ spec.same_punctuator a b }
{
    a == b
}

fn is_end(punctuator: Punctuator) -> bool
    ensures { result ≡ spec.is_end punctuator }
{
    matches!(
        punctuator,
        Punctuator::CloseRound
            | Punctuator::CloseSquare
            | Punctuator::CloseBrace
            | Punctuator::Comma
    )
}

impl<'a> Cursor<'a> {
    /// Takes the next token, if there is one.
    pub fn next(&mut self) -> Option<Token<'a>>
        ensures token { MatchOption result ((tokens_left self.old ≡ []) × (tokens_left self.new ≡ []))
            (λ t. tokens_left self.old ≡ token_of t ∷ tokens_left self.new) }
        ensures rest { tokens_left self.new ≡ drop 1 (tokens_left self.old) }
    {
        let tokens = self.rest;
        if tokens.is_empty() {
            return None;
        }
        self.rest = &tokens[1..];
        Some(tokens[0])
    }

    /// The number of tokens left.
    pub fn len(&self) -> usize
        ensures { result ≡ length (tokens_left self.now) }
    {
        self.rest.len()
    }

    /// Reports whether the next token is this punctuator.
    pub fn sees(&self, punctuator: Punctuator) -> bool
        ensures { result ≡ spec.sees punctuator (tokens_left self.now) }
    {
        match self.rest.first() {
            Some(Token::Punctuator(next)) => same_punctuator(*next, punctuator),
            _ => false,
        }
    }

    /// The next token's operator, if it is a binary operator of this level.
    #[tactic(auto, unfolding(crate::specs::Ahead::operator_at))]
    pub fn operator(&self, level: u8) -> Option<BinaryOperator>
        ensures { result ≡ spec.operator_at level (tokens_left self.now) }
    {
        match self.rest.first() {
            Some(token) => match token_operator(*token) {
                Some((at, operator)) if at == level => Some(operator),
                _ => None,
            },
            None => None,
        }
    }

    /// Reports whether the next token is a binary operator.
    pub fn sees_operator(&self) -> bool
        ensures { result ≡ spec.sees_operator (tokens_left self.now) }
    {
        match self.rest.first() {
            Some(token) => token_operator(*token).is_some(),
            None => false,
        }
    }

    /// Reports whether the next token is a comma or a closing bracket.
    pub fn sees_end(&self) -> bool
        ensures { result ≡ spec.sees_end (tokens_left self.now) }
    {
        match self.rest.first() {
            Some(Token::Punctuator(punctuator)) => is_end(*punctuator),
            _ => false,
        }
    }

    /// Reports whether a comma is next and another item follows it.
    pub fn goes_on(&self) -> bool
        ensures { result ≡ spec.goes_on (tokens_left self.now) }
    {
        if !self.sees(Punctuator::Comma) {
            return false;
        }
        let mut ahead = *self;
        let _comma = ahead.next();
        !ahead.sees_end()
    }

    /// Reports whether the next token is an int or a double.
    pub fn begins_number(&self) -> bool
        ensures { result ≡ begins_number (tokens_left self.now) }
    {
        match self.rest.first() {
            Some(token) => takes_minus(*token),
            None => false,
        }
    }

    /// Takes the next token if it is this punctuator. Returns whether it was.
    pub fn eat(&mut self, punctuator: Punctuator) -> bool
        ensures found { result ≡ spec.sees punctuator (tokens_left self.old) }
        ensures after { tokens_left self.new ≡ spec.after punctuator (tokens_left self.old) }
    {
        let found = self.sees(punctuator);
        if found {
            let _punctuator = self.next();
        }
        found
    }

    /// Reports whether the sign before the tokens that are left
    /// is an operator, rather than part of a literal.
    fn is_operator_before(&self, sign: UnaryOperator) -> bool
        ensures { result ≡ is_operator_before sign (tokens_left self.now) }
    {
        match sign {
            UnaryOperator::Not => true,
            UnaryOperator::Negate => !self.begins_number(),
        }
    }

    /// Reports whether the next token is this sign, as an operator.
    #[tactic(auto, unfolding(crate::specs::Ahead::sees_sign))]
    fn sees_sign(&self, sign: UnaryOperator) -> bool
        ensures { result ≡ spec.sees_sign sign (tokens_left self.now) }
    {
        if !self.sees(sign_punctuator(sign)) {
            return false;
        }
        let mut ahead = *self;
        let _sign = ahead.next();
        ahead.is_operator_before(sign)
    }

    /// Takes all such signs that come next and returns their number.
    /// A minus that belongs to a literal isn't taken.
    pub fn signs(&mut self, sign: UnaryOperator) -> usize
        ensures count { result ≡ (spec.signs sign (tokens_left self.old)).0 }
        ensures rest { tokens_left self.new ≡ (spec.signs sign (tokens_left self.old)).1 }
    {
        let all = self.len();
        for turn in 0..all {
            if !self.sees_sign(sign) {
                return turn;
            }
            let _sign = self.next();
        }
        all
    }
}
