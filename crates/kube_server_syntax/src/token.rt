//! Tokens with their places.

use crate::node::Place;
use cel_syntax_lexer::token::Token;

/// A token, and where it stands in the text.
#[derive(Clone, Copy)]
pub struct PlacedToken<'a> {
    pub token: Token<'a>,
    pub place: Place,
}
