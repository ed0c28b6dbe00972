//! The tokens of a text.

use crate::punctuator::Punctuator;

/// A token, with its spelling in the text if it can have several.
#[derive(Clone, Copy)]
pub enum Token<'a> {
    /// A letter or `_`, followed by letters, digits and
    /// `_`, all ASCII. Reserved words are included.
    Word(&'a [u8]),
    /// The spelling of a number.
    Number(&'a [u8]),
    /// The full spelling of a string literal, with its quotes.
    Quoted(&'a [u8]),
    /// A bracket, a punctuation mark or an operator.
    Punctuator(Punctuator),
}
