//! Where a text goes wrong, and why.

use crate::expected::Expected;
use kube_server_syntax::node::Place;

/// What is wrong with a text.
#[derive(Clone, Copy, Debug, PartialEq, Eq)]
pub enum Problem {
    /// No token begins here.
    NoToken,
    /// A string literal begins here that isn't closed.
    Unclosed,
    /// A literal without a value: an integer past 64 bits, or an invalid escape.
    InvalidLiteral,
    /// No text of the grammar goes on with this token.
    Unexpected(Expected),
    /// Something is missing at the end of the text.
    Unfinished(Expected),
    /// What ends here nests past level 250.
    TooDeep,
}

/// Why a text derives no tree.
#[derive(Clone, Copy, Debug, PartialEq, Eq)]
pub struct SyntaxError {
    /// The token that is wrong. It is empty where no token begins, and at the end of the text.
    pub place: Place,
    pub problem: Problem,
}
