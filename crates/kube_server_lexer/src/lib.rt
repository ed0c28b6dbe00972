//! The first piece of a text: a token with its length, or white space, or a comment.
//!
//! Source: section "Syntax" of the CEL language definition.
#![tactic(auto)]

mod bytes;
pub mod lexer;
mod number;
mod string_literal;
