//! The lexer: splits a CEL text into tokens, and computes the
//! values of literals, each of which is one token.
//!
//! Source: the sections "Syntax" and "Values" of the CEL language definition.
#![tactic(auto)]

mod bytes;
mod content;
mod escape;
pub mod laws;
pub mod lexer;
mod number;
mod number_value;
pub mod punctuator;
mod string_literal;
mod string_value;
pub mod token;
mod value;

pub use value::{literal, takes_minus};
