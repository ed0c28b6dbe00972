//! Patterns as an API server reads them: a text in the syntax of RE2, translated to the syntax of the
//! crate `regex`.
#![tactic(auto)]

mod bracket;
mod escape;
mod fronts;
mod group;
mod lexeme;
mod named;
mod opening;
mod piece;
mod refusal;
mod repetition;
mod state;
mod translation;

pub use refusal::{Limit, Refusal};
pub use translation::translate;
