//! The syntax of rules as an API server reads them.
#![tactic(auto)]

pub mod grammar_laws;
pub mod node;
pub mod token;
