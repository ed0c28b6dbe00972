//! Flat code of CEL expressions, compiled from their trees.
#![tactic(auto)]

mod compile;
mod instr;

pub use compile::compile_tree;
pub use instr::{Instr, Operation, Test};
