//! The machine with explicit stacks that runs the flat code of CEL expressions.
#![tactic(auto)]

mod calls;
mod forms;
mod items;
mod lent;
mod loops;
mod operands;
mod operations;
mod run;
mod stack;
mod state;
mod turns;

pub use run::{run_code, run_code_in};
pub use state::Stacks;
