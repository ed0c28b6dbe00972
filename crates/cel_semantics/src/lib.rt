//! The semantics of CEL expressions: variables, functions, operators, and the meaning of a tree.
#![tactic(auto)]

mod arithmetic;
pub mod calls;
pub mod context;
pub mod functions;
pub mod macros;
mod maps;
pub mod members;
mod names;
pub mod operators;
pub mod ranges;
pub mod scope;
mod times;

pub use context::Context;
pub use functions::{Form, Functions};
pub use operators::Answer;
