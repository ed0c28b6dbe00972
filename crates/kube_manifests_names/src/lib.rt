//! The names of a policy's expressions: the values of objects and requests, with their own keys,
//! which names an expression may use, and which it reads.
#![tactic(auto)]

mod bound;
mod inputs;
pub mod laws;
mod names;
mod request;
mod uses;
mod values;

pub use inputs::{Input, absent_inputs, first_missing};
pub use names::{Names, Refusal, refusal_of};
pub use request::request_value;
pub use uses::asks;
pub use values::unstructured;
