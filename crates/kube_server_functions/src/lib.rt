//! The functions that an API server of Kubernetes 1.33 knows.
//!
//! [`ServerFunctions`] answers the names of optionals, getters and conversions, and those that
//! macros and optional syntax stand for, and hands all other calls to
//! [`AllFunctions`](kube_functions::AllFunctions).
#![tactic(auto)]

mod calls;
mod changed;
mod functions;
pub mod laws;
mod operands;
mod patterns;
mod sets;
mod table;
mod texts;
pub mod unsupported;

pub use sets::ServerFunctions;
