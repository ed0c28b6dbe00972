//! The functions on optionals, maps, bools and types that an API server of Kubernetes knows beyond
//! those of the CEL standard here, and those that its macros and optional syntax stand for.
//!
//! Each function returns an `Answer`: a value, or the error that the call evaluates to. What no
//! document answers is the error of an undeclared name that has a blank.
#![tactic(auto)]

pub mod bools;
mod limits;
pub mod maps;
pub mod optionals;
pub mod pairs;
pub mod selections;
pub mod types;
