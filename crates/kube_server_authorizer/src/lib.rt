//! The authorizer of a policy's expressions: a value that is given from outside, with the answers
//! that it has.
//!
//! Each function returns an `Answer`: a value, or the error that the call evaluates to. What the
//! authorizer has no answer to is the error of an undeclared name that says what was asked.
#![tactic(auto)]

mod asked;
pub mod calls;
mod kinds;
pub mod methods;

pub use methods::{AuthorizerFunction, Method, method_named};
