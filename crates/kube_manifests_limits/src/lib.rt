//! Tells the errors of an evaluation that are limits of this project, at which an API server may have
//! a value, from those that it has too.
#![tactic(auto)]

mod limits;

pub use limits::is_limit;
