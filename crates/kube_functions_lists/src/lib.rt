//! Kubernetes' functions on lists, sets and numbers.
//!
//! Each function returns an `Answer`: a value, or the error that the call evaluates to, such as
//! `no such overload` for operands of other kinds. `Refused` is returned if memory is refused.
#![tactic(auto)]

pub mod bits;
mod hashes;
pub mod indices;
mod items;
mod keyed;
pub mod laws;
pub mod levels;
pub mod lists;
pub mod math;
mod members;
pub mod orders;
pub mod ranges;
pub mod sets;
pub mod sums;
