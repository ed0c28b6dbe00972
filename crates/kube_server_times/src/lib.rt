//! The functions on timestamps and durations that an API server of Kubernetes knows beyond those of
//! the CEL standard here: getters, conversions from and to ints, and texts.
//!
//! Each function returns an `Answer`: a value, or the error that the call evaluates to. What isn't
//! answered, as a zone by its name, is the error of an undeclared name that has a blank.
#![tactic(auto)]

mod calendar;
pub mod conversions;
mod decimals;
pub mod field;
pub mod getters;
mod limits;
pub mod texts;
mod zones;

pub use field::Field;
