//! `format`: format strings whose verbs print the items of a list.
#![tactic(auto)]

mod filling;
mod formatted;
pub mod laws;
mod reading;
mod verbs;

pub use formatted::{format, printed};
