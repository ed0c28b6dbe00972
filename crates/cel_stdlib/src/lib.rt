//! The functions of the CEL standard, which every context has.
#![tactic(auto)]

mod conversions;
mod dispatch;
pub mod extremes;
pub mod faults;
mod names;
mod optionals;
mod sizes;
mod strings;
mod times;

pub use dispatch::{StandardFunctions, answer_of_function};
pub use names::{Function, known_function};
