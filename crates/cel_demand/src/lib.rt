//! What a CEL expression reads of the values that its names are bound to.
//!
//! A [`Demand`] says how much of a value is read: only that it exists, the whole
//! of it, some members of a map, or a part of each item of a list. Proved: the
//! meaning of an expression depends only on what it reads ([`laws`]).
#![tactic(auto)]

mod both;
mod demand;
pub mod laws;
mod reads;

pub use both::{both_demands, demand_on};
pub use demand::Demand;
pub use reads::demands_of;
