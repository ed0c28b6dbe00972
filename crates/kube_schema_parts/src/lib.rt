//! Conversion of the demanded part of a JSON value to CEL, by a schema.
#![tactic(auto)]

pub mod parts;
pub mod rebinding;

pub use parts::bind_part_at;
pub use rebinding::rebind_part_at;
