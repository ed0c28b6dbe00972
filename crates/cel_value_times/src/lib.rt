//! The timestamps and durations of CEL: their texts, their order and their sums.
#![tactic(auto)]

mod decimals;
mod duration;
mod duration_texts;
mod fronts;
pub mod laws;
mod timestamp;
mod timestamp_texts;

pub use duration::Duration;
pub use timestamp::Timestamp;
