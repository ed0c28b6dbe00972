//! The book of patterns. It holds what the crate `regex` answered to each pattern of a run; each
//! pattern is built once and searched many times.
#![tactic(auto)]

mod book;
mod pattern;
mod spans;

pub use book::PatternBook;
