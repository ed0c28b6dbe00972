//! Kubernetes' string functions: offsets, letter case,
//! splitting and joining, patterns, encodings and escapes.
//!
//! Each function returns an `Answer`: a value, or the error that the call evaluates to, such as
//! `no such overload` for operands of other kinds. `Refused` is returned if memory is refused.
#![tactic(auto)]

mod answers;
mod cuts;
mod encoders;
mod joins;
pub mod laws;
mod letters;
mod offsets;
mod operands;
mod quoting;
mod regex;
mod splitting;

pub use encoders::{base64_decode, base64_encode};
pub use joins::join;
pub use letters::{lower_ascii, reverse, trim, upper_ascii};
pub use offsets::{char_at, index_of, last_index_of, substring};
pub use quoting::{escape_key, quote};
pub use regex::{find, find_all};
pub use splitting::{replace, split};
