//! The values of CEL, of 18 kinds, with their equality and order, their texts, the
//! keys of maps, and the errors of an execution.
//!
//! A [`Value`] takes 24 bytes and shares what is large, so copying it allocates nothing. A
//! [`Text`], as strings and keys have it, is held in the value itself up to 14 bytes, and shared if
//! it is longer. Functions that make a value take an allocator first. They return [`Refused`] if
//! there is no memory, or if the value would have more than 4,096 levels of nested lists, maps and
//! optionals.
//!
//! ```rust
//! use cel_value::{Refused, Value};
//! use std::alloc::Global;
//!
//! /// The list `[1, 'two']`.
//! fn pair(alloc: Global) -> Result<Value, Refused> {
//!     let mut items = Vec::new(alloc);
//!     items.push(Value::Int(1))?;
//!     items.push(Value::of_str(alloc, "two")?)?;
//!     Value::from_items(alloc, items)
//! }
//! ```
//!
//! Proved: `==` is an equivalence; `==` and `compare` agree with their definitions
//! (`specs/Same.antt`), and so do copies, parts, lookups and texts. Contracts see a value as `Data`
//! (`specs/Data.antt`). A double is kept without its number.
#![tactic(auto)]

pub mod build;
pub mod compare;
pub mod copy;
pub mod error;
pub mod key;
pub mod kind;
pub mod laws;
pub mod parts;
pub mod same;
pub mod string;
pub mod text;
pub mod value;

pub use cel_value_times::{Duration, Timestamp, laws as time_laws};
pub use error::ExecutionError;
pub use key::Key;
pub use kind::Kind;
pub use kube_types::Refused;
pub use string::Text;
pub use value::{
    Entries, List, MAX_VALUE_LEVELS, Map, MapKeys, MapRows, OptionalValue, SharedEntries, Value,
};
