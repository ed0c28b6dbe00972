//! Parses rules as an API server reads them. [`parse`] returns the tree of a text, nested up to
//! level 250, or where the text goes wrong first, and why.
//!
//! ```rust
//! use kube_server_parser::{line_and_column, parse};
//! use kube_types::Refused;
//! use std::alloc::Global;
//!
//! /// Returns the line and the column where a rule goes wrong.
//! fn wrong_place(alloc: Global, rule: &str) -> Result<Option<(usize, usize)>, Refused> {
//!     match parse(alloc, rule)? {
//!         Ok(_) => Ok(None),
//!         Err(error) => {
//!             let position = line_and_column(rule, error.place.begin);
//!             Ok(Some((position.line, position.column)))
//!         }
//!     }
//! }
//! ```
#![tactic(auto)]

mod brackets;
mod build;
mod calls;
mod expected;
mod frame;
pub mod laws;
mod level;
mod lines;
mod links;
mod machine;
mod mode;
mod operands;
mod parser;
mod part;
mod pending;
mod steps;
mod stop;
mod syntax_error;

pub use expected::{Closing, Expected};
pub use lines::{Position, line_and_column};
pub use parser::parse;
pub use syntax_error::{Problem, SyntaxError};
