//! Parses CEL expressions. [`parse`] returns the tree
//! of a text, nested up to level 250, or an error.
//!
//! ```rust
//! use cel_syntax::parse;
//! use kube_types::Refused;
//! use std::alloc::Global;
//!
//! /// Reports whether a rule reads the old object. Returns `None` if it can't be parsed.
//! fn reads_old_self(alloc: Global, rule: &str) -> Result<Option<bool>, Refused> {
//!     match parse(alloc, rule)? {
//!         Ok(tree) => Ok(Some(tree.has_free_name("oldSelf"))),
//!         Err(_) => Ok(None),
//!     }
//! }
//! ```
//!
//! [`References`] holds all free names of a tree and the names of all functions that it calls.
//! The outer error means that memory was refused.
//!
//! Proved: `parse` returns a tree exactly if the text derives it by the grammar of the CEL language
//! definition (`specs/Reading.antt`). Laws: a text derives at most one tree, and the tree computed
//! from the text is the one that the grammar derives.
#![tactic(auto)]

mod bound;
mod calls;
mod cursor;
mod error;
mod grammar;
pub mod laws;
mod names;
mod operators;
mod parser;
mod reading;
mod references;
mod syntax_error;
mod variables;

pub use cel_syntax_ast::{BinaryOperator, Expr, MacroKind, UnaryOperator};
pub use error::ParseErrors;
pub use kube_types::Refused;
pub use reading::parse;
pub use references::References;
