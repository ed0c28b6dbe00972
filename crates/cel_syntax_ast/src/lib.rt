//! The tree of a CEL expression, with its nodes and its free names. Builds the nodes of a
//! tree from their parts, tells the kinds of calls apart, and tells which words are names.
#![tactic(auto)]

mod builders;
mod calls;
pub mod expr;
mod free_names;
mod macros;
mod nodes;
mod owned;
mod qualified;
mod words;

pub use builders::{binary, conditional, ident, index, select, unary};
pub use calls::{call, method, parts_level};
pub use expr::{BinaryOperator, Expr, MacroKind, UnaryOperator};
pub use owned::both;
pub use words::{identifier, selector};
