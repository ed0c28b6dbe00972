//! The definition of the translation of an API server's trees, with the types that it speaks of,
//! kinds of calls and what may be wrong with a macro, and with the forms that it makes.
#![tactic(auto)]

pub mod error;
pub mod forms;
pub mod kind;
pub mod terms;
