//! Rows: text files that state the answers of the library and the programs (docs/ROWS.md).
//!
//! A program of rows just calls [`run_files`]: it reads the files that its arguments name, asks a
//! [`Subject`] for the answer to each field, and prints how many checks hold and which don't.
//! Further modules have the values that a row gives, the questions that its keys stand for, and the
//! texts, schemas and sequences that rows and grammars make.
#![tactic(auto)]

mod files;
mod found;
pub mod given;
pub mod grammar;
mod judge;
pub mod keys;
mod narrow;
pub mod nested;
mod output;
pub mod questions;
mod ran;
mod random;
mod reader;
mod row;
pub mod texts;

pub use files::run_files;
pub use found::Found;
pub use judge::Subject;
pub use narrow::{MANY, Narrow};
pub use output::Output;
pub use ran::Ran;
pub use row::{Field, Stop};
