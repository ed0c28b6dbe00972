//! Judges the objects of documents by the CustomResourceDefinitions that are given: which documents are
//! definitions, which objects have an old one, and what is reported of each object.
#![tactic(auto)]

mod defined;
mod definitions;
mod doubles;
mod errors;
mod item;
mod judgements;
mod olds;
mod set;
mod subjects;

pub use defined::refuse_unless_defined;
pub use definitions::{definitions_of, passed_over};
pub use item::{item_of, remark};
pub use judgements::{judge, passed_over_item};
pub use olds::{refuse_unless_compared, refuse_unless_useful};
pub use set::{fault_of, set_or_fault};
pub use subjects::{judged_subjects, refuse_unless_some, subjects_of};
