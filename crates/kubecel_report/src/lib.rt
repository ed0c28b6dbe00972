//! The report of `kubecel` on each thing that was judged, in each form of output, and the exit
//! status of all of them.
#![tactic(auto)]

mod escape;
mod item;
mod json_report;
pub mod laws;
mod lines;
mod output;
mod said;
mod summary;

pub use escape::shown;
pub use item::{Finding, Item, Verdict, status_of};
pub use lines::write_number;
pub use output::{Output, write_items};
pub use said::write_said;
pub use summary::write_summary;
