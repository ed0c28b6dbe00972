//! Reviews CustomResourceDefinitions: finds, without any object, what a person should look at.
//!
//! [`review_crd`] reports for each version the findings of the linter, and then whatever else is
//! wrong with the schema: calls that can't work, literals and patterns that are refused,
//! messageExpressions that aren't strings, keys that no schema or rule has, rules that aren't a
//! list or that no object is judged by, a schema without rules. Each finding has its JSON Pointer into the document.
//!
//! ```rust
//! use kube_manifests_review::review_crd;
//! use serde_json::Value;
//! use std::alloc::Global;
//!
//! /// The number of findings in a document; `None` if memory is refused.
//! fn things_to_look_at(alloc: Global, crd: &Value) -> Option<usize> {
//!     match review_crd(alloc, crd) {
//!         Ok(found) => Some(found.len()),
//!         Err(_) => None,
//!     }
//! }
//! ```
//!
//! Proved: the findings are exactly those of the definition (`Reviewed.antt`), in order, under some
//! book of patterns. [`review_crd_with`] states this for every book that extends the lent one as it
//! is after the call.
#![tactic(auto)]

mod call;
mod candidate;
mod document;
mod feature;
pub mod finding;
mod keyword;
pub mod laws;
mod linted;
mod locations;
mod message;
mod messages;
mod node;
mod part;
pub mod review;
mod rule;
mod schema;
mod stray;
mod text;
mod unread;
mod word;

pub use feature::lacking_text;
pub use finding::{ReviewFinding, ReviewKind};
pub use kube_cel_analysis::LintKind;
pub use review::{review_crd, review_crd_with};
pub use unread::unread_parts;
