//! Judges objects by CustomResourceDefinitions. The schema for an object's own apiVersion and kind
//! judges it; if there is none, the answer says why, and the object never passes.
//!
//! The input is a list of JSON documents: definitions, or lists of them. Each version's schema is
//! compiled once. Then objects are judged, each with its old state if it has one.
//!
//! ```rust
//! use kube_manifests::{CrdSet, Judgement, Refused};
//! use serde_json::Value;
//! use std::alloc::Global;
//!
//! /// Why an object isn't admitted; `None` if it is.
//! fn denial(alloc: Global, set: &CrdSet, object: &Value) -> Result<Option<String>, Refused> {
//!     match set.validate(alloc, object, None)? {
//!         Judgement::Judged(Ok(())) => Ok(None),
//!         Judgement::Judged(Err(errors)) => Ok(Some(errors.to_string(alloc)?)),
//!         Judgement::NotJudged(reason) => Ok(Some(format!(in alloc; "not judged: {reason}")?)),
//!     }
//! }
//! ```
//!
//! For many objects, lend one book of patterns to [`CrdSet::validate_in`].
//!
//! Proved: a set holds exactly the versions of its documents, or else the documents' first fault is
//! returned. An object is judged exactly if the set has a served version with its apiVersion and
//! kind, and then the answer is that of the version's schema, as `kube_cel` defines it; otherwise
//! exactly the reason is reported. `specs/Versions.antt` defines which version that is,
//! `kube_manifests_documents` which versions documents have.
#![tactic(auto)]

mod choice;
mod explanation;
mod judgement;
pub mod laws;
mod list;
mod rules;
mod set;
mod version;

pub use judgement::{Judgement, NotJudged};
pub use kube_cel::cel::PatternBook;
pub use kube_cel::{Refused, ValidationError, ValidationErrors};
pub use kube_manifests_documents::{CrdError, CrdFault, earlier_definition, is_crd};
pub use rules::rule_count;
pub use set::CrdSet;
