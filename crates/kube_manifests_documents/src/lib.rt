//! Reads JSON documents: CustomResourceDefinitions and lists of them, ValidatingAdmissionPolicies, and
//! the inputs of these that an AdmissionReview carries.
//!
//! What is read is borrowed from the document. What doesn't have the shape that it should have is
//! reported by its first fault and the JSON Pointer (RFC 6901) of that.
#![tactic(auto)]

mod crd_fault;
mod crd_fault_text;
mod defined;
mod definition;
mod definitions;
mod earlier;
mod fault;
mod inputs;
mod item;
pub mod laws;
mod location;
mod pointer;
mod policy;
mod review;

pub use crd_fault::{CrdError, CrdFault};
pub use defined::{DefinedVersion, DefinedVersions};
pub use definition::{TypeMeta, entries_of, is_crd, list_of, schema_of, text_at, type_meta_of};
pub use earlier::earlier_definition;
pub use fault::{FaultKind, Found, PolicyFault, reported};
pub use inputs::PolicyInputs;
pub use item::Item;
pub use pointer::{index_pointer, key_pointer, keyword_pointer};
pub use policy::{Policy, policy_of};
