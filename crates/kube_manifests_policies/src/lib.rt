//! Evaluates whole ValidatingAdmissionPolicies without an API server: match conditions, variables,
//! validations and audit annotations.
//!
//! The input is a policy's document and what is known of a request ([`PolicyInputs`]). The output
//! is a verdict ([`PolicyVerdict`]) with the result of each expression. Objects have their own keys,
//! unescaped. An input that isn't given is never taken as empty: an expression that reads it isn't
//! evaluated, and a policy with such a match condition, validation or audit annotation never admits.
//! An expression that uses what isn't there keeps the policy from being judged.
//!
//! ```rust
//! use kube_manifests_policies::{PolicyDecision, PolicyInputs, Refused, evaluate_policy};
//! use serde_json::Value;
//! use std::alloc::Global;
//!
//! /// Whether a policy admits the request of an AdmissionReview; `None` if a document is malformed.
//! fn is_admitted(alloc: Global, policy: &Value, review: &Value) -> Result<Option<bool>, Refused> {
//!     let Ok(inputs) = PolicyInputs::from_review(alloc, review)? else {
//!         return Ok(None);
//!     };
//!     match evaluate_policy(alloc, policy, &inputs)? {
//!         Ok(verdict) => Ok(Some(verdict.decision == PolicyDecision::Admitted)),
//!         Err(_) => Ok(None),
//!     }
//! }
//! ```
//!
//! Proved: [`evaluate_policy`] answers, under some book of patterns, exactly the verdict of the
//! policy over the inputs, or the document's first fault (`specs/Reports.antt`,
//! `specs/Policies.antt`). Laws: if a policy admits, none of its match conditions, validations and
//! audit annotations reads an input that isn't given or is refused, and no validation is false; the
//! order of two variables that don't read each other doesn't matter.
#![tactic(auto)]

mod context;
mod evaluation;
pub mod laws;
mod refusals;
mod reports;
mod scope;
mod variables;
mod verdict;

pub use evaluation::{evaluate_policy, evaluate_policy_in};
pub use kube_manifests_documents::{FaultKind, PolicyFault, PolicyInputs};
pub use kube_manifests_names::Input;
pub use kube_types::Refused;
pub use verdict::{ItemReport, PolicyDecision, PolicyResult, PolicyVerdict};
