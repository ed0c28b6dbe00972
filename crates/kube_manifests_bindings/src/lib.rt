//! Reads the parts of ValidatingAdmissionPolicies and their bindings that say which requests they are
//! for.
//!
//! What is read is borrowed from the document. What doesn't have the shape that it should have is
//! reported by its first fault and the JSON Pointer (RFC 6901) of that.
#![tactic(auto)]

mod binding;
mod constraints;
mod fault;
mod fields;
mod header;
mod location;
mod parts;
mod policy;
mod selector;

pub use binding::{Actions, Binding, ParamRef, ParamSource, binding_of};
pub use constraints::{Constraints, Rule, Scope};
pub use fault::{BindingFault, BindingProblem, Found, reported};
pub use policy::{ParamKind, PolicyTarget, target_of};
pub use selector::{Operator, Requirement, Selector};
