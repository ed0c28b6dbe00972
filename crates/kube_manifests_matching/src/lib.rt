//! Decides which ValidatingAdmissionPolicies apply to a request, by which bindings, and with which
//! params.
#![tactic(auto)]

mod attributes;
mod criteria;
mod labels;
pub mod laws;
mod made;
mod pairs;
mod params;
mod rules;
mod truth;

pub use attributes::{Attributes, Equivalents, Operation};
pub use criteria::{Applicability, Criterion, Owner, Reason};
pub use kube_manifests_bindings::{
    Actions, Binding, BindingFault, BindingProblem, Constraints, Found, ParamKind, ParamRef,
    ParamSource, PolicyTarget, Selector, binding_of, reported, target_of,
};
pub use kube_manifests_resources::{
    Builtin, CrdResource, GroupVersion, ResourceScope, builtin_named, builtin_of, crd_resource_of,
    served_name,
};
pub use labels::{is_empty, labels_of, selects};
pub use made::MadeRequest;
pub use pairs::applicability;
pub use params::{ParamFilter, ParamsFailure, Plan};
