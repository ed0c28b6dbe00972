//! Evaluation of the expressions of Kubernetes' ValidatingAdmissionPolicy without
//! an API server; the admission requests that they read, and their results.
#![tactic(auto)]

mod adapter;
mod compilation;
mod context;
pub mod evaluator;
mod expression;
mod expression_results;
pub mod laws;
mod owned;
mod request;
mod value;
mod variables;

pub use adapter::Adapter;
pub use compilation::{CompiledVapExpression, VapError};
pub use context::{bind, bind_always, bind_given};
pub use evaluator::{VapEvaluator, VapEvaluatorBuilder};
pub use expression::{VapExpression, VapResult};
pub use kube_types::Refused;
pub use request::{AdmissionRequest, GroupVersionKind, GroupVersionResource};
pub use value::request_value;
