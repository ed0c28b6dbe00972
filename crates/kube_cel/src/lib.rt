//! Validation of Kubernetes objects by the CEL rules of their
//! schemas (`x-kubernetes-validations`), without an API server.
//!
//! The input is a schema (a custom resource's `openAPIV3Schema`) and an object, as
//! JSON, and the old object if there is one. The output is a list of errors, each with
//! its field. A rule that can't be parsed or evaluated is an error, never a pass.
//!
//! ```rust
//! use kube_cel::{Refused, validate};
//! use serde_json::Value;
//! use std::alloc::Global;
//!
//! /// Why an object is denied; `None` if it is admitted.
//! fn denial(alloc: Global, schema: &Value, object: &Value) -> Result<Option<String>, Refused> {
//!     match validate(alloc, schema, object, None)? {
//!         Ok(()) => Ok(None),
//!         Err(errors) => Ok(Some(errors.to_string(alloc)?)),
//!     }
//! }
//! ```
//!
//! [`Validator`] has all forms of the call: with a root context, with a lent book of
//! patterns, and by a compiled schema. The crate also evaluates policies ([`VapEvaluator`]),
//! analyzes rules ([`analyze_rule`]) and lints schemas ([`lint_schema`]).
//!
//! Proved: unless memory is refused, `validate` and each call of [`Validator`]
//! return exactly one list of errors: for every place that schema and defaulted
//! object share, in order, the errors of the rules there, and one error at each
//! place where both go on past depth 64. They return `Ok` exactly if that list is
//! empty. The clause is `answer`, whose definition begins in `specs/Answers.antt`.
#![tactic(auto)]

mod compiled;
mod errors;
pub mod laws;
pub mod validation;

pub use cel;
pub use kube_cel_analysis::{
    AnalysisWarning, LintFinding, LintKind, ScopeContext, WarningKind, analyze_rule,
    check_rule_scope, estimate_rule_cost, laws as analysis_laws, lint_schema,
};
pub use kube_cel_vap::{
    AdmissionRequest, CompiledVapExpression, GroupVersionKind, GroupVersionResource, VapError,
    VapEvaluator, VapEvaluatorBuilder, VapExpression, VapResult, laws as policy_laws,
    request_value,
};
pub use kube_cel_walk::{
    ErrorKind, RootContext, ValidationError, ValidationErrors, laws as error_laws,
};
pub use kube_functions::{Context, KubeCelExt, KubeFunctions, laws as function_laws, printed};
pub use kube_schema::{
    CompilationError, CompilationResult, CompiledSchema, Rule, RuleFault, SchemaFormat, SchemaNode,
    apply_defaults, bind, bind_plain, compile_schema, escape_field_name, laws as schema_laws,
    unescape_field_name,
};
pub use kube_types::Refused;
pub use validation::{Validator, validate, validate_compiled};
