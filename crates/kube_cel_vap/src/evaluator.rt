//! Evaluation of a policy's expressions.
ghost use Rattle.kube_cel_vap.specs.Requests.{request_view};
ghost use Rattle.kube_cel_vap.specs.Validations.{expression_view};
ghost use Rattle.kube_cel_vap.specs.Expressions.{compile_result, compiled_seen};
ghost use Rattle.kube_cel_vap.specs.CallResults.{AreResultsOf, AreResultsOfCompiled};
ghost use Rattle.kube_cel_vap.specs.Variables.{builder_view, evaluator_view, no_variables};
ghost use Rattle.serde_json.specs.View.{view};
ghost use Rattle.std.specs.Prelude.{◌≡◌, IfErr, IfOk, map, Some};

use crate::compilation::{CompiledVapExpression, VapError, compile_expression};
use crate::context::context_of;
use crate::expression::{VapExpression, VapResult};
use crate::expression_results::results_of;
use crate::request::AdmissionRequest;
use crate::variables::Given;
use cel::PatternBook;
use kube_types::Refused;
use serde_json::Value;
use std::alloc::Global;

/// Sets the variables of a policy's expressions. Setters
/// allocate nothing, and replace what was set before.
#[derive(Debug, Drop)]
pub struct VapEvaluatorBuilder {
    given: Given,
}

impl VapEvaluatorBuilder {
    /// Returns a builder with nothing set, like [`VapEvaluator::builder`]. Allocates nothing.
    pub fn default(_alloc: Global) -> VapEvaluatorBuilder
        ensures { builder_view result ≡ no_variables }
    {
        VapEvaluator::builder()
    }

    /// Sets `object`, the object of the request.
    pub fn object(mut self, object: Value) -> VapEvaluatorBuilder
        ensures { builder_view result ≡ record (builder_view self) { object = Some (view object) } }
    {
        self.given.object = Some(object);
        self
    }

    /// Sets `oldObject`, the existing object.
    pub fn old_object(mut self, object: Value) -> VapEvaluatorBuilder
        ensures { builder_view result ≡ record (builder_view self) { old_object = Some (view object) } }
    {
        self.given.old_object = Some(object);
        self
    }

    /// Sets `params`, the parameters of the policy.
    pub fn params(mut self, params: Value) -> VapEvaluatorBuilder
        ensures { builder_view result ≡ record (builder_view self) { params = Some (view params) } }
    {
        self.given.params = Some(params);
        self
    }

    /// Sets `namespaceObject`, the namespace of the object.
    pub fn namespace_object(mut self, namespace: Value) -> VapEvaluatorBuilder
        ensures { builder_view result
            ≡ record (builder_view self) { namespace_object = Some (view namespace) } }
    {
        self.given.namespace_object = Some(namespace);
        self
    }

    /// Sets `request`, the admission request.
    pub fn request(mut self, request: AdmissionRequest) -> VapEvaluatorBuilder
        ensures { builder_view result ≡ record (builder_view self) { request = Some (request_view request) } }
    {
        self.given.request = Some(request);
        self
    }

    /// Returns the evaluator with what was set.
    pub fn build(self) -> VapEvaluator
        ensures { evaluator_view result ≡ builder_view self }
    {
        VapEvaluator { given: self.given }
    }
}

/// Evaluates the expressions of a policy with the variables
/// that were set. It keeps no state between calls.
#[derive(Debug, Drop)]
pub struct VapEvaluator {
    given: Given,
}

impl VapEvaluator {
    /// Returns a builder with nothing set. Allocates nothing.
    pub fn builder() -> VapEvaluatorBuilder
        ensures { builder_view result ≡ no_variables }
    {
        VapEvaluatorBuilder {
            given: Given {
                object: None,
                old_object: None,
                params: None,
                namespace_object: None,
                request: None,
            },
        }
    }

    /// Compiles expressions, each with its messageExpression.
    /// Returns a compiled expression or an error for each, in order.
    ///
    /// # Errors
    ///
    /// [`Refused`] if memory is refused.
    pub fn compile_expressions(
        &self,
        alloc: Global,
        expressions: &[VapExpression],
    ) -> Result<Vec<Result<CompiledVapExpression, VapError>>, Refused>
        ensures compiled { IfOk result (λ v. map compiled_seen v.items
            ≡ map compile_result (map expression_view expressions.now)) }
        ensures memory { IfErr result (λ e. e ≡ Refused.Memory) }
    {
        let mut all = Vec::with_capacity(alloc, expressions.len())?;
        for expression in expressions {
            all.push(compile_expression(alloc, expression)?)?;
        }
        Ok(all)
    }

    /// Evaluates compiled expressions, which may come from
    /// another evaluator. Returns one result for each, in order.
    ///
    /// # Errors
    ///
    /// [`Refused`] if memory is refused, or a URL that an expression reads is too large.
    pub fn evaluate_compiled(
        &self,
        alloc: Global,
        compiled: &[Result<CompiledVapExpression, VapError>],
    ) -> Result<Vec<VapResult>, Refused>
        ensures results { IfOk result
            (λ v. AreResultsOfCompiled (evaluator_view self.now) (map compiled_seen compiled.now) v.items) }
    {
        let context = context_of(alloc, &self.given)?;
        let mut book = PatternBook::new(alloc);
        let results = results_of(alloc, compiled, &context, &mut book)?;
        Ok(results)
    }

    /// Compiles and evaluates expressions. Returns one result
    /// for each, in order, including those that don't compile.
    ///
    /// # Errors
    ///
    /// [`Refused`] if memory is refused, or a URL that an expression reads is too large.
    pub fn evaluate(
        &self,
        alloc: Global,
        expressions: &[VapExpression],
    ) -> Result<Vec<VapResult>, Refused>
        ensures results { IfOk result
            (λ v. AreResultsOf (evaluator_view self.now) (map expression_view expressions.now) v.items) }
    {
        let compiled = self.compile_expressions(alloc, expressions)?;
        let results = self.evaluate_compiled(alloc, compiled.as_slice())?;
        Ok(results)
    }
}
