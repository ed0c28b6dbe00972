//! Answers rows about policies: the results of expressions over an object, an old object,
//! parameters, a namespace and a request.

use crate::types::read;
use conformance_rows::{Field, Found, Output, Stop, given as rows};
use kube_cel::{
    AdmissionRequest, CompiledVapExpression, Refused, VapError, VapEvaluator, VapEvaluatorBuilder,
    VapExpression, VapResult,
};
use serde_json::Value;
use std::alloc::{AllocError, Global};

/// Returns a copy of a request. Such a copy, and copies of its parts, must be equal.
fn copy_of(request: &AdmissionRequest, found: &mut Found) -> Option<AdmissionRequest> {
    let out = &mut found.other;
    out.hold_copy(request.try_clone(), request);
    out.hold_copy(request.kind.try_clone(), &request.kind);
    out.hold_copy(request.resource.try_clone(), &request.resource);
    out.take(request.try_clone())
}

/// Returns a copy of the request that the row gives, if it gives one.
fn request_given(alloc: Global, given: &[Field], found: &mut Found) -> Option<AdmissionRequest> {
    let text = rows::text(given, "request")?;
    let request: Result<Option<AdmissionRequest>, AllocError> = read(alloc, text);
    match found.take(request) {
        Some(Some(request)) => copy_of(&request, found),
        _ => {
            found.stop(Stop::Unfit("request"));
            None
        }
    }
}

/// Sets the value of a key.
fn set(builder: VapEvaluatorBuilder, key: &str, value: Value) -> VapEvaluatorBuilder {
    match key {
        "object" => builder.object(value),
        "old object" => builder.old_object(value),
        "params" => builder.params(value),
        _ => builder.namespace_object(value),
    }
}

/// Sets the value that the row gives under a key, if any.
fn with_value(
    alloc: Global,
    given: &[Field],
    builder: VapEvaluatorBuilder,
    key: &'static str,
    found: &mut Found,
) -> VapEvaluatorBuilder {
    match rows::json(alloc, given, key, &mut found.other) {
        Some(value) => set(builder, key, value),
        None => builder,
    }
}

/// Builds an evaluator from a builder and the values that the row gives, which replace the
/// builder's.
fn built(
    alloc: Global,
    given: &[Field],
    builder: VapEvaluatorBuilder,
    found: &mut Found,
) -> VapEvaluator {
    let builder = with_value(alloc, given, builder, "object", found);
    let builder = with_value(alloc, given, builder, "old object", found);
    let builder = with_value(alloc, given, builder, "params", found);
    let builder = with_value(alloc, given, builder, "namespace object", found);
    match request_given(alloc, given, found) {
        Some(request) => builder.request(request).build(),
        None => builder.build(),
    }
}

/// Returns a builder with the values that an unset object, old object and request stand for.
fn filled_builder(alloc: Global) -> VapEvaluatorBuilder {
    VapEvaluatorBuilder::default(alloc)
        .object(Value::Null)
        .old_object(Value::Null)
        .request(AdmissionRequest::default(alloc))
}

/// Returns a copy of the text that the row gives under a key, if any.
fn text_given(alloc: Global, given: &[Field], key: &str, found: &mut Found) -> Option<String> {
    match rows::text(given, key) {
        Some(text) => found.take(String::from_str(alloc, text)),
        None => None,
    }
}

/// Reads the expression that the row gives, with its messages.
fn expression_given(alloc: Global, given: &[Field], found: &mut Found) -> Option<VapExpression> {
    let text = found.required(given, "expression");
    Some(VapExpression {
        expression: found.take(String::from_str(alloc, text))?,
        message: text_given(alloc, given, "message", found),
        message_expression: text_given(alloc, given, "message expression", found),
    })
}

/// Reads the expressions in a JSON list.
fn expressions_of(alloc: Global, text: &str, found: &mut Found) -> Vec<VapExpression> {
    let expressions: Result<Option<Vec<VapExpression>>, AllocError> = read(alloc, text);
    match found.take(expressions) {
        Some(Some(expressions)) => expressions,
        _ => {
            found.stop(Stop::Unfit("expressions"));
            Vec::new(alloc)
        }
    }
}

/// Reads the expressions that the row gives: a JSON list of them, or a single one.
fn expressions_given(alloc: Global, given: &[Field], found: &mut Found) -> Vec<VapExpression> {
    if let Some(text) = rows::text(given, "expressions") {
        return expressions_of(alloc, text, found);
    }
    let mut expressions = Vec::new(alloc);
    if let Some(expression) = expression_given(alloc, given, found) {
        let _ = found.take(expressions.push(expression));
    }
    expressions
}

/// Writes the result of an expression: `pass` or `fail`, and its message if it has one. Copies of
/// both must be equal to them.
fn put_result(reported: &VapResult, of: &VapExpression, out: &mut Output) {
    out.push_line(if reported.passed { "pass" } else { "fail" });
    if let Some(message) = &reported.message {
        out.push_all(&[" ", message.as_str()]);
    }
    if reported.expression.as_str() != of.expression.as_str() {
        out.stop(Stop::Differs("the result's expression"));
    }
    out.hold_copy(reported.try_clone(), reported);
    out.hold_copy(of.try_clone(), of);
}

/// Writes the results of expressions.
fn put_results(
    results: Result<Vec<VapResult>, Refused>,
    expressions: &[VapExpression],
    out: &mut Output,
) {
    let Some(results) = out.take(results) else {
        return;
    };
    if results.len() != expressions.len() {
        out.stop(Stop::Differs("the number of results"));
    }
    for (reported, of) in results.iter().zip(expressions.iter()) {
        put_result(reported, of, out);
    }
}

/// Writes the results of expressions that one evaluator compiles and another evaluates.
fn put_compiled_results(
    alloc: Global,
    compiler: &VapEvaluator,
    evaluator: &VapEvaluator,
    expressions: &[VapExpression],
    out: &mut Output,
) {
    if let Some(compiled) = out.take(compiler.compile_expressions(alloc, expressions)) {
        let results = evaluator.evaluate_compiled(alloc, compiled.as_slice());
        put_results(results, expressions, out);
    }
}

/// Answers with the results of expressions by one evaluator: all at once, compiled first, and each
/// alone.
fn find_by(
    alloc: Global,
    evaluator: &VapEvaluator,
    expressions: &[VapExpression],
    found: &mut Found,
) {
    put_results(
        evaluator.evaluate(alloc, expressions),
        expressions,
        &mut found.other,
    );
    found.end("evaluate");
    put_compiled_results(alloc, evaluator, evaluator, expressions, &mut found.other);
    found.end("evaluate_compiled");
    for one in expressions.chunks(1) {
        put_results(evaluator.evaluate(alloc, one), one, &mut found.other);
    }
    found.end("evaluate, each alone");
}

/// Answers with the results of expressions by an evaluator for which one without values compiled
/// them.
fn find_by_another(
    alloc: Global,
    evaluator: &VapEvaluator,
    expressions: &[VapExpression],
    found: &mut Found,
) {
    let compiler = VapEvaluator::builder().build();
    put_compiled_results(alloc, &compiler, evaluator, expressions, &mut found.other);
    found.end("evaluate_compiled of what another compiled");
}

/// Answers with the results of the row's expressions from two evaluators: one with the row's
/// values, and one built on `filled_builder` for which an evaluator without values compiled the
/// expressions.
fn find_results(alloc: Global, given: &[Field], expressions: &[VapExpression], found: &mut Found) {
    let evaluator = built(alloc, given, VapEvaluator::builder(), found);
    find_by(alloc, &evaluator, expressions, found);
    let evaluator = built(alloc, given, filled_builder(alloc), found);
    find_by_another(alloc, &evaluator, expressions, found);
}

/// Writes the result of compiling an expression: `compiled`, or the error with the text that
/// doesn't parse and the whole expression.
fn put_compiled(compiled: &Result<CompiledVapExpression, VapError>, out: &mut Output) {
    match compiled {
        Ok(_) => out.push_line("compiled"),
        Err(error) => {
            out.push_line("");
            out.show(error);
            out.push_all(&["\n  unread: ", error.expression.as_str()]);
            out.push_all(&["\n  expression: ", error.original.as_str()]);
        }
    }
}

/// Writes the results of compiling expressions.
fn put_all_compiled(alloc: Global, expressions: &[VapExpression], out: &mut Output) {
    let evaluator = VapEvaluator::builder().build();
    let compiled = evaluator.compile_expressions(alloc, expressions);
    if let Some(compiled) = out.take(compiled) {
        for one in compiled.iter() {
            put_compiled(one, out);
        }
    }
}

/// Answers a field about the row's expressions.
pub(crate) fn find(alloc: Global, given: &[Field], field: &Field, found: &mut Found) {
    let read = expressions_given(alloc, given, found);
    let expressions = read.as_slice();
    match field.key.as_str() {
        "compiled" => put_all_compiled(alloc, expressions, &mut found.text),
        _ => find_results(alloc, given, expressions, found),
    }
}
