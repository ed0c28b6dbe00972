//! The runs to measure. What they need from their texts is made before the first of the two.

use crate::measure::twice::{Run, compile, evaluated, make_twice};
use kube_cel::{Context, KubeCelExt, VapEvaluator, VapExpression, compile_schema};
use serde_json::Value;
use std::io;

/// The texts that a run works on. Those that aren't given are empty.
#[derive(Clone, Copy)]
pub(crate) struct Texts<'t> {
    pub(crate) first: &'t str,
    pub(crate) second: &'t str,
    pub(crate) third: &'t str,
}

/// Returns the error for input that names no run or has unusable texts.
fn unusable() -> io::Result<()> {
    Err(io::Error::from(io::ErrorKind::InvalidInput))
}

/// Makes the run with this name.
pub(crate) fn make_named(rt: &HostRuntime, name: &str, texts: Texts<'_>) -> io::Result<()> {
    match name {
        "read" => make_twice(rt, Run::Read(texts.first)),
        "evaluate" => make_twice(rt, Run::Evaluate(texts.first)),
        "execute" => execute(rt, texts),
        "analyze" => analyze(rt, texts.first, texts.second),
        "policy" => review(rt, texts.first, texts.second),
        _ => of_object(rt, name, texts.first, texts.second),
    }
}

/// Executes an expression after it was compiled. If there are two more expressions, `l` and `m` are
/// bound to their values.
fn execute(rt: &HostRuntime, texts: Texts<'_>) -> io::Result<()> {
    let mut context: Context<'_> = Context::default(rt.alloc()).with_all();
    let is_bound = texts.second.is_empty()
        || bind(rt, &mut context, "l", texts.second) && bind(rt, &mut context, "m", texts.third);
    match compile(rt.alloc(), texts.first) {
        Ok(Ok(program)) if is_bound => make_twice(rt, Run::Execute(program.as_ref(), &context)),
        _ => unusable(),
    }
}

/// Binds a name to the value of an expression. Returns whether it has one.
fn bind(rt: &HostRuntime, context: &mut Context<'_>, name: &str, text: &str) -> bool {
    match evaluated(rt.alloc(), text) {
        Ok(Some(Ok(value))) => context.add_variable(name, value).is_ok(),
        _ => false,
    }
}

/// Analyzes a rule by a schema that was compiled before.
fn analyze(rt: &HostRuntime, schema: &str, rule: &str) -> io::Result<()> {
    let Ok(schema) = Value::from_str(rt.alloc(), schema) else {
        return unusable();
    };
    let Ok(compiled) = compile_schema(rt.alloc(), &schema) else {
        return unusable();
    };
    make_twice(rt, Run::Analyze(&compiled, rule))
}

/// Evaluates a policy's expression, given in the form that serde writes, by one evaluator.
fn review(rt: &HostRuntime, expression: &str, object: &str) -> io::Result<()> {
    match serde_json::from_str::<VapExpression>(rt.alloc(), expression) {
        Ok(expression) => review_all(rt, [expression].as_slice(), object),
        Err(_) => unusable(),
    }
}

/// Evaluates a policy's expressions by one evaluator.
fn review_all(rt: &HostRuntime, expressions: &[VapExpression], object: &str) -> io::Result<()> {
    let Ok(object) = Value::from_str(rt.alloc(), object) else {
        return unusable();
    };
    let evaluator = VapEvaluator::builder().object(object).build();
    make_twice(rt, Run::Policy(&evaluator, expressions))
}

/// Makes the run with this name on a schema and an object.
fn of_object(rt: &HostRuntime, name: &str, schema: &str, object: &str) -> io::Result<()> {
    let Ok(schema) = Value::from_str(rt.alloc(), schema) else {
        return unusable();
    };
    let Ok(object) = Value::from_str(rt.alloc(), object) else {
        return unusable();
    };
    of_values(rt, name, &schema, &object)
}

/// Makes the run with this name on a schema and an object.
fn of_values(rt: &HostRuntime, name: &str, schema: &Value, object: &Value) -> io::Result<()> {
    match name {
        // This measures only what the other runs do before they begin.
        "parse" => Ok(()),
        "defaults" => make_twice(rt, Run::Defaults(schema, object)),
        "compile" => make_twice(rt, Run::Compile(schema)),
        "validate" => make_twice(rt, Run::Validate(schema, object)),
        "validate-compiled" => validate_compiled(rt, schema, object),
        _ => unusable(),
    }
}

/// Validates an object by a schema that was compiled before.
fn validate_compiled(rt: &HostRuntime, schema: &Value, object: &Value) -> io::Result<()> {
    let Ok(compiled) = compile_schema(rt.alloc(), schema) else {
        return unusable();
    };
    make_twice(rt, Run::ValidateCompiled(&compiled, object))
}
