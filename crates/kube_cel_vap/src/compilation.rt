//! Compilation of the expressions of a policy.
ghost use Rattle.cel.specs.Checks as check;
ghost use Rattle.cel.specs.Checks.{check_view};
ghost use Rattle.kube_cel_vap.specs.Validations.{expression_view};
ghost use Rattle.kube_cel_vap.specs.Expressions.{compile_result, compiled_seen, compiled_view, error_view, unread_text, with_trees, without_tree};
ghost use Rattle.std.specs.Prelude.{◌≡◌, IfErr, IfOk, option_map, Some, string_bytes};

use crate::expression::{VapExpression, clone_text};
use cel::{Check, CheckError, ParseErrors, Untyped};
use kube_types::Refused;
use std::alloc::{AllocError, Global};
use std::fmt;

/// A compiled expression of a policy, with the programs of its texts.
#[derive(Debug)]
pub struct CompiledVapExpression {
    expression: String,
    pub(crate) message: Option<String>,
    pub(crate) check: Check,
}

// By hand, so that a proof about code that owns one doesn't go through its parts.
impl Drop for CompiledVapExpression {
    fn drop(self) {
        let CompiledVapExpression {
            expression: _,
            message: _,
            check: _,
        } = self;
    }
}

/// The reason why an expression of a policy doesn't compile: one of its texts doesn't parse as CEL.
#[derive(Debug, Drop)]
pub struct VapError {
    /// The text that doesn't parse: the expression or, if that parses, its messageExpression.
    pub expression: String,
    /// The text of the expression.
    pub original: String,
    /// The parse errors.
    pub source: ParseErrors,
}

impl fmt::Display for VapError {
    ghost output = { λ e. Some (unread_text (error_view e)) };

    fn fmt<W: fmt::Write>(&self, f: &mut fmt::Formatter<W>) -> fmt::Result {
        write!(
            f,
            "failed to compile VAP expression \"{}\": {}",
            self.expression, self.source
        )
    }
}

impl CompiledVapExpression {
    /// The text of the expression.
    pub(crate) fn text(&self) -> &str
        ensures { result.now ≡ (compiled_view self.now).expression }
    {
        self.expression.as_str()
    }
}

/// Compiles an expression, then its messageExpression, if it has
/// one. Returns the error of the first text that doesn't parse.
pub(crate) fn compile_expression(
    alloc: Global,
    expression: &VapExpression,
) -> Result<Result<CompiledVapExpression, VapError>, Refused>
    ensures compiled { IfOk result (λ r. compiled_seen r ≡ compile_result (expression_view expression.now)) }
    ensures memory { IfErr result (λ e. e ≡ Refused.Memory) }
{
    let text = expression.expression.as_str();
    let message = expression.message_expression.as_deref();
    match Check::compile(alloc, &Untyped, text, message)? {
        Ok(check) => Ok(Ok(with_check(expression, check)?)),
        Err(error) => Ok(Err(unread_error(alloc, expression, error)?)),
    }
}

/// Returns an expression with the programs of its texts.
fn with_check(expression: &VapExpression, check: Check) -> Result<CompiledVapExpression, AllocError>
    ensures { IfOk result (λ c. compiled_view c ≡ with_trees (expression_view expression.now) (check_view check)) }
{
    let (text, message) = texts_of(expression)?;
    Ok(CompiledVapExpression {
        expression: text,
        message,
        check,
    })
}

/// Copies the text of an expression and its message.
fn texts_of(expression: &VapExpression) -> Result<(String, Option<String>), AllocError>
    ensures { IfOk result (λ t. (string_bytes t.0 ≡ (expression_view expression.now).expression)
        × (option_map string_bytes t.1 ≡ (expression_view expression.now).message)) }
{
    let text = expression.expression.clone()?;
    Ok((text, clone_text(&expression.message)?))
}

/// Returns the error of an expression one of whose texts doesn't parse.
fn unread_error(
    alloc: Global,
    expression: &VapExpression,
    error: CheckError<'_, ParseErrors>,
) -> Result<VapError, AllocError>
    ensures { IfOk result (λ e. error_view e
        ≡ without_tree (expression_view expression.now) (check.error_view error.entry)) }
{
    match error {
        CheckError::Expression(source) => Ok(VapError {
            expression: expression.expression.clone()?,
            original: expression.expression.clone()?,
            source,
        }),
        CheckError::MessageExpression(text, source) => Ok(VapError {
            expression: String::from_str(alloc, text)?,
            original: expression.expression.clone()?,
            source,
        }),
    }
}
