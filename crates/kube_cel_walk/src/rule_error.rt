//! Constructors for the errors of rules.
ghost use Rattle.cel_value.specs.Faults.{fault_view};
ghost use Rattle.kube_cel_walk.specs.Errors.{error_view};
ghost use Rattle.kube_cel_walk.specs.Paths.{path_view};
ghost use Rattle.kube_cel_walk.specs.RuleErrors.{failed_rule, fault_error, malformed_error, no_bool, not_compiled, too_deep, undeclared_name};
ghost use Rattle.kube_schema_rules.specs.Compilation.{error_view as malformed_view};
ghost use Rattle.kube_schema_rules.specs.Rules.{rule_view};
ghost use Rattle.std.specs.Prelude.{◌≡◌, IfOk, None, option_map, string_bytes};

use crate::error::{ErrorKind, ValidationError};
use crate::path::{Path, error_path};
use cel_value::ExecutionError;
use kube_schema_rules::{CompilationError, Rule};
use std::alloc::{AllocError, Global};

/// Returns the error of a place beyond the maximum depth.
#[tactic(auto, unfolding(crate::specs::RuleErrors::too_deep))]
pub fn deep_error(alloc: Global, path: &Path<'_>) -> Result<ValidationError, AllocError>
    ensures { IfOk result (λ e. error_view e ≡ too_deep (path_view path.now)) }
{
    Ok(ValidationError {
        rule: String::new(alloc),
        message: String::from_str(alloc, "schema nesting exceeds the maximum depth of 64")?,
        field_path: path.text(alloc)?,
        reason: None,
        kind: ErrorKind::SchemaTooDeep,
        cause: None,
    })
}

/// Returns an error with these fields and without a reason.
fn rule_error(
    alloc: Global,
    kind: ErrorKind,
    rule: &str,
    message: String,
    field_path: String,
    cause: Option<ExecutionError>,
) -> Result<ValidationError, AllocError>
    ensures { IfOk result (λ e. error_view e ≡ record {
      rule = rule.now;
      message = string_bytes message;
      field_path = string_bytes field_path;
      reason = None;
      kind = kind;
      cause = option_map fault_view cause;
    }) }
{
    Ok(ValidationError {
        rule: String::from_str(alloc, rule)?,
        message,
        field_path,
        reason: None,
        kind,
        cause,
    })
}

/// Returns the error of a malformed rule.
pub fn malformed_error(
    alloc: Global,
    error: &CompilationError,
    path: &Path<'_>,
) -> Result<ValidationError, AllocError>
    ensures { IfOk result (λ e. error_view e ≡ malformed_error (path_view path.now) (malformed_view error.now)) }
{
    match error {
        CompilationError::Parse { rule, source } => {
            let text = rule.as_str();
            let message = format!(in alloc; "failed to compile rule \"{text}\": {source}")?;
            unread_error(alloc, text, message, path)
        }
        CompilationError::MessageExpressionParse {
            rule,
            message_expression,
            source,
        } => {
            let text = rule.as_str();
            let message = format!(in alloc;
                "failed to compile messageExpression \"{message_expression}\" for rule \"{text}\": {source}"
            )?;
            unread_error(alloc, text, message, path)
        }
        CompilationError::InvalidRule(fault) => {
            let message = format!(in alloc; "invalid rule definition: {fault}")?;
            let field_path = path.text(alloc)?;
            rule_error(alloc, ErrorKind::InvalidRule, "", message, field_path, None)
        }
        CompilationError::SchemaTooDeep { depth: _ } => deep_error(alloc, path),
    }
}

/// Returns the error of a rule whose text or messageExpression doesn't parse.
fn unread_error(
    alloc: Global,
    rule: &str,
    message: String,
    path: &Path<'_>,
) -> Result<ValidationError, AllocError>
    ensures { IfOk result (λ e. error_view e ≡ not_compiled (path_view path.now) rule.now (string_bytes message)) }
{
    let field_path = path.text(alloc)?;
    let kind = ErrorKind::CompilationFailure;
    rule_error(alloc, kind, rule, message, field_path, None)
}

/// Returns the error of a rule that is false, with this message.
pub fn failed_rule_error(
    alloc: Global,
    rule: &Rule,
    message: String,
    path: &Path<'_>,
) -> Result<ValidationError, AllocError>
    ensures { IfOk result (λ e. error_view e
        ≡ failed_rule (path_view path.now) (rule_view rule.now) (string_bytes message)) }
{
    Ok(ValidationError {
        rule: String::from_str(alloc, rule.rule.as_str())?,
        message,
        field_path: error_path(alloc, path, rule)?,
        reason: reason_of(alloc, rule)?,
        kind: ErrorKind::ValidationFailure,
        cause: None,
    })
}

/// Returns a copy of the rule's reason, if it has one.
fn reason_of(alloc: Global, rule: &Rule) -> Result<Option<String>, AllocError>
    ensures { IfOk result (λ o. option_map string_bytes o ≡ (rule_view rule.now).reason) }
{
    let Some(reason) = &rule.reason else {
        return Ok(None);
    };
    let reason = String::from_str(alloc, reason.as_str())?;
    Ok(Some(reason))
}

/// Returns the error of a rule whose value isn't a bool.
pub fn no_bool_error(
    alloc: Global,
    rule: &Rule,
    path: &Path<'_>,
) -> Result<ValidationError, AllocError>
    ensures { IfOk result (λ e. error_view e ≡ no_bool (path_view path.now) (rule_view rule.now)) }
{
    let text = rule.rule.as_str();
    let message = format!(in alloc; "rule \"{text}\" did not evaluate to bool")?;
    let field_path = error_path(alloc, path, rule)?;
    rule_error(
        alloc,
        ErrorKind::InvalidResult,
        text,
        message,
        field_path,
        None,
    )
}

/// The undeclared name, if that is the fault.
fn undeclared_name(fault: &ExecutionError) -> Option<&str>
    ensures { option_map (λ s. s.now) result ≡ undeclared_name (fault_view fault.now) }
{
    match fault {
        ExecutionError::UndeclaredReference(name) => Some(name.as_str()),
        ExecutionError::NoSuchKey(_) => None,
        ExecutionError::NoSuchOverload(_) => None,
        ExecutionError::FunctionError {
            function: _,
            message: _,
        } => None,
        ExecutionError::Overflow => None,
        ExecutionError::DivisionByZero => None,
        ExecutionError::RemainderByZero => None,
        ExecutionError::IndexOutOfBounds => None,
        ExecutionError::UnsupportedKey => None,
        ExecutionError::DuplicateKey => None,
        ExecutionError::InvalidPattern(_) => None,
    }
}

/// Returns the error of a rule whose evaluation failed. Its cause is the fault.
pub fn fault_error(
    alloc: Global,
    rule: &Rule,
    fault: ExecutionError,
    path: &Path<'_>,
) -> Result<ValidationError, AllocError>
    ensures { IfOk result (λ e. error_view e
        ≡ fault_error (path_view path.now) (rule_view rule.now) (fault_view fault) (undeclared_name (fault_view fault))) }
{
    let text = rule.rule.as_str();
    let field_path = error_path(alloc, path, rule)?;
    let Some(name) = undeclared_name(&fault) else {
        let message = format!(in alloc; "rule evaluation error: {fault}")?;
        return rule_error(
            alloc,
            ErrorKind::EvaluationError,
            text,
            message,
            field_path,
            Some(fault),
        );
    };
    let message = format!(in alloc;
        "rule references '{name}', which this kube-cel build does not support (an unsupported CEL macro, or a feature disabled at compile time); it cannot be evaluated client-side"
    )?;
    rule_error(
        alloc,
        ErrorKind::UnsupportedReference,
        text,
        message,
        field_path,
        Some(fault),
    )
}
