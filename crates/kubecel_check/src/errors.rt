//! The errors of objects as findings, and the verdicts on them.
ghost use Rattle.cel_value.specs.Faults.{fault_view};
ghost use Rattle.kube_cel.specs.Errors.{error_view};
ghost use Rattle.kube_cel.specs.RuleErrors.{undeclared_name};
ghost use Rattle.kubecel_report.specs.Items.{finding_view};
ghost use Rattle.kubecel_check.specs.Judgements.{AreHints, any_denial, any_other, double_finding, error_finding, error_message, errors_of, errors_verdict, is_denial, is_of_double, is_partly_judged, lacking, lacking_of, name_of, narrow_text};
ghost use Rattle.std.specs.Prelude.{◌≡◌, ◌++◌, IfOk, is_some, map, option_map, string_bytes};
ghost use Rattle.std.specs.List.{list_any};
ghost use Rattle.serde_json.specs.View.{view};

use crate::doubles::{Double, double_in};
use cel_value::ExecutionError;
use kube_cel::ErrorKind;
use kube_manifests::{Judgement, ValidationError};
use kube_manifests_limits::is_limit;
use kube_manifests_review::lacking_text;
use kubecel_report::{Finding, Verdict};
use serde_json::Value;
use std::alloc::{AllocError, Global};

/// Reports whether an evaluation ended for want of something that this tool lacks.
#[tactic(auto, using(crate::proofs::Nested::narrow_some))]
fn is_lacking(error: &ExecutionError) -> bool
    ensures { result ≡ is_some (lacking (fault_view error.now)) }
{
    match error {
        ExecutionError::UndeclaredReference(_) | ExecutionError::InvalidPattern(_) => true,
        ExecutionError::NoSuchOverload(_) | ExecutionError::FunctionError { .. } => is_limit(error),
        ExecutionError::NoSuchKey(_)
        | ExecutionError::Overflow
        | ExecutionError::DivisionByZero
        | ExecutionError::RemainderByZero
        | ExecutionError::IndexOutOfBounds
        | ExecutionError::UnsupportedKey
        | ExecutionError::DuplicateKey => false,
    }
}

/// Reports whether a rule wasn't evaluated for want of something that this tool lacks.
fn is_unevaluated(error: &ValidationError) -> bool
    ensures { result ≡ is_some (lacking_of (error_view error.now)) }
{
    match error.cause() {
        Some(cause) => is_lacking(cause),
        None => false,
    }
}

/// Reports whether an error denies the object. Any other error keeps a rule from being evaluated.
fn is_denial(error: &ValidationError) -> bool
    ensures { result ≡ is_denial (error_view error.now) }
{
    match error.kind {
        ErrorKind::ValidationFailure => true,
        ErrorKind::EvaluationError => !is_unevaluated(error),
        ErrorKind::CompilationFailure
        | ErrorKind::InvalidRule
        | ErrorKind::InvalidResult
        | ErrorKind::UnsupportedReference
        | ErrorKind::SchemaTooDeep => false,
    }
}

/// Reports whether one of these errors denies the object.
fn any_denial(errors: &[ValidationError]) -> bool
    ensures { result ≡ any_denial (map error_view errors.now) }
{
    for error in errors {
        if is_denial(error) {
            return true;
        }
    }
    false
}

/// Reports whether one of these errors doesn't deny the object.
fn any_other(errors: &[ValidationError]) -> bool
    ensures { result ≡ any_other (map error_view errors.now) }
{
    for error in errors {
        if !is_denial(error) {
            return true;
        }
    }
    false
}

/// Returns the verdict on an object with these errors.
pub(crate) fn errors_verdict(errors: &[ValidationError]) -> Verdict
    ensures { result ≡ errors_verdict (map error_view errors.now) }
{
    if any_denial(errors) {
        Verdict::Fail
    } else {
        Verdict::NotJudged
    }
}

/// Reports whether an object is denied though not all of its rules could be evaluated.
pub(crate) fn is_partly_judged(judgement: &Judgement) -> bool
    ensures { result ≡ is_partly_judged judgement.now }
{
    match judgement {
        Judgement::Judged(Ok(())) => false,
        Judgement::Judged(Err(errors)) => {
            any_denial(errors.as_slice()) && any_other(errors.as_slice())
        }
        Judgement::NotJudged(_) => false,
    }
}

/// The name that isn't declared, if that is the error of an evaluation.
fn undeclared_name(error: &ExecutionError) -> Option<&str>
    ensures { option_map (λ s. s.now) result ≡ undeclared_name (fault_view error.now) }
{
    match error {
        ExecutionError::UndeclaredReference(name) => Some(name.as_str()),
        ExecutionError::NoSuchKey(_) => None,
        ExecutionError::NoSuchOverload(_) => None,
        ExecutionError::FunctionError { .. } => None,
        ExecutionError::Overflow => None,
        ExecutionError::DivisionByZero => None,
        ExecutionError::RemainderByZero => None,
        ExecutionError::IndexOutOfBounds => None,
        ExecutionError::UnsupportedKey => None,
        ExecutionError::DuplicateKey => None,
        ExecutionError::InvalidPattern(_) => None,
    }
}

/// The name at which the evaluation of a rule ended since it isn't declared, if that is the error.
fn name_of(error: &ValidationError) -> Option<&str>
    ensures { option_map (λ s. s.now) result ≡ name_of (error_view error.now) }
{
    undeclared_name(error.cause()?)
}

/// Returns what is lacking, in words, if an evaluation ended for that.
fn lacking(alloc: Global, error: &ExecutionError) -> Result<Option<String>, AllocError>
    ensures { IfOk result (λ o. option_map string_bytes o ≡ lacking (fault_view error.now)) }
{
    match error {
        ExecutionError::UndeclaredReference(name) => {
            Ok(Some(lacking_text(alloc, name.as_str())?))
        }
        ExecutionError::InvalidPattern(_) => Ok(Some(String::from_str(
            alloc,
            "a pattern has a syntax that isn't supported",
        )?)),
        ExecutionError::NoSuchOverload(name) => {
            narrow_text(alloc, is_limit(error), name.as_str())
        }
        ExecutionError::FunctionError { function, .. } => {
            narrow_text(alloc, is_limit(error), function.as_str())
        }
        ExecutionError::NoSuchKey(_)
        | ExecutionError::Overflow
        | ExecutionError::DivisionByZero
        | ExecutionError::RemainderByZero
        | ExecutionError::IndexOutOfBounds
        | ExecutionError::UnsupportedKey
        | ExecutionError::DuplicateKey => Ok(None),
    }
}

/// Returns what is said of a call of this function, if it is a limit.
fn narrow_text(alloc: Global, is_limit: bool, name: &str) -> Result<Option<String>, AllocError>
    ensures { IfOk result (λ o. option_map string_bytes o ≡ narrow_text is_limit name.now) }
{
    if is_limit {
        let text = format!(in alloc; "{name}() isn't supported for this value")?;
        Ok(Some(text))
    } else {
        Ok(None)
    }
}

/// Returns the words about an error.
fn error_message(alloc: Global, error: &ValidationError) -> Result<String, AllocError>
    ensures { IfOk result (λ s. string_bytes s
        ≡ error_message (error_view error.now).message (lacking_of (error_view error.now))) }
{
    let Some(cause) = error.cause() else {
        return error.message.clone();
    };
    match lacking(alloc, cause)? {
        Some(words) => format!(in alloc; "the rule can't be evaluated here: {words}"),
        None => error.message.clone(),
    }
}

/// Turns an error of an object into a finding.
fn error_finding(alloc: Global, error: &ValidationError) -> Result<Finding, AllocError>
    ensures { IfOk result (λ f. finding_view f ≡ error_finding (error_view error.now)) }
{
    Ok(Finding {
        location: error.field_path.clone()?,
        rule: error.rule.clone()?,
        message: error_message(alloc, error)?,
    })
}

/// Turns the errors of an object into findings.
pub(crate) fn error_findings(
    alloc: Global,
    errors: &[ValidationError],
) -> Result<Vec<Finding>, AllocError>
    ensures { IfOk result (λ v. map finding_view v.items
        ≡ map (λ e. error_finding (error_view e)) errors.now) }
{
    let mut findings = Vec::with_capacity(alloc, errors.len())?;
    for error in errors {
        findings.push(error_finding(alloc, error)?)?;
    }
    Ok(findings)
}

/// Reports whether a rule couldn't be evaluated since it met a number of kind double.
fn is_of_double(error: &ValidationError) -> bool
    ensures { result ≡ is_of_double (error_view error.now) }
{
    match name_of(error) {
        Some(name) => name == "double",
        None => false,
    }
}

/// Reports whether one of these rules couldn't be evaluated for that.
fn any_of_double(errors: &[ValidationError]) -> bool
    ensures { result ≡ list_any is_of_double (map error_view errors.now) }
{
    for error in errors {
        if is_of_double(error) {
            return true;
        }
    }
    false
}

/// Turns a number of kind double into a finding.
fn double_finding(alloc: Global, double: Double) -> Result<Finding, AllocError>
    ensures { IfOk result (λ f. finding_view f
        ≡ double_finding (string_bytes double.path) (string_bytes double.text)) }
{
    let text = double.text.as_str();
    let message = format!(in alloc; "{text} is a number of kind double")?;
    Ok(Finding {
        location: double.path,
        rule: String::new(alloc),
        message,
    })
}

/// Returns where the first number of kind double stands in an object, if one of its rules couldn't be
/// evaluated for such a number.
fn hints_on(
    alloc: Global,
    object: &Value,
    errors: &[ValidationError],
) -> Result<Vec<Finding>, AllocError>
    ensures { IfOk result (λ v.
        AreHints (view object.now) (map error_view errors.now) (map finding_view v.items)) }
{
    let mut hints = Vec::new(alloc);
    if !any_of_double(errors) {
        return Ok(hints);
    }
    match double_in(alloc, object)? {
        Some(double) => {
            hints.push(double_finding(alloc, double)?)?;
            Ok(hints)
        }
        None => Ok(hints),
    }
}

/// The errors of a judgement.
fn errors_of(judgement: &Judgement) -> &[ValidationError]
    ensures { map error_view result.now ≡ errors_of judgement.now }
{
    match judgement {
        Judgement::Judged(Ok(())) => &[],
        Judgement::Judged(Err(errors)) => errors.as_slice(),
        Judgement::NotJudged(_) => &[],
    }
}

/// Returns the hints on an object with this judgement.
pub(crate) fn hints_of(
    alloc: Global,
    object: &Value,
    judgement: &Judgement,
) -> Result<Vec<Finding>, AllocError>
    ensures { IfOk result (λ v.
        AreHints (view object.now) (errors_of judgement.now) (map finding_view v.items)) }
{
    hints_on(alloc, object, errors_of(judgement))
}

/// Returns the findings, followed by the hints.
pub(crate) fn with_hints(
    mut findings: Vec<Finding>,
    hints: Vec<Finding>,
) -> Result<Vec<Finding>, AllocError>
    ensures { IfOk result (λ v. map finding_view v.items
        ≡ map finding_view findings.items ++ map finding_view hints.items) }
{
    for hint in hints {
        findings.push(hint)?;
    }
    Ok(findings)
}
