//! Functions on versions.
ghost use Rattle.std.specs.Prelude.{◌≡◌, IfOk, option_map, is_some, codes};
ghost use Rattle.cel_value.specs.Data as plain;
ghost use Rattle.cel_value.specs.View.{view};
ghost use Rattle.cel_semantics.specs.Outcome.{outcome_view};
ghost use Rattle.kube_types.specs.Version.Reading.{version_of};
ghost use Rattle.kube_functions_types.specs.Answers.{refusal, bool_answer, value_or};
ghost use Rattle.kube_functions_types.specs.Semver as spec;

use crate::answers::{refusal, wrong_kind};
use cel_semantics::Answer;
use cel_value::{Refused, Value};
use kube_types::KubeSemver;
use std::alloc::Global;
use std::rc::Rc;

// Reports whether a string is to be read leniently, which it isn't
// if the argument is absent. None if the argument isn't a bool.
fn lenience(argument: Option<&Value>) -> Option<bool>
    ensures { result ≡ spec.lenience (option_map (λ v. view v.now) argument.entry) }
{
    match argument {
        Some(value) => value.as_bool(),
        None => Some(false),
    }
}

fn read(alloc: Global, text: &str, lenient: bool) -> Result<Answer, Refused>
    ensures value { IfOk result (λ r. outcome_view r
        ≡ value_or (refusal (codes "semver") (spec.not_version text.now))
        plain.semver (version_of lenient text.now)) }
{
    match KubeSemver::read(alloc, text, lenient)? {
        Some(version) => Ok(Ok(Value::Semver(Rc::new(alloc, version)?))),
        None => {
            let message = format!(in alloc; "invalid semver '{text}'")?;
            refusal(alloc, "semver", message.as_str())
        }
    }
}

/// `semver`: parses a string as a version, leniently if the
/// argument is true. A string that doesn't parse is an error.
///
/// # Errors
/// [`Refused::Memory`] if memory is refused.
pub fn semver(alloc: Global, value: &Value, argument: Option<&Value>) -> Result<Answer, Refused>
    ensures value { IfOk result (λ r. outcome_view r
        ≡ spec.version_from (view value.now) (option_map (λ v. view v.now) argument.entry)) }
{
    match value {
        Value::String(text) => match lenience(argument) {
            Some(lenient) => read(alloc, text.as_str(), lenient),
            None => wrong_kind(alloc, "semver"),
        },
        _ => wrong_kind(alloc, "semver"),
    }
}

fn is_read(alloc: Global, text: &str, lenient: bool) -> Result<Answer, Refused>
    ensures value { IfOk result (λ r. outcome_view r ≡ bool_answer (is_some (version_of lenient text.now))) }
{
    let version = KubeSemver::read(alloc, text, lenient)?;
    Ok(Ok(Value::Bool(version.is_some())))
}

/// `isSemver`: reports whether a string parses as a version, leniently if the argument is true.
///
/// # Errors
/// [`Refused::Memory`] if memory is refused.
pub fn is_semver(alloc: Global, value: &Value, argument: Option<&Value>) -> Result<Answer, Refused>
    ensures value { IfOk result (λ r. outcome_view r
        ≡ spec.is_version (view value.now) (option_map (λ v. view v.now) argument.entry)) }
{
    match value {
        Value::String(text) => match lenience(argument) {
            Some(lenient) => is_read(alloc, text.as_str(), lenient),
            None => wrong_kind(alloc, "isSemver"),
        },
        _ => wrong_kind(alloc, "isSemver"),
    }
}

// A number of a version as an answer. It is an error
// of the named function if the number is too large.
fn part(alloc: Global, number: Option<i64>, function: &str) -> Result<Answer, Refused>
    ensures value { IfOk result (λ r. outcome_view r
        ≡ value_or (refusal function.now (codes "version part too large")) plain.int number) }
{
    match number {
        Some(number) => Ok(Ok(Value::Int(number))),
        None => refusal(alloc, function, "version part too large"),
    }
}

/// `major`: returns the major number of a version. It
/// is an error if the number doesn't fit in an int.
///
/// # Errors
/// [`Refused::Memory`] if memory is refused.
pub fn major(alloc: Global, value: &Value) -> Result<Answer, Refused>
    ensures value { IfOk result (λ r. outcome_view r ≡ spec.major_of (view value.now)) }
{
    match value {
        Value::Semver(version) => part(alloc, version.as_ref().major(), "major"),
        _ => wrong_kind(alloc, "major"),
    }
}

/// `minor`: returns the minor number of a version. It
/// is an error if the number doesn't fit in an int.
///
/// # Errors
/// [`Refused::Memory`] if memory is refused.
pub fn minor(alloc: Global, value: &Value) -> Result<Answer, Refused>
    ensures value { IfOk result (λ r. outcome_view r ≡ spec.minor_of (view value.now)) }
{
    match value {
        Value::Semver(version) => part(alloc, version.as_ref().minor(), "minor"),
        _ => wrong_kind(alloc, "minor"),
    }
}

/// `patch`: returns the patch number of a version. It
/// is an error if the number doesn't fit in an int.
///
/// # Errors
/// [`Refused::Memory`] if memory is refused.
pub fn patch(alloc: Global, value: &Value) -> Result<Answer, Refused>
    ensures value { IfOk result (λ r. outcome_view r ≡ spec.patch_of (view value.now)) }
{
    match value {
        Value::Semver(version) => part(alloc, version.as_ref().patch(), "patch"),
        _ => wrong_kind(alloc, "patch"),
    }
}
