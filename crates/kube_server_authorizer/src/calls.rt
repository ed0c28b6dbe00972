//! Calls on an authorizer, on checks and on decisions.
ghost use Rattle.std.specs.Prelude.{◌≡◌, codes, None, IfOk, option_map};
ghost use Rattle.std.specs.Option.{option_map_or};
ghost use Rattle.cel_value.specs.Data as plain;
ghost use Rattle.cel_value.specs.Data.{text_key};
ghost use Rattle.cel_value.specs.Find.{find};
ghost use Rattle.cel_value.specs.View.{view};
ghost use Rattle.cel_semantics.specs.Members.{put_in};
ghost use Rattle.cel_semantics.specs.Outcome.{outcome_view};
ghost use Rattle.kube_server_authorizer.specs.Asked.{answer_among};
ghost use Rattle.kube_server_authorizer.specs.Calls as spec;

use crate::asked::{answer_among, member, no_answer, text_at};
use crate::kinds::{is_authorizer, is_check, is_group_check, is_resource_check};
use cel_semantics::members::put;
use cel_semantics::operators::{Answer, no_such_overload};
use cel_value::{Entries, ExecutionError, Key, Map, Refused, Text, Value};
use std::alloc::Global;

// A second attribute of one name isn't answered.
fn once(alloc: Global, name: &str, answer: Answer) -> Result<Answer, Refused>
    ensures value { IfOk result (λ r. outcome_view r ≡ spec.once name.now (outcome_view answer)) }
{
    match answer {
        Err(ExecutionError::DuplicateKey) => {
            let words = format!(in alloc; "authorizer with another {name}")?;
            Ok(Err(ExecutionError::UndeclaredReference(words)))
        }
        answer => Ok(answer),
    }
}

fn with_attribute(alloc: Global, name: &str, value: &Value, text: &Value) -> Result<Answer, Refused>
    ensures value { IfOk result (λ r. outcome_view r
        ≡ spec.once name.now (put_in (view value.now) (plain.text name.now) (view text.now))) }
{
    let key = Value::of_str(alloc, name)?;
    once(alloc, name, put(alloc, value.try_clone()?, &key, text)?)
}

fn asked(
    alloc: Global,
    may_be: bool,
    name: &str,
    value: &Value,
    text: &Value,
) -> Result<Answer, Refused>
    ensures value { IfOk result (λ r. outcome_view r
        ≡ spec.asked may_be name.now (view value.now) (view text.now)) }
{
    match (may_be, text) {
        (true, Value::String(_)) => with_attribute(alloc, name, value, text),
        _ => Ok(Err(no_such_overload(alloc, name)?)),
    }
}

// A call that asks one attribute more of an authorizer.
fn of_authorizer(alloc: Global, name: &str, value: &Value, text: &Value) -> Result<Answer, Refused>
    ensures value { IfOk result (λ r. outcome_view r
        ≡ spec.attribute name.now spec.is_authorizer (view value.now) (view text.now)) }
{
    match value {
        Value::Map(entries) => {
            let may_be = is_authorizer(alloc, entries)?;
            asked(alloc, may_be, name, value, text)
        }
        _ => Ok(Err(no_such_overload(alloc, name)?)),
    }
}

/// `path`: returns the check of a path.
///
/// # Errors
/// [`Refused::Memory`] if memory is refused.
pub fn path(alloc: Global, value: &Value, text: &Value) -> Result<Answer, Refused>
    ensures value { IfOk result (λ r. outcome_view r ≡ spec.path (view value.now) (view text.now)) }
{
    of_authorizer(alloc, "path", value, text)
}

/// `group`: returns the check of an API group.
///
/// # Errors
/// [`Refused::Memory`] if memory is refused.
pub fn group(alloc: Global, value: &Value, text: &Value) -> Result<Answer, Refused>
    ensures value { IfOk result (λ r. outcome_view r ≡ spec.group (view value.now) (view text.now)) }
{
    of_authorizer(alloc, "group", value, text)
}

fn account(alloc: Global, namespace: &str, name: &str) -> Result<Value, Refused>
    ensures value { IfOk result
        (λ v. view v ≡ plain.text (spec.account_text namespace.now name.now)) }
{
    Value::from_text(alloc, format!(in alloc; "{namespace}:{name}")?)
}

/// `serviceAccount`: returns the authorizer for a service account.
///
/// # Errors
/// [`Refused::Memory`] if memory is refused.
pub fn service_account(
    alloc: Global,
    value: &Value,
    namespace: &Value,
    name: &Value,
) -> Result<Answer, Refused>
    ensures value { IfOk result (λ r. outcome_view r
        ≡ spec.service_account (view value.now) (view namespace.now) (view name.now)) }
{
    match (namespace, name) {
        (Value::String(namespace), Value::String(name)) => {
            let account = account(alloc, namespace.as_str(), name.as_str())?;
            of_authorizer(alloc, "serviceAccount", value, &account)
        }
        _ => Ok(Err(no_such_overload(alloc, "serviceAccount")?)),
    }
}

/// `resource`: returns the check of a resource.
///
/// # Errors
/// [`Refused::Memory`] if memory is refused.
pub fn resource(alloc: Global, value: &Value, text: &Value) -> Result<Answer, Refused>
    ensures value { IfOk result (λ r. outcome_view r ≡ spec.resource (view value.now) (view text.now)) }
{
    match value {
        Value::Map(entries) => {
            let may_be = is_group_check(alloc, entries)?;
            asked(alloc, may_be, "resource", value, text)
        }
        _ => Ok(Err(no_such_overload(alloc, "resource")?)),
    }
}

// A call that asks one attribute more of a check of a resource.
fn of_resource(alloc: Global, name: &str, value: &Value, text: &Value) -> Result<Answer, Refused>
    ensures value { IfOk result (λ r. outcome_view r
        ≡ spec.attribute name.now spec.is_resource_check (view value.now) (view text.now)) }
{
    match value {
        Value::Map(entries) => {
            let may_be = is_resource_check(alloc, entries)?;
            asked(alloc, may_be, name, value, text)
        }
        _ => Ok(Err(no_such_overload(alloc, name)?)),
    }
}

/// `subresource`: returns the check of a subresource.
///
/// # Errors
/// [`Refused::Memory`] if memory is refused.
pub fn subresource(alloc: Global, value: &Value, text: &Value) -> Result<Answer, Refused>
    ensures value { IfOk result
        (λ r. outcome_view r ≡ spec.subresource (view value.now) (view text.now)) }
{
    of_resource(alloc, "subresource", value, text)
}

/// `namespace`: returns the check of a resource in a namespace.
///
/// # Errors
/// [`Refused::Memory`] if memory is refused.
pub fn namespace(alloc: Global, value: &Value, text: &Value) -> Result<Answer, Refused>
    ensures value { IfOk result (λ r. outcome_view r ≡ spec.namespace (view value.now) (view text.now)) }
{
    of_resource(alloc, "namespace", value, text)
}

/// `name`: returns the check of the resource of a name.
///
/// # Errors
/// [`Refused::Memory`] if memory is refused.
pub fn name(alloc: Global, value: &Value, text: &Value) -> Result<Answer, Refused>
    ensures value { IfOk result (λ r. outcome_view r ≡ spec.name (view value.now) (view text.now)) }
{
    of_resource(alloc, "name", value, text)
}

fn decision(alloc: Global, answer: &Value) -> Result<Value, Refused>
    ensures value { IfOk result (λ v. view v ≡ spec.decision (view answer.now)) }
{
    let key = Key::String(Text::of_str(alloc, "@decision")?);
    let mut entries = Entries::new(alloc);
    entries.insert(key, answer.try_clone()?)?;
    Value::from_entries(alloc, entries)
}

fn found<'a>(
    alloc: Global,
    asked: &'a Map,
    verb: &str,
    answers: Option<&'a Value>,
) -> Result<Option<&'a Value>, Refused>
    ensures value { IfOk result (λ o. option_map (λ v. view v.now) o
        ≡ option_map_or (λ ds. answer_among ds asked.now verb.now)
        (option_map (λ v. view v.now) answers.entry) None) }
{
    match answers {
        Some(answers) => answer_among(alloc, answers, asked, verb),
        None => Ok(None),
    }
}

fn decided(alloc: Global, asked: &Map, verb: &str) -> Result<Answer, Refused>
    ensures value { IfOk result (λ r. outcome_view r
        ≡ spec.decided asked.now verb.now (find (text_key (codes "@authorizer")) asked.now)) }
{
    let answers = member(alloc, asked, "@authorizer")?;
    match found(alloc, asked, verb, answers)? {
        Some(answer) => Ok(Ok(decision(alloc, answer)?)),
        None => Ok(Err(no_answer(alloc, asked, verb)?)),
    }
}

#[tactic(auto, unfolding(crate::specs::Calls::checked))]
fn checked(alloc: Global, asked: &Map, verb: &str) -> Result<Answer, Refused>
    ensures value { IfOk result (λ r. outcome_view r ≡ spec.checked asked.now verb.now) }
{
    if is_check(alloc, asked)? {
        decided(alloc, asked, verb)
    } else {
        Ok(Err(no_such_overload(alloc, "check")?))
    }
}

fn check_of(alloc: Global, asked: &Map, verb: &Value) -> Result<Answer, Refused>
    ensures value { IfOk result (λ r. outcome_view r ≡ spec.check_of asked.now (view verb.now)) }
{
    match verb {
        Value::String(verb) => checked(alloc, asked, verb.as_str()),
        _ => Ok(Err(no_such_overload(alloc, "check")?)),
    }
}

/// `check`: returns the decision on a verb.
///
/// # Errors
/// [`Refused::Memory`] if memory is refused.
pub fn check(alloc: Global, value: &Value, verb: &Value) -> Result<Answer, Refused>
    ensures value { IfOk result (λ r. outcome_view r ≡ spec.check (view value.now) (view verb.now)) }
{
    match value {
        Value::Map(asked) => check_of(alloc, asked, verb),
        _ => Ok(Err(no_such_overload(alloc, "check")?)),
    }
}

fn answer_of<'a>(alloc: Global, value: &'a Value) -> Result<Option<&'a Map>, Refused>
    ensures value { IfOk result (λ o. option_map (λ m. m.now) o ≡ spec.answer_of (view value.now)) }
{
    match value {
        Value::Map(entries) => match member(alloc, entries, "@decision")? {
            Some(answer) => Ok(answer.as_map()),
            None => Ok(None),
        },
        _ => Ok(None),
    }
}

fn is_allowed(alloc: Global, answer: &Map) -> Result<bool, Refused>
    ensures value { IfOk result (λ b. b ≡ spec.is_allowed answer.now) }
{
    match member(alloc, answer, "allowed")? {
        Some(value) => Ok(value.as_bool().unwrap_or(false)),
        None => Ok(false),
    }
}

/// `allowed`: reports whether a decision allows.
///
/// # Errors
/// [`Refused::Memory`] if memory is refused.
pub fn allowed(alloc: Global, value: &Value) -> Result<Answer, Refused>
    ensures value { IfOk result (λ r. outcome_view r ≡ spec.allowed (view value.now)) }
{
    match answer_of(alloc, value)? {
        Some(answer) => Ok(Ok(Value::Bool(is_allowed(alloc, answer)?))),
        None => Ok(Err(no_such_overload(alloc, "allowed")?)),
    }
}

/// `reason`: returns the reason of a decision, or an empty string.
///
/// # Errors
/// [`Refused::Memory`] if memory is refused.
pub fn reason(alloc: Global, value: &Value) -> Result<Answer, Refused>
    ensures value { IfOk result (λ r. outcome_view r ≡ spec.reason (view value.now)) }
{
    match answer_of(alloc, value)? {
        Some(answer) => Ok(Ok(Value::of_str(alloc, text_at(alloc, answer, "reason")?)?)),
        None => Ok(Err(no_such_overload(alloc, "reason")?)),
    }
}

/// `error`: returns the error of a decision, or an empty string.
///
/// # Errors
/// [`Refused::Memory`] if memory is refused.
pub fn error(alloc: Global, value: &Value) -> Result<Answer, Refused>
    ensures value { IfOk result (λ r. outcome_view r ≡ spec.error (view value.now)) }
{
    match answer_of(alloc, value)? {
        Some(answer) => Ok(Ok(Value::of_str(alloc, text_at(alloc, answer, "error")?)?)),
        None => Ok(Err(no_such_overload(alloc, "error")?)),
    }
}

/// `errored`: reports whether the authorizer failed to decide.
///
/// # Errors
/// [`Refused::Memory`] if memory is refused.
pub fn errored(alloc: Global, value: &Value) -> Result<Answer, Refused>
    ensures value { IfOk result (λ r. outcome_view r ≡ spec.errored (view value.now)) }
{
    match answer_of(alloc, value)? {
        Some(answer) => {
            let error = text_at(alloc, answer, "error")?;
            Ok(Ok(Value::Bool(!error.is_empty())))
        }
        None => Ok(Err(no_such_overload(alloc, "errored")?)),
    }
}
