//! Verdicts of policies.
ghost use Rattle.kube_manifests_policies.specs.Verdicts.{after_conditions, any_is, any_refused, decision_of, decision_text, is_problem, result_view, report_text, report_view, with_report};
ghost use Rattle.std.specs.Prelude.{◌≡◌, IfOk, map, Some};

use kube_manifests_names::Input;
use kube_types::Refused;
use std::alloc::{AllocError, Global};
use std::fmt;

/// The result of an expression.
#[derive(Debug, Drop)]
pub enum ItemReport {
    /// The match condition or validation is true.
    True,
    /// The match condition or validation is false, with this message.
    False(String),
    /// The audit annotation has this text.
    Text(String),
    /// The audit annotation is left out.
    Null,
    /// The expression has none of these results, for this reason.
    Error(String),
    /// The expression wasn't evaluated, because it reads an input that isn't given.
    NotGiven(Input),
    /// The expression doesn't compile, for this reason: it doesn't parse, it names what isn't there,
    /// or its value is of a kind that it can't have. Kubernetes refuses a policy with such an
    /// expression. Or it is one of those that can't be evaluated here.
    NotCompiled(String),
}

impl fmt::Display for ItemReport {
    ghost output = { λ t. Some (report_text (report_view t)) };

    fn fmt<W: fmt::Write>(&self, f: &mut fmt::Formatter<W>) -> fmt::Result {
        match self {
            ItemReport::True => write!(f, "true"),
            ItemReport::False(message) => write!(f, "{message}"),
            ItemReport::Text(text) => write!(f, "{text}"),
            ItemReport::Null => write!(f, "null"),
            ItemReport::Error(message) => write!(f, "{message}"),
            ItemReport::NotGiven(input) => write!(f, "{input} is not given"),
            ItemReport::NotCompiled(message) => write!(f, "{message}"),
        }
    }
}

impl ItemReport {
    /// Returns an equal copy.
    pub(crate) fn copy(&self) -> Result<ItemReport, AllocError>
        ensures { IfOk result (λ t. report_view t ≡ report_view self.now) }
    {
        match self {
            ItemReport::True => Ok(ItemReport::True),
            ItemReport::False(message) => Ok(ItemReport::False(message.clone()?)),
            ItemReport::Text(text) => Ok(ItemReport::Text(text.clone()?)),
            ItemReport::Null => Ok(ItemReport::Null),
            ItemReport::Error(message) => Ok(ItemReport::Error(message.clone()?)),
            ItemReport::NotGiven(input) => Ok(ItemReport::NotGiven(*input)),
            ItemReport::NotCompiled(message) => Ok(ItemReport::NotCompiled(message.clone()?)),
        }
    }
}

/// A kind of result that may keep a policy from admitting a request.
#[derive(Clone, Copy, Drop)]
pub(crate) enum Problem {
    /// The expression doesn't compile.
    Refused,
    False,
    Error,
    /// The expression reads an input that isn't given.
    NotGiven,
}

impl Problem {
    /// Reports whether a report is this problem.
    pub(crate) fn is_of(self, reported: &ItemReport) -> bool
        ensures { result ≡ is_problem self (report_view reported.now) }
    {
        match reported {
            ItemReport::True => false,
            ItemReport::False(_) => matches!(self, Problem::False),
            ItemReport::Text(_) => false,
            ItemReport::Null => false,
            ItemReport::Error(_) => matches!(self, Problem::Error),
            ItemReport::NotGiven(_) => matches!(self, Problem::NotGiven),
            ItemReport::NotCompiled(_) => matches!(self, Problem::Refused),
        }
    }
}

/// The result of one expression of a policy, with its label.
#[derive(Debug, Drop)]
pub struct PolicyResult {
    /// The name of a match condition or variable, the source of a validation's expression, or the
    /// key of an audit annotation.
    pub label: String,
    /// The result.
    pub reported: ItemReport,
}

/// Returns the result with this label and report.
pub(crate) fn with_report(
    alloc: Global,
    label: &str,
    reported: ItemReport,
) -> Result<PolicyResult, AllocError>
    ensures { IfOk result (λ r. result_view r ≡ with_report label.now (report_view reported)) }
{
    Ok(PolicyResult {
        label: String::from_str(alloc, label)?,
        reported,
    })
}

/// The decision of a policy.
#[derive(Clone, Copy, Debug, PartialEq, Eq)]
pub enum PolicyDecision {
    /// The policy admits the request.
    Admitted,
    /// The policy denies the request.
    Denied,
    /// The policy doesn't apply to the request: a match condition is false.
    Skipped,
    /// A match condition failed, none is false, and `failurePolicy` is `Ignore`: the policy is
    /// skipped.
    Ignored,
    /// An expression doesn't compile; or nothing denies the request, but an expression reads an
    /// input that isn't given.
    NotJudged,
}

impl fmt::Display for PolicyDecision {
    ghost output = { λ d. Some (decision_text d) };

    fn fmt<W: fmt::Write>(&self, f: &mut fmt::Formatter<W>) -> fmt::Result {
        match self {
            PolicyDecision::Admitted => write!(f, "admitted"),
            PolicyDecision::Denied => write!(f, "denied"),
            PolicyDecision::Skipped => write!(f, "skipped"),
            PolicyDecision::Ignored => write!(f, "skipped, as a match condition failed"),
            PolicyDecision::NotJudged => write!(f, "not judged"),
        }
    }
}

/// The verdict of a policy.
#[derive(Debug, Drop)]
pub struct PolicyVerdict {
    /// The decision.
    pub decision: PolicyDecision,
    /// The results of the match conditions, one for each, in order.
    pub conditions: Vec<PolicyResult>,
    /// The variables without a value, in order, each with the reason.
    pub variables: Vec<PolicyResult>,
    /// The results of the validations, one for each, in order. Empty if the match conditions
    /// decide.
    pub validations: Vec<PolicyResult>,
    /// The results of the audit annotations, one for each, in order. Empty if the match conditions
    /// decide.
    pub annotations: Vec<PolicyResult>,
}

/// Reports whether any of these results is this problem.
fn any_is(problem: Problem, results: &[PolicyResult]) -> bool
    ensures { result ≡ any_is problem (map result_view results.now) }
{
    for one in results {
        if problem.is_of(&one.reported) {
            return true;
        }
    }
    false
}

/// Returns what the match conditions decide, or `None` if the policy is to be evaluated.
pub(crate) fn after_conditions(ignores: bool, conditions: &[PolicyResult]) -> Option<PolicyDecision>
    ensures { result ≡ after_conditions ignores (map result_view conditions.now) }
{
    if any_is(Problem::Refused, conditions) {
        return Some(PolicyDecision::NotJudged);
    }
    if any_is(Problem::False, conditions) {
        return Some(PolicyDecision::Skipped);
    }
    if any_is(Problem::NotGiven, conditions) {
        return Some(PolicyDecision::NotJudged);
    }
    if !any_is(Problem::Error, conditions) {
        return None;
    }
    if ignores {
        return Some(PolicyDecision::Ignored);
    }
    Some(PolicyDecision::Denied)
}

/// Reports whether any of these doesn't compile.
fn any_refused(validations: &[PolicyResult], annotations: &[PolicyResult]) -> bool
    ensures { result ≡ any_refused (map result_view validations.now) (map result_view annotations.now) }
{
    any_is(Problem::Refused, validations) || any_is(Problem::Refused, annotations)
}

/// Returns what the validations and audit annotations decide.
pub(crate) fn decision_of(
    ignores: bool,
    validations: &[PolicyResult],
    annotations: &[PolicyResult],
) -> PolicyDecision
    ensures { result ≡ decision_of ignores (map result_view validations.now)
        (map result_view annotations.now) }
{
    if any_refused(validations, annotations) {
        return PolicyDecision::NotJudged;
    }
    if any_is(Problem::False, validations) {
        return PolicyDecision::Denied;
    }
    if !ignores && (any_is(Problem::Error, validations) || any_is(Problem::Error, annotations)) {
        return PolicyDecision::Denied;
    }
    if any_is(Problem::NotGiven, validations) || any_is(Problem::NotGiven, annotations) {
        return PolicyDecision::NotJudged;
    }
    PolicyDecision::Admitted
}
