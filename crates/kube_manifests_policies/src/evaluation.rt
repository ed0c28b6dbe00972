//! Evaluates policies.
ghost use Rattle.cel.specs.Book.{Book, Extends};
ghost use Rattle.cel.specs.Entries.{entries_of};
ghost use Rattle.cel.specs.Extensions.{HoldsForExtensions};
ghost use Rattle.kube_manifests_documents.specs.Inputs.{inputs_view};
ghost use Rattle.kube_manifests_policies.specs.Reports.{IsVerdictOf, evaluated_verdict, policy_verdict, verdict_in, verdict_of, verdict_of_conditions, verdict_seen};
ghost use Rattle.kube_manifests_documents.specs.Policies.{policy_view};
ghost use Rattle.kube_manifests_policies.specs.Scopes.{outcome_or_reason, scope_view};
ghost use Rattle.kube_manifests_policies.specs.Verdicts.{result_view, verdict_view};
ghost use Rattle.serde_json.specs.View.{view};
ghost use Rattle.std.specs.Prelude.{◌≡◌, IfOk, map};

use crate::context::{condition_scope, policy_scope};
use crate::refusals::{is_refused, refusals_of};
use crate::reports::{Subject, results_as};
use crate::scope::Scope;
use crate::variables::with_variables;
use crate::verdict::{PolicyDecision, PolicyResult, PolicyVerdict, after_conditions, decision_of};
use cel::PatternBook;
use cel_syntax_ast::both;
use kube_manifests_documents::{Policy, PolicyFault, PolicyInputs, policy_of, reported};
use kube_types::Refused;
use serde_json::Value;
use std::alloc::Global;

/// Returns the verdict of a policy that its match conditions decide.
fn verdict_of_conditions(
    alloc: Global,
    conditions: Vec<PolicyResult>,
    decision: PolicyDecision,
) -> PolicyVerdict
    ensures { verdict_view result ≡ verdict_of_conditions (map result_view conditions.items) decision }
{
    PolicyVerdict {
        decision,
        conditions,
        variables: Vec::new(alloc),
        validations: Vec::new(alloc),
        annotations: Vec::new(alloc),
    }
}

/// Returns the verdict of a policy that its match conditions let through, evaluated in the scope of
/// its variables.
#[tactic(auto, unfolding(crate::specs::Reports::verdict_in))]
fn verdict_in(
    alloc: Global,
    scope: Scope<'_>,
    policy: &Policy<'_>,
    conditions: Vec<PolicyResult>,
    book: &mut PatternBook,
) -> Result<PolicyVerdict, Refused>
    ensures keeps { Extends (entries_of book.new) (entries_of book.old) }
    ensures verdict { IfOk result (λ v. HoldsForExtensions (entries_of book.new) (verdict_view v)
        (λ b. verdict_in (outcome_or_reason b (scope_view scope.entry)) (scope_view scope.entry).missing
        (policy_view policy.now) (map result_view conditions.items))) }
{
    let items = policy.validations.as_slice();
    let validations = results_as(alloc, Subject::Validation, items, &scope, book);
    let (validations, scope) = both(validations, Ok(scope))?;
    let items = policy.annotations.as_slice();
    let annotations = results_as(alloc, Subject::Annotation, items, &scope, book);
    let (annotations, scope) = both(annotations, Ok(scope))?;
    let decision = decision_of(
        policy.ignores,
        validations.as_slice(),
        annotations.as_slice(),
    );
    let Scope {
        context,
        absent,
        values,
        missing,
    } = scope;
    drop((context, absent, values));
    Ok(PolicyVerdict {
        decision,
        conditions,
        variables: missing,
        validations,
        annotations,
    })
}

/// Returns the verdict of a policy that an API server doesn't refuse when it is made.
fn evaluated_verdict(
    alloc: Global,
    policy: &Policy<'_>,
    inputs: &PolicyInputs,
    book: &mut PatternBook,
) -> Result<PolicyVerdict, Refused>
    ensures keeps { Extends (entries_of book.new) (entries_of book.old) }
    ensures verdict { IfOk result (λ v. HoldsForExtensions (entries_of book.new) (verdict_view v)
        (λ b. evaluated_verdict b (inputs_view inputs.now) (policy_view policy.now))) }
{
    let scope = condition_scope(alloc, inputs)?;
    let items = policy.conditions.as_slice();
    let conditions = results_as(alloc, Subject::Condition, items, &scope, book);
    let (conditions, scope) = both(conditions, Ok(scope))?;
    match after_conditions(policy.ignores, conditions.as_slice()) {
        Some(decision) => {
            drop(scope);
            Ok(verdict_of_conditions(alloc, conditions, decision))
        }
        None => {
            let variables = policy.variables.as_slice();
            let first = policy_scope(alloc, scope, inputs, variables)?;
            let all = with_variables(alloc, first, variables, book)?;
            let verdict = verdict_in(alloc, all, policy, conditions, book)?;
            Ok(verdict)
        }
    }
}

/// Returns the verdict of a policy.
#[tactic(auto, unfolding(crate::specs::Reports::policy_verdict))]
fn policy_verdict(
    alloc: Global,
    policy: &Policy<'_>,
    inputs: &PolicyInputs,
    book: &mut PatternBook,
) -> Result<PolicyVerdict, Refused>
    ensures keeps { Extends (entries_of book.new) (entries_of book.old) }
    ensures verdict { IfOk result (λ v. HoldsForExtensions (entries_of book.new) (verdict_view v)
        (λ b. policy_verdict b (inputs_view inputs.now) (policy_view policy.now))) }
{
    let refusals = refusals_of(alloc, policy)?;
    if is_refused(&refusals) {
        return Ok(refusals);
    }
    drop(refusals);
    let verdict = evaluated_verdict(alloc, policy, inputs, book)?;
    Ok(verdict)
}

/// Evaluates a ValidatingAdmissionPolicy (`admissionregistration.k8s.io`) over these inputs, in the
/// order of the Kubernetes documentation.
///
/// First each expression is looked at. If one doesn't parse, or uses a name, a function or a field
/// of `request` or `variables` that isn't there, an API server refuses the policy when it is made,
/// or it can't be evaluated here; then the policy is not judged, and nothing is evaluated. Each
/// such expression is reported as [`ItemReport::NotCompiled`](crate::ItemReport).
///
/// Then come the match conditions. If one is false, the policy is skipped; if none is false and
/// one fails with an error, `failurePolicy` decides. Then come the variables, each of which sees
/// the earlier ones under `variables`. A variable that fails makes each expression that selects it
/// fail there; `&&`, `||` and `?:` may absorb that error like any other. Last come the validations
/// and audit annotations. Neither `matchConstraints` nor bindings are considered.
///
/// An expression that reads an input that isn't given, itself or through a variable, is not
/// evaluated: it is reported as [`ItemReport::NotGiven`](crate::ItemReport). If a match condition, a
/// validation or an audit annotation reads one, the policy never admits. If the value of a validation
/// or match condition is no bool, or that of a messageExpression no string, the policy is not judged,
/// whatever `failurePolicy` is: an API server refuses it when it is made.
///
/// The inner error is the first [`PolicyFault`] if the document is not such a policy.
///
/// # Errors
///
/// [`Refused`] if memory is refused, or a URL that an expression reads is too large.
pub fn evaluate_policy(
    alloc: Global,
    policy: &Value,
    inputs: &PolicyInputs,
) -> Result<Result<PolicyVerdict, PolicyFault>, Refused>
    ensures verdict { IfOk result (λ r. IsVerdictOf (inputs_view inputs.now) (view policy.now) r) }
{
    let mut book = PatternBook::new(alloc);
    let verdict = evaluate_policy_in(alloc, policy, inputs, &mut book)?;
    Ok(verdict)
}

/// Evaluates a policy like [`evaluate_policy`], with a lent book of patterns: a pattern that several
/// policies match with is built once. Afterwards the book has all the entries that it had, and
/// perhaps more.
///
/// # Errors
///
/// [`Refused`] if memory is refused, or a URL that an expression reads is too large.
pub fn evaluate_policy_in(
    alloc: Global,
    policy: &Value,
    inputs: &PolicyInputs,
    book: &mut PatternBook,
) -> Result<Result<PolicyVerdict, PolicyFault>, Refused>
    ensures kept { Extends (entries_of book.new) (entries_of book.old) }
    ensures books { IfOk result (λ r. (b : Book) → Extends b (entries_of book.new)
        → verdict_seen r ≡ verdict_of b (inputs_view inputs.now) (view policy.now)) }
{
    let policy = match policy_of(alloc, policy)? {
        Ok(policy) => policy,
        Err(found) => return Ok(Err(reported(alloc, found)?)),
    };
    let verdict = policy_verdict(alloc, &policy, inputs, book)?;
    Ok(Ok(verdict))
}
