//! What an API server refuses of a policy's expressions when the policy is made.
ghost use Rattle.cel.specs.Program.{program_term};
ghost use Rattle.kube_manifests_documents.specs.Policies.{item_view, policy_view};
ghost use Rattle.kube_manifests_names.specs.Names.{names_view, refusal_view};
ghost use Rattle.kube_manifests_policies.specs.Refusals.{all_names, has_none, is_label, is_refused, item_refusal, labelled_where, message_names, or_else, refusal_report, refusal_where, refusals_of, refused_item, refused_items, refused_variables, text_refusal, tree_refusal};
ghost use Rattle.kube_manifests_policies.specs.Scopes.{tree_seen};
ghost use Rattle.kube_manifests_policies.specs.Verdicts.{report_view, result_view, verdict_view};
ghost use Rattle.std.specs.BTreeSet.{contains_text};
ghost use Rattle.std.specs.Prelude.{◌≡◌, ◌++◌, [], ℕ, IfOk, List, map, OnOk, option_map, Some};

use crate::scope::read;
use crate::verdict::{ItemReport, PolicyDecision, PolicyResult, PolicyVerdict, with_report};
use cel::Program;
use kube_manifests_documents::{Item, Policy};
use kube_manifests_names::{Names, Refusal, refusal_of};
use kube_manifests_texts::insert_text;
use kube_types::Refused;
use std::alloc::{AllocError, Global};
use std::collections::BTreeSet;

/// Returns the report of a refused expression.
fn refusal_report(alloc: Global, refusal: &Refusal<'_>) -> Result<ItemReport, AllocError>
    ensures { IfOk result (λ t. report_view t ≡ refusal_report (refusal_view refusal.now)) }
{
    let message = format!(in alloc; "{refusal}")?;
    Ok(ItemReport::NotCompiled(message))
}

/// Returns why an expression is refused, if it is.
fn program_refusal(
    alloc: Global,
    names: &Names<'_>,
    program: &Program,
) -> Result<Option<ItemReport>, AllocError>
    ensures { IfOk result (λ o. option_map report_view o
        ≡ tree_refusal (names_view names.now) (Ok (program_term program.now))) }
{
    match refusal_of(names, program.expression()) {
        None => Ok(None),
        Some(refusal) => Ok(Some(refusal_report(alloc, &refusal)?)),
    }
}

/// Returns why the text of an expression is refused, if it is.
#[tactic(auto, unfolding(crate::specs::Refusals::text_refusal))]
fn text_refusal(alloc: Global, names: &Names<'_>, text: &str) -> Result<Option<ItemReport>, Refused>
    ensures refusal { IfOk result (λ o. option_map report_view o
        ≡ text_refusal (names_view names.now) text.now) }
{
    match read(alloc, text)? {
        Ok(program) => Ok(program_refusal(alloc, names, &program)?),
        Err(reported) => Ok(Some(reported)),
    }
}

/// The same for a text that may be there.
fn refusal_where(
    alloc: Global,
    names: &Names<'_>,
    text: Option<&str>,
) -> Result<Option<ItemReport>, Refused>
    ensures refusal { IfOk result (λ o. option_map report_view o
        ≡ refusal_where (names_view names.now) (option_map (λ s. s.now) text.entry)) }
{
    match text {
        None => Ok(None),
        Some(text) => text_refusal(alloc, names, text),
    }
}

/// Returns what a messageExpression sees.
fn message_names<'n>(names: &Names<'n>) -> Names<'n>
    ensures { names_view result ≡ message_names (names_view names.now) }
{
    Names {
        params: names.params,
        authorizer: false,
        variables: names.variables,
    }
}

/// Returns why the expression of an entry is refused, or else why its messageExpression is.
fn item_refusal(
    alloc: Global,
    names: &Names<'_>,
    item: &Item<'_>,
) -> Result<Option<ItemReport>, Refused>
    ensures refusal { IfOk result (λ o. option_map report_view o
        ≡ item_refusal (names_view names.now) (item_view item.now)) }
{
    match text_refusal(alloc, names, item.expression)? {
        Some(reported) => Ok(Some(reported)),
        None => refusal_where(alloc, &message_names(names), item.message_expression),
    }
}

/// Adds the refusal of an entry, if it is refused.
fn add_refused(
    alloc: Global,
    names: &Names<'_>,
    item: &Item<'_>,
    refused: &mut Vec<PolicyResult>,
) -> Result<(), Refused>
    ensures added { OnOk result (map result_view refused.new.items
        ≡ map result_view refused.old.items ++ refused_item (names_view names.now) (item_view item.now)) }
{
    match item_refusal(alloc, names, item)? {
        None => Ok(()),
        Some(reported) => {
            refused.push(with_report(alloc, item.label, reported)?)?;
            Ok(())
        }
    }
}

/// Returns the refusals of those of these entries that are refused.
fn refused_items(
    alloc: Global,
    names: &Names<'_>,
    items: &[Item<'_>],
) -> Result<Vec<PolicyResult>, Refused>
    ensures refused { IfOk result (λ v. map result_view v.items
        ≡ refused_items (names_view names.now) (map item_view items.now)) }
{
    let mut refused = Vec::new(alloc);
    for item in items {
        add_refused(alloc, names, item, &mut refused)?;
    }
    Ok(refused)
}

/// Returns the names of entries.
fn labels_of(alloc: Global, items: &[Item<'_>]) -> Result<BTreeSet<String>, AllocError>
    ensures { IfOk result (λ names. (x : List ℕ)
        → contains_text names x ≡ is_label (map item_view items.now) x) }
{
    let mut names = BTreeSet::new(alloc);
    for item in items {
        insert_text(alloc, item.label, &mut names)?;
    }
    Ok(names)
}

/// Returns the refusals of those of these variables that are refused. Each sees those before it.
fn refused_variables(
    alloc: Global,
    params: bool,
    items: &[Item<'_>],
) -> Result<Vec<PolicyResult>, Refused>
    ensures refused { IfOk result (λ v. map result_view v.items
        ≡ refused_variables params [] (map item_view items.now)) }
{
    let mut refused = Vec::new(alloc);
    let mut before = BTreeSet::new(alloc);
    for item in items {
        let names = Names {
            params,
            authorizer: true,
            variables: Some(&before),
        };
        add_refused(alloc, &names, item, &mut refused)?;
        insert_text(alloc, item.label, &mut before)?;
    }
    Ok(refused)
}

/// Returns what validations and audit annotations see, given the names of the variables.
fn all_names<'n>(policy: &Policy<'_>, labels: &'n BTreeSet<String>) -> Names<'n>
    requires { (x : List ℕ) → contains_text labels.now x
        ≡ is_label (map item_view policy.now.variables.items) x }
    ensures { names_view result ≡ all_names (policy_view policy.now) }
{
    Names {
        params: policy.has_params,
        authorizer: true,
        variables: Some(labels),
    }
}

/// Returns the verdict of a policy with refused expressions.
#[tactic(auto, unfolding(crate::specs::Refusals::refusals_of))]
pub(crate) fn refusals_of(alloc: Global, policy: &Policy<'_>) -> Result<PolicyVerdict, Refused>
    ensures refusals { IfOk result (λ v. verdict_view v ≡ refusals_of (policy_view policy.now)) }
{
    let none = Names {
        params: policy.has_params,
        authorizer: true,
        variables: None,
    };
    let labels = labels_of(alloc, policy.variables.as_slice())?;
    let all = all_names(policy, &labels);
    let conditions = refused_items(alloc, &none, policy.conditions.as_slice())?;
    let items = policy.variables.as_slice();
    let variables = refused_variables(alloc, policy.has_params, items)?;
    let validations = refused_items(alloc, &all, policy.validations.as_slice())?;
    let annotations = refused_items(alloc, &all, policy.annotations.as_slice())?;
    Ok(PolicyVerdict {
        decision: PolicyDecision::NotJudged,
        conditions,
        variables,
        validations,
        annotations,
    })
}

fn has_none(results: &[PolicyResult]) -> bool
    ensures { result ≡ has_none (map result_view results.now) }
{
    results.is_empty()
}

/// Reports whether any expression is refused.
pub(crate) fn is_refused(verdict: &PolicyVerdict) -> bool
    ensures { result ≡ is_refused (verdict_view verdict.now) }
{
    !(has_none(verdict.conditions.as_slice())
        && has_none(verdict.variables.as_slice())
        && has_none(verdict.validations.as_slice())
        && has_none(verdict.annotations.as_slice()))
}
