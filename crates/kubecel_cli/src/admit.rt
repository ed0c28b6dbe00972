//! `admit`: judges a request by a policy.
ghost use Rattle.kube_manifests.specs.Inputs.{inputs_view};
ghost use Rattle.kube_manifests_policies.specs.Reports.{IsVerdictOf};
ghost use Rattle.kube_manifests_policies.specs.Verdicts.{result_view, verdict_view};
ghost use Rattle.kubecel_io.specs.Reads.{document_view};
ghost use Rattle.kubecel_report.specs.Items.{finding_view, item_view};
ghost use Rattle.kubecel_cli.specs.Commands.{admit_view};
ghost use Rattle.kubecel_cli.specs.Indexed.{IsIndexed};
ghost use Rattle.kubecel_cli.specs.Runs.{AreAdmitted, IsOneRead, IsOneReadWhereNamed, base_of, instead};
ghost use Rattle.kubecel_cli.specs.Reports.{annotations, conditions, decision_verdict, entries_in, expressions_view, policy_item, result_findings, validations, variables, verdict_findings};
ghost use Rattle.serde_json.specs.Data.{Data};
ghost use Rattle.serde_json.specs.View.{view};
ghost use Rattle.std.specs.List.{flat_map};
ghost use Rattle.std.specs.Prelude.{◌≡◌, ◌++◌, ◌∷◌, [], IfOk, Ok, OnOk, map, option_map, string_bytes};

use crate::command::Admit;
use crate::place::{Entries, Expressions};
use crate::report::Report;
use kube_manifests_policies::{
    ItemReport, PolicyDecision, PolicyInputs, PolicyResult, PolicyVerdict, evaluate_policy,
};
use kubecel_check::item_of;
use kubecel_io::{Document, Identity, Sources, Stop, Subject, read_documents};
use kubecel_report::{Finding, Verdict};
use serde_json::Value;
use std::alloc::{AllocError, Global};

fn conditions() -> Expressions
    ensures { expressions_view result ≡ conditions }
{
    Expressions {
        list: "matchConditions",
        label: "name",
        expression: "expression",
    }
}

fn variables() -> Expressions
    ensures { expressions_view result ≡ variables }
{
    Expressions {
        list: "variables",
        label: "name",
        expression: "expression",
    }
}

fn validations() -> Expressions
    ensures { expressions_view result ≡ validations }
{
    Expressions {
        list: "validations",
        label: "expression",
        expression: "expression",
    }
}

fn annotations() -> Expressions
    ensures { expressions_view result ≡ annotations }
{
    Expressions {
        list: "auditAnnotations",
        label: "key",
        expression: "valueExpression",
    }
}

/// Judges a request by a policy. All files are read, in order, before anything is judged.
pub(crate) fn admitted<S: Sources>(
    alloc: Global,
    admit: Admit<'_>,
    files: &mut S,
) -> Result<Report, Stop>
    ensures { IfOk result (λ r.
        AreAdmitted S.reads files.old (admit_view admit.entry) files.new (map item_view r.items.items)) }
{
    let policy = read_one(alloc, admit.policy, files)?;
    let request = read_where_named(alloc, admit.request, files)?;
    let object = read_where_named(alloc, admit.object, files)?;
    let old = read_where_named(alloc, admit.old, files)?;
    let params = read_where_named(alloc, admit.params, files)?;
    let namespace = read_where_named(alloc, admit.namespace, files)?;
    let base = base_of(alloc, admit.request.unwrap_or(""), request)?;
    let inputs = PolicyInputs {
        object: instead(object, base.object),
        old_object: instead(old, base.old_object),
        params: instead(params, base.params),
        namespace_object: instead(namespace, base.namespace_object),
        request: base.request,
    };
    let verdict = verdict_of(alloc, &policy, &inputs)?;
    Ok(report_of(alloc, &policy, &verdict)?)
}

/// Reads a file that must hold exactly one document.
fn read_one<S: Sources>(alloc: Global, path: &str, files: &mut S) -> Result<Document, Stop>
    ensures read { IfOk result (λ d. IsOneRead S.reads files.old path.now (view d.value) files.new) }
    ensures location { IfOk result (λ d. (string_bytes d.file ≡ path.now) × (d.index ≡ 0)) }
{
    let mut documents = read_documents(alloc, &[path], files)?;
    let count = documents.len();
    match documents.pop() {
        Some(document) if documents.is_empty() => Ok(document),
        Some(_) | None => Err(Stop::Said(format!(in alloc;
            "{path}: expected one document, found {count}"
        )?)),
    }
}

/// Reads a file that must hold exactly one document. `None` if no file is named.
fn read_where_named<S: Sources>(
    alloc: Global,
    path: Option<&str>,
    files: &mut S,
) -> Result<Option<Value>, Stop>
    ensures { IfOk result (λ v.
        IsOneReadWhereNamed S.reads files.old (option_map (λ s. s.now) path.entry)
        (option_map view v) files.new) }
{
    match path {
        None => Ok(None),
        Some(path) => {
            let Document { value, .. } = read_one(alloc, path, files)?;
            Ok(Some(value))
        }
    }
}

/// Reads the inputs that an AdmissionReview carries. Without one, none is known.
fn base_of(alloc: Global, path: &str, request: Option<Value>) -> Result<PolicyInputs, Stop>
    ensures { IfOk result (λ p. base_of (option_map view request) ≡ Ok (inputs_view p)) }
{
    let Some(review) = request else {
        return Ok(PolicyInputs::none());
    };
    match PolicyInputs::from_review(alloc, &review)? {
        Ok(inputs) => Ok(inputs),
        Err(fault) => Err(Stop::Said(format!(in alloc; "{path}: {fault}")?)),
    }
}

/// Returns the value of a file of its own, if there is one, otherwise the one that the review
/// gives.
fn instead(besides: Option<Value>, given: Option<Value>) -> Option<Value>
    ensures { option_map view result ≡ instead (option_map view besides) (option_map view given) }
{
    match besides {
        Some(value) => Some(value),
        None => given,
    }
}

/// Evaluates a policy over its inputs.
fn verdict_of(
    alloc: Global,
    policy: &Document,
    inputs: &PolicyInputs,
) -> Result<PolicyVerdict, Stop>
    ensures { IfOk result (λ v. IsVerdictOf (inputs_view inputs.now) (view policy.now.value) (Ok v)) }
{
    match evaluate_policy(alloc, &policy.value, inputs)? {
        Ok(verdict) => Ok(verdict),
        Err(fault) => Err(Stop::Said(format!(in alloc; "{}: {fault}", policy.file)?)),
    }
}

/// Builds the report on a policy from its verdict.
fn report_of(
    alloc: Global,
    policy: &Document,
    verdict: &PolicyVerdict,
) -> Result<Report, AllocError>
    ensures { IfOk result (λ r. map item_view r.items.items
        ≡ policy_item (document_view policy.now) (verdict_view verdict.now) ∷ []) }
{
    let subject = Subject {
        file: policy.file.as_str(),
        index: policy.index,
        is_item: false,
        value: &policy.value,
        identity: Identity::of(&policy.value),
    };
    let findings = verdict_findings(alloc, &policy.value, verdict)?;
    let reported = decision_verdict(verdict.decision);
    let mut items = Vec::new(alloc);
    items.push(item_of(alloc, &subject, reported, findings)?)?;
    Ok(Report {
        items,
        noun: "policies",
        rules: Some(verdict.validations.len() as u64),
        compared: None,
        fault: None,
    })
}

fn decision_verdict(decision: PolicyDecision) -> Verdict
    ensures { result ≡ decision_verdict decision }
{
    match decision {
        PolicyDecision::Admitted => Verdict::Pass,
        PolicyDecision::Denied => Verdict::Fail,
        PolicyDecision::Skipped => Verdict::Skip,
        PolicyDecision::Ignored => Verdict::Skip,
        PolicyDecision::NotJudged => Verdict::NotJudged,
    }
}

/// Returns the findings about a policy's expressions.
fn verdict_findings(
    alloc: Global,
    policy: &Value,
    verdict: &PolicyVerdict,
) -> Result<Vec<Finding>, AllocError>
    ensures { IfOk result (λ v. map finding_view v.items
        ≡ verdict_findings (view policy.now) (verdict_view verdict.now)) }
{
    let mut findings = Vec::new(alloc);
    add_results(
        alloc,
        conditions(),
        policy,
        &verdict.conditions,
        &mut findings,
    )?;
    add_results(
        alloc,
        variables(),
        policy,
        &verdict.variables,
        &mut findings,
    )?;
    add_results(
        alloc,
        validations(),
        policy,
        &verdict.validations,
        &mut findings,
    )?;
    add_results(
        alloc,
        annotations(),
        policy,
        &verdict.annotations,
        &mut findings,
    )?;
    Ok(findings)
}

/// Adds the findings about these expressions of a policy.
fn add_results(
    alloc: Global,
    expressions: Expressions,
    policy: &Value,
    results: &[PolicyResult],
    findings: &mut Vec<Finding>,
) -> Result<(), AllocError>
    ensures { OnOk result (map finding_view findings.new.items
        ≡ map finding_view findings.old.items
        ++ flat_map (result_findings (expressions_view expressions) (view policy.now))
        (map result_view results.now)) }
{
    let entries = Entries::find_in(alloc, expressions, policy)?;
    for one in results {
        add_result(alloc, &entries, one, findings)?;
    }
    Ok(())
}

fn add_result(
    alloc: Global,
    entries: &Entries<'_>,
    one: &PolicyResult,
    findings: &mut Vec<Finding>,
) -> Result<(), AllocError>
    requires { IsIndexed entries.now }
    ensures { OnOk result ((d : Data) → map view entries.now.entries.now ≡ entries_in (expressions_view entries.now.expressions) d
        → map finding_view findings.new.items ≡ map finding_view findings.old.items
        ++ result_findings (expressions_view entries.now.expressions) d (result_view one.now)) }
{
    if matches!(one.reported, ItemReport::True | ItemReport::Null) {
        return Ok(());
    }
    let label = one.label.as_str();
    findings.push(Finding {
        location: entries.path_to(alloc, label)?,
        rule: entries.source_of(alloc, label)?,
        message: format!(in alloc; "{}", one.reported)?,
    })?;
    Ok(())
}
