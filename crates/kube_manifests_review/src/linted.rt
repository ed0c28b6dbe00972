//! Turns the findings of the linter into candidates.
ghost use Rattle.std.specs.List.{list_any};
ghost use Rattle.std.specs.Prelude.{◌≡◌, IfOk, None, OnOk, map, option_map};
ghost use Rattle.kube_cel_analysis.specs.Findings as linter;
ghost use Rattle.kube_manifests_review.specs.Candidates.{AddsCandidates, candidate_view};
ghost use Rattle.kube_manifests_review.specs.Features.{missing_functions, two_variable_macros};
ghost use Rattle.kube_manifests_review.specs.Linted as spec;
ghost use Rattle.kube_manifests_review.specs.Linted.{shared_bytes};

use crate::candidate::{Candidate, Condition};
use crate::feature::{MISSING_FUNCTIONS, TWO_VARIABLE_MACROS};
use crate::finding::{ReviewFinding, ReviewKind};
use crate::messages::unknown_text;
use kube_cel_analysis::{LintFinding, LintKind};
use std::alloc::{AllocError, Global};
use std::rc::Rc;

/// Reports whether a message says that a function of one of these names is unknown.
fn is_about(alloc: Global, names: &[&str], message: &str) -> Result<bool, AllocError>
    ensures { IfOk result (λ b. b ≡ spec.is_about (map (λ n. n.now) names.now) message.now) }
{
    for name in names {
        let text = unknown_text(alloc, *name)?;
        if text.as_str() == message {
            return Ok(true);
        }
    }
    Ok(false)
}

/// Reports whether a message says so of a macro of two variables.
fn is_about_macro(alloc: Global, message: &str) -> Result<bool, AllocError>
    ensures { IfOk result (λ b. b ≡ spec.is_about two_variable_macros message.now) }
{
    let found = is_about(alloc, &TWO_VARIABLE_MACROS, message)?;
    Ok(found)
}

/// Reports whether a message says so of another function that this project lacks.
fn is_about_missing(alloc: Global, message: &str) -> Result<bool, AllocError>
    ensures { IfOk result (λ b. b ≡ spec.is_about missing_functions message.now) }
{
    let found = is_about(alloc, &MISSING_FUNCTIONS, message)?;
    Ok(found)
}

/// Reports whether a message says that a function is unknown which this project lacks.
fn is_lacked_message(alloc: Global, message: &str) -> Result<bool, AllocError>
    ensures { IfOk result (λ b. b ≡ spec.is_lacked_message message.now) }
{
    Ok(is_about_macro(alloc, message)? || is_about_missing(alloc, message)?)
}

/// Reports whether a finding is about a function that this project lacks.
fn is_of_lacked(alloc: Global, kind: LintKind, message: &str) -> Result<bool, AllocError>
    ensures { IfOk result (λ b. b ≡ spec.is_of_lacked kind message.now) }
{
    match kind {
        LintKind::Function => is_lacked_message(alloc, message),
        LintKind::Compile | LintKind::Scope | LintKind::Cost | LintKind::Bounds | LintKind::Depth =>
            Ok(false),
    }
}

/// Reports whether a finding is about a name of the rule that was last found to call such a
/// function.
fn is_name_of(kind: LintKind, rule: &str, last: &Option<Rc<String>>) -> bool
    ensures { result ≡ spec.is_name_of kind rule.now (option_map shared_bytes last.now) }
{
    match (kind, last) {
        (LintKind::Scope, Some(last)) => rule == last.as_str(),
        (LintKind::Scope, None) => false,
        (
            LintKind::Compile
            | LintKind::Function
            | LintKind::Cost
            | LintKind::Bounds
            | LintKind::Depth,
            _,
        ) => false,
    }
}

/// Turns a finding of the linter into a candidate, with its pointer into the document.
fn candidate_of_finding(
    alloc: Global,
    base: &str,
    finding: LintFinding,
) -> Result<Candidate, AllocError>
    ensures { IfOk result (λ d. candidate_view d
        ≡ spec.candidate_of_finding base.now (linter.finding_view finding)) }
{
    let pointer = format!(in alloc; "{base}{}", finding.pointer)?;
    Ok(Candidate {
        finding: ReviewFinding {
            pointer,
            rule: finding.rule,
            kind: ReviewKind::Lint(finding.kind),
            message: finding.message,
        },
        condition: Condition::Always,
    })
}

/// Adds the candidate for a finding, unless it is about what this project lacks. Returns the rule
/// that was last found to call a function which this project lacks.
fn add_finding(
    alloc: Global,
    base: &str,
    last: Option<Rc<String>>,
    finding: LintFinding,
    candidates: &mut Vec<Candidate>,
) -> Result<Option<Rc<String>>, AllocError>
    ensures added { OnOk result (AddsCandidates candidates.old.items candidates.new.items
        (spec.lint_candidate base.now (option_map shared_bytes last) (linter.finding_view finding))) }
    ensures last { IfOk result (λ o. option_map shared_bytes o
        ≡ spec.last_lacking (option_map shared_bytes last) (linter.finding_view finding)) }
{
    if is_of_lacked(alloc, finding.kind, finding.message.as_str())? {
        return Ok(Some(finding.rule.clone()?));
    }
    if !is_name_of(finding.kind, finding.rule.as_str(), &last) {
        candidates.push(candidate_of_finding(alloc, base, finding)?)?;
    }
    Ok(last)
}

/// Adds the candidates for the findings of the linter, in order.
pub(crate) fn add_lint(
    alloc: Global,
    base: &str,
    findings: Vec<LintFinding>,
    candidates: &mut Vec<Candidate>,
) -> Result<(), AllocError>
    ensures { OnOk result (AddsCandidates candidates.old.items candidates.new.items
        (spec.lint_candidates base.now None (map linter.finding_view findings.items))) }
{
    let mut last = None;
    for finding in findings {
        last = add_finding(alloc, base, last, finding, candidates)?;
    }
    Ok(())
}
