//! Reviews a document.
ghost use Rattle.std.specs.Prelude.{◌≡◌, ◌++◌, IfOk, OnOk, map};
ghost use Rattle.cel.specs.Book.{Extends, Book, IsBook};
ghost use Rattle.cel.specs.Entries.{entries_of};
ghost use Rattle.cel.specs.Extensions.{HoldsForExtensions};
ghost use Rattle.kube_cel_analysis.specs.Findings.{Naming};
ghost use Rattle.kube_manifests_review.specs.Candidates.{candidate_view, finding_view, when_view};
ghost use Rattle.kube_manifests_review.specs.Candidates as spec;
ghost use Rattle.kube_manifests_review.specs.Reviewed.{crd_findings};
ghost use Rattle.serde_json.specs.View.{view};

use crate::candidate::{Candidate, Condition};
use crate::document::candidates_of;
use crate::finding::ReviewFinding;
use cel::{Form, Functions, PatternBook};
use cel_value::Value as CelValue;
use kube_functions::AllFunctions;
use kube_types::Refused;
use serde_json::Value;
use std::alloc::Global;

/// Reports whether a function takes a single argument and fails on this string.
#[tactic(auto, unfolding(crate::specs::Candidates::fails_at))]
fn fails_at(alloc: Global, name: &str, text: &str, book: &mut PatternBook) -> Result<bool, Refused>
    ensures keeps { Extends (entries_of book.new) (entries_of book.old) }
    ensures value { IfOk result (λ r. HoldsForExtensions (entries_of book.new) r
        (spec.fails_at name.now text.now)) }
{
    match AllFunctions.form(name, false, 1) {
        Form::Unknown => Ok(false),
        Form::Wrong => Ok(false),
        Form::Known => {
            let args = [CelValue::from_text(alloc, String::from_str(alloc, text)?)?];
            let answer = AllFunctions.call(alloc, name, None, &args, book);
            drop(args);
            let answer = answer?;
            let failed = answer.is_err();
            drop(answer);
            Ok(failed)
        }
    }
}

/// Reports whether a pattern is refused.
#[tactic(auto, unfolding(crate::specs::Candidates::is_refused))]
fn is_refused(pattern: &str, book: &mut PatternBook) -> Result<bool, Refused>
    ensures keeps { Extends (entries_of book.new) (entries_of book.old) }
    ensures value { IfOk result (λ r. HoldsForExtensions (entries_of book.new) r
        (spec.is_refused pattern.now)) }
{
    let found = book.matches(pattern, "")?;
    Ok(found.is_none())
}

/// Reports whether a condition holds, given a book of patterns.
fn is_due(alloc: Global, condition: Condition, book: &mut PatternBook) -> Result<bool, Refused>
    ensures keeps { Extends (entries_of book.new) (entries_of book.old) }
    ensures value { IfOk result (λ r. HoldsForExtensions (entries_of book.new) r
        (λ b. spec.is_due b (when_view condition))) }
{
    match condition {
        Condition::Always => Ok(true),
        Condition::Refused(pattern) => is_refused(pattern.as_str(), book),
        Condition::Fails { name, text } => fails_at(alloc, name.as_str(), text.as_str(), book),
    }
}

/// Adds the finding of a candidate, if its condition holds.
fn add_due(
    alloc: Global,
    candidate: Candidate,
    book: &mut PatternBook,
    found: &mut Vec<ReviewFinding>,
) -> Result<(), Refused>
    ensures keeps { Extends (entries_of book.new) (entries_of book.old) }
    ensures value { OnOk result (HoldsForExtensions (entries_of book.new) (map finding_view found.new.items)
        (λ b. map finding_view found.old.items ++ spec.due_finding b (candidate_view candidate))) }
{
    let Candidate { finding, condition } = candidate;
    if !is_due(alloc, condition, book)? {
        return Ok(());
    }
    found.push(finding)?;
    Ok(())
}

/// Returns the findings of the candidates whose condition holds, in order.
fn due(
    alloc: Global,
    candidates: Vec<Candidate>,
    book: &mut PatternBook,
) -> Result<Vec<ReviewFinding>, Refused>
    ensures keeps { Extends (entries_of book.new) (entries_of book.old) }
    ensures value { IfOk result (λ v. HoldsForExtensions (entries_of book.new) (map finding_view v.items)
        (spec.due (map candidate_view candidates.items))) }
{
    let mut found = Vec::new(alloc);
    for candidate in candidates {
        add_due(alloc, candidate, book, &mut found)?;
    }
    Ok(found)
}

/// Returns what a person should look at in a CustomResourceDefinition, given a book of patterns.
/// The versions come in order; for each, first the findings of the linter, then what else is wrong
/// with the schema or its rules, schema by schema from the outermost inwards. The book keeps its
/// entries, even if memory is refused. (Kubernetes API reference, `CustomResourceDefinitionSpec`,
/// `JSONSchemaProps`, `ValidationRule`.)
///
/// # Errors
///
/// [`Refused`] if memory is refused, or a URL that a rule reads is too large.
pub fn review_crd_with(
    alloc: Global,
    crd: &Value,
    book: &mut PatternBook,
) -> Result<Vec<ReviewFinding>, Refused>
    ensures keeps { Extends (entries_of book.new) (entries_of book.old) }
    ensures findings { IfOk result (λ v. (names : Naming) → HoldsForExtensions (entries_of book.new)
        (map finding_view v.items) (crd_findings names (view crd.now))) }
{
    let candidates = candidates_of(alloc, crd)?;
    let found = due(alloc, candidates, book)?;
    Ok(found)
}

/// Like [`review_crd_with`], with a new book of patterns.
///
/// # Errors
///
/// [`Refused`] if memory is refused, or a URL that a rule reads is too large.
pub fn review_crd(alloc: Global, crd: &Value) -> Result<Vec<ReviewFinding>, Refused>
    ensures findings { IfOk result (λ v. (b : Book) × IsBook b
        × ((names : Naming) → map finding_view v.items ≡ crd_findings names (view crd.now) b)) }
{
    let mut book = PatternBook::new(alloc);
    let found = review_crd_with(alloc, crd, &mut book)?;
    Ok(found)
}
