//! Judges one object.
ghost use Rattle.cel.specs.Book.{Book, Extends};
ghost use Rattle.cel.specs.Entries.{entries_of};
ghost use Rattle.kube_manifests.specs.Sets.{IsJudgementUnder, set_view, with_tree};
ghost use Rattle.kube_manifests.specs.Definitions as shapes;
ghost use Rattle.kube_manifests.specs.DocumentsVersions.{Version};
ghost use Rattle.kube_manifests.specs.declared.judgement.Judgement as spec;
ghost use Rattle.kubecel_check.specs.Judgements.{AreHints, errors_of, is_missing, is_of_version, is_partly_judged, is_skipped, is_unread_list, judged_item, named_reason, passed_over_item, unread_list_text, verdict_for, why_not};
ghost use Rattle.kubecel_io.specs.Subjects.{subject_view};
ghost use Rattle.kubecel_report.specs.Items.{FindingData, finding_view, item_view};
ghost use Rattle.serde_json.specs.Data.{Data};
ghost use Rattle.serde_json.specs.View.{view};
ghost use Rattle.std.specs.Prelude.{◌≡◌, IfOk, List, map, option_map, string_bytes};

use crate::definitions::{is_any_list, is_called_crd, is_full, is_no_resource};
use crate::errors::{error_findings, errors_verdict, hints_of, is_partly_judged, with_hints};
use crate::item::{item_of, remark};
use kube_manifests::{CrdSet, Judgement, NotJudged, PatternBook};
use kube_manifests_documents::list_of;
use kubecel_io::{Refused, Subject, text_at};
use kubecel_report::{Finding, Item, Verdict};
use serde_json::Value;
use std::alloc::{AllocError, Global};

/// Judges an object by a set, with a lent book of patterns. Also returns whether it is denied though
/// not all of its rules could be evaluated. Afterwards the book has all the entries that it had, and
/// perhaps more.
pub fn judge(
    alloc: Global,
    ignores_missing: bool,
    set: &CrdSet,
    subject: &Subject<'_>,
    old: Option<&Value>,
    book: &mut PatternBook,
) -> Result<(Item, bool), Refused>
    ensures kept { Extends (entries_of book.new) (entries_of book.old) }
    ensures judged { IfOk result (λ r. (j : spec.Judgement)
        × ((versions : List (Version Data)) → set_view set.now ≡ map with_tree versions
        → (b : Book) → Extends b (entries_of book.new)
        → IsJudgementUnder b versions (view subject.now.value.now) (option_map (λ v. view v.now) old.entry) j)
        × (r.1 ≡ is_partly_judged j)
        × (hints : List FindingData) × AreHints (view subject.now.value.now) (errors_of j) hints
        × (item_view r.0 ≡ judged_item ignores_missing (set_view set.now) (subject_view subject.now) j hints)) }
{
    let judgement = set.validate_in(alloc, subject.value, old, book)?;
    let partly = is_partly_judged(&judgement);
    let hints = hints_of(alloc, subject.value, &judgement)?;
    let item = judged_item(alloc, ignores_missing, set, subject, &judgement, hints)?;
    Ok((item, partly))
}

/// Builds the item of an object from its judgement by a set, and the hints on it.
fn judged_item(
    alloc: Global,
    ignores_missing: bool,
    set: &CrdSet,
    subject: &Subject<'_>,
    judgement: &Judgement,
    hints: Vec<Finding>,
) -> Result<Item, Refused>
    ensures { IfOk result (λ i. item_view i ≡ judged_item ignores_missing (set_view set.now)
        (subject_view subject.now) judgement.now (map finding_view hints.items)) }
{
    match judgement {
        Judgement::Judged(Ok(())) => {
            Ok(item_of(alloc, subject, Verdict::Pass, Vec::new(alloc))?)
        }
        Judgement::Judged(Err(errors)) => {
            let findings = with_hints(error_findings(alloc, errors.as_slice())?, hints)?;
            let verdict = errors_verdict(errors.as_slice());
            Ok(item_of(alloc, subject, verdict, findings)?)
        }
        Judgement::NotJudged(reason) => {
            let findings = remark(alloc, why_not(alloc, set, subject, *reason)?)?;
            let verdict = verdict_for(ignores_missing, subject, *reason);
            Ok(item_of(alloc, subject, verdict, findings)?)
        }
    }
}

/// Returns the verdict on an object that isn't judged for this reason.
fn verdict_for(ignores_missing: bool, subject: &Subject<'_>, reason: NotJudged) -> Verdict
    ensures { result ≡ verdict_for ignores_missing (subject_view subject.now) reason }
{
    if ignores_missing && is_skipped(subject, reason) {
        Verdict::Skip
    } else {
        Verdict::NotJudged
    }
}

/// Reports whether an object that isn't judged for this reason is skipped if missing definitions are
/// ignored: there is none for it, or it is no resource.
pub(crate) fn is_skipped(subject: &Subject<'_>, reason: NotJudged) -> bool
    ensures { result ≡ is_skipped (subject_view subject.now) reason }
{
    let object = subject.value;
    is_no_resource(subject)
        || (is_missing(named_reason(object, reason))
            && !(is_unread_list(object, reason) || is_called_crd(object)))
}

/// Reports whether the reason is that no definition has the object's group and kind.
fn is_missing(reason: NotJudged) -> bool
    ensures { result ≡ is_missing reason }
{
    match reason {
        NotJudged::NoSuchKind => true,
        NotJudged::NotAnObject
        | NotJudged::NoApiVersion
        | NotJudged::NoKind
        | NotJudged::NoSuchVersion
        | NotJudged::NotServed => false,
    }
}

/// Returns the reason that is told: an object of a kind, or an apiVersion, without a letter has none.
fn named_reason(object: &Value, reason: NotJudged) -> NotJudged
    ensures { result ≡ named_reason (view object.now) reason }
{
    match reason {
        NotJudged::NoSuchKind => {
            if !is_full(text_at(object, "kind")) {
                NotJudged::NoKind
            } else if !is_full(text_at(object, "apiVersion")) {
                NotJudged::NoApiVersion
            } else {
                NotJudged::NoSuchKind
            }
        }
        NotJudged::NotAnObject => NotJudged::NotAnObject,
        NotJudged::NoApiVersion => NotJudged::NoApiVersion,
        NotJudged::NoKind => NotJudged::NoKind,
        NotJudged::NoSuchVersion => NotJudged::NoSuchVersion,
        NotJudged::NotServed => NotJudged::NotServed,
    }
}

/// Reports whether what isn't judged is a list: one among the items of a list, or a `List` whose
/// fields aren't those of one.
fn is_unread_list(object: &Value, reason: NotJudged) -> bool
    ensures { result ≡ is_unread_list (view object.now) reason }
{
    is_any_list(object) && !is_of_version(reason)
}

/// Returns what is said of such a list.
fn unread_list_text(object: &Value) -> &'static str
    ensures { result.now ≡ unread_list_text (shapes.list_of (view object.now)) }
{
    match list_of(object) {
        Some(_) => "a list within a list: its items aren't judged",
        None => {
            "a List has its objects in items, and no other fields but apiVersion, kind and metadata"
        }
    }
}

/// Reports whether the reason is one about a version of a definition of the object's group and kind.
pub(crate) fn is_of_version(reason: NotJudged) -> bool
    ensures { result ≡ is_of_version reason }
{
    match reason {
        NotJudged::NoSuchVersion | NotJudged::NotServed => true,
        NotJudged::NotAnObject
        | NotJudged::NoApiVersion
        | NotJudged::NoKind
        | NotJudged::NoSuchKind => false,
    }
}

/// Returns the reason why an object isn't judged by a set.
pub(crate) fn why_not(
    alloc: Global,
    set: &CrdSet,
    subject: &Subject<'_>,
    reason: NotJudged,
) -> Result<String, Refused>
    ensures { IfOk result (λ s. string_bytes s ≡ why_not (set_view set.now) (subject_view subject.now) reason) }
{
    let object = subject.value;
    if is_unread_list(object, reason) {
        return Ok(String::from_str(alloc, unread_list_text(object))?);
    }
    if is_no_resource(subject) {
        let why = "no resource: neither apiVersion nor kind";
        return Ok(String::from_str(alloc, why)?);
    }
    if is_called_crd(object) && !is_of_version(reason) {
        let why = "only CustomResourceDefinitions of apiextensions.k8s.io/v1 are read";
        return Ok(String::from_str(alloc, why)?);
    }
    set.explain(alloc, object, named_reason(object, reason))
}

/// Builds the item of a document in a file of definitions that is passed over.
pub fn passed_over_item(alloc: Global, document: &Subject<'_>) -> Result<Item, AllocError>
    ensures { IfOk result (λ i. item_view i ≡ passed_over_item (subject_view document.now)) }
{
    let findings = remark(
        alloc,
        String::from_str(alloc, "no CustomResourceDefinition")?,
    )?;
    item_of(alloc, document, Verdict::Skip, findings)
}
