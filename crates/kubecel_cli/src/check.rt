//! `check`: judges objects by their CustomResourceDefinitions.
ghost use Rattle.kubecel_check.specs.Definitions.{IsSetOf, passed_over};
ghost use Rattle.kubecel_check.specs.Judgements.{passed_over_item};
ghost use Rattle.kubecel_cli.specs.Commands.{check_view};
ghost use Rattle.kubecel_cli.specs.Runs.{AreBehind, AreChecked, AreJudged, AreJudgedBySet, UnlessAny, UnlessFault};
ghost use Rattle.kubecel_io.specs.Subjects.{subject_view};
ghost use Rattle.kubecel_report.specs.Items.{item_view};
ghost use Rattle.std.specs.Prelude.{◌≡◌, ◌||◌, IfOk, None, false, map};

use crate::command::Check;
use crate::in_part::{checked_in_part, is_any_unusable};
use crate::report::{Report, ReportFormat, with_items_before};
use crate::unread::all_unread;
use kube_manifests::{CrdSet, PatternBook};
use kubecel_check::{
    definitions_of, judge, judged_subjects, passed_over, passed_over_item, refuse_unless_compared,
    refuse_unless_defined, refuse_unless_some, refuse_unless_useful, set_or_fault, subjects_of,
};
use kubecel_io::{OldObjects, Refused, Sources, Stop, Subject, read_files, whole_documents};
use kubecel_report::Item;
use std::alloc::{AllocError, Global};
use std::io::Write;

/// The number of objects after which a run reports its progress.
const STEP: usize = 100;

/// Judges objects. All files are tried, in order, before anything is judged. If one isn't used, the
/// report says so beside what was judged.
pub(crate) fn checked<S: Sources, E: Write>(
    alloc: Global,
    check: Check<'_, '_>,
    form: ReportFormat,
    files: &mut S,
    err: &mut E,
) -> Result<Report, Stop>
    ensures { IfOk result (λ r.
        UnlessFault r (AreChecked S.reads files.old (check_view check.entry) files.new)) }
{
    let crds = read_files(alloc, check.crds, files)?;
    let olds = read_files(alloc, check.olds, files)?;
    let objects = read_files(alloc, check.objects, files)?;
    if is_any_unusable(&crds, &olds, &objects) {
        let ignores_missing = check.ignores_missing;
        return Ok(checked_in_part(alloc, ignores_missing, crds, olds, objects, form, err)?);
    }
    let given = whole_documents(alloc, crds.documents.as_slice())?;
    let earlier = whole_documents(alloc, olds.documents.as_slice())?;
    let present = whole_documents(alloc, objects.documents.as_slice())?;
    judged(
        alloc,
        check,
        given.as_slice(),
        earlier.as_slice(),
        present.as_slice(),
        form,
        err,
    )
}

/// Judges the objects of these documents, of which the first are those of files of definitions.
fn judged<E: Write>(
    alloc: Global,
    check: Check<'_, '_>,
    crds: &[Subject<'_>],
    olds: &[Subject<'_>],
    objects: &[Subject<'_>],
    form: ReportFormat,
    err: &mut E,
) -> Result<Report, Stop>
    ensures { IfOk result (λ r. UnlessFault r (AreJudged (check_view check.entry)
        (map subject_view crds.now) (map subject_view olds.now) (map subject_view objects.now))) }
{
    let ignores_missing = check.ignores_missing;
    let definitions = definitions_of(alloc, ignores_missing, crds, objects)?;
    let set = set_of(alloc, definitions.as_slice())?;
    let earlier = subjects_of(alloc, &set, olds)?;
    let subjects = judged_subjects(alloc, &set, objects)?;
    refuse_unless_some(alloc, check.allows_none, subjects.as_slice())?;
    refuse_unless_useful(alloc, ignores_missing, check.olds, &set, earlier.as_slice())?;
    let indexed = OldObjects::of(alloc, earlier.as_slice())?;
    refuse_unless_compared(alloc, check.olds, &indexed, subjects.as_slice())?;
    refuse_unless_defined(
        alloc,
        ignores_missing,
        check.allows_none,
        &set,
        subjects.as_slice(),
    )?;
    let unread = all_unread(alloc, definitions.as_slice())?;
    let passed = passed_items(alloc, ignores_missing, crds)?;
    Ok(judge_unless_any(
        alloc,
        unread,
        passed,
        ignores_missing,
        &set,
        &indexed,
        subjects.as_slice(),
        form,
        err,
    )?)
}

/// Compiles these definitions.
fn set_of(alloc: Global, definitions: &[Subject<'_>]) -> Result<CrdSet, Stop>
    ensures { IfOk result (IsSetOf (map subject_view definitions.now)) }
{
    match set_or_fault(alloc, definitions)? {
        Ok(set) => Ok(set),
        Err(fault) => Err(Stop::Said(fault)),
    }
}

/// Returns the items of what is passed over in files of definitions.
pub(crate) fn passed_items(
    alloc: Global,
    ignores_missing: bool,
    crds: &[Subject<'_>],
) -> Result<Vec<Item>, AllocError>
    ensures { IfOk result (λ v. map item_view v.items
        ≡ map passed_over_item (passed_over ignores_missing (map subject_view crds.now))) }
{
    let passed = passed_over(alloc, ignores_missing, crds)?;
    items_of_passed(alloc, passed.as_slice())
}

fn items_of_passed(alloc: Global, passed: &[Subject<'_>]) -> Result<Vec<Item>, AllocError>
    ensures { IfOk result (λ v. map item_view v.items ≡ map passed_over_item (map subject_view passed.now)) }
{
    let mut items = Vec::with_capacity(alloc, passed.len())?;
    for document in passed {
        items.push(passed_over_item(alloc, document)?)?;
    }
    Ok(items)
}

/// Judges objects by a set, and reports them behind what is passed over. If some definitions have
/// parts that aren't read, reports only these definitions.
pub(crate) fn judge_unless_any<E: Write>(
    alloc: Global,
    unread: Vec<Item>,
    passed: Vec<Item>,
    ignores_missing: bool,
    set: &CrdSet,
    olds: &OldObjects<'_, '_>,
    subjects: &[Subject<'_>],
    form: ReportFormat,
    err: &mut E,
) -> Result<Report, Refused>
    ensures { IfOk result (λ r. UnlessFault r (UnlessAny (map item_view unread.items)
        (AreBehind (map item_view passed.items) (AreJudgedBySet ignores_missing set.now
        (map (λ f. f.value) (map subject_view olds.now.objects.now)) (map subject_view subjects.now))))) }
{
    match unread.as_slice() {
        [] => judge_behind(
            alloc,
            passed,
            ignores_missing,
            set,
            olds,
            subjects,
            form,
            err,
        ),
        [_, ..] => Ok(Report {
            items: unread,
            noun: "no object was judged; definitions with mistakes",
            rules: None,
            compared: None,
            fault: None,
        }),
    }
}

/// Judges objects by a set, and reports them behind these items.
fn judge_behind<E: Write>(
    alloc: Global,
    passed: Vec<Item>,
    ignores_missing: bool,
    set: &CrdSet,
    olds: &OldObjects<'_, '_>,
    subjects: &[Subject<'_>],
    form: ReportFormat,
    err: &mut E,
) -> Result<Report, Refused>
    ensures { IfOk result (λ r. UnlessFault r (AreBehind (map item_view passed.items)
        (AreJudgedBySet ignores_missing set.now
        (map (λ f. f.value) (map subject_view olds.now.objects.now)) (map subject_view subjects.now)))) }
{
    let report = judge_all(alloc, ignores_missing, set, olds, subjects, form, err)?;
    Ok(with_items_before(passed, report)?)
}

/// Judges each object by a set, all with one book of patterns. If one is denied though not all of its
/// rules could be evaluated, the report says so, too.
fn judge_all<E: Write>(
    alloc: Global,
    ignores_missing: bool,
    set: &CrdSet,
    olds: &OldObjects<'_, '_>,
    subjects: &[Subject<'_>],
    form: ReportFormat,
    err: &mut E,
) -> Result<Report, Refused>
    ensures { IfOk result (λ r. UnlessFault r (AreJudgedBySet ignores_missing set.now
        (map (λ f. f.value) (map subject_view olds.now.objects.now)) (map subject_view subjects.now))) }
{
    let mut items = Vec::with_capacity(alloc, subjects.len())?;
    let (mut rules, mut compared) = (0u64, 0u64);
    let mut partly = false;
    let mut book = PatternBook::new(alloc);
    for subject in subjects {
        let old = olds.old_of(alloc, subject)?;
        let judged = judge(alloc, ignores_missing, set, subject, old, &mut book)?;
        partly = either(partly, judged.1);
        items.push(judged.0)?;
        rules = rules.saturating_add(set.rule_count(subject.value).unwrap_or(0));
        compared = compared.saturating_add(u64::from(old.is_some()));
        if form.progress {
            report_progress(items.len(), subjects.len(), err);
        }
    }
    Ok(Report {
        items,
        noun: "objects",
        rules: Some(rules),
        compared: if olds.objects.is_empty() {
            None
        } else {
            Some(compared)
        },
        fault: fault_if(alloc, partly)?,
    })
}

fn either(first: bool, second: bool) -> bool
    ensures { result ≡ (first || second) }
{
    first || second
}

/// Says, if it is so, that an object was denied though not all of its rules could be evaluated.
fn fault_if(alloc: Global, partly: bool) -> Result<Option<String>, AllocError>
    ensures { IfOk result (λ f. f ≡ None → partly ≡ false) }
{
    if !partly {
        return Ok(None);
    }
    let why = "not all rules of an object that fails could be evaluated";
    Ok(Some(String::from_str(alloc, why)?))
}

/// Writes how many objects were judged so far, if there are many, and clears that line at the end.
fn report_progress<E: Write>(judged: usize, all: usize, err: &mut E) {
    if all > STEP && judged.is_multiple_of(STEP) {
        let _ = write!(err, "\rkubecel: {judged} of {all} objects");
    }
    if all > STEP && judged == all {
        let _ = write!(err, "\r\u{1b}[K");
    }
}
