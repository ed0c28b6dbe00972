//! Writes the last line of a run: how much was judged, and with which results.
ghost use Rattle.kubecel_report.specs.Items.{item_view};
ghost use Rattle.kubecel_report.specs.Summary.{finding_count, member_where_known, summary_text, verdict_count, verdict_counts};
ghost use Rattle.std.specs.Io.KnownBytes.{Appends};
ghost use Rattle.std.specs.Prelude.{◌≡◌, OnOk, length, map};

use crate::item::{Item, Verdict};
use crate::lines::write_number;
use crate::output::count;
use std::io;
use std::io::Write;

/// Writes how many things there are, how many of them have each verdict, and how many findings there
/// are. `noun` says what the things are, in the plural. Where they are known, the line has two more
/// numbers: of the objects that were judged with an old one, and of the rules.
pub fn write_summary<E: Write>(
    noun: &str,
    compared: Option<u64>,
    rules: Option<u64>,
    items: &[Item],
    err: &mut E,
) -> io::Result<()>
    ensures { OnOk result (Appends (E.contents err.old) (E.contents err.new)
        (summary_text noun.now compared rules (map item_view items.now))) }
{
    write!(err, "kubecel: {noun}")?;
    write_number(": ", count(items), err)?;
    write_verdict_counts(items, err)?;
    write_where_known(", with an old object: ", compared, err)?;
    write_where_known(", rules: ", rules, err)?;
    write_number(", findings: ", finding_count(items), err)?;
    err.write_all(b"\n")
}

/// Writes how many things have each verdict.
fn write_verdict_counts<E: Write>(items: &[Item], err: &mut E) -> io::Result<()>
    ensures { OnOk result (Appends (E.contents err.old) (E.contents err.new)
        (verdict_counts (map item_view items.now))) }
{
    write_number(", valid: ", verdict_count(items, Verdict::Pass), err)?;
    write_number(", invalid: ", verdict_count(items, Verdict::Fail), err)?;
    write_number(
        ", not judged: ",
        verdict_count(items, Verdict::NotJudged),
        err,
    )?;
    write_number(", skipped: ", verdict_count(items, Verdict::Skip), err)
}

/// Writes `head`, then a number, if it is known.
#[tactic(auto, unfolding(crate::specs::Lines::number_member))]
fn write_where_known<E: Write>(head: &str, number: Option<u64>, err: &mut E) -> io::Result<()>
    ensures { OnOk result (Appends (E.contents err.old) (E.contents err.new)
        (member_where_known head.now number)) }
{
    match number {
        Some(number) => write!(err, "{head}{number}"),
        None => Ok(()),
    }
}

/// Returns the number of things with this verdict.
fn verdict_count(items: &[Item], verdict: Verdict) -> usize
    ensures { result ≡ verdict_count verdict (map item_view items.now) }
{
    let mut count = 0usize;
    for item in items {
        if item.verdict.word() == verdict.word() {
            count += 1;
        }
    }
    count
}

/// Returns the number of findings, or the greatest number if there are more.
fn finding_count(items: &[Item]) -> usize
    ensures { result ≡ finding_count (map item_view items.now) }
{
    let mut count = 0usize;
    for item in items {
        count = count.saturating_add(findings_of(item));
    }
    count
}

/// Returns the number of a thing's findings.
fn findings_of(item: &Item) -> usize
    ensures { result ≡ length (item_view item.now).findings }
{
    item.findings.as_slice().len()
}
