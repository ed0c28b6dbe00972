//! Writes reports as text, as GitHub's annotations, and as JUnit test cases.
ghost use Rattle.kubecel_report.specs.Escapes.{escaped_text};
ghost use Rattle.kubecel_report.specs.Items.{finding_text, finding_view, item_view, title};
ghost use Rattle.kubecel_report.specs.Lines.{coloured_word, github_finding, github_item, junit_finding, junit_item, junit_open, location, number_member, text_finding, text_item};
ghost use Rattle.kubecel_report.specs.declared.escape.Escape.TheVariants.{Shown};
ghost use Rattle.std.specs.Io.KnownBytes.{Appends};
ghost use Rattle.std.specs.List.{flat_map};
ghost use Rattle.std.specs.Prelude.{◌≡◌, ◌++◌, IfOk, OnOk, codes, map, string_bytes};

use crate::escape::{Escape, escaped};
use crate::item::{Finding, Item, Verdict};
use std::alloc::{AllocError, Global};
use std::io;
use std::io::Write;

/// Writes `head`, then a number.
#[tactic(auto, unfolding(crate::specs::Lines::number_member))]
pub fn write_number<O: Write>(head: &str, number: usize, out: &mut O) -> io::Result<()>
    ensures { OnOk result (Appends (O.contents out.old) (O.contents out.new)
        (number_member head.now number)) }
{
    write!(out, "{head}{number}")
}

/// Returns a thing's name, escaped.
fn escaped_title(alloc: Global, escape: Escape, item: &Item) -> Result<String, AllocError>
    ensures { IfOk result (λ s. string_bytes s ≡ escaped_text escape (title (item_view item.now))) }
{
    let title = item.title(alloc)?;
    escaped(alloc, escape, title.as_str())
}

/// Returns a thing's location in a line of text.
fn shown_location(alloc: Global, item: &Item) -> Result<String, AllocError>
    ensures { IfOk result (λ s. string_bytes s
        ≡ escaped_text Shown (location (string_bytes item.now.file) item.now.index)) }
{
    let location = item.location(alloc)?;
    escaped(alloc, Escape::Shown, location.as_str())
}

/// Returns a finding, escaped.
fn escaped_finding(alloc: Global, escape: Escape, finding: &Finding) -> Result<String, AllocError>
    ensures { IfOk result (λ s. string_bytes s ≡ escaped_text escape (finding_text (finding_view finding.now))) }
{
    let text = finding.finding_text(alloc)?;
    escaped(alloc, escape, text.as_str())
}

/// Writes the word of a verdict and a blank, in the verdict's colour if `colours` is true.
fn write_verdict<O: Write>(verdict: Verdict, colours: bool, out: &mut O) -> io::Result<()>
    ensures { OnOk result (Appends (O.contents out.old) (O.contents out.new)
        (coloured_word colours verdict ++ codes " ")) }
{
    let word = verdict.word();
    if colours {
        let colour = verdict.colour();
        write!(out, "{colour}{word}\u{1b}[0m ")
    } else {
        write!(out, "{word} ")
    }
}

/// Writes the report on a thing as text.
#[tactic(auto, unfolding(crate::specs::Lines::text_item))]
pub(crate) fn write_text_item<O: Write>(
    alloc: Global,
    item: &Item,
    colours: bool,
    out: &mut O,
) -> io::Result<()>
    ensures { OnOk result (Appends (O.contents out.old) (O.contents out.new)
        (text_item colours (item_view item.now))) }
{
    let title = escaped_title(alloc, Escape::Shown, item)?;
    let location = shown_location(alloc, item)?;
    write_verdict(item.verdict, colours, out)?;
    writeln!(out, "{title} ({location})")?;
    write_text_findings(alloc, item.findings.as_slice(), out)
}

fn write_text_findings<O: Write>(alloc: Global, findings: &[Finding], out: &mut O) -> io::Result<()>
    ensures { OnOk result (Appends (O.contents out.old) (O.contents out.new)
        (flat_map text_finding (map finding_view findings.now))) }
{
    for finding in findings {
        let text = escaped_finding(alloc, Escape::Shown, finding)?;
        writeln!(out, "  {text}")?;
    }
    Ok(())
}

/// Writes the report on a thing as annotations, one for each finding.
#[tactic(auto, unfolding(crate::specs::Lines::github_item))]
pub(crate) fn write_github_item<O: Write>(alloc: Global, item: &Item, out: &mut O) -> io::Result<()>
    ensures { OnOk result (Appends (O.contents out.old) (O.contents out.new)
        (github_item (item_view item.now))) }
{
    for finding in item.findings.as_slice() {
        write_github_finding(alloc, item, finding, out)?;
    }
    Ok(())
}

#[tactic(auto, unfolding(crate::specs::Lines::github_finding))]
fn write_github_finding<O: Write>(
    alloc: Global,
    item: &Item,
    finding: &Finding,
    out: &mut O,
) -> io::Result<()>
    ensures { OnOk result (Appends (O.contents out.old) (O.contents out.new)
        (github_finding (item_view item.now) (finding_view finding.now))) }
{
    let file = escaped(alloc, Escape::Property, item.file.as_str())?;
    let title = escaped_title(alloc, Escape::Property, item)?;
    let text = escaped_finding(alloc, Escape::Data, finding)?;
    let level = item.verdict.level();
    writeln!(out, "::{level} file={file},title={title}::{text}")
}

/// Writes the report on a thing as a test case.
pub(crate) fn write_junit_item<O: Write>(alloc: Global, item: &Item, out: &mut O) -> io::Result<()>
    ensures { OnOk result (Appends (O.contents out.old) (O.contents out.new)
        (junit_item (item_view item.now))) }
{
    write_junit_open(alloc, item, out)?;
    write_junit_findings(alloc, item.findings.as_slice(), out)?;
    let element = item.verdict.element();
    writeln!(out, "</{element}></testcase>")
}

/// Writes the part of a test case that precedes its findings.
#[tactic(auto, unfolding(crate::specs::Lines::junit_open))]
fn write_junit_open<O: Write>(alloc: Global, item: &Item, out: &mut O) -> io::Result<()>
    ensures { OnOk result (Appends (O.contents out.old) (O.contents out.new)
        (junit_open (item_view item.now))) }
{
    let file = escaped(alloc, Escape::Xml, item.file.as_str())?;
    let title = escaped_title(alloc, Escape::Xml, item)?;
    let element = item.verdict.element();
    write!(
        out,
        "<testcase classname=\"{file}\" name=\"{title}\"><{element}>"
    )
}

fn write_junit_findings<O: Write>(
    alloc: Global,
    findings: &[Finding],
    out: &mut O,
) -> io::Result<()>
    ensures { OnOk result (Appends (O.contents out.old) (O.contents out.new)
        (flat_map junit_finding (map finding_view findings.now))) }
{
    for finding in findings {
        let text = escaped_finding(alloc, Escape::Xml, finding)?;
        writeln!(out, "{text}")?;
    }
    Ok(())
}
