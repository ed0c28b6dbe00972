//! Writes the report on everything that was judged, in each form of output.
ghost use Rattle.kubecel_report.specs.Items.{item_view};
ghost use Rattle.kubecel_report.specs.Lines.{github_item, junit_item, text_item};
ghost use Rattle.kubecel_report.specs.Output.{count_of, junit_head, output_text};
ghost use Rattle.kubecel_report.specs.declared.output.Output.TheVariants.{Junit};
ghost use Rattle.std.specs.Io.KnownBytes.{Appends};
ghost use Rattle.std.specs.List.{flat_map};
ghost use Rattle.std.specs.Prelude.{◌≡◌, OnOk, length, map};

use crate::item::Item;
use crate::json_report::write_json_items;
use crate::lines::{write_github_item, write_junit_item, write_number, write_text_item};
use std::alloc::Global;
use std::io;
use std::io::Write;

/// A form of output.
#[derive(Clone, Copy, Drop)]
pub enum Output {
    /// Lines for people.
    Text,
    /// Lines for people, with colours.
    Coloured,
    /// An array of objects.
    Json,
    /// Annotations for GitHub's workflows.
    Github,
    /// A JUnit test suite.
    Junit,
}

/// Writes the report on all these things. Stops at the first write that fails.
pub fn write_items<O: Write>(
    alloc: Global,
    output: Output,
    items: &[Item],
    out: &mut O,
) -> io::Result<()>
    ensures { OnOk result (Appends (O.contents out.old) (O.contents out.new)
        (output_text output (map item_view items.now))) }
{
    match output {
        Output::Text => write_text(alloc, items, false, out),
        Output::Coloured => write_text(alloc, items, true, out),
        Output::Json => write_json_items(alloc, items, out),
        Output::Github => write_github(alloc, items, out),
        Output::Junit => write_junit(alloc, items, out),
    }
}

fn write_text<O: Write>(alloc: Global, items: &[Item], colours: bool, out: &mut O) -> io::Result<()>
    ensures { OnOk result (Appends (O.contents out.old) (O.contents out.new)
        (flat_map (text_item colours) (map item_view items.now))) }
{
    for item in items {
        write_text_item(alloc, item, colours, out)?;
    }
    Ok(())
}

fn write_github<O: Write>(alloc: Global, items: &[Item], out: &mut O) -> io::Result<()>
    ensures { OnOk result (Appends (O.contents out.old) (O.contents out.new)
        (flat_map github_item (map item_view items.now))) }
{
    for item in items {
        write_github_item(alloc, item, out)?;
    }
    Ok(())
}

fn write_junit<O: Write>(alloc: Global, items: &[Item], out: &mut O) -> io::Result<()>
    ensures { OnOk result (Appends (O.contents out.old) (O.contents out.new)
        (output_text Junit (map item_view items.now))) }
{
    write_junit_head(items, out)?;
    write_junit_items(alloc, items, out)?;
    out.write_all(b"</testsuite>\n")
}

fn write_junit_items<O: Write>(alloc: Global, items: &[Item], out: &mut O) -> io::Result<()>
    ensures { OnOk result (Appends (O.contents out.old) (O.contents out.new)
        (flat_map junit_item (map item_view items.now))) }
{
    for item in items {
        write_junit_item(alloc, item, out)?;
    }
    Ok(())
}

fn write_junit_head<O: Write>(items: &[Item], out: &mut O) -> io::Result<()>
    ensures { OnOk result (Appends (O.contents out.old) (O.contents out.new)
        (junit_head (map item_view items.now))) }
{
    let head = "<?xml version=\"1.0\" encoding=\"UTF-8\"?>\n<testsuite name=\"kubecel\" tests=\"";
    write_number(head, count(items), out)?;
    write_number("\" failures=\"", count_of(items, 1), out)?;
    write_number("\" errors=\"", count_of(items, 2), out)?;
    out.write_all(b"\">\n")
}

/// Returns the number of things.
pub(crate) fn count(items: &[Item]) -> usize
    ensures { result ≡ length (map item_view items.now) }
{
    items.len()
}

/// Returns the number of things whose verdict has this exit status.
fn count_of(items: &[Item], status: u8) -> usize
    ensures { result ≡ count_of status (map item_view items.now) }
{
    let mut count = 0usize;
    for item in items {
        if item.verdict.status() == status {
            count += 1;
        }
    }
    count
}
