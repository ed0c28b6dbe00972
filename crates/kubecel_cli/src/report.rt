//! Writes the report on what a command found.
ghost use Rattle.kubecel_report.specs.Items.{item_view, items_status};
ghost use Rattle.kubecel_report.specs.Output.{output_text};
ghost use Rattle.kubecel_report.specs.Summary.{summary_text};
ghost use Rattle.kubecel_io.specs.Stops.{stopped_text};
ghost use Rattle.kubecel_cli.specs.Runs.{IfReport};
ghost use Rattle.std.specs.Io.KnownBytes.{Appends};
ghost use Rattle.std.specs.Prelude.{◌≡◌, ◌≤◌, ◌++◌, IfOk, None, OnOk, map};

use kubecel_io::{Stop, add_items, write_stop, write_stopped};
use kubecel_report::{Item, Output, status_of, write_items, write_said, write_summary};
use std::alloc::{AllocError, Global};
use std::io;
use std::io::Write;

/// The exit status of a run that couldn't judge or couldn't report.
const STOPPED: u8 = 2;

/// How a run reports its results.
#[derive(Clone, Copy)]
pub struct ReportFormat {
    pub output: Output,
    /// Whether the run reports its progress on standard error.
    pub progress: bool,
}

/// The results of a command.
#[derive(Drop)]
pub(crate) struct Report {
    pub(crate) items: Vec<Item>,
    /// What the items are, in the plural.
    pub(crate) noun: &'static str,
    /// The number of rules they were judged by, if known.
    pub(crate) rules: Option<u64>,
    /// The number of objects that were compared with an old one, if old objects were given.
    pub(crate) compared: Option<u64>,
    /// What is wrong with a definition, beside the items.
    pub(crate) fault: Option<String>,
}

/// Writes the report, or the reason why there is none, and returns the exit status.
pub(crate) fn report_found<O: Write, E: Write>(
    alloc: Global,
    form: ReportFormat,
    found: Result<Report, Stop>,
    out: &mut O,
    err: &mut E,
) -> u8
    ensures reported { result ≤ 1 → IfReport found (λ items. (result ≡ items_status items)
        × Appends (O.contents out.old) (O.contents out.new) (output_text form.output items)) }
    ensures statuses { result ≤ 2 }
{
    match found {
        Ok(report) => write_report(alloc, form, &report, out, err),
        Err(stop) => {
            let _ = report_stop(alloc, form, &stop, out);
            let _ = write_stop(alloc, &stop, err);
            STOPPED
        }
    }
}

fn write_report<O: Write, E: Write>(
    alloc: Global,
    form: ReportFormat,
    report: &Report,
    out: &mut O,
    err: &mut E,
) -> u8
    ensures reported { result ≤ 1 → (report.now.fault ≡ None)
        × ((result ≡ items_status (map item_view report.now.items.items))
        × Appends (O.contents out.old) (O.contents out.new)
        (output_text form.output (map item_view report.now.items.items))) }
    ensures statuses { result ≤ 2 }
{
    let items = report.items.as_slice();
    match write_all(alloc, form, items, out) {
        Ok(()) => {
            let status = status_or_stopped(alloc, report, err);
            let _ = summarize(report, err);
            status
        }
        Err(error) => {
            let _ = writeln!(err, "kubecel: can't write: {error}");
            STOPPED
        }
    }
}

/// Returns the exit status of a report. Says first what is wrong with a definition, if it is reported
/// beside the items.
fn status_or_stopped<E: Write>(alloc: Global, report: &Report, err: &mut E) -> u8
    ensures reported { result ≤ 1 → (report.now.fault ≡ None)
        × (result ≡ items_status (map item_view report.now.items.items)) }
    ensures statuses { result ≤ 2 }
{
    match &report.fault {
        None => status_of(report.items.as_slice()),
        Some(fault) => {
            let _ = write_said(alloc, fault.as_str(), err);
            STOPPED
        }
    }
}

/// Writes all items and flushes the writer.
fn write_all<O: Write>(
    alloc: Global,
    form: ReportFormat,
    items: &[Item],
    out: &mut O,
) -> io::Result<()>
    ensures { OnOk result
        (Appends (O.contents out.old) (O.contents out.new)
        (output_text form.output (map item_view items.now))) }
{
    write_items(alloc, form.output, items, out)?;
    out.flush()
}

/// Writes the report of a run that stops, and flushes the writer.
fn report_stop<O: Write>(
    alloc: Global,
    form: ReportFormat,
    stop: &Stop,
    out: &mut O,
) -> io::Result<()>
    ensures { OnOk result
        (Appends (O.contents out.old) (O.contents out.new) (stopped_text form.output stop.now)) }
{
    write_stopped(alloc, form.output, stop, out)?;
    out.flush()
}

/// Writes the last line: how much was judged, and with which results.
fn summarize<E: Write>(report: &Report, err: &mut E) -> io::Result<()>
    ensures { OnOk result (Appends (E.contents err.old) (E.contents err.new)
        (summary_text report.now.noun.now report.now.compared report.now.rules
        (map item_view report.now.items.items))) }
{
    write_summary(
        report.noun,
        report.compared,
        report.rules,
        report.items.as_slice(),
        err,
    )
}

/// Puts these items before those of a report.
pub(crate) fn with_items_before(first: Vec<Item>, report: Report) -> Result<Report, AllocError>
    ensures items { IfOk result (λ r. map item_view r.items.items
        ≡ map item_view first.items ++ map item_view report.items.items) }
    ensures fault { IfOk result (λ r. r.fault ≡ report.fault) }
{
    let Report {
        items,
        noun,
        rules,
        compared,
        fault,
    } = report;
    let mut all = first;
    add_items(&mut all, items)?;
    Ok(Report {
        items: all,
        noun,
        rules,
        compared,
        fault,
    })
}
