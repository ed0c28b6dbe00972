//! Writes the report of a run that stops.
ghost use Rattle.kubecel_io.specs.Reads.{unusable_item};
ghost use Rattle.kubecel_io.specs.Stops.{is_text, stop_text, stopped_text};
ghost use Rattle.kubecel_report.specs.Lines.{number_member};
ghost use Rattle.kubecel_report.specs.Output.{output_text};
ghost use Rattle.std.specs.Io.KnownBytes.{Appends};
ghost use Rattle.std.specs.Prelude.{◌≡◌, ◌∷◌, ◌++◌, [], OnOk, codes, if◌then◌else◌, length};

use crate::sources::{Stop, unusable_item};
use kube_types_refused::Refused;
use kubecel_report::{Item, Output, write_items, write_number, write_said};
use std::alloc::Global;
use std::io::Write;
use std::{io, slice};

/// Writes why a run stops.
pub fn write_stop<E: Write>(alloc: Global, stop: &Stop, err: &mut E) -> io::Result<()>
    ensures { OnOk result (Appends (E.contents err.old) (E.contents err.new) (stop_text stop.now)) }
{
    match stop {
        Stop::Refused(Refused::Memory) => err.write_all(b"kubecel: out of memory\n"),
        Stop::Refused(Refused::TooLarge) => err.write_all(b"kubecel: a text is too large\n"),
        Stop::Said(why) => write_said(alloc, why.as_str(), err),
        Stop::Unusable(items) => write_unusable(items.as_slice(), err),
    }
}

/// Writes how many files aren't used.
fn write_unusable<E: Write>(items: &[Item], err: &mut E) -> io::Result<()>
    ensures { OnOk result (Appends (E.contents err.old) (E.contents err.new)
        (number_member (codes "kubecel: nothing was judged; files that can't be read: ") (length items.now)
        ++ codes "\n")) }
{
    let head = "kubecel: nothing was judged; files that can't be read: ";
    write_number(head, count(items), err)?;
    err.write_all(b"\n")
}

fn count(items: &[Item]) -> usize
    ensures { result ≡ length items.now }
{
    items.len()
}

/// Writes the report of a run that stops: the files that aren't used; except as text also the
/// reason in words.
pub fn write_stopped<O: Write>(
    alloc: Global,
    output: Output,
    stop: &Stop,
    out: &mut O,
) -> io::Result<()>
    ensures { OnOk result (Appends (O.contents out.old) (O.contents out.new) (stopped_text output stop.now)) }
{
    match stop {
        Stop::Refused(_) => Ok(()),
        Stop::Said(why) => write_words(alloc, output, why.as_str(), out),
        Stop::Unusable(items) => write_items(alloc, output, items.as_slice(), out),
    }
}

/// Writes words as the only item of a report, except as text.
fn write_words<O: Write>(alloc: Global, output: Output, words: &str, out: &mut O) -> io::Result<()>
    ensures { OnOk result (Appends (O.contents out.old) (O.contents out.new)
        (if is_text output then [] else output_text output (unusable_item [] words.now ∷ []))) }
{
    match output {
        Output::Text | Output::Coloured => Ok(()),
        Output::Json | Output::Github | Output::Junit => {
            let item = unusable_item(alloc, "", String::from_str(alloc, words)?)?;
            write_items(alloc, output, slice::from_ref(&item), out)
        }
    }
}
