//! The commands of `kubecel`, over any source of files and any writers.
#![tactic(auto)]

mod admit;
mod check;
mod command;
mod in_part;
mod place;
mod report;
mod review;
mod unread;

ghost use Rattle.kubecel_cli.specs.Commands.{command_view};
ghost use Rattle.kubecel_cli.specs.Runs.{AreFound, IsReported, UnlessFault};
ghost use Rattle.kubecel_report.specs.Output.{output_text};
ghost use Rattle.std.specs.Io.KnownBytes.{Appends};
ghost use Rattle.std.specs.Prelude.{◌≤◌, IfOk};

use crate::admit::admitted;
use crate::check::checked;
use crate::report::{Report, report_found};
use crate::review::reviewed;
pub use command::{Admit, Check, Command};
pub use kubecel_io::{Refused, Sources, Stop};
pub use kubecel_report::Output;
pub use report::ReportFormat;
use std::alloc::Global;
use std::io::Write;

/// Runs a command and returns its exit status.
///
/// The status is 0 if everything was judged and holds, or is a policy that doesn't apply, and 1 if
/// everything was judged and some rule doesn't hold. In both cases exactly the files that the
/// command names were read, in order; the result of each thing is what the definitions state for
/// the contents of the files; and the whole report was written to `out`, in the requested form. In
/// all other cases the status is 2: a file can't be read, isn't JSON or has no document (it is
/// reported then, and `check` and `review` judge what the others hold), a definition or policy is
/// malformed, an object, or one of its rules, couldn't be judged, there is nothing to judge, though
/// that isn't allowed, no object has an old one though old ones are named, no object is of a
/// definition though missing ones are ignored, memory is refused, or a write fails. No contract can
/// rule out a status of 2 in further cases, since no caller knows whether there is memory or whether
/// a write succeeds.
pub fn run<S: Sources, O: Write, E: Write>(
    alloc: Global,
    command: Command<'_, '_>,
    form: ReportFormat,
    files: &mut S,
    out: &mut O,
    err: &mut E,
) -> u8
    ensures reported { result ≤ 1
        → IsReported (AreFound S.reads files.old (command_view command.entry) files.new) result
        (λ items. Appends (O.contents out.old) (O.contents out.new) (output_text form.output items)) }
    ensures statuses { result ≤ 2 }
{
    let found = found_by(alloc, command, form, files, err);
    report_found(alloc, form, found, out, err)
}

/// Runs a command up to its report.
fn found_by<S: Sources, E: Write>(
    alloc: Global,
    command: Command<'_, '_>,
    form: ReportFormat,
    files: &mut S,
    err: &mut E,
) -> Result<Report, Stop>
    ensures { IfOk result (λ r.
        UnlessFault r (AreFound S.reads files.old (command_view command.entry) files.new)) }
{
    match command {
        Command::Check(check) => checked(alloc, check, form, files, err),
        Command::Review(crds) => reviewed(alloc, crds, files),
        Command::Admit(admit) => admitted(alloc, admit, files),
    }
}
