//! Exit statuses, and the reasons why a command stops.
ghost use Rattle.celcheck_cli.specs.Reports.{IsOfPath, status_after};
ghost use Rattle.celcheck_cli.specs.declared.status.Stop.TheVariants as stop;
ghost use Rattle.kube_types.specs.Refused.TheVariants.{Memory};
ghost use Rattle.std.specs.Prelude.{◌≡◌};

use kube_cel::Refused;
use std::alloc::{AllocError, Global};
use std::io;
use std::io::Write;

/// The exit status if everything that was asked holds.
pub(crate) const PASSED: u8 = 0;
/// The exit status if something that was asked doesn't hold.
pub(crate) const FAILED: u8 = 1;
/// The exit status if nothing was judged, or if the results couldn't be written.
pub(crate) const STOPPED: u8 = 2;

/// Why a command stops before it reports its results.
#[derive(Drop)]
pub(crate) enum Stop {
    Refused(Refused),
    /// The file at this path is missing, can't be read, or isn't JSON.
    Unreadable(String),
    /// The policy has the wrong shape.
    BadPolicy,
}

impl From<Refused> for Stop {
    ghost from_gives = { λ r s. s ≡ stop.Refused r };

    fn from(refused: Refused) -> Stop {
        Stop::Refused(refused)
    }
}

impl From<AllocError> for Stop {
    ghost from_gives = { λ _ s. s ≡ stop.Refused Memory };

    fn from(_error: AllocError) -> Stop {
        Stop::Refused(Refused::Memory)
    }
}

/// Returns the reason for a command to stop if the file at `path` can't be read.
pub(crate) fn unreadable(alloc: Global, path: &str) -> Stop
    ensures { IsOfPath path.now result }
{
    match String::from_str(alloc, path) {
        Ok(path) => Stop::Unreadable(path),
        Err(_) => Stop::Refused(Refused::Memory),
    }
}

/// Returns the exit status `found` if the report was written, else that of a failed write.
pub(crate) fn status_reported(found: u8, written: io::Result<()>) -> u8
    ensures { result ≡ status_after found written }
{
    match written {
        Ok(()) => found,
        Err(_) => STOPPED,
    }
}

/// Writes why nothing was judged and returns the exit status.
pub(crate) fn report_stop<E: Write>(stop: Stop, err: &mut E) -> u8
    ensures { result ≡ 2 }
{
    match stop {
        Stop::Refused(_) => stop_status(writeln!(err, "celcheck: refused")),
        Stop::Unreadable(path) => stop_status(writeln!(err, "celcheck: cannot read {path}")),
        Stop::BadPolicy => stop_status(writeln!(err, "celcheck: bad policy")),
    }
}

/// Returns the exit status after writing why nothing was judged. If that write failed too, there is
/// nothing left to report.
pub(crate) fn stop_status(written: io::Result<()>) -> u8
    ensures { result ≡ 2 }
{
    let _ = written;
    STOPPED
}
