//! Writes what happened.
ghost use Rattle.kubecel_report.specs.Lines.{said};
ghost use Rattle.std.specs.Io.KnownBytes.{Appends};
ghost use Rattle.std.specs.Prelude.{OnOk};

use crate::escape::shown;
use std::alloc::Global;
use std::io;
use std::io::Write;

/// Writes the line `kubecel: ` with these words, in which what isn't seen is escaped.
#[tactic(auto, unfolding(crate::specs::Lines::said))]
pub fn write_said<E: Write>(alloc: Global, words: &str, err: &mut E) -> io::Result<()>
    ensures { OnOk result (Appends (E.contents err.old) (E.contents err.new) (said words.now)) }
{
    let words = shown(alloc, words)?;
    writeln!(err, "kubecel: {words}")
}
