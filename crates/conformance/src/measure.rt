//! Makes one run of the library twice on the same values. The first line of standard input names
//! the run; each further line is a text that it works on. For each of the two, standard output gets
//! a line with the result, or `refused` if memory was refused, and standard error a line with the
//! time it took, in nanoseconds. `bench/run` and `refusals/run` start it, as `conformance measure`.

mod runs;
mod twice;

use std::io::{self, Input};

/// Makes the run that standard input names.
pub(crate) fn run(rt: &HostRuntime) -> io::Result<()> {
    let text = io::read_to_string(rt.alloc(), rt.reader())?;
    let mut lines = text.as_str().lines();
    let name = lines.next().unwrap_or("");
    let texts = runs::Texts {
        first: lines.next().unwrap_or(""),
        second: lines.next().unwrap_or(""),
        third: lines.next().unwrap_or(""),
    };
    runs::make_named(rt, name, texts)
}
