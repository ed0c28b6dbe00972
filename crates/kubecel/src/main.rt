//! `kubecel` checks Kubernetes objects against their CEL rules, reviews definitions and evaluates
//! policies, without a cluster.
//!
//! ```text
//! kubecel check [--crds FILE] [--old FILE] [--ignore-missing-crds] [--allow-none] [-R] FILE..
//!     checks objects against their CustomResourceDefinitions
//! kubecel review --crds FILE.. [-R]
//!     reviews CustomResourceDefinitions for mistakes
//! kubecel admit POLICY [--request --object --old --params --namespace FILE]
//!     evaluates a policy for a request
//! ```
//!
//! The exit status is 0 if everything was judged and holds, 1 if some rule doesn't hold, and 2 if
//! something couldn't be judged.
//!
//! The commands are in `kubecel_cli`. Its `run` is proved for every kind of source and writer, in
//! terms of what that kind shows of its contents. The machine's files and standard output show
//! nothing of theirs, and `clap` parses the command line. So it is tested, not proved, that this
//! program reads the files that it names and writes what `run` writes.
#![tactic(auto)]

mod files;
mod given;
mod words;

use clap::ArgMatches;
use files::Files;
use given::{Given, given_by, words_at_start};
use kubecel_cli::{ReportFormat, run};
use kubecel_report::shown;
use std::collections::BTreeMap;
use std::env::VarError;
use std::io::{BufWriter, IsTerminal, Write};
use std::process::ExitCode;
use std::{env, io};
use words::{command_of, output_of, words};

/// The exit status if nothing was judged, or if the report couldn't be written.
const STOPPED: u8 = 2;

/// Reports whether the environment asks for no colours: by `NO_COLOR`, unless it is empty.
fn refuses_colours(rt: &HostRuntime) -> bool {
    match env::var(rt, "NO_COLOR") {
        Ok(value) => !value.is_empty(),
        Err(VarError::NotPresent) => false,
        Err(VarError::NotUnicode | VarError::OutOfMemory) => true,
    }
}

/// Runs the command of this name with the arguments that were found, and returns its exit status.
/// What is read in place of some files is in `others`.
fn dispatch(
    rt: &HostRuntime,
    name: &str,
    found: &ArgMatches<'_>,
    others: &BTreeMap<String, String>,
) -> io::Result<u8> {
    let mut files = Files {
        rt,
        others,
        is_input_read: false,
    };
    let form = ReportFormat {
        output: output_of(found, rt.stdout().is_terminal() && !refuses_colours(rt)),
        progress: rt.stderr().is_terminal(),
    };
    let mut out = BufWriter::new(rt.alloc(), rt.stdout())?;
    let (command, mut err) = (command_of(name, found), rt.stderr());
    Ok(run(rt.alloc(), command, form, &mut files, &mut out, &mut err))
}

/// Prints what is wrong with these words, and returns the exit status. What isn't seen in them is
/// escaped, so that they add no line.
fn refuse(rt: &HostRuntime, given: &[String]) -> io::Result<u8> {
    let mut escaped = Vec::with_capacity(rt.alloc(), given.len())?;
    for word in given {
        escaped.push(shown(rt.alloc(), word.as_str())?)?;
    }
    if let Err(error) = words(rt.alloc())?.try_get_matches_from(escaped.as_slice()) {
        error.print(rt)?;
    }
    Ok(STOPPED)
}

/// Parses a command line and runs its command.
fn run_given(rt: &HostRuntime, given: &Given) -> io::Result<u8> {
    let line = given.words.as_slice();
    match words(rt.alloc())?.try_get_matches_from(line) {
        Ok(matches) => match matches.subcommand() {
            Some((name, found)) => dispatch(rt, name, found, &given.others),
            None => Ok(STOPPED),
        },
        Err(error) if error.use_stderr() => refuse(rt, line),
        Err(error) => {
            error.print(rt)?;
            Ok(0)
        }
    }
}

/// Finds what the program is given, and runs its command.
fn ran(rt: &HostRuntime) -> io::Result<u8> {
    match words_at_start(rt)? {
        Some(line) => {
            let given = given_by(rt, line)?;
            run_given(rt, &given)
        }
        None => {
            writeln!(
                rt.stderr(),
                "kubecel: a word of the command line isn't UTF-8"
            )?;
            Ok(STOPPED)
        }
    }
}

fn main(rt: HostRuntime) -> io::Result<ExitCode> {
    let status = match ran(&rt) {
        Ok(status) => status,
        Err(error) => {
            let _ = writeln!(rt.stderr(), "kubecel: {error}");
            STOPPED
        }
    };
    Ok(ExitCode::from(status))
}
