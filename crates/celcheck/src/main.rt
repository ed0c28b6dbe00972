//! `celcheck` evaluates the CEL rules of Kubernetes resources without an API server.
//!
//! ```text
//! celcheck check SCHEMA OBJECT [OLD]    the errors of an object; OLD is the old one, for `oldSelf`
//! celcheck vap POLICY OBJECT            a line for each validation of a policy
//! celcheck eval TEXT                    the value of an expression, or why it has none
//! celcheck lint SCHEMA                  what is wrong with the rules of a schema
//! ```
//!
//! The exit status is 0 if there are no errors, all validations pass, the expression has a value,
//! or nothing is wrong with the rules; 2 if nothing could be judged (the words aren't a command, a
//! file can't be read or isn't JSON, a policy has the wrong shape, memory is refused, a write
//! fails); and 1 otherwise.
//!
//! The commands are in `celcheck_cli`. Its `run` is proved for every kind of source and writer, in
//! terms of what that kind shows of its contents. The machine's files and standard output show
//! nothing of theirs. So it is tested, not proved, that this program reads the files that it names
//! and writes what `run` writes.
#![tactic(auto)]

mod files;

use celcheck_cli::run;
use files::Files;
use kube_cel::Refused;
use std::io::Write;
use std::process::ExitCode;
use std::{env, io};

/// Returns the words after the program's name. Returns none if one of them isn't UTF-8, so that the
/// usage is reported.
fn words_given(rt: &HostRuntime) -> Result<Vec<String>, Refused> {
    let mut words = Vec::new(rt.alloc());
    let given = match env::args(rt) {
        Ok(given) => given,
        Err(error) => {
            return if error.kind() == io::ErrorKind::OutOfMemory {
                Err(Refused::Memory)
            } else {
                Ok(words)
            };
        }
    };
    for word in given.skip(1) {
        words.push(word)?;
    }
    Ok(words)
}

fn main(rt: HostRuntime) -> io::Result<ExitCode> {
    let Ok(words) = words_given(&rt) else {
        let _ = writeln!(rt.stderr(), "celcheck: refused");
        return Ok(ExitCode::from(2));
    };
    let mut files = Files { rt: &rt };
    let status = run(
        rt.alloc(),
        words.as_slice(),
        &mut files,
        &mut rt.stdout(),
        &mut rt.stderr(),
    );
    Ok(ExitCode::from(status))
}
