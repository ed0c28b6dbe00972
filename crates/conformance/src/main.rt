//! Runs rows (docs/ROWS.md) about the language, schemas with objects, the commands of `celcheck`,
//! policies and the analysis, each in every way that the library offers, and checks texts made from a
//! grammar. The arguments name the files. With `measure` as the first argument it makes a
//! run that `bench/run` times and whose allocations `refusals/run` refuses ([`measure`]); it is
//! part of this program since each further program costs the gate many minutes.
#![tactic(auto)]

mod analysis;
mod areas;
mod case;
mod commands;
mod errors;
mod findings;
mod made;
mod measure;
mod memory;
mod parts;
mod policies;
mod schemas;
mod subject;
mod types;
mod verdicts;

use conformance_rows::run_files;
use std::process::ExitCode;
use std::{env, io};
use subject::Rows;

/// Reports whether the first argument asks for a measured run.
fn is_measured(rt: &HostRuntime) -> io::Result<bool> {
    match env::args(rt)?.skip(1).next() {
        Some(word) => Ok(word.as_str() == "measure"),
        None => Ok(false),
    }
}

fn main(rt: HostRuntime) -> io::Result<ExitCode> {
    if is_measured(&rt)? {
        measure::run(&rt)?;
        return Ok(ExitCode::SUCCESS);
    }
    let mut rows = Rows::new(rt.alloc());
    run_files(&rt, &mut rows)
}
