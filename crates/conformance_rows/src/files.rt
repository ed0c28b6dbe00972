//! Runs the files that a program's arguments name.

use crate::found::Found;
use crate::grammar::Maker;
use crate::judge::{FAILURE, Report, Subject, Tally, judge_text};
use crate::output::Output;
use std::alloc::Global;
use std::io::Write;
use std::process::ExitCode;
use std::{env, fs, io};

/// The seed of the random numbers that choose the texts of grammars.
const SEED: u64 = 20_261_125;

/// Reports the reason to stop that `found` has, if any, with the last text made. Returns the tally.
fn report_made(alloc: Global, maker: &Maker, found: &Found, report: &mut Report<'_>) -> Tally {
    if !found.is_stopped() {
        return Tally::default();
    }
    let mut shown = Output::new(alloc);
    shown.push(found.text.as_str());
    shown.push_line(maker.text.as_str());
    report.write_failure(0, &[shown.as_str()], found);
    FAILURE
}

/// Judges the texts made from a grammar file. On a failure, the report shows the last text made.
fn judge_grammar<S: Subject>(
    alloc: Global,
    text: &str,
    subject: &mut S,
    report: &mut Report<'_>,
) -> Tally {
    let mut maker = Maker::new(alloc, text, SEED, &mut report.text);
    let mut found = Found::new(alloc);
    report.text.push("seed ");
    report.text.show(&SEED);
    report.text.push("\n");
    subject.generate(alloc, &mut maker, &mut found, &mut report.text);
    report_made(alloc, &maker, &found, report)
}

/// Judges the contents of a file: a grammar if the file's name ends in `.grammar`, otherwise rows.
fn judge_file<S: Subject>(
    alloc: Global,
    text: &str,
    subject: &mut S,
    report: &mut Report<'_>,
) -> Tally {
    if report.file.ends_with(".grammar") {
        return judge_grammar(alloc, text, subject, report);
    }
    let tally = judge_text(alloc, text, subject, report);
    tally.write(report.file, &mut report.text);
    tally
}

/// Judges a file and writes its report.
fn run_file<S: Subject>(
    rt: &HostRuntime,
    file: &str,
    subject: &mut S,
    out: &mut impl Write,
) -> Tally {
    let Ok(text) = fs::read_to_string(rt, file) else {
        let _ = writeln!(out, "{file}: can't be read");
        return FAILURE;
    };
    let mut report = Report {
        file,
        text: Output::new(rt.alloc()),
    };
    let tally = judge_file(rt.alloc(), text.as_str(), subject, &mut report);
    let _ = out.write_all(report.text.as_str().as_bytes());
    if report.text.is_stopped() {
        let _ = writeln!(out, "{file}: there is no memory");
        return FAILURE;
    }
    tally
}

/// Judges the files that a program's arguments name, and writes the report. The exit code is a
/// success if all checks hold and there is at least one.
pub fn run_files<S: Subject>(rt: &HostRuntime, subject: &mut S) -> io::Result<ExitCode> {
    let mut out = rt.stdout();
    let mut all = Tally::default();
    for file in env::args(rt)?.skip(1) {
        all = all.with(run_file(rt, file.as_str(), subject, &mut out));
    }
    let mut report = Output::new(rt.alloc());
    all.write("all", &mut report);
    let _ = out.write_all(report.as_str().as_bytes());
    Ok(if all.failures == 0 && all.checks > 0 {
        ExitCode::SUCCESS
    } else {
        ExitCode::FAILURE
    })
}
