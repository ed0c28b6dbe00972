//! Judges rows.

use crate::found::Found;
use crate::grammar::Maker;
use crate::output::Output;
use crate::reader::Reader;
use crate::row::{Field, Row, Stop};
use std::alloc::Global;

/// What rows are about: answers their fields.
pub trait Subject {
    /// Starts a row.
    fn begin(&mut self, alloc: Global);

    /// Reports whether fields with this key give a value, rather than state an answer.
    fn gives(&self, key: &str) -> bool;

    /// Finds the answer to a field, given the fields before it in its row. The check holds if the
    /// answer is the field's text, and `found` has no reason to stop.
    fn find(&mut self, alloc: Global, given: &[Field], field: &Field, found: &mut Found);

    /// Judges texts made from a grammar, and writes how many hold. On a failure, `found` has the
    /// reason to stop.
    fn generate(
        &mut self,
        alloc: Global,
        maker: &mut Maker,
        found: &mut Found,
        report: &mut Output,
    );
}

/// The number of checks that were made, and how many failed.
#[derive(Clone, Copy, Default)]
pub(crate) struct Tally {
    pub(crate) rows: usize,
    pub(crate) checks: usize,
    pub(crate) failures: usize,
}

/// A row without checks.
const ROW: Tally = Tally {
    rows: 1,
    checks: 0,
    failures: 0,
};

/// A check that holds.
const HELD: Tally = Tally {
    rows: 0,
    checks: 1,
    failures: 0,
};

/// A check that fails.
const FAILED: Tally = Tally {
    rows: 0,
    checks: 1,
    failures: 1,
};

/// A failure outside of rows.
pub(crate) const FAILURE: Tally = Tally {
    rows: 0,
    checks: 0,
    failures: 1,
};

impl Tally {
    /// Returns the sum of two tallies.
    pub(crate) fn with(self, other: Tally) -> Tally {
        Tally {
            rows: self.rows.saturating_add(other.rows),
            checks: self.checks.saturating_add(other.checks),
            failures: self.failures.saturating_add(other.failures),
        }
    }

    /// Writes how many rows there are and how many of their checks hold.
    pub(crate) fn write(self, what: &str, out: &mut Output) {
        out.push_all(&[what, ": "]);
        out.show(&self.rows);
        out.push(" rows, ");
        if self.failures == 0 {
            out.show(&self.checks);
            out.push(" checks hold\n");
        } else {
            out.show(&self.failures);
            out.push(" of ");
            out.show(&self.checks);
            out.push(" checks FAILED\n");
        }
    }
}

/// The report of a file. It stops only if memory was refused.
#[derive(Drop)]
pub(crate) struct Report<'f> {
    pub(crate) file: &'f str,
    pub(crate) text: Output,
}

impl Report<'_> {
    /// Writes the number of a line, and texts.
    fn write(&mut self, line: usize, texts: &[&str]) {
        self.text.push_all(&[self.file, ":"]);
        self.text.show(&line);
        self.text.push(": ");
        self.text.push_all(texts);
    }

    /// Writes what is wrong with a file of rows.
    fn write_fault(&mut self, reader: &Reader) {
        if let Some(stop) = reader.fault.stopped() {
            self.text.stop(stop);
        }
        self.write(reader.line, &[reader.fault.as_str(), "\n"]);
    }

    /// Writes what failed at a line, and why `found` has no single answer, if it has none.
    pub(crate) fn write_failure(&mut self, line: usize, texts: &[&str], found: &Found) {
        let stopped = found.stopped();
        if let Some(Stop::Memory) = stopped {
            self.text.stop(Stop::Memory);
        }
        self.write(line, texts);
        match stopped {
            None | Some(Stop::Memory) => {}
            Some(Stop::TooLarge) => self.text.push(", and too large"),
            Some(Stop::Unfit(key)) => self.text.push_all(&[key, " isn't given as it has to be"]),
            Some(Stop::Differs(call)) => {
                self.text.push_all(&[", but by ", call, ": "]);
                self.text.push(found.other.as_str());
            }
        }
        self.text.push("\n");
    }

    /// Writes what a field of a row expects and what was found.
    fn write_field(&mut self, name: &str, field: &Field, found: &Found) {
        let (key, expected) = (field.key.as_str(), field.text.as_str());
        let answer = found.text.as_str();
        let texts = [
            name,
            "\n  ",
            key,
            " expected: ",
            expected,
            "\n  ",
            key,
            " found: ",
            answer,
        ];
        self.write_failure(field.line, &texts, found);
    }
}

/// Judges a field by the fields before it in its row. Returns its tally.
fn judge_field<S: Subject>(
    alloc: Global,
    name: &str,
    given: &[Field],
    field: &Field,
    subject: &mut S,
    report: &mut Report<'_>,
) -> Tally {
    let mut found = Found::new(alloc);
    subject.find(alloc, given, field, &mut found);
    if !found.is_stopped() && found.text.as_str() == field.text.as_str() {
        return HELD;
    }
    report.write_field(name, field, &found);
    FAILED
}

/// Judges a row. Returns its tally.
fn judge_row<S: Subject>(
    alloc: Global,
    row: &Row,
    subject: &mut S,
    report: &mut Report<'_>,
) -> Tally {
    let (name, fields) = (row.name.as_str(), row.fields.as_slice());
    let mut tally = ROW;
    for index in 0..fields.len() {
        let (given, field) = (fields.split_at(index).0, &fields[index]);
        if !subject.gives(field.key.as_str()) {
            tally = tally.with(judge_field(alloc, name, given, field, subject, report));
        }
    }
    if tally.checks == 0 {
        tally.failures = 1;
        report.write(row.line, &["nothing is expected\n"]);
    }
    tally
}

/// Judges the rows of a file's contents and reports failures. Returns the tally.
pub(crate) fn judge_text<S: Subject>(
    alloc: Global,
    text: &str,
    subject: &mut S,
    report: &mut Report<'_>,
) -> Tally {
    let reader = Reader::read(alloc, text);
    if reader.fails() {
        report.write_fault(&reader);
        return FAILURE;
    }
    let mut all = Tally::default();
    for row in reader.rows.iter() {
        subject.begin(alloc);
        all = all.with(judge_row(alloc, row, subject, report));
    }
    all
}
