//! Answers rows about `celcheck`: runs command lines over files in memory, also with reads and writes
//! that fail.

use crate::memory::Files;
use celcheck_cli::run;
use conformance_rows::texts::words_of;
use conformance_rows::{Field, Found, MANY, Narrow, Ran, given as rows};
use std::alloc::Global;

/// The number that a row gives under a key, or `MANY` if it gives none.
fn limit(given: &[Field], key: &'static str, found: &mut Found) -> u64 {
    rows::number(given, key, &mut found.other).unwrap_or(MANY)
}

/// Runs a row's command line. Standard output accepts `writes` writes and refuses further ones.
fn run_given(alloc: Global, given: &[Field], writes: u64, found: &mut Found) -> Ran {
    let mut files = Files {
        given,
        reads: 0,
        failing: limit(given, "failing read", found),
        refused: limit(given, "refused read", found),
    };
    let error_writes = limit(given, "refused error write", found).saturating_sub(1);
    let mut out = Narrow::new(alloc, writes);
    let mut err = Narrow::new(alloc, error_writes);
    let line = found.required(given, "command");
    let words = found.take(words_of(alloc, line)).unwrap_or(Vec::new(alloc));
    let status = run(alloc, words.as_slice(), &mut files, &mut out, &mut err);
    Ran {
        status,
        out: out.bytes,
        err: err.bytes,
    }
}

/// Answers with the exit status of a row's command, or with what it wrote to one stream.
pub(crate) fn find(alloc: Global, given: &[Field], field: &Field, found: &mut Found) {
    let writes = limit(given, "refused write", found).saturating_sub(1);
    let ran = run_given(alloc, given, writes, found);
    if !found.is_stopped() {
        ran.find(field, found);
    }
}

/// Runs a row's command with this many writes to standard output accepted. If it isn't cut short,
/// answers with the status 2 if it has the same results as the whole run, and otherwise with what
/// is wrong. Returns whether it is cut short.
fn is_cut_at(alloc: Global, given: &[Field], writes: u64, whole: &Ran, found: &mut Found) -> bool {
    let cut = run_given(alloc, given, writes, found);
    if found.is_stopped() {
        return false;
    }
    if writes > 0 && cut.is_same(whole) {
        found.say("2");
        return false;
    }
    let is_cut = cut.is_cut(whole);
    if !is_cut {
        found.text.show(&cut.status);
        found.text.push(" after ");
        found.text.show(&writes);
        found.text.push(" writes");
    }
    is_cut
}

/// Answers with the status 2 if a row's command handles refused writes to standard output: it runs
/// again and again, each time with one more write accepted. Each run with a refused write must be
/// cut short, until one has the same results as the whole run.
pub(crate) fn refuse_each_write(alloc: Global, given: &[Field], found: &mut Found) {
    let whole = run_given(alloc, given, MANY, found);
    for writes in 0..1_000 {
        if !is_cut_at(alloc, given, writes, &whole, found) {
            return;
        }
    }
    found.say("no end of writes");
}
