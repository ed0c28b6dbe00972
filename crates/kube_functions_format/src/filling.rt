//! Fills the verbs of a format string with items.
ghost use Rattle.std.specs.Prelude.{◌≡◌, ◌≤◌, ◌<◌, [], ◌∷◌, List, ℕ, length, map, option_map, IfOk, string_bytes};
ghost use Rattle.cel_value.specs.Data.{Data};
ghost use Rattle.cel_value.specs.Faults.{fault_view};
ghost use Rattle.cel_value.specs.View.{view};
ghost use Rattle.kube_functions_format.specs.Formatted as spec;
ghost use Rattle.kube_functions_format.specs.Verbs as verbs;
ghost use Rattle.kube_functions_format.specs.Pieces.{verb, pieces};
ghost use Rattle.kube_functions_format.specs.Progress.{shown_view, unless_fault, written_on};

use crate::reading::{Mark, Step, read, unfinished};
use crate::verbs::{format_fault, shown_by_letter};
use cel_value::{ExecutionError, Refused, Value};
use std::alloc::Global;

/// The state of writing a formatted string.
#[derive(Drop)]
struct Writing {
    /// The text written so far.
    out: String,
    /// The number of items used by verbs so far.
    taken: usize,
    /// The part of a verb read just before the next character.
    mark: Mark,
}

fn not_enough(alloc: Global, wanted: usize, count: usize) -> Result<ExecutionError, Refused>
    ensures value { IfOk result (λ e. fault_view e ≡ spec.not_enough wanted count) }
{
    let message = format!(in alloc;
        "not enough arguments: format requires at least {wanted} but got {count}"
    )?;
    format_fault(alloc, message)
}

fn text_fault(alloc: Global, message: &str) -> Result<ExecutionError, Refused>
    ensures value { IfOk result (λ e. fault_view e ≡ verbs.format_fault message.now) }
{
    format_fault(alloc, String::from_str(alloc, message)?)
}

// The text of the next item under the verb with this letter, or an error.
fn verb_at(
    alloc: Global,
    items: &[Value],
    taken: usize,
    letter: char,
) -> Result<Result<String, ExecutionError>, Refused>
    requires { taken ≤ length items.now }
    ensures value { IfOk result (λ r. shown_view r ≡ spec.verb_at (map view items.now) taken letter) }
    ensures within { IfOk result (λ r. IfOk r (λ _. taken < length items.now)) }
{
    match items.get(taken) {
        Some(item) => shown_by_letter(alloc, letter, item),
        None => Ok(Err(not_enough(alloc, taken + 1, items.len())?)),
    }
}

// Appends the text of the next item under the verb with this letter, or returns an error.
fn write_verb(
    alloc: Global,
    writing: &mut Writing,
    items: &[Value],
    letter: char,
) -> Result<Option<ExecutionError>, Refused>
    requires { writing.old.taken ≤ length items.now }
    ensures value { IfOk result (λ r. (cs : List ℕ) → spec.before (string_bytes writing.old.out)
        (spec.text_of_pieces (map view items.now) writing.old.taken (verb letter ∷ pieces cs))
        ≡ unless_fault (option_map fault_view r) (written_on (map view items.now)
        (string_bytes writing.new.out) writing.new.taken writing.new.mark cs)) }
    ensures taken { IfOk result (λ _. writing.new.taken ≤ length items.now) }
{
    match verb_at(alloc, items, writing.taken, letter)? {
        Ok(text) => {
            writing.out.push_str(text.as_str())?;
            writing.taken += 1;
            writing.mark = Mark::Outside;
            Ok(None)
        }
        Err(fault) => Ok(Some(fault)),
    }
}

// Reads one more character. Returns an error if there is one.
fn advance(
    alloc: Global,
    writing: &mut Writing,
    items: &[Value],
    character: char,
) -> Result<Option<ExecutionError>, Refused>
    requires { writing.old.taken ≤ length items.now }
    ensures value { IfOk result (λ r. (cs : List ℕ) → written_on (map view items.now)
        (string_bytes writing.old.out) writing.old.taken writing.old.mark (character ∷ cs)
        ≡ unless_fault (option_map fault_view r) (written_on (map view items.now)
        (string_bytes writing.new.out) writing.new.taken writing.new.mark cs)) }
    ensures taken { IfOk result (λ _. writing.new.taken ≤ length items.now) }
{
    match read(writing.mark, character) {
        Step::Literal(literal) => {
            writing.out.push(literal)?;
            writing.mark = Mark::Outside;
            Ok(None)
        }
        Step::Verb(letter) => write_verb(alloc, writing, items, letter),
        Step::More(mark) => {
            writing.mark = mark;
            Ok(None)
        }
        Step::Invalid => Ok(Some(text_fault(alloc, "invalid precision in format string")?)),
    }
}

// The finished text at the end of the format string, or an error if that ends inside a verb.
fn finished(alloc: Global, writing: Writing) -> Result<Result<String, ExecutionError>, Refused>
    ensures value { IfOk result (λ r. (items : List Data)
        → shown_view r ≡ written_on items (string_bytes writing.out) writing.taken writing.mark []) }
{
    let Writing {
        out,
        taken: _,
        mark,
    } = writing;
    match unfinished(mark) {
        None => Ok(Ok(out)),
        Some(message) => Ok(Err(text_fault(alloc, message)?)),
    }
}

/// Formats the items by the format string. Returns the first error from the left.
pub(crate) fn filled_text(
    alloc: Global,
    text: &str,
    items: &[Value],
) -> Result<Result<String, ExecutionError>, Refused>
    ensures value { IfOk result (λ r. shown_view r ≡ spec.filled_text text.now (map view items.now)) }
{
    let mut writing = Writing {
        out: String::new(alloc),
        taken: 0,
        mark: Mark::Outside,
    };
    for character in text.chars() {
        match advance(alloc, &mut writing, items, character)? {
            None => {}
            Some(fault) => return Ok(Err(fault)),
        }
    }
    finished(alloc, writing)
}
