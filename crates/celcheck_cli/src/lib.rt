//! The commands of `celcheck`: reads and runs a command line, over any source of files and any
//! writers.
#![tactic(auto)]

mod check;
mod eval;
mod files;
mod lint;
mod policy;
mod status;
mod vap;
mod words;

ghost use Rattle.celcheck_cli.specs.Linted.{IsLinted};
ghost use Rattle.celcheck_cli.specs.Runs.{IsAnswered};
ghost use Rattle.celcheck_cli.specs.Reports.{IsEvaluated, IsReviewed};
ghost use Rattle.celcheck_cli.specs.Words.{command_of, command_view, IfCheck, IfEval, IfLint, IfVap};
ghost use Rattle.kube_cel.specs.ValidationErrors.{ValidationErrors};
ghost use Rattle.kube_cel.specs.ErrorLists.{errors_in};
ghost use Rattle.kube_cel.specs.Texts.{errors_text};
ghost use Rattle.std.specs.Io.KnownBytes.{Appends};
ghost use Rattle.std.specs.Prelude.{◌≡◌, ◌≤◌, ◌++◌, ◌∷◌, [], None, Some, Ok, Err, map, string_bytes};

use crate::check::run_check;
use crate::eval::run_eval;
use crate::lint::run_lint;
use crate::status::stop_status;
use crate::vap::run_vap;
use crate::words::{Command, command_in};
pub use files::Sources;
use std::alloc::Global;
use std::io::Write;

const USAGE: &str =
    "usage: celcheck check SCHEMA OBJECT [OLD] | eval TEXT | vap POLICY OBJECT | lint SCHEMA";

/// Runs the command in the words after the program's name, and returns the exit status.
///
/// `check` returns 0 if the object has no errors, in which case it writes nothing to `out`, and 1
/// if it has errors, which are then written to `out` whole, followed by a line feed; in both cases
/// all its files were read, in order, before the object was judged. `eval` returns 0 if the
/// expression has a value, and 1 if not. `vap` returns 0 if every validation of the policy passes,
/// and 1 if one doesn't. `lint` returns 0 if nothing is wrong with the rules of the schema, and 1
/// if something is. The results are written to `out`. In all other cases the status is 2: the words
/// aren't a command, a file can't be read or isn't JSON, a policy has the wrong shape, memory is
/// refused, or a write fails. No contract can rule out a status of 2 in further cases, since no
/// caller knows whether there is memory or whether a write succeeds.
pub fn run<S: Sources, O: Write, E: Write>(
    alloc: Global,
    words: &[String],
    files: &mut S,
    out: &mut O,
    err: &mut E,
) -> u8
    ensures passed { IfCheck (command_of (map string_bytes words.now))
        (λ named. result ≡ 0 → IsAnswered S.reads files.old named files.new (Ok tt)) }
    ensures silent { IfCheck (command_of (map string_bytes words.now))
        (λ _. result ≡ 0 → O.contents out.new ≡ O.contents out.old) }
    ensures failed { IfCheck (command_of (map string_bytes words.now))
        (λ named. result ≡ 1 → (errors : ValidationErrors)
        × IsAnswered S.reads files.old named files.new (Err errors)
        × Appends (O.contents out.old) (O.contents out.new) (errors_text (errors_in errors) ++ 10 ∷ [])) }
    ensures evaluated { IfEval (command_of (map string_bytes words.now)) (λ text. result ≤ 1
        → IsEvaluated text result (Appends (O.contents out.old) (O.contents out.new))) }
    ensures reviewed { IfVap (command_of (map string_bytes words.now)) (λ policy object. result ≤ 1
        → IsReviewed S.reads files.old policy object files.new result
        (Appends (O.contents out.old) (O.contents out.new))) }
    ensures linted { IfLint (command_of (map string_bytes words.now)) (λ schema. result ≤ 1
        → IsLinted S.reads files.old schema files.new result
        (Appends (O.contents out.old) (O.contents out.new))) }
    ensures unasked { command_of (map string_bytes words.now) ≡ None
        → (result ≡ 2) × (O.contents out.new ≡ O.contents out.old) }
    ensures statuses { result ≤ 2 }
{
    match command_in(words) {
        Some(command) => dispatch(alloc, command, files, out, err),
        None => stop_status(writeln!(err, "{USAGE}")),
    }
}

/// Runs a command.
fn dispatch<S: Sources, O: Write, E: Write>(
    alloc: Global,
    command: Command<'_>,
    files: &mut S,
    out: &mut O,
    err: &mut E,
) -> u8
    ensures passed { IfCheck (Some (command_view command.entry))
        (λ named. result ≡ 0 → IsAnswered S.reads files.old named files.new (Ok tt)) }
    ensures silent { IfCheck (Some (command_view command.entry))
        (λ _. result ≡ 0 → O.contents out.new ≡ O.contents out.old) }
    ensures failed { IfCheck (Some (command_view command.entry))
        (λ named. result ≡ 1 → (errors : ValidationErrors)
        × IsAnswered S.reads files.old named files.new (Err errors)
        × Appends (O.contents out.old) (O.contents out.new) (errors_text (errors_in errors) ++ 10 ∷ [])) }
    ensures evaluated { IfEval (Some (command_view command.entry)) (λ text. result ≤ 1
        → IsEvaluated text result (Appends (O.contents out.old) (O.contents out.new))) }
    ensures reviewed { IfVap (Some (command_view command.entry)) (λ policy object. result ≤ 1
        → IsReviewed S.reads files.old policy object files.new result
        (Appends (O.contents out.old) (O.contents out.new))) }
    ensures linted { IfLint (Some (command_view command.entry)) (λ schema. result ≤ 1
        → IsLinted S.reads files.old schema files.new result
        (Appends (O.contents out.old) (O.contents out.new))) }
    ensures statuses { result ≤ 2 }
{
    match command {
        Command::Check(named) => run_check(alloc, named, files, out, err),
        Command::Eval(text) => run_eval(alloc, text, out, err),
        Command::Vap { policy, object } => run_vap(alloc, policy, object, files, out, err),
        Command::Lint(schema) => run_lint(alloc, schema, files, out, err),
    }
}
