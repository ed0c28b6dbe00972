//! The set of the functions of an API server.
ghost use Rattle.std.specs.Prelude.{◌≡◌, None, map, length, option_map, is_some, IfOk};
ghost use Rattle.cel_patterns.specs.Book.{Extends};
ghost use Rattle.cel_patterns.specs.Entries.{entries_of};
ghost use Rattle.cel_patterns.specs.Extensions.{HoldsForExtensions};
ghost use Rattle.cel_value.specs.View.{view};
ghost use Rattle.cel_semantics.specs.Outcome.{outcome_view};
ghost use Rattle.kube_functions.specs.Kube.{kube_form};
ghost use Rattle.cel_stdlib.specs.Standard.{first_operand, second_operand};
ghost use Rattle.kube_server_functions.specs.Patterns.{pattern_in};
ghost use Rattle.kube_server_functions.specs.Names.{server_unknown};
ghost use Rattle.kube_server_functions.specs.Server as spec;

use crate::calls::answer;
use crate::changed::changed;
use crate::functions::Function;
use crate::operands::operands_of;
use crate::patterns::{answer_by_pattern, pattern_in};
use crate::table::{is_named, known_function};
use cel_patterns::PatternBook;
use cel_semantics::operators::Answer;
use cel_semantics::{Form, Functions};
use cel_value::{Refused, Value};
use kube_functions::AllFunctions;
use std::alloc::Global;

/// The set of the functions of an API server of Kubernetes 1.33.
#[derive(Clone, Copy, Debug, PartialEq, Eq)]
pub struct ServerFunctions;

fn form_beside(named: bool, form: Form) -> Form
    ensures { result ≡ spec.form_beside named form }
{
    match form {
        Form::Unknown => { if named { Form::Wrong } else { Form::Unknown } }
        Form::Wrong => Form::Wrong,
        Form::Known => Form::Known,
    }
}

// Answers a call of a function that an API server answers as `kube_functions` does, but for patterns.
fn unchanged_answer(
    alloc: Global,
    name: &str,
    receiver: Option<&Value>,
    args: &[Value],
    book: &mut PatternBook,
) -> Result<Answer, Refused>
    requires { kube_form name.now (is_some receiver) (length args.now) ≡ Form.Known }
    ensures keeps { Extends (entries_of book.new) (entries_of book.old) }
    ensures value { IfOk result (λ r. HoldsForExtensions (entries_of book.new) (outcome_view r)
        (λ b. spec.unchanged_answer name.now
        (option_map (λ v. view v.now) receiver.entry) (map view args.now)
        (pattern_in name.now
        (first_operand (option_map (λ v. view v.now) receiver.entry) (map view args.now))
        (second_operand (option_map (λ v. view v.now) receiver.entry) (map view args.now))) b)) }
{
    let operands = operands_of(receiver, args);
    match pattern_in(name, operands) {
        Some((value, pattern)) => {
            answer_by_pattern(alloc, name, value, pattern, operands.third, book)
        }
        None => AllFunctions.call(alloc, name, receiver, args, book),
    }
}

// Answers a call of a function that isn't in the table.
fn other_answer(
    alloc: Global,
    name: &str,
    receiver: Option<&Value>,
    args: &[Value],
    book: &mut PatternBook,
) -> Result<Answer, Refused>
    requires { kube_form name.now (is_some receiver) (length args.now) ≡ Form.Known }
    ensures keeps { Extends (entries_of book.new) (entries_of book.old) }
    ensures value { IfOk result (λ r. HoldsForExtensions (entries_of book.new) (outcome_view r)
        (λ b. spec.other_answer name.now
        (option_map (λ v. view v.now) receiver.entry) (map view args.now) b)) }
{
    match changed(alloc, name, operands_of(receiver, args))? {
        Some(answer) => Ok(answer),
        None => unchanged_answer(alloc, name, receiver, args, book),
    }
}

// Answers a call, given the function of the table that it calls, if any.
fn answer_by(
    alloc: Global,
    function: Option<Function>,
    name: &str,
    receiver: Option<&Value>,
    args: &[Value],
    book: &mut PatternBook,
) -> Result<Answer, Refused>
    requires { function ≡ None → kube_form name.now (is_some receiver) (length args.now) ≡ Form.Known }
    ensures keeps { Extends (entries_of book.new) (entries_of book.old) }
    ensures value { IfOk result (λ r. HoldsForExtensions (entries_of book.new) (outcome_view r)
        (λ b. spec.answer_by function name.now
        (option_map (λ v. view v.now) receiver.entry) (map view args.now) b)) }
{
    match function {
        Some(function) => answer(alloc, function, name, operands_of(receiver, args)),
        None => other_answer(alloc, name, receiver, args, book),
    }
}

impl Functions for ServerFunctions {
    ghost library = { λ _. spec.server_library };

    ghost first = { record {} };

    ghost names_alone = { λ _. server_unknown };

    fn start() -> ServerFunctions {
        ServerFunctions
    }

    fn form(&self, name: &str, receiver: bool, count: usize) -> Form {
        match known_function(name, receiver, count) {
            Some(_) => Form::Known,
            None => form_beside(is_named(name), AllFunctions.form(name, receiver, count)),
        }
    }

    fn call(
        &self,
        alloc: Global,
        name: &str,
        receiver: Option<&Value>,
        args: &[Value],
        book: &mut PatternBook,
    ) -> Result<Answer, Refused> {
        let function = known_function(name, receiver.is_some(), args.len());
        answer_by(alloc, function, name, receiver, args, book)
    }
}
