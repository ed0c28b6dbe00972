//! The sets of functions: which calls each of them knows, and what it answers.
ghost use Rattle.std.specs.Prelude.{◌≡◌, Some, map, option_map, IfOk};
ghost use Rattle.cel_patterns.specs.Book.{Extends};
ghost use Rattle.cel_patterns.specs.Entries.{entries_of};
ghost use Rattle.cel_patterns.specs.Extensions.{HoldsForExtensions};
ghost use Rattle.cel_value.specs.View.{view};
ghost use Rattle.cel_semantics.specs.Outcome.{outcome_view};
ghost use Rattle.cel_stdlib.specs.Table.{function_named};
ghost use Rattle.kube_functions.specs.Kube as spec;
ghost use Rattle.kube_functions.specs.Names.{kube_unknown, unknown_by_name};

use crate::calls::answer_of;
use crate::functions::takes;
use crate::overloads::address_operand;
use crate::table::function_named;
use cel_patterns::PatternBook;
use cel_semantics::operators::{Answer, no_such_overload};
use cel_semantics::{Form, Functions};
use cel_stdlib::{Function, StandardFunctions, answer_of_function, known_function};
use cel_value::{Refused, Value};
use kube_functions_types::strings;
use std::alloc::Global;

/// The set of all functions: those of the CEL standard and those of Kubernetes.
#[derive(Clone, Copy, Debug, PartialEq, Eq)]
pub struct AllFunctions;

/// The set of functions of a context, which begins as `Standard`.
#[derive(Clone, Copy, Debug, PartialEq, Eq)]
pub enum KubeFunctions {
    /// The functions of the CEL standard.
    Standard,
    /// The functions of the CEL standard and all those of Kubernetes.
    All,
}

// Reports whether Kubernetes adds a function that may be called by
// this name, with or without a receiver, and with `count` arguments.
fn is_taken(name: &str, receiver: bool, count: usize) -> bool
    ensures { result ≡ spec.is_taken name.now receiver count }
{
    match function_named(name, receiver) {
        Some(declaration) => takes(declaration, count),
        None => false,
    }
}

fn is_added(name: &str) -> bool
    ensures { result ≡ spec.is_added name.now }
{
    function_named(name, true).is_some() || function_named(name, false).is_some()
}

fn added_form(name: &str, receiver: bool, count: usize) -> Form
    ensures { result ≡ spec.added_form name.now receiver count }
{
    if is_taken(name, receiver, count) {
        Form::Known
    } else if is_added(name) {
        Form::Wrong
    } else {
        Form::Unknown
    }
}

fn either_form(form: Form, other: Form) -> Form
    ensures { result ≡ spec.either_form form other }
{
    match form {
        Form::Known => Form::Known,
        Form::Wrong => match other {
            Form::Known => Form::Known,
            Form::Wrong | Form::Unknown => Form::Wrong,
        },
        Form::Unknown => other,
    }
}

// Answers a call that the standard doesn't know. It is never
// inlined, so that calls that the standard knows take less room.
#[inline(never)]
fn added_answer(
    alloc: Global,
    name: &str,
    receiver: Option<&Value>,
    args: &[Value],
    book: &mut PatternBook,
) -> Result<Answer, Refused>
    ensures keeps { Extends (entries_of book.new) (entries_of book.old) }
    ensures value { IfOk result (λ r. HoldsForExtensions (entries_of book.new) (outcome_view r)
        (λ b. spec.added_answer name.now
        (option_map (λ v. view v.now) receiver.entry) (map view args.now) b)) }
{
    match function_named(name, receiver.is_some()) {
        Some(declaration) => answer_of(alloc, declaration.function, name, receiver, args, book),
        None => Ok(Err(no_such_overload(alloc, name)?)),
    }
}

// Answers a call that the standard knows as the standard does, except for
// `string` of an IP address or a CIDR. Of the layers of a call only this
// one and `added_answer` are calls: each call copies the whole answer.
#[inline(never)]
fn kept_answer(
    alloc: Global,
    function: Function,
    name: &str,
    receiver: Option<&Value>,
    args: &[Value],
    book: &mut PatternBook,
) -> Result<Answer, Refused>
    requires { function_named name.now ≡ Some function }
    ensures keeps { Extends (entries_of book.new) (entries_of book.old) }
    ensures value { IfOk result (λ r. HoldsForExtensions (entries_of book.new) (outcome_view r)
        (λ b. spec.kept_answer name.now
        (option_map (λ v. view v.now) receiver.entry) (map view args.now) b)) }
{
    match address_operand(name, receiver, args) {
        Some(address) => strings::string(alloc, address),
        None => answer_of_function(alloc, function, name, receiver, args, book),
    }
}

impl Functions for AllFunctions {
    ghost library = { λ _. spec.all_library };

    ghost first = { record {} };

    ghost names_alone = { λ _. kube_unknown };

    fn start() -> AllFunctions {
        AllFunctions
    }

    fn form(&self, name: &str, receiver: bool, count: usize) -> Form {
        let standard = StandardFunctions.form(name, receiver, count);
        match standard {
            Form::Known => Form::Known,
            Form::Wrong | Form::Unknown => either_form(standard, added_form(name, receiver, count)),
        }
    }

    #[inline(always)]
    fn call(
        &self,
        alloc: Global,
        name: &str,
        receiver: Option<&Value>,
        args: &[Value],
        book: &mut PatternBook,
    ) -> Result<Answer, Refused> {
        match known_function(name, receiver.is_some(), args.len()) {
            Some(function) => kept_answer(alloc, function, name, receiver, args, book),
            None => added_answer(alloc, name, receiver, args, book),
        }
    }
}

impl Functions for KubeFunctions {
    ghost use Rattle.kube_functions.specs.declared.sets.KubeFunctions.{KubeFunctions};

    ghost library = { spec.kube_library };

    ghost first = { KubeFunctions.Standard };

    ghost names_alone = { unknown_by_name };

    fn start() -> KubeFunctions {
        KubeFunctions::Standard
    }

    fn form(&self, name: &str, receiver: bool, count: usize) -> Form {
        match self {
            KubeFunctions::Standard => StandardFunctions.form(name, receiver, count),
            KubeFunctions::All => AllFunctions.form(name, receiver, count),
        }
    }

    fn call(
        &self,
        alloc: Global,
        name: &str,
        receiver: Option<&Value>,
        args: &[Value],
        book: &mut PatternBook,
    ) -> Result<Answer, Refused> {
        match self {
            KubeFunctions::Standard => StandardFunctions.call(alloc, name, receiver, args, book),
            KubeFunctions::All => AllFunctions.call(alloc, name, receiver, args, book),
        }
    }
}
