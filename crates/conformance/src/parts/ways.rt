//! Runs expressions in all ways in which they can be run.

use crate::parts::answers::{Ran, end_ran, put_answer};
use cel::{Answer, Context, Functions, PatternBook, Program, StandardFunctions, Value, run_code};
use conformance_rows::keys::bound_name;
use conformance_rows::{Field, Found, Output, Stop, given};
use kube_functions::{Context as KubeContext, KubeCelExt};
use kube_schema::bind_plain;
use std::alloc::Global;
use std::rc::Rc;

/// The names of the three calls that run a program in a context.
pub(crate) type Calls = [&'static str; 3];

const IN_STANDARD: Calls = [
    "execute, StandardFunctions",
    "run_code, StandardFunctions",
    "execute_with, StandardFunctions",
];

const IN_FIRST: Calls = [
    "execute, KubeFunctions",
    "run_code, KubeFunctions",
    "execute_with, KubeFunctions",
];

const IN_REGISTERED: Calls = [
    "execute, register_all",
    "run_code, register_all",
    "execute_with, register_all",
];

const IN_ALL: Calls = [
    "execute, with_all",
    "run_code, with_all",
    "execute_with, with_all",
];

/// Reports whether two runs had the same outcome: equal values (any values if the first holds a
/// double), two errors, or two refusals.
fn is_same(first: &Ran, other: &Ran) -> bool {
    match (first, other) {
        (Ok(Ok(first)), Ok(Ok(other))) => first == other || first.holds_double(),
        (Ok(Err(_)), Ok(Err(_))) | (Err(_), Err(_)) => true,
        _ => false,
    }
}

/// Compares a run with the first one, and what is asked about it with the earlier answer.
fn hold(
    alloc: Global,
    asked: &str,
    first: &Ran,
    other: Ran,
    call: &'static str,
    found: &mut Found,
) {
    let Some(other) = found.take(Rc::new(alloc, other)) else {
        return;
    };
    let other = other.as_ref();
    put_answer(alloc, asked, other, &mut found.other);
    found.end_equal(is_same(first, other), call);
}

/// Executes a program, runs its code with a new book, and executes it with the book of that run.
/// All outcomes must be the same.
pub(crate) fn run_program<F: Functions>(
    alloc: Global,
    asked: &str,
    program: &Program,
    context: &Context<'_, F>,
    calls: &Calls,
    found: &mut Found,
) {
    let Some(first) = found.take(Rc::new(alloc, program.execute(alloc, context))) else {
        return;
    };
    let first = first.as_ref();
    end_ran(alloc, asked, first, calls[0], found);
    let mut book = PatternBook::new(alloc);
    let by_code = run_code(alloc, program.code(), context, &mut book);
    hold(alloc, asked, first, by_code, calls[1], found);
    let with_book = program.execute_with(alloc, context, &mut book);
    hold(alloc, asked, first, with_book, calls[2], found);
}

/// Compiles a text that must parse.
pub(crate) fn compiled(alloc: Global, text: &str) -> Result<Program, Stop> {
    Program::compile(alloc, text)?
        .ok()
        .ok_or(Stop::Unfit("expression"))
}

/// Runs a text in a context.
pub(crate) fn executed(
    alloc: Global,
    context: &KubeContext<'_>,
    text: &str,
) -> Result<Answer, Stop> {
    match compiled(alloc, text) {
        Ok(program) => answer_of(program.execute(alloc, context)),
        Err(stop) => Err(stop),
    }
}

/// The answer of a run that wasn't refused.
fn answer_of(ran: Ran) -> Result<Answer, Stop> {
    match ran {
        Ok(answer) => Ok(answer),
        Err(refused) => Err(Stop::from(refused)),
    }
}

/// Binds a JSON text as a value, without a schema.
pub(crate) fn plain_value(alloc: Global, text: &str) -> Result<Value, Stop> {
    let json = given::json_of(alloc, "self", text)?;
    Ok(bind_plain(alloc, &json)?)
}

/// Returns the value that a field binds its name to: `self` to a JSON value, any other name to the
/// value of an expression.
fn bound_value(alloc: Global, context: &KubeContext<'_>, field: &Field) -> Result<Value, Stop> {
    let text = field.text.as_str();
    if field.has("self") {
        return plain_value(alloc, text);
    }
    executed(alloc, context, text)?
        .ok()
        .ok_or(Stop::Unfit("let"))
}

/// Binds the names that a row gave, in a context with all functions.
fn bind_names(alloc: Global, context: &mut KubeContext<'_>, given: &[Field], out: &mut Output) {
    for field in given {
        if let Some(name) = bound_name(field.key.as_str()) {
            if let Some(value) = out.take(bound_value(alloc, context, field)) {
                out.take(context.add_variable(name, value));
            }
        }
    }
}

/// Binds the names that a row gave to their values in another context.
fn copy_names<F: Functions>(
    context: &mut Context<'_, F>,
    bound: &KubeContext<'_>,
    given: &[Field],
    out: &mut Output,
) {
    for field in given {
        if let Some(name) = bound_name(field.key.as_str()) {
            if let Some(value) = bound.get(name) {
                if let Some(copy) = out.take(value.try_clone()) {
                    out.take(context.add_variable(name, copy));
                }
            }
        }
    }
}

/// Runs a program in a context whose type has only the standard functions.
fn run_in_standard(
    alloc: Global,
    asked: &str,
    program: &Program,
    bound: &KubeContext<'_>,
    given: &[Field],
    found: &mut Found,
) {
    let mut context: Context<'_, StandardFunctions> = Context::default(alloc);
    copy_names(&mut context, bound, given, &mut found.other);
    run_program(alloc, asked, program, &context, &IN_STANDARD, found);
}

/// Runs a program in a context of all functions, before or after they are registered.
fn run_in_kubernetes(
    alloc: Global,
    asked: &str,
    program: &Program,
    bound: &KubeContext<'_>,
    given: &[Field],
    registered: bool,
    found: &mut Found,
) {
    let mut context: KubeContext<'_> = Context::default(alloc);
    let mut calls = &IN_FIRST;
    if registered {
        context.register_all();
        calls = &IN_REGISTERED;
    }
    copy_names(&mut context, bound, given, &mut found.other);
    run_program(alloc, asked, program, &context, calls, found);
}

/// Runs a program in each way with the functions that the row names.
fn run_each(
    alloc: Global,
    asked: &str,
    program: &Program,
    bound: &KubeContext<'_>,
    given: &[Field],
    found: &mut Found,
) {
    let (standard, kubernetes) = given::function_sets(given, &mut found.other);
    if standard {
        run_in_standard(alloc, asked, program, bound, given, found);
        run_in_kubernetes(alloc, asked, program, bound, given, false, found);
    }
    if kubernetes {
        run_in_kubernetes(alloc, asked, program, bound, given, true, found);
        run_program(alloc, asked, program, bound, &IN_ALL, found);
    }
}

/// Binds the names that a row gave in a context, and runs a text in each way.
fn run_text(
    alloc: Global,
    asked: &str,
    text: &str,
    bound: &mut KubeContext<'_>,
    given: &[Field],
    found: &mut Found,
) {
    bind_names(alloc, bound, given, &mut found.other);
    match compiled(alloc, text) {
        Ok(program) => run_each(alloc, asked, &program, bound, given, found),
        Err(stop) => found.stop(stop),
    }
}

/// Runs a row's expression in each way, and answers with what is asked about the outcome.
pub(crate) fn find(alloc: Global, given: &[Field], field: &Field, found: &mut Found) {
    let text = found.required(given, "expression");
    let mut bound: KubeContext<'_> = Context::default(alloc).with_all();
    run_text(alloc, field.key.as_str(), text, &mut bound, given, found);
}
