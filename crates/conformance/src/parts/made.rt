//! Checks properties of every expression, name and text made from a grammar: all runs of a program
//! agree, unescaping an escaped name gives the name back, and parsing a printed value gives the
//! value back.

use crate::parts::answers::Ran;
use crate::parts::items::{bind_answer, bind_text};
use crate::parts::names::put_escaped;
use crate::parts::ways::{Calls, compiled, plain_value, run_program};
use cel::{Context, Program, Value};
use conformance_rows::grammar::Maker;
use conformance_rows::questions::maker as maker_of;
use conformance_rows::{Found, Output, Stop};
use kube_functions::{Context as KubeContext, KubeCelExt};
use std::alloc::Global;
use std::rc::Rc;

/// The number of expressions that are made.
const EXPRESSIONS: usize = 100_000;

/// The number of names that are made, and of texts of each type.
const TEXTS: usize = 50_000;

/// The value of `self` in expressions.
const SELF: &str =
    r#"{"a":1,"b":{"c":"x"},"l":[3,1,2],"s":"text","t":true,"n":null,"f":0.5,"a.b":2,"in":3}"#;

/// The calls that run an expression. Each is made twice.
const CALLS: Calls = ["execute", "run_code", "execute_with"];

/// For types that are printed and parsed, the expression that must be true of an item.
const COMES_BACK: [(&str, &str); 4] = [
    ("timestamp", "timestamp(string(item)) == item"),
    ("duration", "duration(string(item)) == item"),
    ("address", "ip(string(item)) == item"),
    ("cidr", "cidr(string(item)) == item"),
];

/// Runs a program in each way, twice. Returns whether it has a value.
fn run_twice(
    alloc: Global,
    context: &KubeContext<'_>,
    program: &Program,
    found: &mut Found,
) -> bool {
    run_program(alloc, "all", program, context, &CALLS, found);
    run_program(alloc, "all", program, context, &CALLS, found);
    found.text.as_str().starts_with("a value")
}

/// Runs an expression in each way, twice. Returns whether it has a value, or `None` if it doesn't
/// parse.
fn run_expression(
    alloc: Global,
    context: &KubeContext<'_>,
    text: &str,
    found: &mut Found,
) -> Option<bool> {
    let program = found.take(Program::compile(alloc, text))?.ok()?;
    Some(run_twice(alloc, context, &program, found))
}

/// Makes and runs expressions in a context.
fn run_expressions_in(
    alloc: Global,
    context: &KubeContext<'_>,
    maker: &mut Maker,
    found: &mut Found,
    report: &mut Output,
) {
    let (mut read, mut values) = (0usize, 0usize);
    for _ in 0..EXPRESSIONS {
        if found.take(maker.make(alloc, "expression", 12)).is_none() {
            return;
        }
        found.clear();
        if let Some(has_value) = run_expression(alloc, context, maker.text.as_str(), found) {
            read = read.saturating_add(1);
            values = values.saturating_add(usize::from(has_value));
        }
        if found.is_stopped() {
            return;
        }
    }
    put_made("expressions", EXPRESSIONS, read, report);
    report.push(", ");
    report.show(&values);
    report.push(" with a value; all runs of each agree\n");
}

/// Writes how many texts were made, and how many of them were read.
fn put_made(of: &str, made: usize, read: usize, report: &mut Output) {
    report.push_all(&[of, ": "]);
    report.show(&made);
    report.push(" made, ");
    report.show(&read);
    report.push(" read");
}

/// Makes and runs expressions.
pub(crate) fn run_expressions(
    alloc: Global,
    maker: &mut Maker,
    found: &mut Found,
    report: &mut Output,
) {
    let mut context: KubeContext<'_> = Context::default(alloc);
    context.register_all();
    if let Some(value) = found.take(plain_value(alloc, SELF)) {
        found.take(context.add_variable("self", value));
    }
    run_expressions_in(alloc, &context, maker, found, report);
}

/// Escapes names, and checks that unescaping gives them back.
fn run_names(alloc: Global, maker: &mut Maker, found: &mut Found, report: &mut Output) {
    for _ in 0..TEXTS {
        if found.take(maker.make(alloc, "name", 8)).is_none() {
            return;
        }
        found.clear();
        put_escaped(alloc, maker.text.as_str(), &mut found.text);
        if found.is_stopped() {
            return;
        }
    }
    put_made("name", TEXTS, TEXTS, report);
    report.push("; each comes back\n");
}

/// Checks that the outcome of a run is true.
fn check_true(ran: &Ran, found: &mut Found) {
    match ran {
        Ok(Ok(Value::Bool(true))) => {}
        Err(refused) => found.stop(Stop::from(*refused)),
        _ => found.stop(Stop::Differs("what is printed and read")),
    }
}

/// Reports whether a text is read as an item. If it is, printing the item and reading that must
/// give the item back.
fn comes_back(
    alloc: Global,
    context: &mut KubeContext<'_>,
    (read, again): (&Program, &Program),
    text: &str,
    found: &mut Found,
) -> bool {
    bind_text(alloc, context, "written", text, &mut found.other);
    let answer = found.take(read.execute(alloc, context));
    if !bind_answer(context, "item", answer, &mut found.other) {
        return false;
    }
    if let Some(ran) = found.take(Rc::new(alloc, again.execute(alloc, context))) {
        check_true(ran.as_ref(), found);
    }
    true
}

/// Makes texts of a type, reads them in a context, and checks that what is printed of them reads
/// back.
fn run_texts_in(
    alloc: Global,
    maker: &mut Maker,
    of: &str,
    programs: (&Program, &Program),
    found: &mut Found,
    report: &mut Output,
) {
    let mut context: KubeContext<'_> = Context::default(alloc).with_all();
    let mut count = 0usize;
    for _ in 0..TEXTS {
        if found.take(maker.make(alloc, of, 8)).is_none() {
            return;
        }
        if comes_back(alloc, &mut context, programs, maker.text.as_str(), found) {
            count = count.saturating_add(1);
        }
        if found.is_stopped() {
            return;
        }
    }
    put_made(of, TEXTS, count, report);
    report.push("; each comes back\n");
}

/// Like `run_texts_in`, by the expressions that make an item of its type, and that must be true of it.
fn run_texts(
    alloc: Global,
    maker: &mut Maker,
    (of, again): (&str, &str),
    found: &mut Found,
    report: &mut Output,
) {
    let read = found.take(compiled(alloc, maker_of(of).unwrap_or("")));
    let again = found.take(compiled(alloc, again));
    if let (Some(read), Some(again)) = (read, again) {
        run_texts_in(alloc, maker, of, (&read, &again), found, report);
    }
}

/// Checks that escaped names and printed items of each type read back.
pub(crate) fn run_names_and_texts(
    alloc: Global,
    maker: &mut Maker,
    found: &mut Found,
    report: &mut Output,
) {
    run_names(alloc, maker, found, report);
    for &item in COMES_BACK.iter() {
        if found.is_stopped() {
            return;
        }
        run_texts(alloc, maker, item, found, report);
    }
}
