//! Answers questions about values of all types. An expression makes each value from a text;
//! expressions and the values' own methods give the answers.

use crate::parts::answers::{put_printed, put_text};
use crate::parts::values;
use crate::parts::ways::executed;
use cel::{Answer, Context, ExecutionError, Value};
use conformance_rows::keys::{item_given, item_type};
use conformance_rows::questions::{maker, question};
use conformance_rows::texts::yes_or_no;
use conformance_rows::{Field, Found, Output, Stop, given as rows};
use kube_functions::{Context as KubeContext, KubeCelExt};
use std::alloc::Global;
use std::rc::Rc;

/// Makes the value of a text.
fn text_value(alloc: Global, text: &str) -> Result<Value, Stop> {
    Ok(Value::from_text(alloc, String::from_str(alloc, text)?)?)
}

/// Binds a name to a text.
pub(crate) fn bind_text(
    alloc: Global,
    context: &mut KubeContext<'_>,
    name: &str,
    text: &str,
    out: &mut Output,
) {
    if let Some(value) = out.take(text_value(alloc, text)) {
        out.take(context.add_variable(name, value));
    }
}

/// Binds `written` to a field's text, and makes the field's value from it.
fn make(
    alloc: Global,
    context: &mut KubeContext<'_>,
    field: &Field,
    out: &mut Output,
) -> Option<Answer> {
    bind_text(alloc, context, "written", field.text.as_str(), out);
    match maker(item_type(field.key.as_str()).0) {
        Some(expression) => out.take(executed(alloc, context, expression)),
        None => {
            out.stop(Stop::Unfit("item"));
            None
        }
    }
}

/// Binds a name to the value that a run gave. Returns false if it gave none.
pub(crate) fn bind_answer(
    context: &mut KubeContext<'_>,
    name: &str,
    answer: Option<Answer>,
    out: &mut Output,
) -> bool {
    match answer {
        Some(answer) => match answer.ok() {
            Some(value) => {
                out.take(context.add_variable(name, value));
                true
            }
            None => false,
        },
        None => false,
    }
}

/// Binds `other` and `text` to what the row gave, if it did.
fn bind_others(alloc: Global, context: &mut KubeContext<'_>, fields: &[Field], out: &mut Output) {
    if let Some(text) = rows::text(fields, "text") {
        bind_text(alloc, context, "text", text, out);
    }
    if let Some(other) = item_given(fields, true) {
        let answer = make(alloc, context, other, out);
        let _ = bind_answer(context, "other", answer, out);
    }
}

/// Writes a value: a Boolean as `yes` or `no`, otherwise what it prints or its text.
fn put_value(alloc: Global, value: &Value, out: &mut Output) {
    match value {
        Value::Bool(holds) => out.push(yes_or_no(*holds)),
        _ if put_printed(alloc, value, out) => {}
        _ => put_text(alloc, value, "", out),
    }
}

/// Writes an error: `no` for the key `valid`, otherwise its message.
fn put_error(key: &str, error: &ExecutionError, out: &mut Output) {
    match (key, error) {
        ("valid", _) => out.push("no"),
        (_, ExecutionError::FunctionError { message, .. }) => out.push(message.as_str()),
        _ => out.show(error),
    }
}

/// Answers a question about an item by an expression.
fn ask(alloc: Global, context: &KubeContext<'_>, key: &str, expression: &str, out: &mut Output) {
    let Some(answer) = out.take(executed(alloc, context, expression)) else {
        return;
    };
    let Some(answer) = out.take(Rc::new(alloc, answer)) else {
        return;
    };
    match answer.as_ref() {
        Ok(value) => put_value(alloc, value, out),
        Err(error) => put_error(key, error, out),
    }
}

/// Answers a question about an item that is a value: by the value's own methods if possible,
/// otherwise by an expression.
fn ask_value(
    alloc: Global,
    context: &KubeContext<'_>,
    key: &str,
    types: (&str, &str),
    out: &mut Output,
) {
    let Some(item) = context.get("item") else {
        return out.stop(Stop::Unfit("item"));
    };
    match (key, item) {
        ("valid", Value::Null) => return out.push("no"),
        ("valid", _) => return out.push("yes"),
        ("error", _) => return out.push("none"),
        ("printed", _) => return put_value(alloc, item, out),
        _ if values::put(key, item, context.get("other"), out) => return,
        _ => {}
    }
    match question(key, types.0, types.1) {
        Some(expression) => ask(alloc, context, key, expression, out),
        None => out.stop(Stop::Unfit("a key that is known here")),
    }
}

/// The type of the other item that a row gives. Empty if it gives none.
fn other_type(fields: &[Field]) -> &str {
    match item_given(fields, true) {
        Some(other) => item_type(other.key.as_str()).0,
        None => "",
    }
}

/// Answers a question about an item.
pub(crate) fn find(
    alloc: Global,
    fields: &[Field],
    item: &Field,
    field: &Field,
    found: &mut Found,
) {
    let mut context: KubeContext<'_> = Context::default(alloc).with_all();
    let (key, out) = (field.key.as_str(), &mut found.text);
    bind_others(alloc, &mut context, fields, out);
    match make(alloc, &mut context, item, out) {
        Some(Ok(value)) => {
            let types = (item_type(item.key.as_str()).0, other_type(fields));
            out.take(context.add_variable("item", value));
            ask_value(alloc, &context, key, types, out);
        }
        Some(Err(error)) => put_error(key, &error, out),
        None => {}
    }
}
