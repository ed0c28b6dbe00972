//! Prints the outcomes of expressions.

use cel::{Answer, Refused, Value};
use conformance_rows::{Found, Output};
use std::alloc::Global;

/// The outcome of running an expression: a value or an error, or a refusal.
pub(crate) type Ran = Result<Answer, Refused>;

/// Writes a value as `%s` formats it. If `%s` can't format it, writes `instead` and the kind that
/// it can't format.
pub(crate) fn put_text(alloc: Global, value: &Value, instead: &str, out: &mut Output) {
    match out.take(value.text(alloc)) {
        Some(Ok(text)) => out.push(text.as_str()),
        Some(Err(kind)) => {
            out.push(instead);
            out.show(&kind);
        }
        None => {}
    }
}

/// Writes what a value of a type with its own `Display` or `text` prints. Returns false if it has
/// another type.
pub(crate) fn put_printed(alloc: Global, value: &Value, out: &mut Output) -> bool {
    match value {
        Value::Quantity(quantity) => out.show(quantity.as_ref()),
        Value::Ip(address) => out.show(address.as_ref()),
        Value::Cidr(cidr) => out.show(cidr.as_ref()),
        Value::Timestamp(time) => out.push_made(time.text(alloc)),
        Value::Duration(duration) => out.push_made(duration.text(alloc)),
        Value::Format(format) => out.show(&format.kind()),
        _ => return false,
    }
    true
}

/// Writes what is asked about a value, or what the value is if that doesn't apply.
fn put_value(alloc: Global, asked: &str, value: &Value, out: &mut Output) {
    match asked {
        "value" => return put_text(alloc, value, "of kind ", out),
        "bound" => return put_text(alloc, value, "", out),
        "prints" if put_printed(alloc, value, out) => return,
        "kind" => {}
        _ => out.push("a value of kind "),
    }
    out.show(&value.type_of());
    if asked == "all" {
        out.push(": ");
        put_text(alloc, value, "", out);
    }
}

/// Writes what is asked about an outcome, or what the outcome is if that doesn't apply.
pub(crate) fn put_answer(alloc: Global, asked: &str, answer: &Ran, out: &mut Output) {
    match answer {
        Ok(Ok(value)) => put_value(alloc, asked, value, out),
        Ok(Err(error)) => {
            out.push(match asked {
                "error" | "bound" => "",
                _ => "an error: ",
            });
            out.show(error);
        }
        Err(refused) => {
            let before = match asked {
                "refused" => "",
                _ => "refused: ",
            };
            out.push_refused(before, *refused);
        }
    }
}

/// Ends a call that ran an expression: its answer is what is asked about the outcome.
pub(crate) fn end_ran(
    alloc: Global,
    asked: &str,
    ran: &Ran,
    call: &'static str,
    found: &mut Found,
) {
    put_answer(alloc, asked, ran, &mut found.other);
    found.end(call);
}
