//! Answers questions about values by their own methods, whatever their kinds.

use cel::{Key, OptionalValue, Text, Value};
use conformance_rows::texts::yes_or_no;
use conformance_rows::{Found, Output, Stop};
use std::alloc::Global;
use std::cmp::Ordering;

/// Makes a key of a text.
fn text_key(alloc: Global, text: &str) -> Result<Key, Stop> {
    Ok(Key::String(Text::of_str(alloc, text)?))
}

/// Answers whether a key of each kind equals its copy.
pub(crate) fn keys_are_kept(alloc: Global, found: &mut Found) {
    let Some(text) = found.take(text_key(alloc, "a")) else {
        return;
    };
    let mut are_kept = true;
    for key in [text, Key::Bool(true), Key::Int(-1), Key::Uint(1)].iter() {
        are_kept = are_kept && found.other.is_copy(key.try_clone(), key);
    }
    found.say(yes_or_no(are_kept));
}

/// Answers whether an optional equals its copy.
pub(crate) fn optionals_are_kept(alloc: Global, found: &mut Found) {
    if let Some(held) = found.take(OptionalValue::of(alloc, Value::Int(7))) {
        let is_kept = is_kept(&Value::Optional(held), &mut found.other);
        found.say(yes_or_no(is_kept));
    }
}

/// Reports whether a value equals its copy.
fn is_kept(value: &Value, out: &mut Output) -> bool {
    out.is_copy(value.try_clone(), value)
}

/// Writes whether two values are equal, if that is the same from both sides and each equals its
/// copy. Otherwise writes what is wrong.
fn put_equality(left: &Value, right: &Value, out: &mut Output) {
    let is_equal = left == right;
    if (right == left) != is_equal {
        out.push("equal from one side alone");
    } else if is_kept(left, out) && is_kept(right, out) {
        out.push(yes_or_no(is_equal));
    } else {
        out.push("no value equals its copy");
    }
}

/// Returns the word for the order of two values, if that is the same from both sides and agrees
/// with equality. Otherwise returns what is wrong.
fn order(left: &Value, right: &Value) -> &'static str {
    let (Some(order), Some(reversed)) = (left.compare(right), right.compare(left)) else {
        return "none";
    };
    if reversed != order.reverse() || (left == right) != (order == Ordering::Equal) {
        return "another order from the other side, or than equality";
    }
    match order {
        Ordering::Less => "less",
        Ordering::Equal => "equal",
        Ordering::Greater => "greater",
    }
}

/// Answers a question about a value, or about two. Returns false if the values' own methods don't
/// answer it.
pub(crate) fn put(key: &str, value: &Value, other: Option<&Value>, out: &mut Output) -> bool {
    match (key, value, other) {
        ("kind", value, _) | ("other kind", _, Some(value)) => out.show(&value.type_of()),
        ("nanoseconds", Value::Duration(length), _) => out.show(&length.nanoseconds()),
        ("values are equal", _, Some(other)) => put_equality(value, other, out),
        ("order of values", _, Some(other))
        | ("order", Value::Timestamp(_) | Value::Duration(_), Some(other)) => {
            out.push(order(value, other));
        }
        _ => return false,
    }
    true
}
