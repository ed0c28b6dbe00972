//! The keys of fields that give a value.

use crate::questions::maker;
use crate::row::Field;

/// The keys of fields that give a value, except those for bound names and items.
const GIVEN: [&str; 40] = [
    "after",
    "before",
    "command",
    "depth",
    "expression",
    "expressions",
    "failing read",
    "functions",
    "json",
    "levels",
    "limit",
    "list size",
    "message",
    "message expression",
    "name",
    "namespace object",
    "nested additional properties",
    "nested all of",
    "nested any of",
    "nested items",
    "nested one of",
    "nested properties",
    "node",
    "object",
    "old object",
    "params",
    "pattern",
    "policy",
    "refused error write",
    "refused read",
    "refused write",
    "request",
    "root context",
    "rule",
    "schema",
    "scope",
    "text",
    "text length",
    "type",
    "within",
];

/// What a table of keys has for this key, if anything.
pub fn entry<T: Copy>(table: &[(&'static str, T)], key: &str) -> Option<T> {
    for &(name, value) in table {
        if name == key {
            return Some(value);
        }
    }
    None
}

/// The name that a field with this key binds, if any.
pub fn bound_name(key: &str) -> Option<&str> {
    match key {
        "self" => Some(key),
        _ => key.strip_prefix("let "),
    }
}

/// The type of the item that a field with this key gives, and whether it is the other item.
pub fn item_type(key: &str) -> (&str, bool) {
    match key.strip_prefix("other ") {
        Some(of) => (of, true),
        None => (key, false),
    }
}

/// Reports whether fields with this key give a value.
pub fn gives(key: &str) -> bool {
    GIVEN.contains(&key) || bound_name(key).is_some() || maker(item_type(key).0).is_some()
}

/// The field that last gave the item, or the other item.
pub fn item_given(given: &[Field], wants_other: bool) -> Option<&Field> {
    let mut last = None;
    for field in given {
        let (of, is_other) = item_type(field.key.as_str());
        if is_other == wants_other && maker(of).is_some() {
            last = Some(field);
        }
    }
    last
}
