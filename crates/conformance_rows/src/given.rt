//! Reads the values that a row gives.

use crate::output::Output;
use crate::row::{Field, Stop};
use serde_json::Value;
use std::alloc::Global;

/// The text last given under a key, if any.
pub fn text<'a>(given: &'a [Field], key: &str) -> Option<&'a str> {
    let mut last = None;
    for field in given {
        if field.has(key) {
            last = Some(field.text.as_str());
        }
    }
    last
}

/// The text last given under a key. If there is none, records that, and returns an empty text.
pub fn required<'a>(given: &'a [Field], key: &'static str, out: &mut Output) -> &'a str {
    match text(given, key) {
        Some(text) => text,
        None => {
            out.stop(Stop::Unfit(key));
            ""
        }
    }
}

/// The number last given under a key, if any. If it can't be read, records that.
pub fn number(given: &[Field], key: &'static str, out: &mut Output) -> Option<u64> {
    match text(given, key) {
        Some(text) => out.take(text.parse::<u64>().ok().ok_or(Stop::Unfit(key))),
        None => None,
    }
}

/// Reports whether the standard functions are known, and whether those of Kubernetes are.
pub fn function_sets(given: &[Field], out: &mut Output) -> (bool, bool) {
    match text(given, "functions") {
        Some("standard") => (true, false),
        Some("kubernetes") => (false, true),
        Some("both") | None => (true, true),
        Some(_) => {
            out.stop(Stop::Unfit("functions"));
            (false, false)
        }
    }
}

/// Parses the JSON last given under a key, if any. If it can't be read, records why.
pub fn json(alloc: Global, given: &[Field], key: &'static str, out: &mut Output) -> Option<Value> {
    match text(given, key) {
        Some(text) => out.take(json_of(alloc, key, text)),
        None => None,
    }
}

/// Parses a JSON text. `key` is the key that it was given under.
pub fn json_of(alloc: Global, key: &'static str, text: &str) -> Result<Value, Stop> {
    match Value::from_str(alloc, text) {
        Ok(value) => Ok(value),
        Err(error) if error.is_memory() => Err(Stop::Memory),
        Err(_) => Err(Stop::Unfit(key)),
    }
}

/// Appends the text `within`, with `before` and `after` around it as many times as `levels` says.
fn push_levels(given: &[Field], out: &mut Output) {
    let levels = number(given, "levels", out).unwrap_or(0) as usize;
    for (key, times) in [("before", levels), ("within", 1), ("after", levels)] {
        let text = required(given, key, out);
        out.push_times(text, times);
    }
}

/// Appends the CEL text that a row gave last, as a whole or by its levels.
pub fn push_source(given: &[Field], out: &mut Output) {
    for field in given.iter().rev() {
        match field.key.as_str() {
            "text" | "expression" => return out.push(field.text.as_str()),
            "levels" => return push_levels(given, out),
            _ => {}
        }
    }
    out.stop(Stop::Unfit("text"));
}
