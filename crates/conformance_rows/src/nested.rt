//! Deeply nested schemas and values. JSON texts nest at most 127 levels, and each level of
//! `properties` or of branches takes two.

use crate::found::Found;
use crate::given::{json_of, text};
use crate::keys::entry;
use crate::output::Output;
use crate::row::{Field, Stop};
use serde_json::{Map, Value};
use std::alloc::{AllocError, Global};

/// A number of levels, and the step from each level to the next.
#[derive(Clone, Copy)]
pub struct Nesting {
    pub step: &'static str,
    pub levels: u64,
}

/// The steps between levels, by the keys that give the number of levels.
const STEPS: [(&str, &str); 6] = [
    ("nested items", "items"),
    ("nested properties", "properties a"),
    ("nested additional properties", "additionalProperties"),
    ("nested all of", "allOf 0"),
    ("nested one of", "oneOf 0"),
    ("nested any of", "anyOf 0"),
];

/// The nesting that a row gave last. Zero levels if it gave none.
pub fn nesting_given(given: &[Field]) -> Result<Nesting, Stop> {
    let (mut step, mut levels) = ("items", "0");
    for field in given {
        if let Some(last) = entry(&STEPS, field.key.as_str()) {
            step = last;
            levels = field.text.as_str();
        }
    }
    match levels.parse::<u64>() {
        Ok(levels) => Ok(Nesting { step, levels }),
        Err(_) => Err(Stop::Unfit("nested")),
    }
}

/// Returns a list of one value.
fn list_of(alloc: Global, value: Value) -> Result<Value, AllocError> {
    let mut items = Vec::new(alloc);
    items.push(value)?;
    Ok(Value::Array(items))
}

/// Returns an object with one member.
fn object_of(alloc: Global, key: &str, value: Value) -> Result<Value, AllocError> {
    let mut members = Map::new(alloc);
    members.insert(String::from_str(alloc, key)?, value)?;
    Ok(Value::Object(members))
}

/// Wraps a schema in one more level.
fn schema_above(alloc: Global, step: &str, below: Value) -> Result<Value, AllocError> {
    match step.split_once(' ') {
        None => object_of(alloc, step, below),
        Some((keyword, "a")) => object_of(alloc, keyword, object_of(alloc, "a", below)?),
        Some((keyword, _)) => object_of(alloc, keyword, list_of(alloc, below)?),
    }
}

/// Wraps a value in one more level, if the step leads into the value.
fn value_above(alloc: Global, step: &str, below: Value) -> Result<Value, AllocError> {
    match step {
        "items" => list_of(alloc, below),
        "properties a" | "additionalProperties" => object_of(alloc, "a", below),
        _ => Ok(below),
    }
}

/// Parses a JSON text that was given under a key, nested as the row says.
fn nested_json(
    alloc: Global,
    given: &[Field],
    key: &'static str,
    text: &str,
) -> Result<Value, Stop> {
    let nesting = nesting_given(given)?;
    let mut value = json_of(alloc, key, text)?;
    for _ in 0..nesting.levels {
        value = if key == "schema" {
            schema_above(alloc, nesting.step, value)?
        } else {
            value_above(alloc, nesting.step, value)?
        };
    }
    Ok(value)
}

/// The value last given under a key, nested as the row says, if any. If it can't be read, records
/// why.
pub fn value_given(
    alloc: Global,
    given: &[Field],
    key: &'static str,
    out: &mut Output,
) -> Option<Value> {
    match text(given, key) {
        Some(text) => out.take(nested_json(alloc, given, key, text)),
        None => None,
    }
}

/// Like `value_given`, but an empty object if the row gave none, and null if it can't be read.
pub fn given_or_empty(
    alloc: Global,
    given: &[Field],
    key: &'static str,
    out: &mut Output,
) -> Value {
    match text(given, key) {
        Some(text) => out
            .take(nested_json(alloc, given, key, text))
            .unwrap_or(Value::Null),
        None => Value::Object(Map::new(alloc)),
    }
}

/// Answers with a field's JSON, nested as the row says.
pub fn find_nested(alloc: Global, given: &[Field], field: &Field, found: &mut Found) {
    let text = field.text.as_str();
    if let Some(value) = found.take(nested_json(alloc, given, "filled", text)) {
        found.end_json(&value, "filled");
    }
}
