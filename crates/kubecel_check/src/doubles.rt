//! Finds the first number of kind double in an object.
ghost use Rattle.kubecel_check.specs.Doubles.{IsDouble, first_double, first_in_items, first_in_members, item_path, member_path};
ghost use Rattle.serde_json.specs.View.{items_view, members_view, view};
ghost use Rattle.std.specs.Prelude.{◌≡◌, [], IfOk, string_bytes};

use serde_json::{Map, Value};
use std::alloc::{AllocError, Global};

/// A number of kind double in an object.
#[derive(Drop)]
pub(crate) struct Double {
    /// Its path in the object.
    pub(crate) path: String,
    /// A text that reads as this number.
    pub(crate) text: String,
}

/// Returns the path of a member.
fn member_path(alloc: Global, path: &str, key: &str) -> Result<String, AllocError>
    ensures { IfOk result (λ s. string_bytes s ≡ member_path path.now key.now) }
{
    if path.is_empty() {
        String::from_str(alloc, key)
    } else {
        format!(in alloc; "{path}.{key}")
    }
}

/// Returns the path of an item.
fn item_path(alloc: Global, path: &str, index: usize) -> Result<String, AllocError>
    ensures { IfOk result (λ s. string_bytes s ≡ item_path path.now index) }
{
    format!(in alloc; "{path}[{index}]")
}

/// Returns the first number of kind double in an object, if it has one.
pub(crate) fn double_in(alloc: Global, object: &Value) -> Result<Option<Double>, AllocError>
    ensures { IfOk result (IsDouble (first_double [] (view object.now))) }
{
    first_double(alloc, "", object)
}

/// Returns the first number of kind double in a value at this path, if it has one.
#[cycle(doubles)]
fn first_double(alloc: Global, path: &str, value: &Value) -> Result<Option<Double>, AllocError>
    ensures { IfOk result (IsDouble (first_double path.now (view value.now))) }
{
    match value {
        Value::Null => Ok(None),
        Value::Bool(_) => Ok(None),
        Value::Number(number) => {
            if !number.is_f64() {
                return Ok(None);
            }
            Ok(Some(Double {
                path: String::from_str(alloc, path)?,
                text: value.to_string(alloc)?,
            }))
        }
        Value::String(_) => Ok(None),
        Value::Array(items) => first_in_items(alloc, path, items),
        Value::Object(members) => first_in_members(alloc, path, members),
    }
}

/// Returns the first number of kind double in items, if they have one.
#[cycle(doubles)]
fn first_in_items(
    alloc: Global,
    path: &str,
    items: &Vec<Value>,
) -> Result<Option<Double>, AllocError>
    ensures { IfOk result (IsDouble (first_in_items path.now 0 (items_view items.now.items))) }
{
    for (index, item) in items.iter().enumerate() {
        let inner = item_path(alloc, path, index)?;
        let found = first_double(alloc, inner.as_str(), item)?;
        if found.is_some() {
            return Ok(found);
        }
    }
    Ok(None)
}

/// Returns the first number of kind double in members, if they have one.
#[cycle(doubles)]
fn first_in_members(
    alloc: Global,
    path: &str,
    members: &Map<String, Value>,
) -> Result<Option<Double>, AllocError>
    ensures { IfOk result (IsDouble (first_in_members path.now (members_view members.now.entries))) }
{
    for (key, member) in members.iter() {
        let inner = member_path(alloc, path, key.as_str())?;
        let found = first_double(alloc, inner.as_str(), member)?;
        if found.is_some() {
            return Ok(found);
        }
    }
    Ok(None)
}
