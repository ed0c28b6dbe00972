//! Conversion of JSON values to CEL with their own keys, as an API server hands objects to the
//! expressions of a policy.
ghost use Rattle.cel_value.specs.Data.{text_key};
ghost use Rattle.cel_value.specs.Keys.{put};
ghost use Rattle.cel_value.specs.View.{entries_view, items_view, view};
ghost use Rattle.kube_manifests_names.specs.Unstructured.{unstructured, unstructured_entries, unstructured_items};
ghost use Rattle.serde_json.specs.View.{items_view as json_items_view, members_view, view as json_view};
ghost use Rattle.std.specs.Prelude.{◌≡◌, IfErr, IfOk};

use cel_value::{Entries, Value};
use kube_schema_values::{bind_number, bind_text, put_entry};
use kube_types::Refused;
use serde_json::{Map as Members, Value as Json};
use std::alloc::Global;

/// Converts a JSON value to CEL. A number becomes an int if it fits `i64`, else a uint if it fits
/// `u64`, else a double. An object becomes a map with the object's own keys.
///
/// # Errors
///
/// [`Refused`] if memory is refused.
#[cycle(unstructured)]
#[tactic(auto, unfolding(crate::specs::Unstructured::unstructured))]
pub fn unstructured(alloc: Global, value: &Json) -> Result<Value, Refused>
    ensures value { IfOk result (λ v. view v ≡ unstructured (json_view value.now)) }
    ensures memory { IfErr result (λ e. e ≡ Refused.Memory) }
{
    match value {
        Json::Null => Ok(Value::Null),
        Json::Bool(truth) => Ok(Value::Bool(*truth)),
        Json::Number(number) => Ok(bind_number(number)),
        Json::String(chars) => bind_text(alloc, chars.as_str()),
        Json::Array(items) => Value::from_items(alloc, unstructured_items(alloc, items)?),
        Json::Object(members) => Value::from_entries(alloc, unstructured_entries(alloc, members)?),
    }
}

#[cycle(unstructured)]
fn unstructured_items(alloc: Global, items: &Vec<Json>) -> Result<Vec<Value>, Refused>
    ensures items { IfOk result (λ v. items_view v.items
        ≡ unstructured_items (json_items_view items.now.items)) }
    ensures memory { IfErr result (λ e. e ≡ Refused.Memory) }
{
    let mut values = Vec::with_capacity(alloc, items.len())?;
    for item in items {
        values.push(unstructured(alloc, item)?)?;
    }
    Ok(values)
}

#[cycle(unstructured)]
fn unstructured_entries(alloc: Global, members: &Members<String, Json>) -> Result<Entries, Refused>
    ensures entries { IfOk result (λ m. entries_view m.entries
        ≡ unstructured_entries (members_view members.now.entries)) }
    ensures memory { IfErr result (λ e. e ≡ Refused.Memory) }
{
    let mut entries = Entries::new(alloc);
    for (key, member) in members.iter().rev() {
        let name = String::from_str(alloc, key.as_str())?;
        let value = unstructured(alloc, member)?;
        put_entry(alloc, &mut entries, name, value)?;
    }
    Ok(entries)
}
