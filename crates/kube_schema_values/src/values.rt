//! Conversion of JSON values to CEL without a schema: numbers by their
//! range, objects to maps with escaped keys (Kubernetes documentation,
//! "Use CEL validation rules", the CEL types of schema types).
ghost use Rattle.std.specs.Prelude.{◌≡◌, IfErr, IfOk, OnOk, OnErr, string_bytes};
ghost use Rattle.serde_json.specs.View.{view as json_view, items_view as json_items_view, members_view, number_view};
ghost use Rattle.cel_value.specs.Data.{text, text_key};
ghost use Rattle.cel_value.specs.Keys.{put};
ghost use Rattle.cel_value.specs.View.{view, items_view, entries_view};
ghost use Rattle.kube_schema_values.specs.Plain.{plain, plain_number, plain_items, plain_entries};

use crate::names::MemberKeys;
use cel_value::{Entries, Key, Refused, Text, Value};
use serde_json::{Map as Members, Number, Value as Json};
use std::alloc::Global;

/// Converts a JSON value to CEL without a schema. A number becomes an int if it fits
/// `i64`, else a uint if it fits `u64`, else a double. An object becomes a map whose
/// keys are escaped like [`escape_field_name`](crate::escape_field_name) does.
///
/// # Errors
///
/// [`Refused`] if memory is refused.
pub fn bind_plain(alloc: Global, value: &Json) -> Result<Value, Refused>
    ensures value { IfOk result (λ v. view v ≡ plain (json_view value.now)) }
    ensures memory { IfErr result (λ e. e ≡ Refused.Memory) }
{
    let mut keys = MemberKeys::new(alloc);
    let bound = bind_plain_with(alloc, value, &mut keys)?;
    Ok(bound)
}

/// Converts a value like [`bind_plain`], reusing the keys in `keys`.
///
/// # Errors
///
/// [`Refused`] if memory is refused.
#[cycle(plain)]
#[tactic(auto, unfolding(crate::specs::Plain::plain))]
pub fn bind_plain_with(alloc: Global, value: &Json, keys: &mut MemberKeys) -> Result<Value, Refused>
    ensures value { IfOk result (λ v. view v ≡ plain (json_view value.now)) }
    ensures memory { IfErr result (λ e. e ≡ Refused.Memory) }
{
    match value {
        Json::Null => Ok(Value::Null),
        Json::Bool(truth) => Ok(Value::Bool(*truth)),
        Json::Number(number) => Ok(bind_number(number)),
        Json::String(chars) => bind_text(alloc, chars.as_str()),
        Json::Array(items) => Value::from_items(alloc, bind_items(alloc, items, keys)?),
        Json::Object(members) => Value::from_entries(alloc, bind_members(alloc, members, keys)?),
    }
}

/// Converts a JSON number to CEL: an int if it fits
/// `i64`, else a uint if it fits `u64`, else a double.
pub fn bind_number(number: &Number) -> Value
    ensures { view result ≡ plain_number (number_view number.now) }
{
    if let Some(n) = number.as_i64() {
        return Value::Int(n);
    }
    match number.as_u64() {
        Some(n) => Value::UInt(n),
        None => Value::Float,
    }
}

/// Converts a string to a CEL string.
///
/// # Errors
///
/// [`Refused`] if memory is refused.
pub fn bind_text(alloc: Global, chars: &str) -> Result<Value, Refused>
    ensures value { IfOk result (λ v. view v ≡ text chars.now) }
    ensures memory { IfErr result (λ e. e ≡ Refused.Memory) }
{
    Value::of_str(alloc, chars)
}

#[cycle(plain)]
fn bind_items(
    alloc: Global,
    items: &Vec<Json>,
    keys: &mut MemberKeys,
) -> Result<Vec<Value>, Refused>
    ensures items { IfOk result (λ v. items_view v.items ≡ plain_items (json_items_view items.now.items)) }
    ensures memory { IfErr result (λ e. e ≡ Refused.Memory) }
{
    if items.len() > 1 {
        keys.keep_names();
    }
    let mut bound = Vec::with_capacity(alloc, items.len())?;
    for item in items {
        bound.push(bind_plain_with(alloc, item, keys)?)?;
    }
    Ok(bound)
}

#[cycle(plain)]
fn bind_members(
    alloc: Global,
    members: &Members<String, Json>,
    keys: &mut MemberKeys,
) -> Result<Entries, Refused>
    ensures entries { IfOk result (λ m. entries_view m.entries
        ≡ plain_entries (members_view members.now.entries)) }
    ensures memory { IfErr result (λ e. e ≡ Refused.Memory) }
{
    let mut bound = Entries::new(alloc);
    for (key, member) in members.iter().rev() {
        let name = keys.escaped(key.as_str())?;
        let value = bind_plain_with(alloc, member, keys)?;
        put_shared(&mut bound, name, value)?;
    }
    Ok(bound)
}

/// Inserts a value into a map at a string key, replacing the value that was there.
///
/// # Errors
///
/// [`Refused`] if memory is refused; the value is dropped, and the map is as it was.
pub fn put_entry(
    alloc: Global,
    entries: &mut Entries,
    key: String,
    value: Value,
) -> Result<(), Refused>
    ensures entered { OnOk result (entries_view entries.new.entries
        ≡ put (text_key (string_bytes key)) (view value) (entries_view entries.old.entries)) }
    ensures unchanged { OnErr result (entries_view entries.new.entries ≡ entries_view entries.old.entries) }
    ensures memory { IfErr result (λ e. e ≡ Refused.Memory) }
{
    let key = Text::of(alloc, key)?;
    put_shared(entries, key, value)?;
    Ok(())
}

/// Inserts a value like `put_entry`, at a shared string.
///
/// # Errors
///
/// [`Refused`] if memory is refused; the value is dropped, and the map is as it was.
pub fn put_shared(entries: &mut Entries, key: Text, value: Value) -> Result<(), Refused>
    ensures entered { OnOk result (entries_view entries.new.entries
        ≡ put (text_key key) (view value) (entries_view entries.old.entries)) }
    ensures unchanged { OnErr result (entries_view entries.new.entries ≡ entries_view entries.old.entries) }
    ensures memory { IfErr result (λ e. e ≡ Refused.Memory) }
{
    drop(entries.insert(Key::String(key), value)?);
    Ok(())
}
