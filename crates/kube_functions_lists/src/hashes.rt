//! A hash of values, by which equal lists and maps are found without comparing each with each.
ghost use Rattle.std.specs.Prelude.{◌≡◌, if◌then◌else◌};
ghost use Rattle.cel_value.specs.Same.{shapes, entry_shapes};
ghost use Rattle.cel_value.specs.View.{view};
ghost use Rattle.cel_value.specs.Keys.{key_view};
ghost use Rattle.kube_functions_lists.specs.Hashes as spec;

use cel_value::{Key, List, Map, OptionalValue, Value};

/// A hash with one more number.
#[tactic(auto, unfolding(crate::specs::Hashes::mixed))]
fn mixed(hash: u64, number: u64) -> u64
    ensures { result ≡ spec.mixed hash number }
{
    hash.wrapping_add(number)
        .wrapping_mul(11_400_714_819_323_198_485)
}

/// A hash with one more bool.
fn with_bool(hash: u64, value: bool) -> u64
    ensures { result ≡ spec.mixed hash (if value then 1 else 0) }
{
    mixed(hash, if value { 1 } else { 0 })
}

/// A hash with one more text.
fn with_bytes(hash: u64, bytes: &[u8]) -> u64
    ensures { result ≡ spec.with_bytes hash bytes.now }
{
    let mut mixture = hash;
    for byte in bytes {
        mixture = mixed(mixture, u64::from(*byte));
    }
    mixture
}

fn key_hash(key: &Key) -> u64
    ensures { result ≡ spec.key_hash (key_view key.now) }
{
    match key {
        Key::Bool(b) => with_bool(1, *b),
        Key::Int(n) => mixed(2, n.unsigned_abs()),
        Key::Uint(n) => mixed(2, *n),
        Key::String(text) => with_bytes(3, text.as_str().as_bytes()),
    }
}

/// The hash of a value. Equal values have the same hash.
#[cycle(hash)]
pub(crate) fn hash(value: &Value) -> u64
    ensures { result ≡ spec.hash (view value.now) }
{
    match value {
        Value::Null => 0,
        Value::Bool(b) => with_bool(1, *b),
        Value::Int(n) => mixed(2, n.unsigned_abs()),
        Value::UInt(n) => mixed(2, *n),
        Value::String(text) => with_bytes(3, text.as_str().as_bytes()),
        Value::Bytes(bytes) => with_bytes(4, bytes.as_slice()),
        Value::Timestamp(_) => 5,
        Value::Duration(_) => 6,
        Value::Float => 7,
        Value::Quantity(_) => 8,
        Value::List(items) => with_items(9, items.as_ref()),
        Value::Map(entries) => with_entries(10, entries),
        Value::Optional(held) => with_held(11, held),
        Value::Ip(_) => 12,
        Value::Cidr(_) => 13,
        Value::Semver(_) => 14,
        Value::Url(_) => 15,
        Value::Format(_) => 16,
    }
}

#[cycle(hash)]
fn with_held(start: u64, held: &OptionalValue) -> u64
    ensures { result ≡ spec.with_shapes start (shapes held.now) }
{
    match held.value() {
        None => start,
        Some(value) => mixed(start, hash(value)),
    }
}

#[cycle(hash)]
fn with_items(start: u64, items: &List) -> u64
    ensures { result ≡ spec.with_shapes start (shapes items.now) }
{
    let mut mixture = start;
    for item in items.as_slice() {
        mixture = mixed(mixture, hash(item));
    }
    mixture
}

#[cycle(hash)]
fn with_entries(start: u64, entries: &Map) -> u64
    ensures { result ≡ spec.with_shapes start (entry_shapes entries.now) }
{
    let mut mixture = start;
    for (key, value) in entries.iter() {
        mixture = mixed(mixed(mixture, key_hash(key)), hash(value));
    }
    mixture
}
