//! Conversion of JSON values to CEL by a schema (Kubernetes documentation, "Use CEL
//! validation rules", the CEL types of schema types and the escaping of property names).
ghost use Rattle.std.specs.Prelude.{◌≡◌, ◌≤◌, ◌-◌, IfErr, IfOk};
ghost use Rattle.serde_json.specs.View.{view as json_view, items_view as json_items_view, members_view};
ghost use Rattle.cel_value.specs.View.{view, items_view, entries_view};
ghost use Rattle.kube_schema_values.specs.Conversion.{to_cel, to_cel_by, entries_by, items_by, key_in, levels, member_by, member_key, object_by};

use crate::MAX_SCHEMA_DEPTH;
use crate::format::bind_formatted;
use crate::names::MemberKeys;
use crate::node::Node;
use crate::resource::put_resource_fields;
use crate::values::{bind_number, bind_plain_with, put_shared};
use cel_value::{Entries, Refused, Text, Value};
use serde_json::{Map as Members, Value as Json};
use std::alloc::Global;

/// Converts a JSON value to CEL by a node of a schema, `depth` steps below the root.
///
/// Strings are converted by the node's format, members and items by
/// their own nodes, and keys are escaped unless the node is a map node.
/// From depth 65 on, values are converted plainly, without a schema.
///
/// # Errors
///
/// [`Refused`] if memory is refused.
pub fn bind_at<N: Node>(
    alloc: Global,
    node: N,
    value: &Json,
    depth: usize,
) -> Result<Value, Refused>
    ensures value { IfOk result (λ v. view v
        ≡ to_cel N.accessors (levels depth) (N.seen node) (json_view value.now)) }
    ensures memory { IfErr result (λ e. e ≡ Refused.Memory) }
{
    let mut keys = MemberKeys::new(alloc);
    let bound = bind_with(alloc, node, value, depth, &mut keys)?;
    Ok(bound)
}

// Converts a value like `bind_at`, reusing the keys in `keys`.
#[cycle(bind)]
fn bind_with<N: Node>(
    alloc: Global,
    node: N,
    value: &Json,
    depth: usize,
    keys: &mut MemberKeys,
) -> Result<Value, Refused>
    ensures value { IfOk result (λ v. view v
        ≡ to_cel N.accessors (levels depth) (N.seen node) (json_view value.now)) }
    ensures memory { IfErr result (λ e. e ≡ Refused.Memory) }
{
    if depth > MAX_SCHEMA_DEPTH {
        let plain = bind_plain_with(alloc, value, keys)?;
        return Ok(plain);
    }
    let bound = bind_by(alloc, node, value, depth, keys)?;
    Ok(bound)
}

// Converts a value by a node whose depth is at most 64.
#[cycle(bind)]
#[tactic(auto, unfolding(crate::specs::Conversion::to_cel_by))]
fn bind_by<N: Node>(
    alloc: Global,
    node: N,
    value: &Json,
    depth: usize,
    keys: &mut MemberKeys,
) -> Result<Value, Refused>
    requires { depth ≤ 64 }
    ensures value { IfOk result (λ v. view v
        ≡ to_cel_by N.accessors (to_cel N.accessors (64 - depth)) (N.seen node) (json_view value.now)) }
    ensures memory { IfErr result (λ e. e ≡ Refused.Memory) }
{
    match value {
        Json::Null => Ok(Value::Null),
        Json::Bool(truth) => Ok(Value::Bool(*truth)),
        Json::Number(number) => Ok(bind_number(number)),
        Json::String(chars) => bind_formatted(alloc, node.format(), chars.as_str()),
        Json::Array(items) => match node.items() {
            Some(inner) => Value::from_items(
                alloc,
                bind_items(alloc, inner, items, depth + 1, keys)?,
            ),
            None => bind_plain_with(alloc, value, keys),
        },
        Json::Object(members) => {
            Value::from_entries(alloc, bind_object(alloc, node, members, depth, keys)?)
        }
    }
}

// Converts the items of a list, all by one node.
#[cycle(bind)]
fn bind_items<N: Node>(
    alloc: Global,
    node: N,
    items: &Vec<Json>,
    depth: usize,
    keys: &mut MemberKeys,
) -> Result<Vec<Value>, Refused>
    requires { depth ≤ 65 }
    ensures items { IfOk result (λ v. items_view v.items
        ≡ items_by (to_cel N.accessors (65 - depth) (N.seen node)) (json_items_view items.now.items)) }
    ensures memory { IfErr result (λ e. e ≡ Refused.Memory) }
{
    if items.len() > 1 {
        keys.keep_names();
    }
    let mut bound = Vec::with_capacity(alloc, items.len())?;
    for item in items {
        bound.push(bind_with(alloc, node, item, depth, keys)?)?;
    }
    Ok(bound)
}

// Converts the members of an object to entries, adding
// the fields of a resource if the node is embedded.
#[cycle(bind)]
#[tactic(auto, unfolding(crate::specs::Conversion::object_by))]
fn bind_object<N: Node>(
    alloc: Global,
    node: N,
    members: &Members<String, Json>,
    depth: usize,
    keys: &mut MemberKeys,
) -> Result<Entries, Refused>
    requires { depth ≤ 64 }
    ensures entries { IfOk result (λ m. entries_view m.entries
        ≡ object_by N.accessors (to_cel N.accessors (64 - depth)) (N.seen node)
        (members_view members.now.entries)) }
    ensures memory { IfErr result (λ e. e ≡ Refused.Memory) }
{
    let mut entries = bind_members(alloc, node, members, depth, keys)?;
    if !node.is_embedded() {
        return Ok(entries);
    }
    put_resource_fields(alloc, members, &mut entries)?;
    Ok(entries)
}

#[cycle(bind)]
fn bind_members<N: Node>(
    alloc: Global,
    node: N,
    members: &Members<String, Json>,
    depth: usize,
    keys: &mut MemberKeys,
) -> Result<Entries, Refused>
    requires { depth ≤ 64 }
    ensures entries { IfOk result (λ m. entries_view m.entries
        ≡ entries_by (member_key N.accessors (N.seen node))
        (member_by N.accessors (to_cel N.accessors (64 - depth)) (N.seen node))
        (members_view members.now.entries)) }
    ensures memory { IfErr result (λ e. e ≡ Refused.Memory) }
{
    let keeps_keys = node.is_map();
    let mut bound = Entries::new(alloc);
    for (key, member) in members.iter().rev() {
        let name = bind_key(keeps_keys, key.as_str(), keys)?;
        let value = bind_member(alloc, node, key.as_str(), member, depth, keys)?;
        put_shared(&mut bound, name, value)?;
    }
    Ok(bound)
}

// Returns the key of a member: its name if `keeps_keys`, as for a map node, else its escaped name.
fn bind_key(keeps_keys: bool, name: &str, keys: &mut MemberKeys) -> Result<Text, Refused>
    ensures key { IfOk result (λ s. s ≡ key_in keeps_keys name.now) }
    ensures memory { IfErr result (λ e. e ≡ Refused.Memory) }
{
    if keeps_keys {
        let key = keys.unescaped(name)?;
        return Ok(key);
    }
    let key = keys.escaped(name)?;
    Ok(key)
}

// Converts a member by its node, or plainly if it has none.
#[cycle(bind)]
#[tactic(auto, unfolding(crate::specs::Conversion::member_by))]
fn bind_member<N: Node>(
    alloc: Global,
    node: N,
    name: &str,
    member: &Json,
    depth: usize,
    keys: &mut MemberKeys,
) -> Result<Value, Refused>
    requires { depth ≤ 64 }
    ensures value { IfOk result (λ v. view v
        ≡ member_by N.accessors (to_cel N.accessors (64 - depth)) (N.seen node) name.now
        (json_view member.now)) }
    ensures memory { IfErr result (λ e. e ≡ Refused.Memory) }
{
    let Some(inner) = node.member(name) else {
        let plain = bind_plain_with(alloc, member, keys)?;
        return Ok(plain);
    };
    let bound = bind_with(alloc, inner, member, depth + 1, keys)?;
    Ok(bound)
}
