//! Conversion of the part of a JSON value that is read, in place of an earlier value.
ghost use Rattle.std.specs.Prelude.{◌≡◌, ◌≤◌, ◌-◌, true, Some, IfErr, IfOk, OnOk, option_map, slice_get};
ghost use Rattle.serde_json.specs.View.{view as json_view, members_view};
ghost use Rattle.cel_demand.specs.Alike.{Alike, MembersAlike};
ghost use Rattle.cel_demand.specs.Demand.{part_of, members_view as demands_view};
ghost use Rattle.cel_value.specs.Data.{text_key};
ghost use Rattle.cel_value.specs.Find.{find};
ghost use Rattle.cel_value.specs.Replaced.{entry_keys};
ghost use Rattle.cel_value.specs.View.{view};
ghost use Rattle.kube_schema_values.specs.Conversion.{to_cel, levels};
ghost use Rattle.kube_schema_parts.specs.Parts.{entries_at, value_at};
ghost use Rattle.kube_schema_parts.specs.Replaced.{IsPutAt};

use crate::parts::{member_part, object_of, part_with};
use cel_demand::Demand;
use cel_value::{Key, Map, Refused, Text, Value};
use kube_schema_values::{MemberKeys, Node, is_its_own_escape};
use serde_json::{Map as Members, Value as Json};
use std::alloc::Global;
use std::mem;

/// Converts the demanded part of a JSON value to CEL, like
/// [`bind_part_at`](crate::bind_part_at), and puts it in place of another value. If that one is a
/// map with the demanded members, as the same demand left it, its memory is used again.
///
/// # Errors
///
/// [`Refused`] if memory is refused. Nothing is known of the value in its place then.
pub fn rebind_part_at<N: Node>(
    alloc: Global,
    node: N,
    value: &Json,
    depth: usize,
    demand: &Demand,
    place: &mut Value,
) -> Result<(), Refused>
    ensures value { OnOk result (Alike (part_of demand.now) (view place.new)
        (to_cel N.accessors (levels depth) (N.seen node) (json_view value.now))) }
    ensures memory { IfErr result (λ e. e ≡ Refused.Memory) }
{
    let mut keys = MemberKeys::new(alloc);
    if rebind_map(alloc, node, value, depth, demand, place, &mut keys)? {
        return Ok(());
    }
    let part = part_with(alloc, Some(node), value, depth, demand, false, &mut keys)?;
    drop(mem::replace(place, part));
    Ok(())
}

// Converts the demanded members of an object into a map that has entries of their names. Returns
// false if there is no such map, or no such object. Nothing is known of the place then.
fn rebind_map<N: Node>(
    alloc: Global,
    node: N,
    value: &Json,
    depth: usize,
    demand: &Demand,
    place: &mut Value,
    keys: &mut MemberKeys,
) -> Result<bool, Refused>
    ensures value { IfOk result (λ done. done ≡ true → Alike (part_of demand.now) (view place.new)
        (to_cel N.accessors (levels depth) (N.seen node) (json_view value.now))) }
    ensures memory { IfErr result (λ e. e ≡ Refused.Memory) }
{
    let Demand::Members(members) = demand else {
        return Ok(false);
    };
    let Some(object) = object_of(value, depth) else {
        return Ok(false);
    };
    let Value::Map(map) = place else {
        return Ok(false);
    };
    let is_put = put_members(alloc, node, object, depth, members, map, keys)?;
    Ok(is_put)
}

// Puts the parts of members in place of the values of a map's entries of the same names, in order.
// Returns false if the map has others, or if the object lacks a member.
fn put_members<N: Node>(
    alloc: Global,
    node: N,
    object: &Members<String, Json>,
    depth: usize,
    members: &Vec<(Text, Demand)>,
    map: &mut Map,
    keys: &mut MemberKeys,
) -> Result<bool, Refused>
    requires within { depth ≤ 64 }
    ensures members { IfOk result (λ done. done ≡ true → MembersAlike (demands_view members.now.items)
        (λ x. find (text_key x) map.new)
        (λ x. find (text_key x)
        (entries_at N.accessors (64 - depth) (Some (N.seen node)) (members_view object.now.entries)))) }
    ensures memory { IfErr result (λ e. e ≡ Refused.Memory) }
{
    if map.len() != members.len() {
        return Ok(false);
    }
    for index in 0..members.len() {
        let member = &members[index];
        if !put_member(alloc, node, object, depth, member, index, map, keys)? {
            return Ok(false);
        }
    }
    Ok(true)
}

// Puts the part of a member in place of the value of a map's entry at an index, if that entry's key
// is the member's name and its own escape, and if the object has the member.
fn put_member<N: Node>(
    alloc: Global,
    node: N,
    object: &Members<String, Json>,
    depth: usize,
    member: &(Text, Demand),
    index: usize,
    map: &mut Map,
    keys: &mut MemberKeys,
) -> Result<bool, Refused>
    requires within { depth ≤ 64 }
    ensures put { IfOk result (λ done. done ≡ true → IsPutAt index member.now
        (entries_at N.accessors (64 - depth) (Some (N.seen node)) (members_view object.now.entries))
        map.old map.new) }
    ensures memory { IfErr result (λ e. e ≡ Refused.Memory) }
{
    let name = member.0.as_str();
    if !has_key_at(map, index, &member.0) {
        return Ok(false);
    }
    if !is_its_own_escape(name) {
        return Ok(false);
    }
    let found = member_part(alloc, Some(node), object, depth, member, keys)?;
    match found {
        Some(part) => map.replace_at(index, part),
        None => Ok(false),
    }
}

// Reports whether it is known that the entry at an index has a name as its key. The contract only
// covers true.
fn has_key_at(map: &Map, index: usize, name: &Text) -> bool
    ensures { result ≡ true
        → slice_get (entry_keys map.now) index ≡ Some (text_key name.now) }
{
    match map.key_at(index) {
        Some(Key::String(key)) => key.is_same(name),
        _ => false,
    }
}
