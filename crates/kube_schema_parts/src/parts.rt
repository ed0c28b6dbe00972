//! Conversion of the part of a JSON value that is read.
ghost use Rattle.std.specs.Prelude.{◌≡◌, ◌≤◌, ◌-◌, ◌++◌, ◌∷◌, [], List, true, None, Some, IfErr, IfOk, IfSome, OnOk, length, map, option_copied, option_map, take};
ghost use Rattle.serde_json.specs.Data.{array, object};
ghost use Rattle.serde_json.specs.Find.{get_member};
ghost use Rattle.serde_json.specs.View.{view as json_view, items_view, members_view};
ghost use Rattle.cel_demand.specs.Alike.{Alike, ListsAlike};
ghost use Rattle.cel_demand.specs.Demand.{part_of, members_view as demands_view};
ghost use Rattle.cel_demand.specs.Part.{each_item, some_members};
ghost use Rattle.cel_demand.specs.Places.{Entry, name_of};
ghost use Rattle.cel_value.specs.Data as bound_data;
ghost use Rattle.cel_value.specs.Data.{Data, text_key};
ghost use Rattle.cel_value.specs.Find.{find};
ghost use Rattle.cel_value.specs.Shared.{shared_entries};
ghost use Rattle.cel_value.specs.View.{view, entries_view};
ghost use Rattle.kube_schema_values.specs.Conversion.{to_cel, levels};
ghost use Rattle.kube_schema_values.specs.Escape.{escape};
ghost use Rattle.std.specs.List.Sorted.{IsStrictlySortedBy};
ghost use Rattle.cel_value.specs.Keys.{key_cmp, put};
ghost use Rattle.kube_schema_parts.specs.Rows.{AreRowsOf, IsRowAdded};
ghost use Rattle.kube_schema_parts.specs.Parts.{AreNamesIn, AreOwnNames, AreParts, HasOwnNames, entries_at, name_keys, is_embedded_at, is_map_at, items_node, key_at, node_of_member, scalar_of, value_at};

use cel_demand::Demand;
use cel_value::{Entries, Key, MapKeys, MapRows, Refused, SharedEntries, Text, Value};
use kube_schema_values::{
    MAX_SCHEMA_DEPTH, MemberKeys, Node, bind_at, bind_number, bind_plain_with, is_its_own_escape,
};
use serde_json::{Map as Members, Value as Json};
use std::alloc::Global;

/// The least number of items whose parts are made together.
const FEW_ROWS: usize = 4;

/// Converts the demanded part of a JSON value to CEL, by a node of a schema,
/// `depth` steps below the root. What isn't demanded may be missing.
///
/// # Errors
///
/// [`Refused`] if memory is refused.
pub fn bind_part_at<N: Node>(
    alloc: Global,
    node: N,
    value: &Json,
    depth: usize,
    demand: &Demand,
) -> Result<Value, Refused>
    ensures value { IfOk result (λ v. Alike (part_of demand.now) (view v)
        (to_cel N.accessors (levels depth) (N.seen node) (json_view value.now))) }
    ensures memory { IfErr result (λ e. e ≡ Refused.Memory) }
{
    let mut keys = MemberKeys::new(alloc);
    let part = part_with(alloc, Some(node), value, depth, demand, false, &mut keys)?;
    Ok(part)
}

// Converts a part like `bind_part_at`, by a node if there is one, reusing the keys in `keys`.
// `own` says that the name of each demanded member is known to be its own escape.
#[cycle(part)]
#[inline(always)]
pub(crate) fn part_with<N: Node>(
    alloc: Global,
    node: Option<N>,
    value: &Json,
    depth: usize,
    demand: &Demand,
    own: bool,
    keys: &mut MemberKeys,
) -> Result<Value, Refused>
    requires { own ≡ true → HasOwnNames demand.now }
    ensures value { IfOk result (λ v. Alike (part_of demand.now) (view v)
        (value_at N.accessors (levels depth) (option_map N.seen node) (json_view value.now))) }
    ensures memory { IfErr result (λ e. e ≡ Refused.Memory) }
{
    match demand {
        Demand::Nothing => Ok(Value::Null),
        Demand::Whole => {
            let whole = bind_whole(alloc, node, value, depth, keys)?;
            Ok(whole)
        }
        Demand::Items(item) => {
            let list = list_part(alloc, node, value, depth, item, keys)?;
            Ok(list)
        }
        Demand::Members(members) => {
            let map = map_part(alloc, node, value, depth, members, own, keys)?;
            Ok(map)
        }
    }
}

// Converts a part of each item, if the value is a list whose
// items aren't demanded whole. Converts any other value whole.
#[cycle(part)]
#[inline(never)]
fn list_part<N: Node>(
    alloc: Global,
    node: Option<N>,
    value: &Json,
    depth: usize,
    item: &Demand,
    keys: &mut MemberKeys,
) -> Result<Value, Refused>
    ensures value { IfOk result (λ v. Alike (each_item (part_of item.now)) (view v)
        (value_at N.accessors (levels depth) (option_map N.seen node) (json_view value.now))) }
    ensures memory { IfErr result (λ e. e ≡ Refused.Memory) }
{
    if let Some(items) = list_of(value, depth, item) {
        let parts = item_parts(alloc, node_of_items(node), items, depth + 1, item, keys)?;
        let list = Value::from_items(alloc, parts)?;
        return Ok(list);
    }
    let whole = bind_whole(alloc, node, value, depth, keys)?;
    Ok(whole)
}

// Converts the parts of items, all by one node or all by none.
#[cycle(part)]
fn item_parts<N: Node>(
    alloc: Global,
    node: Option<N>,
    items: &Vec<Json>,
    depth: usize,
    item: &Demand,
    keys: &mut MemberKeys,
) -> Result<Vec<Value>, Refused>
    ensures items { IfOk result (λ parts. ListsAlike (Alike (part_of item.now)) (map view parts.items)
        (map (λ v. value_at N.accessors (levels depth) (option_map N.seen node) (json_view v))
        items.now.items)) }
    ensures memory { IfErr result (λ e. e ≡ Refused.Memory) }
{
    if items.len() > 1 {
        keys.keep_names();
    }
    let own = has_own_names(item);
    let made = shared_names(alloc, item)?;
    let names = made.as_ref();
    let mut parts = row_parts(alloc, node, items, depth, item, names, keys)?;
    for index in parts.len()..items.len() {
        let part = item_part(alloc, node, &items[index], depth, item, own, names, keys)?;
        parts.push(part)?;
    }
    Ok(parts)
}

// Converts the parts of the first items to maps that lie side by side, as long as each item has all
// members that are demanded, and as their values can lie there.
#[cycle(part)]
fn row_parts<N: Node>(
    alloc: Global,
    node: Option<N>,
    items: &Vec<Json>,
    depth: usize,
    item: &Demand,
    names: Option<&MapKeys>,
    keys: &mut MemberKeys,
) -> Result<Vec<Value>, Refused>
    requires names { IfSome (option_copied names) (λ ks. AreNamesIn item.now ks) }
    ensures count { IfOk result (λ parts. length parts.items ≤ length items.now.items) }
    ensures items { IfOk result (λ parts. ListsAlike (Alike (part_of item.now)) (map view parts.items)
        (map (λ v. value_at N.accessors (levels depth) (option_map N.seen node) (json_view v))
        (take (length parts.items) items.now.items))) }
    ensures memory { IfErr result (λ e. e ≡ Refused.Memory) }
{
    let mut parts = Vec::with_capacity(alloc, items.len())?;
    if items.len() < FEW_ROWS {
        return Ok(parts);
    }
    let Demand::Members(members) = item else {
        return Ok(parts);
    };
    let Some(names) = names else {
        return Ok(parts);
    };
    let mut rows = MapRows::with_capacity(alloc, names, items.len())?;
    let count = add_rows(alloc, node, items, depth, members, &mut rows, keys)?;
    rows.add_maps(alloc, count, &mut parts)?;
    Ok(parts)
}

// Adds rows for the first items, and returns how many are whole.
#[cycle(part)]
fn add_rows<N: Node>(
    alloc: Global,
    node: Option<N>,
    items: &Vec<Json>,
    depth: usize,
    members: &Vec<(Text, Demand)>,
    rows: &mut MapRows,
    keys: &mut MemberKeys,
) -> Result<usize, Refused>
    requires own { AreOwnNames members.now.items }
    requires names { rows.old.keys ≡ name_keys members.now.items }
    requires sorted { IsStrictlySortedBy key_cmp rows.old.keys }
    requires none { rows.old.values ≡ [] }
    ensures names { rows.new.keys ≡ rows.old.keys }
    ensures rows { IfOk result (λ count. AreRowsOf N.accessors (levels depth) (option_map N.seen node)
        members.now.items items.now.items count rows.new) }
    ensures memory { IfErr result (λ e. e ≡ Refused.Memory) }
{
    let mut count = 0;
    for value in items {
        if !add_row(alloc, node, value, depth, members, rows, keys)? {
            return Ok(count);
        }
        count += 1;
    }
    Ok(count)
}

// Adds a row for an item, if it is an object that has all members. Else the row isn't whole.
#[cycle(part)]
fn add_row<N: Node>(
    alloc: Global,
    node: Option<N>,
    value: &Json,
    depth: usize,
    members: &Vec<(Text, Demand)>,
    rows: &mut MapRows,
    keys: &mut MemberKeys,
) -> Result<bool, Refused>
    requires own { AreOwnNames members.now.items }
    requires names { rows.old.keys ≡ name_keys members.now.items }
    requires sorted { IsStrictlySortedBy key_cmp rows.old.keys }
    ensures names { rows.new.keys ≡ rows.old.keys }
    ensures row { IfOk result (λ done. IsRowAdded N.accessors (levels depth) (option_map N.seen node)
        members.now.items (json_view value.now) done rows.old rows.new) }
    ensures memory { IfErr result (λ e. e ≡ Refused.Memory) }
{
    let Some(object) = object_of(value, depth) else {
        return Ok(false);
    };
    for member in members {
        let found = member_part(alloc, node, object, depth, member, keys)?;
        let Some(part) = found else {
            return Ok(false);
        };
        if !rows.push(part)? {
            return Ok(false);
        }
    }
    Ok(true)
}

// Converts the part of an item. If it is a map that has all members that are
// demanded, it shares their names with the other items.
#[cycle(part)]
#[inline(always)]
fn item_part<N: Node>(
    alloc: Global,
    node: Option<N>,
    value: &Json,
    depth: usize,
    item: &Demand,
    own: bool,
    names: Option<&MapKeys>,
    keys: &mut MemberKeys,
) -> Result<Value, Refused>
    requires own { own ≡ true → HasOwnNames item.now }
    requires names { IfSome (option_copied names) (λ ks. AreNamesIn item.now ks) }
    ensures value { IfOk result (λ v. Alike (part_of item.now) (view v)
        (value_at N.accessors (levels depth) (option_map N.seen node) (json_view value.now))) }
    ensures memory { IfErr result (λ e. e ≡ Refused.Memory) }
{
    match (item, names) {
        (Demand::Members(members), Some(names)) => {
            let found = shared_part(alloc, node, value, depth, members, names, keys)?;
            match found {
                Some(part) => Ok(part),
                None => part_with(alloc, node, value, depth, item, own, keys),
            }
        }
        _ => part_with(alloc, node, value, depth, item, own, keys),
    }
}

// Converts some members of a map, which share their names with other maps. Returns
// None if the value isn't an object whose members can be found, or if it lacks one.
#[cycle(part)]
fn shared_part<N: Node>(
    alloc: Global,
    node: Option<N>,
    value: &Json,
    depth: usize,
    members: &Vec<(Text, Demand)>,
    names: &MapKeys,
    keys: &mut MemberKeys,
) -> Result<Option<Value>, Refused>
    requires own { AreOwnNames members.now.items }
    requires names { names.now ≡ name_keys members.now.items }
    ensures value { IfOk result (λ found. IfSome found (λ v.
        Alike (some_members (demands_view members.now.items)) (view v)
        (value_at N.accessors (levels depth) (option_map N.seen node) (json_view value.now)))) }
    ensures memory { IfErr result (λ e. e ≡ Refused.Memory) }
{
    let Some(object) = object_of(value, depth) else {
        return Ok(None);
    };
    let found = shared_members(alloc, node, object, depth, members, names, keys)?;
    match found {
        Some(parts) => {
            let map = Value::from_shared(alloc, parts)?;
            Ok(Some(map))
        }
        None => Ok(None),
    }
}

// Converts the parts of members, if the object has all of them.
#[cycle(part)]
fn shared_members<N: Node>(
    alloc: Global,
    node: Option<N>,
    object: &Members<String, Json>,
    depth: usize,
    members: &Vec<(Text, Demand)>,
    names: &MapKeys,
    keys: &mut MemberKeys,
) -> Result<Option<SharedEntries>, Refused>
    requires within { depth ≤ 64 }
    requires own { AreOwnNames members.now.items }
    requires names { names.now ≡ name_keys members.now.items }
    ensures members { IfOk result (λ found. IfSome found (λ parts. AreParts (demands_view members.now.items)
        (entries_view (shared_entries parts))
        (entries_at N.accessors (64 - depth) (option_map N.seen node) (members_view object.now.entries)))) }
    ensures memory { IfErr result (λ e. e ≡ Refused.Memory) }
{
    let mut parts = SharedEntries::new(alloc, names)?;
    for member in members {
        let found = member_part(alloc, node, object, depth, member, keys)?;
        let Some(part) = found else {
            return Ok(None);
        };
        parts.push(part)?;
    }
    Ok(Some(parts))
}

// Converts the part of a member whose name is its own escape, if the object has it.
#[cycle(part)]
#[inline(always)]
pub(crate) fn member_part<N: Node>(
    alloc: Global,
    node: Option<N>,
    object: &Members<String, Json>,
    depth: usize,
    member: &(Text, Demand),
    keys: &mut MemberKeys,
) -> Result<Option<Value>, Refused>
    requires within { depth ≤ 64 }
    requires own { escape (name_of member.now) ≡ name_of member.now }
    ensures part { IfOk result (λ found. IfSome found (λ v. (w : Data) × (find (text_key (name_of member.now))
        (entries_at N.accessors (64 - depth) (option_map N.seen node)
        (members_view object.now.entries)) ≡ Some w)
        × Alike (part_of member.now.1) (view v) w)) }
    ensures memory { IfErr result (λ e. e ≡ Refused.Memory) }
{
    let name = member.0.as_str();
    let Some(value) = member_of(object, name) else {
        return Ok(None);
    };
    let inner = node_of_member(node, name);
    let part = part_with(alloc, inner, value, depth + 1, &member.1, false, keys)?;
    Ok(Some(part))
}

// The names of the demanded members as keys that maps can share, if each is known to
// be its own escape. The contract only covers names that are returned.
fn shared_names(alloc: Global, item: &Demand) -> Result<Option<MapKeys>, Refused>
    ensures names { IfOk result (λ made. IfSome made (λ ks. AreNamesIn item.now ks)) }
    ensures memory { IfErr result (λ e. e ≡ Refused.Memory) }
{
    match item {
        Demand::Nothing => Ok(None),
        Demand::Whole => Ok(None),
        Demand::Items(_) => Ok(None),
        Demand::Members(members) => {
            if !are_own_names(members) {
                return Ok(None);
            }
            let names = member_names(alloc, members)?;
            let made = MapKeys::of(alloc, names)?;
            Ok(made)
        }
    }
}

// The names of members as keys.
fn member_names(alloc: Global, members: &Vec<(Text, Demand)>) -> Result<Vec<Key>, Refused>
    ensures names { IfOk result (λ ks. ks.items ≡ name_keys members.now.items) }
    ensures memory { IfErr result (λ e. e ≡ Refused.Memory) }
{
    let mut names = Vec::with_capacity(alloc, members.len())?;
    for member in members {
        names.push(Key::String(member.0.clone()?))?;
    }
    Ok(names)
}

// Converts some members of a map, if the value is an object whose
// members can be found by these names. Converts any other value whole.
#[cycle(part)]
#[inline(never)]
fn map_part<N: Node>(
    alloc: Global,
    node: Option<N>,
    value: &Json,
    depth: usize,
    members: &Vec<(Text, Demand)>,
    own: bool,
    keys: &mut MemberKeys,
) -> Result<Value, Refused>
    requires { own ≡ true → AreOwnNames members.now.items }
    ensures value { IfOk result (λ v. Alike (some_members (demands_view members.now.items)) (view v)
        (value_at N.accessors (levels depth) (option_map N.seen node) (json_view value.now))) }
    ensures memory { IfErr result (λ e. e ≡ Refused.Memory) }
{
    if let Some(object) = object_of(value, depth) {
        let found = member_parts(alloc, node, object, depth, members, own, keys)?;
        if let Some(parts) = found {
            let map = Value::from_entries(alloc, parts)?;
            return Ok(map);
        }
    }
    let whole = bind_whole(alloc, node, value, depth, keys)?;
    Ok(whole)
}

// Converts the parts of members. Returns None if one of them can't be converted on its own.
#[cycle(part)]
fn member_parts<N: Node>(
    alloc: Global,
    node: Option<N>,
    object: &Members<String, Json>,
    depth: usize,
    members: &Vec<(Text, Demand)>,
    own: bool,
    keys: &mut MemberKeys,
) -> Result<Option<Entries>, Refused>
    requires within { depth ≤ 64 }
    requires own { own ≡ true → AreOwnNames members.now.items }
    ensures members { IfOk result (λ found. IfSome found (λ parts. AreParts (demands_view members.now.items)
        (entries_view parts.entries)
        (entries_at N.accessors (64 - depth) (option_map N.seen node) (members_view object.now.entries)))) }
    ensures memory { IfErr result (λ e. e ≡ Refused.Memory) }
{
    let mut parts = Entries::with_capacity(alloc, members.len())?;
    for member in members {
        if !add_part(alloc, node, object, depth, member, own, &mut parts, keys)? {
            return Ok(None);
        }
    }
    Ok(Some(parts))
}

// Adds the part of one more member, if the object has it. Returns false if
// the member's key isn't its name, if an embedded resource lacks the member
// (it may have the field all the same), or if the member was added before.
#[cycle(part)]
fn add_part<N: Node>(
    alloc: Global,
    node: Option<N>,
    object: &Members<String, Json>,
    depth: usize,
    member: &(Text, Demand),
    own: bool,
    parts: &mut Entries,
    keys: &mut MemberKeys,
) -> Result<bool, Refused>
    requires within { depth ≤ 64 }
    requires own { own ≡ true → escape (name_of member.now) ≡ name_of member.now }
    ensures added { IfOk result (λ added. added ≡ true → (bound : bound_data.Entries)
        → bound ≡ entries_at N.accessors (64 - depth) (option_map N.seen node)
        (members_view object.now.entries)
        → (done : List Entry) → AreParts (demands_view done) (entries_view parts.old.entries) bound
        → AreParts (demands_view (done ++ member.now ∷ [])) (entries_view parts.new.entries) bound) }
    ensures memory { IfErr result (λ e. e ≡ Refused.Memory) }
{
    let name = member.0.as_str();
    let is_found = is_found_by(node, name, own, keys)?;
    if !is_found {
        return Ok(false);
    }
    let Some(value) = member_of(object, name) else {
        return Ok(!is_embedded(node));
    };
    let inner = node_of_member(node, name);
    let part = part_with(alloc, inner, value, depth + 1, &member.1, false, keys)?;
    let is_new = put_new(parts, member.0.clone()?, part)?;
    Ok(is_new)
}

// Converts the whole value, by the node if there is one, else plainly.
#[inline(always)]
fn bind_whole<N: Node>(
    alloc: Global,
    node: Option<N>,
    value: &Json,
    depth: usize,
    keys: &mut MemberKeys,
) -> Result<Value, Refused>
    ensures value { IfOk result (λ v. view v
        ≡ value_at N.accessors (levels depth) (option_map N.seen node) (json_view value.now)) }
    ensures memory { IfErr result (λ e. e ≡ Refused.Memory) }
{
    if let Some(scalar) = scalar_of(value) {
        return Ok(scalar);
    }
    match node {
        Some(node) => bind_at(alloc, node, value, depth),
        None => bind_plain_with(alloc, value, keys),
    }
}

// The value of null, of a bool or of a number, which is the same by every node.
fn scalar_of(value: &Json) -> Option<Value>
    ensures { option_map view result ≡ scalar_of (json_view value.now) }
{
    match value {
        Json::Null => Some(Value::Null),
        Json::Bool(truth) => Some(Value::Bool(*truth)),
        Json::Number(number) => Some(bind_number(number)),
        _ => None,
    }
}

// Reports whether the name of each demanded member is known
// to be its own escape. The contract only covers true.
fn has_own_names(demand: &Demand) -> bool
    ensures { result ≡ true → HasOwnNames demand.now }
{
    match demand {
        Demand::Members(members) => are_own_names(members),
        _ => false,
    }
}

// Reports whether each name is known to be its own escape. The contract only covers true.
fn are_own_names(members: &Vec<(Text, Demand)>) -> bool
    ensures { result ≡ true → AreOwnNames members.now.items }
{
    for member in members {
        if !is_its_own_escape(member.0.as_str()) {
            return false;
        }
    }
    true
}

// The node of list items, if any.
fn node_of_items<N: Node>(node: Option<N>) -> Option<N>
    ensures { option_map N.seen result ≡ items_node N.accessors (option_map N.seen node) }
{
    node?.items()
}

// The node of a member, if any.
fn node_of_member<N: Node>(node: Option<N>, name: &str) -> Option<N>
    ensures { option_map N.seen result ≡ node_of_member N.accessors (option_map N.seen node) name.now }
{
    node?.member(name)
}

// Reports whether there is a node and it is a map node.
fn is_map<N: Node>(node: Option<N>) -> bool
    ensures { result ≡ is_map_at N.accessors (option_map N.seen node) }
{
    match node {
        Some(node) => node.is_map(),
        None => false,
    }
}

// Reports whether there is a node and its objects are embedded resources.
fn is_embedded<N: Node>(node: Option<N>) -> bool
    ensures { result ≡ is_embedded_at N.accessors (option_map N.seen node) }
{
    match node {
        Some(node) => node.is_embedded(),
        None => false,
    }
}

// The items of a list, if the depth is at most 64 and less than the whole of each item is demanded.
fn list_of<'a>(value: &'a Json, depth: usize, item: &Demand) -> Option<&'a Vec<Json>>
    ensures within { IfSome result (λ _. depth ≤ 64) }
    ensures items { IfSome result (λ items. json_view value.now ≡ array (items_view items.now.items)) }
{
    if depth > MAX_SCHEMA_DEPTH {
        return None;
    }
    if matches!(item, Demand::Whole) {
        return None;
    }
    match value {
        Json::Array(items) => Some(items),
        _ => None,
    }
}

// The members of an object, if the depth is at most 64.
pub(crate) fn object_of(value: &Json, depth: usize) -> Option<&Members<String, Json>>
    ensures within { IfSome result (λ _. depth ≤ 64) }
    ensures members { IfSome result (λ m. json_view value.now ≡ object (members_view m.now.entries)) }
{
    if depth > MAX_SCHEMA_DEPTH {
        return None;
    }
    match value {
        Json::Object(members) => Some(members),
        _ => None,
    }
}

// Reports whether a name is also the key of the member of that name. The contract only covers true.
fn is_found_by<N: Node>(
    node: Option<N>,
    name: &str,
    own: bool,
    keys: &mut MemberKeys,
) -> Result<bool, Refused>
    requires { own ≡ true → escape name.now ≡ name.now }
    ensures found { IfOk result (λ is_found. is_found ≡ true
        → key_at N.accessors (option_map N.seen node) name.now ≡ name.now) }
    ensures memory { IfErr result (λ e. e ≡ Refused.Memory) }
{
    if own {
        return Ok(true);
    }
    if is_map(node) || is_its_own_escape(name) {
        return Ok(true);
    }
    let key = keys.escaped(name)?;
    Ok(key.as_str() == name)
}

// The member of a name, if any.
fn member_of<'a>(object: &'a Members<String, Json>, name: &str) -> Option<&'a Json>
    ensures { option_map (λ v. json_view v.now) result
        ≡ get_member name.now (members_view object.now.entries) }
{
    object.get(name)
}

// Inserts a value into a map at a shared string. Returns whether the key is new.
fn put_new(entries: &mut Entries, key: Text, value: Value) -> Result<bool, Refused>
    ensures entered { OnOk result (entries_view entries.new.entries
        ≡ put (text_key key) (view value) (entries_view entries.old.entries)) }
    ensures new { IfOk result (λ is_new. is_new ≡ true
        → find (text_key key) (entries_view entries.old.entries) ≡ None) }
    ensures memory { IfErr result (λ e. e ≡ Refused.Memory) }
{
    let before = entries.insert(Key::String(key), value)?;
    Ok(before.is_none())
}
