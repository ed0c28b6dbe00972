//! The union of demands.
ghost use Rattle.std.specs.Prelude.{ℕ, List, get_or, ◌≡◌, ◌<◌, ◌≤◌, length, IfOk, OnOk, MatchResult, option_map};
ghost use Rattle.cel_demand.specs.Demand.{part_of, members_view};
ghost use Rattle.cel_demand.specs.Part.{Part, both, both_read, all_members, with_member, part_at, has_name, part_read, without, in_items};
ghost use Rattle.cel_demand.specs.Places.{Entry, IsAt, BelongsAt};

use crate::demand::{Demand, copy_members};
use cel_value::Text;
use std::alloc::{AllocError, Global};
use std::cmp::Ordering;

/// Returns what at least one of two demands needs.
#[cycle(both)]
pub(crate) fn both(alloc: Global, first: &Demand, second: &Demand) -> Result<Demand, AllocError>
    ensures both { IfOk result (λ d. part_of d ≡ both (part_of first.now) (part_of second.now)) }
{
    match first {
        Demand::Nothing => second.copy(alloc),
        Demand::Whole => Ok(Demand::Whole),
        Demand::Items(item) => match second {
            Demand::Nothing => first.copy(alloc),
            Demand::Items(other) => {
                Ok(Demand::Items(Box::new(alloc, both(alloc, item, other)?)?))
            }
            Demand::Whole => Ok(Demand::Whole),
            Demand::Members(_) => Ok(Demand::Whole),
        },
        Demand::Members(members) => match second {
            Demand::Nothing => first.copy(alloc),
            Demand::Members(others) => {
                Ok(Demand::Members(both_members(alloc, members, others)?))
            }
            Demand::Whole => Ok(Demand::Whole),
            Demand::Items(_) => Ok(Demand::Whole),
        },
    }
}

/// Returns the members of both lists, joining the demands on members that are in both.
#[cycle(both)]
fn both_members(
    alloc: Global,
    members: &Vec<(Text, Demand)>,
    others: &Vec<(Text, Demand)>,
) -> Result<Vec<(Text, Demand)>, AllocError>
    ensures all { IfOk result (λ es. members_view es.items
        ≡ all_members (members_view members.now.items) (members_view others.now.items)) }
{
    let mut all = copy_members(alloc, others)?;
    for member in members {
        match place_of(&all, member.0.as_str()) {
            Ok(index) => {
                let joined = both(alloc, &member.1, &all[index].1)?;
                set_demand(&mut all, index, joined);
            }
            Err(index) => insert_member(alloc, &mut all, index, &member.0, &member.1)?,
        }
    }
    Ok(all)
}

/// Adds a member at its place in the order of names, or joins its
/// demand with that of the member that is already there.
pub(crate) fn add_member(
    alloc: Global,
    members: &mut Vec<(Text, Demand)>,
    name: &Text,
    demand: &Demand,
) -> Result<(), AllocError>
    ensures added { OnOk result (members_view members.new.items
        ≡ with_member name.now (part_of demand.now) (both (part_of demand.now))
        (members_view members.old.items)) }
{
    match place_of(members, name.as_str()) {
        Ok(index) => {
            let joined = both(alloc, demand, &members[index].1)?;
            set_demand(members, index, joined);
        }
        Err(index) => insert_member(alloc, members, index, name, demand)?,
    }
    Ok(())
}

/// Replaces the demand on the member at an index.
fn set_demand(members: &mut Vec<(Text, Demand)>, index: usize, demand: Demand)
    requires { index < length members.old.items }
    ensures { (name : List ℕ) (part : Part) (joined : Part → Part) → IsAt name members.old.items index
        → ((e : Entry) → e ≡ get_or members.old.items index e → part_of demand ≡ joined (part_of e.1))
        → members_view members.new.items ≡ with_member name part joined (members_view members.old.items) }
{
    members[index].1 = demand;
}

/// Adds a member before the one at an index, or behind all.
fn insert_member(
    alloc: Global,
    members: &mut Vec<(Text, Demand)>,
    index: usize,
    name: &Text,
    demand: &Demand,
) -> Result<(), AllocError>
    requires { index ≤ length members.old.items }
    ensures added { OnOk result ((joined : Part → Part) → BelongsAt name.now members.old.items index
        → members_view members.new.items
        ≡ with_member name.now (part_of demand.now) joined (members_view members.old.items)) }
{
    members.insert(index, (name.clone()?, demand.copy(alloc)?))?;
    Ok(())
}

/// The index of the member with this name, or else the
/// index at which it belongs, in the order of names.
fn place_of(members: &Vec<(Text, Demand)>, name: &str) -> Result<usize, usize>
    ensures place { MatchResult result
        (λ i. IsAt name.now members.now.items i) (λ i. BelongsAt name.now members.now.items i) }
    ensures within { MatchResult result
        (λ i. i < length members.now.items) (λ i. i ≤ length members.now.items) }
{
    for index in 0..members.len() {
        match name.cmp(members[index].0.as_str()) {
            Ordering::Less => return Err(index),
            Ordering::Equal => return Ok(index),
            Ordering::Greater => {}
        }
    }
    Err(members.len())
}

/// Whether one of the members has this name.
fn has_name(members: &Vec<(Text, Demand)>, name: &str) -> bool
    ensures named { result ≡ has_name name.now (members_view members.now.items) }
{
    for member in members {
        if member.0.as_str() == name {
            return true;
        }
    }
    false
}

/// Returns the demand that these members put on a name; [`Demand::Nothing`] if it isn't among them.
pub(crate) fn demand_at(
    alloc: Global,
    name: &str,
    members: &Vec<(Text, Demand)>,
) -> Result<Demand, AllocError>
    ensures at { IfOk result (λ d. part_of d ≡ part_at name.now (members_view members.now.items)) }
{
    let mut demand = Demand::Nothing;
    let mut left = members.len();
    while left > 0 {
        left -= 1;
        if members[left].0.as_str() == name {
            demand = both(alloc, &members[left].1, &demand)?;
        }
    }
    Ok(demand)
}

/// Returns the demand that these members put on a name; None if it isn't among them.
///
/// # Errors
///
/// [`AllocError`] if memory is refused.
pub fn demand_on(
    alloc: Global,
    name: &str,
    members: &Vec<(Text, Demand)>,
) -> Result<Option<Demand>, AllocError>
    ensures on { IfOk result
        (λ o. option_map part_of o ≡ part_read name.now (members_view members.now.items)) }
{
    if !has_name(members, name) {
        return Ok(None);
    }
    let demand = demand_at(alloc, name, members)?;
    Ok(Some(demand))
}

/// Returns what at least one of two optional demands needs; None if there are none.
///
/// # Errors
///
/// [`AllocError`] if memory is refused.
pub fn both_demands(
    alloc: Global,
    first: &Option<Demand>,
    second: &Option<Demand>,
) -> Result<Option<Demand>, AllocError>
    ensures both { IfOk result (λ o. option_map part_of o
        ≡ both_read (option_map part_of first.now) (option_map part_of second.now)) }
{
    match (first, second) {
        (None, None) => Ok(None),
        (None, Some(demand)) => Ok(Some(demand.copy(alloc)?)),
        (Some(demand), None) => Ok(Some(demand.copy(alloc)?)),
        (Some(demand), Some(other)) => Ok(Some(both(alloc, demand, other)?)),
    }
}

/// Adds more members, except those with this name.
pub(crate) fn add_others(
    alloc: Global,
    members: &mut Vec<(Text, Demand)>,
    name: &str,
    more: &Vec<(Text, Demand)>,
) -> Result<(), AllocError>
    ensures added { OnOk result (members_view members.new.items
        ≡ all_members (without name.now (members_view more.now.items)) (members_view members.old.items)) }
{
    for member in more {
        if member.0.as_str() != name {
            add_member(alloc, members, &member.0, &member.1)?;
        }
    }
    Ok(())
}

/// Returns the demand on each item, from the demand on the list.
pub(crate) fn in_items(alloc: Global, demand: &Demand) -> Result<Demand, AllocError>
    ensures item { IfOk result (λ d. part_of d ≡ in_items (part_of demand.now)) }
{
    match demand {
        Demand::Nothing => Ok(Demand::Nothing),
        Demand::Items(item) => item.copy(alloc),
        Demand::Whole => Ok(Demand::Whole),
        Demand::Members(_) => Ok(Demand::Whole),
    }
}
