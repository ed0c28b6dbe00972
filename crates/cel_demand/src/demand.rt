//! Which part of a value an expression needs.
ghost use Rattle.std.specs.Prelude.{◌≡◌, IfOk};
ghost use Rattle.cel_demand.specs.Part.{member, no_members};
ghost use Rattle.cel_demand.specs.Demand.{part_of, members_view};

use cel_value::Text;
use std::alloc::{AllocError, Global};

/// The part of a value that an expression needs.
#[derive(Debug, Drop)]
pub enum Demand {
    /// Only that the value exists.
    Nothing,
    /// The whole value.
    Whole,
    /// The number of items of a list, and this part of each of them.
    Items(Box<Demand>),
    /// Which of these members a map has, and these parts of them.
    Members(Vec<(Text, Demand)>),
}

impl Demand {
    /// Returns an equal demand.
    ///
    /// # Errors
    ///
    /// [`AllocError`] if memory is refused.
    #[cycle(copies)]
    pub fn copy(&self, alloc: Global) -> Result<Demand, AllocError>
        ensures same { IfOk result (λ d. part_of d ≡ part_of self.now) }
    {
        match self {
            Demand::Nothing => Ok(Demand::Nothing),
            Demand::Whole => Ok(Demand::Whole),
            Demand::Items(item) => Ok(Demand::Items(Box::new(alloc, item.copy(alloc)?)?)),
            Demand::Members(members) => Ok(Demand::Members(copy_members(alloc, members)?)),
        }
    }
}

/// Returns copies of the members.
#[cycle(copies)]
pub(crate) fn copy_members(
    alloc: Global,
    members: &Vec<(Text, Demand)>,
) -> Result<Vec<(Text, Demand)>, AllocError>
    ensures same { IfOk result (λ es. members_view es.items ≡ members_view members.now.items) }
{
    let mut copies = Vec::with_capacity(alloc, members.len())?;
    for member in members {
        copies.push((member.0.clone()?, member.1.copy(alloc)?))?;
    }
    Ok(copies)
}

/// Returns a list of one member.
pub(crate) fn one_member(
    alloc: Global,
    name: &Text,
    demand: Demand,
) -> Result<Vec<(Text, Demand)>, AllocError>
    ensures one { IfOk result (λ es. members_view es.items
        ≡ member name.now (part_of demand) no_members) }
{
    let mut members = Vec::new(alloc);
    members.push((name.clone()?, demand))?;
    Ok(members)
}
