//! Levels, places and what is owned while they are found.

ghost use Rattle.std.specs.Prelude.{◌≡◌, ◌+◌, ◌<◌, ◌≤◌, ◌∷◌, [], ◌++◌, MatchResult};
ghost use Rattle.kube_server_syntax.specs.Placed as spec;
ghost use Rattle.kube_server_parser.specs.declared.stop.Stop.TheVariants.{Memory, TooDeep};

use crate::part::MAX_LEVEL;
use crate::stop::Stop;
use kube_server_syntax::node::Place;
use std::alloc::Global;

/// Returns the level above this one.
pub(crate) fn above(level: usize) -> Result<usize, Stop>
    ensures { MatchResult result (λ l. (l ≡ level + 1) × (l ≤ 250)) (λ e. (e ≡ TooDeep) × (250 < level + 1)) }
{
    if level < MAX_LEVEL {
        Ok(level + 1)
    } else {
        Err(Stop::TooDeep)
    }
}

/// From the first byte of one place to the last of another.
pub(crate) fn across(first: Place, last: Place) -> Place
    ensures { result ≡ spec.across first last }
{
    Place {
        begin: first.begin,
        end: last.end,
    }
}

/// Moves a value into a box.
pub(crate) fn in_box<A: Drop>(alloc: Global, value: A) -> Result<Box<A>, Stop>
    ensures { MatchResult result (λ b. b.value ≡ value) (λ e. e ≡ Memory) }
{
    match Box::new(alloc, value) {
        Ok(value) => Ok(value),
        Err(_) => Err(Stop::Memory),
    }
}

/// Adds a value at the end.
pub(crate) fn pushed<A: Drop>(list: Vec<A>, value: A) -> Result<Vec<A>, Stop>
    ensures { MatchResult result (λ v. v.items ≡ list.items ++ value ∷ []) (λ e. e ≡ Memory) }
{
    let mut list = list;
    match list.push(value) {
        Ok(()) => Ok(list),
        Err(_) => Err(Stop::Memory),
    }
}

/// Adds a value at the end.
pub(crate) fn push<A: Drop>(list: &mut Vec<A>, value: A) -> Result<(), Stop>
    ensures { MatchResult result (λ u. list.new.items ≡ list.old.items ++ value ∷ []) (λ e. e ≡ Memory) }
{
    match list.push(value) {
        Ok(()) => Ok(()),
        Err(_) => Err(Stop::Memory),
    }
}
