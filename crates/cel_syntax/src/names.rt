//! Sets of names.
ghost use Rattle.std.specs.Prelude.{◌≡◌, ◌||◌, ℕ, List, OnOk, IfOk};
ghost use Rattle.std.specs.BTreeSet.{contains_text};
ghost use Rattle.std.specs.Str.{bytes_eq};
ghost use Rattle.cel_syntax.specs.Names.{names_of, AreNames};

use std::alloc::{AllocError, Global};
use std::collections::BTreeSet;

/// Adds a name, unless it is there already.
pub(crate) fn add(alloc: Global, name: &str, names: &mut BTreeSet<String>) -> Result<(), AllocError>
    ensures added { OnOk result ((x : List ℕ)
        → contains_text names.new x ≡ (contains_text names.old x || bytes_eq x name.now)) }
{
    if names.contains(name) {
        return Ok(());
    }
    let _is_new = names.insert(String::from_str(alloc, name)?)?;
    Ok(())
}

/// Returns the names of a set in order.
pub(crate) fn in_order(alloc: Global, names: BTreeSet<String>) -> Result<Vec<String>, AllocError>
    ensures names { IfOk result (λ v. AreNames (names_of v.items) (λ x. contains_text names x)) }
{
    let mut list = Vec::with_capacity(alloc, names.len())?;
    for name in names {
        list.push(name)?;
    }
    Ok(list)
}
