//! Sets of texts.
ghost use Rattle.std.specs.BTreeSet.{contains_text};
ghost use Rattle.std.specs.Prelude.{◌≡◌, ◌||◌, ℕ, List, OnOk};
ghost use Rattle.std.specs.Str.{bytes_eq};

use std::alloc::{AllocError, Global};
use std::collections::BTreeSet;

/// Adds a text to a set, unless it is there already.
///
/// # Errors
///
/// [`AllocError`] if memory is refused.
pub fn insert_text(
    alloc: Global,
    text: &str,
    texts: &mut BTreeSet<String>,
) -> Result<(), AllocError>
    ensures added { OnOk result ((x : List ℕ)
        → contains_text texts.new x ≡ (contains_text texts.old x || bytes_eq x text.now)) }
{
    if texts.contains(text) {
        return Ok(());
    }
    let _is_new = texts.insert(String::from_str(alloc, text)?)?;
    Ok(())
}
