//! JSON Pointers of the nodes of a schema (RFC 6901).
ghost use Rattle.std.specs.Prelude.{◌≡◌, ◌++◌, IfOk, OnOk, string_bytes};
ghost use Rattle.kube_cel_analysis.specs.Pointers.{additional_pointer, branch_pointer, escaped_character, items_pointer, property_pointer, token};

use kube_schema::BranchKind;
use std::alloc::{AllocError, Global};

/// Appends a character of a name, escaped.
fn push_escaped(out: &mut String, character: char) -> Result<(), AllocError>
    ensures { OnOk result (string_bytes out.new ≡ string_bytes out.old ++ escaped_character character) }
{
    match character {
        '~' => out.push_str("~0"),
        '/' => out.push_str("~1"),
        other => out.push(other),
    }
}

/// Appends a name, escaped, as one step of a pointer.
fn push_name(out: &mut String, name: &str) -> Result<(), AllocError>
    ensures { OnOk result (string_bytes out.new ≡ string_bytes out.old ++ token name.now) }
{
    for character in name.chars() {
        push_escaped(out, character)?;
    }
    Ok(())
}

/// Returns the pointer of a property.
pub(crate) fn property_pointer(
    alloc: Global,
    pointer: &str,
    name: &str,
) -> Result<String, AllocError>
    ensures { IfOk result (λ s. string_bytes s ≡ property_pointer pointer.now name.now) }
{
    let mut inner = format!(in alloc; "{pointer}/properties/")?;
    push_name(&mut inner, name)?;
    Ok(inner)
}

/// Returns the pointer of the node of list items.
pub(crate) fn items_pointer(alloc: Global, pointer: &str) -> Result<String, AllocError>
    ensures { IfOk result (λ s. string_bytes s ≡ items_pointer pointer.now) }
{
    format!(in alloc; "{pointer}/items")
}

/// Returns the pointer of the node of undeclared keys.
pub(crate) fn additional_pointer(alloc: Global, pointer: &str) -> Result<String, AllocError>
    ensures { IfOk result (λ s. string_bytes s ≡ additional_pointer pointer.now) }
{
    format!(in alloc; "{pointer}/additionalProperties")
}

/// Returns the pointer of a branch.
pub(crate) fn branch_pointer(
    alloc: Global,
    kind: BranchKind,
    pointer: &str,
    index: usize,
) -> Result<String, AllocError>
    ensures { IfOk result (λ s. string_bytes s ≡ branch_pointer kind pointer.now index) }
{
    let keyword = kind.keyword();
    format!(in alloc; "{pointer}/{keyword}/{index}")
}
