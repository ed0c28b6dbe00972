//! Builds JSON Pointers (RFC 6901).
ghost use Rattle.kube_manifests_documents.specs.Pointers.{escaped_character, index_pointer, key_pointer, keyword_pointer, token};
ghost use Rattle.std.specs.Prelude.{◌≡◌, ◌++◌, IfOk, OnOk, string_bytes};

use std::alloc::{AllocError, Global};

/// Appends a character of a name, escaped for a JSON Pointer.
fn push_escaped(out: &mut String, character: char) -> Result<(), AllocError>
    ensures { OnOk result (string_bytes out.new ≡ string_bytes out.old ++ escaped_character character) }
{
    match character {
        '~' => out.push_str("~0"),
        '/' => out.push_str("~1"),
        other => out.push(other),
    }
}

/// Appends a name as one step of a JSON Pointer.
fn push_name(out: &mut String, name: &str) -> Result<(), AllocError>
    ensures { OnOk result (string_bytes out.new ≡ string_bytes out.old ++ token name.now) }
{
    for character in name.chars() {
        push_escaped(out, character)?;
    }
    Ok(())
}

/// Returns the pointer of a member with any name, which is escaped.
///
/// # Errors
///
/// [`AllocError`] if memory is refused.
pub fn key_pointer(alloc: Global, pointer: &str, key: &str) -> Result<String, AllocError>
    ensures { IfOk result (λ s. string_bytes s ≡ key_pointer pointer.now key.now) }
{
    let mut inner = format!(in alloc; "{pointer}/")?;
    push_name(&mut inner, key)?;
    Ok(inner)
}

/// Returns the pointer of a keyword's member. The keyword isn't escaped.
///
/// # Errors
///
/// [`AllocError`] if memory is refused.
pub fn keyword_pointer(alloc: Global, pointer: &str, keyword: &str) -> Result<String, AllocError>
    ensures { IfOk result (λ s. string_bytes s ≡ keyword_pointer pointer.now keyword.now) }
{
    format!(in alloc; "{pointer}/{keyword}")
}

/// Returns the pointer of an item.
///
/// # Errors
///
/// [`AllocError`] if memory is refused.
pub fn index_pointer(alloc: Global, pointer: &str, index: usize) -> Result<String, AllocError>
    ensures { IfOk result (λ s. string_bytes s ≡ index_pointer pointer.now index) }
{
    format!(in alloc; "{pointer}/{index}")
}
