//! Escaping of field names so that CEL can select them, as the Kubernetes API server does
//! it (Kubernetes documentation, "Use CEL validation rules", escaping of property names).
ghost use Rattle.std.specs.Prelude.{◌≡◌, ◌++◌, true, List, ℕ, IfErr, IfOk, OnOk, string_bytes};
ghost use Rattle.std.specs.Char.{encode_utf8};
ghost use Rattle.kube_schema_values.specs.Escape.{is_reserved, escape, escaped_text, escaped_character, held_text};

use cel_value::Refused;
use std::alloc::{AllocError, Global};

/// Reports whether a word is reserved in CEL (CEL language definition, "Syntax").
#[tactic(auto, unfolding(crate::specs::Escape::is_reserved))]
pub(crate) fn is_reserved(name: &str) -> bool
    ensures { result ≡ is_reserved name.now }
{
    match name.len() {
        2 => matches!(name, "in" | "as" | "if"),
        3 => matches!(name, "for" | "let" | "var"),
        4 => matches!(name, "true" | "null" | "else" | "loop" | "void"),
        5 => matches!(name, "false" | "break" | "const" | "while"),
        6 => matches!(name, "import" | "return"),
        7 => name == "package",
        8 => matches!(name, "continue" | "function"),
        9 => name == "namespace",
        _ => false,
    }
}

/// Returns the name by which CEL selects a field. A reserved word is put
/// between double underscores. In any other name each pair of underscores,
/// taken from the left, becomes `__underscores__`; `.` becomes `__dot__`,
/// `-` becomes `__dash__`, `/` becomes `__slash__`, and all else stays.
///
/// Different names have different escapes.
///
/// # Errors
///
/// [`Refused`] if memory is refused.
#[tactic(auto, unfolding(crate::specs::Escape::escape))]
pub fn escape_field_name(alloc: Global, name: &str) -> Result<String, Refused>
    ensures escaped { IfOk result (λ s. string_bytes s ≡ escape name.now) }
    ensures memory { IfErr result (λ e. e ≡ Refused.Memory) }
{
    if is_reserved(name) {
        return Ok(format!(in alloc; "__{name}__")?);
    }
    if stays(name) {
        return Ok(String::from_str(alloc, name)?);
    }
    let mut escaped = String::with_capacity(alloc, name.len())?;
    push_escaped(name, &mut escaped)?;
    Ok(escaped)
}

/// Reports whether a name is certain to be its own escape. Returns false for every
/// name with an underscore, even if [`escape_field_name`] leaves it as it is.
#[tactic(auto, unfolding(crate::specs::Escape::escape))]
pub fn is_its_own_escape(name: &str) -> bool
    ensures { result ≡ true → escape name.now ≡ name.now }
{
    !is_reserved(name) && stays(name)
}

// Reports whether a name, which isn't a reserved word, has no byte that escaping might change.
fn stays(name: &str) -> bool
    ensures { result ≡ true → escaped_text name.now ≡ name.now }
{
    for byte in name.as_bytes() {
        if matches!(byte, b'-' | b'.' | b'/' | b'_') {
            return false;
        }
    }
    true
}

// Appends the escape of a name that isn't a reserved word.
fn push_escaped(name: &str, out: &mut String) -> Result<(), AllocError>
    ensures { OnOk result (string_bytes out.new
        ≡ string_bytes out.old ++ escaped_text name.now) }
{
    let mut holds_underscore = false;
    for character in name.chars() {
        holds_underscore = push_next(holds_underscore, character, out)?;
    }
    if holds_underscore {
        out.push_str("_")?;
    }
    Ok(())
}

// Appends the escape of the next character, after an underscore that may have been held back.
// Returns whether an underscore is held back now, because it may be the first of a pair.
fn push_next(holds_underscore: bool, character: char, out: &mut String) -> Result<bool, AllocError>
    ensures { IfOk result (λ holds. (rest : List ℕ)
        → string_bytes out.new ++ escaped_text (held_text holds ++ rest)
        ≡ string_bytes out.old
        ++ escaped_text (held_text holds_underscore ++ (encode_utf8 character ++ rest))) }
{
    match (holds_underscore, character) {
        (true, '_') => {
            out.push_str("__underscores__")?;
            Ok(false)
        }
        (false, '_') => Ok(true),
        (true, _) => {
            out.push_str("_")?;
            push_character(character, out)?;
            Ok(false)
        }
        (false, _) => {
            push_character(character, out)?;
            Ok(false)
        }
    }
}

// Appends the escape of a single character.
#[tactic(auto, unfolding(crate::specs::Escape::escaped_character))]
fn push_character(character: char, out: &mut String) -> Result<(), AllocError>
    ensures { OnOk result (string_bytes out.new
        ≡ string_bytes out.old ++ escaped_character character) }
{
    match character {
        '.' => out.push_str("__dot__"),
        '-' => out.push_str("__dash__"),
        '/' => out.push_str("__slash__"),
        _ => out.push(character),
    }
}
