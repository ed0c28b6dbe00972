//! Unescaping of field names.
ghost use Rattle.std.specs.Prelude.{◌≡◌, ◌++◌, ◌∷◌, [], ◌<◌, length, true, false, List, ℕ, IfErr, IfOk, MatchOption, option_map, string_bytes};
ghost use Rattle.kube_schema_values.specs.Escape.{escape};
ghost use Rattle.kube_schema_values.specs.Unescape.{unescape, name_behind, unescaped_text, inner, is_reserved_form};

use crate::escaping::{escape_field_name, is_reserved};
use cel_value::Refused;
use std::alloc::{AllocError, Global};

/// Returns the name whose escape by [`escape_field_name`]
/// is this text; None if no name has this escape.
///
/// # Errors
///
/// [`Refused`] if memory is refused.
#[tactic(auto, using(crate::proofs::Fronts::no_name), unfolding(crate::specs::Unescape::unescape))]
pub fn unescape_field_name(alloc: Global, text: &str) -> Result<Option<String>, Refused>
    ensures found { IfOk result (λ name. option_map string_bytes name ≡ unescape text.now) }
    ensures exact { IfOk result (λ found. MatchOption found
        ((name : List ℕ) → escape name ≡ text.now → ⊥)
        (λ name. escape (string_bytes name) ≡ text.now)) }
    ensures memory { IfErr result (λ e. e ≡ Refused.Memory) }
{
    let name = name_behind(alloc, text)?;
    let escaped = escape_field_name(alloc, name.as_str())?;
    if escaped.as_str() == text {
        Ok(Some(name))
    } else {
        Ok(None)
    }
}

// Returns the only name whose escape the text may be.
#[tactic(auto, unfolding(crate::specs::Unescape::name_behind))]
fn name_behind(alloc: Global, text: &str) -> Result<String, AllocError>
    ensures { IfOk result (λ name. string_bytes name ≡ name_behind text.now) }
{
    match reserved_word_in(text) {
        Some(word) => String::from_str(alloc, word),
        None => unescaped(alloc, text),
    }
}

// Returns the reserved word between double underscores, if the text is one.
fn reserved_word_in(text: &str) -> Option<&str>
    ensures { MatchOption result (is_reserved_form text.now ≡ false)
        (λ word. (is_reserved_form text.now ≡ true) × (word.now ≡ inner text.now)) }
{
    let Some(after) = text.strip_prefix("__") else {
        return None;
    };
    let Some(word) = after.strip_suffix("__") else {
        return None;
    };
    if is_reserved(word) { Some(word) } else { None }
}

// Returns the text with each escaped character unescaped.
#[tactic(auto, unfolding(crate::specs::Unescape::unescaped_text))]
fn unescaped(alloc: Global, text: &str) -> Result<String, AllocError>
    ensures { IfOk result (λ name. string_bytes name ≡ unescaped_text 0 text.now) }
{
    let mut name = String::with_capacity(alloc, text.len())?;
    let mut rest = text;
    while let Some(after) = push_first(rest, &mut name)? {
        rest = after;
    }
    Ok(name)
}

// Appends the unescaped first character, and returns
// the rest of the text; None if the text is empty.
fn push_first<'t>(text: &'t str, name: &mut String) -> Result<Option<&'t str>, AllocError>
    ensures { IfOk result (λ found. MatchOption found
        ((string_bytes name.new ≡ string_bytes name.old) × (text.now ≡ []))
        (λ rest. (string_bytes name.new ++ unescaped_text 0 rest.now
        ≡ string_bytes name.old ++ unescaped_text 0 text.now)
        × (length rest.now < length text.now))) }
{
    if let Some((characters, rest)) = first_escaped(text) {
        name.push_str(characters)?;
        return Ok(Some(rest));
    }
    let mut characters = text.chars();
    let Some(character) = characters.next() else {
        return Ok(None);
    };
    name.push(character)?;
    Ok(Some(characters.as_str()))
}

// If the text begins with an escaped character,
// returns what it stands for and the rest of the text.
fn first_escaped(text: &str) -> Option<(&'static str, &str)>
    ensures { MatchOption result
        ((byte : ℕ) (rest : List ℕ) → text.now ≡ byte ∷ rest
        → unescaped_text 0 text.now ≡ byte ∷ unescaped_text 0 rest)
        (λ found. (unescaped_text 0 text.now ≡ found.0.now ++ unescaped_text 0 found.1.now)
        × (length found.1.now < length text.now)) }
{
    if let Some(rest) = text.strip_prefix("__underscores__") {
        return Some(("__", rest));
    }
    if let Some(rest) = text.strip_prefix("__dot__") {
        return Some((".", rest));
    }
    if let Some(rest) = text.strip_prefix("__dash__") {
        return Some(("-", rest));
    }
    if let Some(rest) = text.strip_prefix("__slash__") {
        return Some(("/", rest));
    }
    None
}
