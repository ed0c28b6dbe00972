//! Compares a text with words.
ghost use Rattle.kube_manifests_texts.specs.Spelling as spec;
ghost use Rattle.kube_manifests_texts.specs.Spelling.{begins_swapped, joined, near, one_letter_off, two_letters_swapped};
ghost use Rattle.std.specs.Prelude.{◌≡◌, IfOk, map, option_map, string_bytes};
ghost use Rattle.std.specs.Str.{chars};

use std::alloc::{AllocError, Global};

/// Reports whether a text is one of these words.
pub fn is_word(words: &[&str], text: &str) -> bool
    ensures { result ≡ spec.is_word (map (λ w. w.now) words.now) text.now }
{
    for word in words {
        if text == *word {
            return true;
        }
    }
    false
}

/// Reports whether inserting, deleting or replacing exactly one character turns one into the other.
fn is_one_letter_off(text: &[char], word: &[char]) -> bool
    ensures { result ≡ one_letter_off text.now word.now }
{
    match (text, word) {
        ([], []) => false,
        ([], [_, words @ ..]) => words.is_empty(),
        ([_, texts @ ..], []) => texts.is_empty(),
        ([t, texts @ ..], [w, words @ ..]) => {
            if *t == *w {
                is_one_letter_off(texts, words)
            } else {
                texts == words || text == words || texts == word
            }
        }
    }
}

/// Reports whether the first two characters of one are those of the other swapped, and the others
/// are equal.
fn begins_swapped(text: &[char], word: &[char]) -> bool
    ensures { result ≡ begins_swapped text.now word.now }
{
    match (text, word) {
        ([t, u, texts @ ..], [w, v, words @ ..]) => *t == *v && *u == *w && texts == words,
        _ => false,
    }
}

/// Reports whether swapping two different neighbouring characters turns one into the other.
fn has_two_letters_swapped(text: &[char], word: &[char]) -> bool
    ensures { result ≡ two_letters_swapped text.now word.now }
{
    match (text, word) {
        ([], _) => false,
        ([_, _texts @ ..], []) => false,
        ([t, texts @ ..], [w, words @ ..]) => {
            if *t == *w {
                has_two_letters_swapped(texts, words)
            } else {
                begins_swapped(text, word)
            }
        }
    }
}

/// Collects the characters of a text.
///
/// # Errors
///
/// `AllocError` if memory is refused.
pub fn letters_of(alloc: Global, text: &str) -> Result<Vec<char>, AllocError>
    ensures { IfOk result (λ v. v.items ≡ chars text.now) }
{
    text.chars().collect(alloc)
}

/// Reports whether a text is near a word: one letter off, with two neighbouring letters swapped, or
/// other than it in case alone. `letters` are the characters of the text, `others` those of the word.
pub fn is_near_spelled(text: &str, letters: &[char], word: &str, others: &[char]) -> bool
    requires text_spelled { letters.now ≡ chars text.now }
    requires word_spelled { others.now ≡ chars word.now }
    ensures { result ≡ spec.is_near text.now word.now }
{
    is_one_letter_off(letters, others)
        || has_two_letters_swapped(letters, others)
        || text.eq_ignore_ascii_case(word)
}

/// Reports whether a text is near a word.
///
/// # Errors
///
/// `AllocError` if memory is refused.
pub fn is_near(alloc: Global, text: &str, word: &str) -> Result<bool, AllocError>
    ensures { IfOk result (λ b. b ≡ spec.is_near text.now word.now) }
{
    let letters = letters_of(alloc, text)?;
    let others = letters_of(alloc, word)?;
    Ok(is_near_spelled(text, letters.as_slice(), word, others.as_slice()))
}

/// The first of these words that a text is near, if any.
///
/// # Errors
///
/// `AllocError` if memory is refused.
pub fn near<'w>(alloc: Global, words: &[&'w str], text: &str) -> Result<Option<&'w str>, AllocError>
    ensures { IfOk result (λ o. option_map (λ w. w.now) o ≡ near (map (λ w. w.now) words.now) text.now) }
{
    for word in words {
        if is_near(alloc, text, *word)? {
            return Ok(Some(*word));
        }
    }
    Ok(None)
}

/// The words, with a comma between each two.
///
/// # Errors
///
/// `AllocError` if memory is refused.
pub fn joined(alloc: Global, words: &[&str]) -> Result<String, AllocError>
    ensures { IfOk result (λ s. string_bytes s ≡ joined (map (λ w. w.now) words.now)) }
{
    let text = words.join(alloc, ", ")?;
    Ok(text)
}
