//! Texts cut at an offset or around a part, without copying. Offsets count characters.
ghost use Rattle.std.specs.Prelude.{◌≡◌, ◌≤◌, ◌<◌, length, option_map, IfOk, IfSome, MatchOption, string_bytes};
ghost use Rattle.std.specs.Str.{chars, encode_utf8_all, IsUtf8};
ghost use Rattle.kube_functions_strings.specs.Cuts as spec;

use std::alloc::{AllocError, Global};

/// The number of characters in the text.
pub(crate) fn character_count(text: &str) -> usize
    ensures value { result ≡ length (chars text.now) }
    ensures small { result ≤ length text.now }
{
    if text.is_ascii() {
        text.len()
    } else {
        text.chars().count()
    }
}

// The text after its first `count` characters, or None
// if it has fewer. Steps over one character at a time.
fn past_characters(text: &str, count: usize) -> Option<&str>
    ensures { MatchOption result (length (chars text.now) < count)
        (λ rest. spec.IsPast text.now count rest.now) }
{
    let mut characters = text.chars();
    for offset in 0..count {
        let Some(_) = characters.next() else {
            return None;
        };
    }
    Some(characters.as_str())
}

// The text after its first `count` characters, or None if it has fewer. Counts bytes if the text is
// ASCII, except for a single character: stepping over one costs less than testing the whole text.
fn past(text: &str, count: usize) -> Option<&str>
    ensures { MatchOption result (length (chars text.now) < count)
        (λ rest. spec.IsPast text.now count rest.now) }
{
    if 1 < count && text.is_ascii() {
        if count <= text.len() {
            Some(&text[count..])
        } else {
            None
        }
    } else {
        past_characters(text, count)
    }
}

/// The characters of the text before an offset, and
/// those from it on. None if the text ends before it.
pub(crate) fn around_offset(text: &str, offset: usize) -> Option<(&str, &str)>
    ensures value { option_map (λ p. (chars p.0.now, chars p.1.now)) result
        ≡ spec.around_offset (chars text.now) offset }
    ensures utf8 { IfSome result (λ p. IsUtf8 p.0.now) }
{
    match past(text, offset) {
        Some(rest) => Some(text.split_at(text.len() - rest.len())),
        None => None,
    }
}

/// The text before the first match of a part and the text after it, or None if there is no match.
pub(crate) fn around_first<'a>(text: &'a str, part: &str) -> Option<(&'a str, &'a str)>
    ensures value { MatchOption result
        (spec.StandsNowhere 0 (chars text.now) (chars part.now))
        (λ p. spec.StandsFirst 0 (chars text.now) (chars part.now) (chars p.0.now) (chars p.1.now)) }
    ensures utf8 { IfSome result (λ p. IsUtf8 p.0.now) }
{
    text.split_once(part)
}

/// The text before the last match of a part and the text after it, or None if there is no match.
pub(crate) fn around_last<'a>(text: &'a str, part: &str) -> Option<(&'a str, &'a str)>
    ensures { MatchOption result
        (spec.StandsNowhere 0 (chars text.now) (chars part.now))
        (λ p. spec.StandsLast (chars text.now) (chars part.now) (chars p.0.now) (chars p.1.now)) }
{
    text.rsplit_once(part)
}

/// A copy of the text.
pub(crate) fn copied(alloc: Global, text: &str) -> Result<String, AllocError>
    ensures { IfOk result (λ t. string_bytes t ≡ encode_utf8_all (chars text.now)) }
{
    String::from_str(alloc, text)
}
