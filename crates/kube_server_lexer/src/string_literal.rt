//! The length in bytes of a string literal, or of a part of one, at the front of a text.

ghost use Rattle.std.specs.Prelude.{◌≡◌, ◌≤◌, IsTrue, false, length};
ghost use Rattle.cel_syntax_lexer.specs.Strings as spec;
ghost use Rattle.cel_syntax_lexer.specs.Spelling.{LongestSpelling};
ghost use Rattle.kube_server_lexer.specs.Quoted as own;

use crate::bytes::{after, begins, begins_either, is_line_break, is_quote, longer};

/// The form of a string literal.
#[derive(Clone, Copy)]
pub(crate) struct Quotes {
    /// The quote, `'` or `"`.
    byte: u8,
    /// Whether the quotes are tripled.
    tripled: bool,
    /// Whether a backslash is an ordinary character.
    raw: bool,
}

fn begins_three(text: &[u8], byte: u8) -> bool
    ensures value { result ≡ spec.begins_three byte text.now }
    ensures within { IsTrue result → 3 ≤ length text.now }
{
    match text {
        [first, second, third, ..] => *first == byte && *second == byte && *third == byte,
        _ => false,
    }
}

fn quotes_length(tripled: bool) -> usize
    ensures value { result ≡ spec.quotes_length tripled }
    ensures within { result ≤ 3 }
{
    if tripled { 3 } else { 1 }
}

fn quotes_stand(quotes: Quotes, text: &[u8]) -> bool
    ensures value { result ≡ spec.quotes_stand quotes.tripled quotes.byte text.now }
    ensures within { IsTrue result → spec.quotes_length quotes.tripled ≤ length text.now }
{
    if quotes.tripled {
        begins_three(text, quotes.byte)
    } else {
        begins(text, quotes.byte)
    }
}

fn closes(quotes: Quotes, hidden: bool, text: &[u8]) -> bool
    ensures value { result ≡ own.closes quotes hidden text.now }
    ensures within { IsTrue result → spec.quotes_length quotes.tripled ≤ length text.now }
{
    !hidden && quotes_stand(quotes, text)
}

fn breaks(quotes: Quotes, byte: u8) -> bool
    ensures { result ≡ own.breaks quotes byte }
{
    !quotes.tripled && is_line_break(byte)
}

fn hides(quotes: Quotes, hidden: bool, byte: u8) -> bool
    ensures { result ≡ own.hides quotes hidden byte }
{
    !hidden && !quotes.raw && byte == b'\\'
}

/// Returns the number of bytes from a string's first character to the end of
/// its closing quotes, or None if it isn't closed.
fn end_of(quotes: Quotes, text: &[u8]) -> Option<usize>
    ensures { result ≡ own.end_of quotes false text.now }
{
    let mut hidden = false;
    for (index, byte) in text.iter().enumerate() {
        if closes(quotes, hidden, after(text, index)) {
            return Some(index + quotes_length(quotes.tripled));
        }
        if breaks(quotes, *byte) {
            return None;
        }
        hidden = hides(quotes, hidden, *byte);
    }
    None
}

fn closed_length(quotes: Quotes, text: &[u8]) -> usize
    ensures spelling { LongestSpelling (own.is_closed quotes) text.now result }
    ensures within { result ≤ length text.now }
{
    match end_of(quotes, text) {
        Some(length) => length,
        None => 0,
    }
}

fn after_two_length(quotes: Quotes, text: &[u8]) -> usize
    ensures spelling { LongestSpelling (own.is_after_two quotes) text.now result }
    ensures within { result ≤ length text.now }
{
    if begins(text, quotes.byte) {
        longer(closed_length(quotes, after(text, 1)))
    } else {
        0
    }
}

fn after_one_length(quotes: Quotes, text: &[u8]) -> usize
    ensures spelling { LongestSpelling (own.is_after_one quotes) text.now result }
    ensures within { result ≤ length text.now }
{
    if begins(text, quotes.byte) {
        longer(after_two_length(quotes, after(text, 1)))
    } else {
        0
    }
}

/// The length in bytes of the longest string without a prefix, or 0 if there is none.
///
/// The time is linear in the text. A string in single quotes is searched to the end of its line at
/// most; if it isn't closed, no token is there, or only its prefix is one. A string in tripled
/// quotes that isn't closed is searched to the end of the text, and then no three such quotes come
/// after its first two, so this happens a few times at most.
pub(crate) fn string_length(raw: bool, text: &[u8]) -> usize
    ensures spelling { LongestSpelling (spec.is_string raw) text.now result }
    ensures within { result ≤ length text.now }
{
    if text.is_empty() {
        return 0;
    }
    let byte = text[0];
    if !is_quote(byte) {
        return 0;
    }
    let rest = after(text, 1);
    let single = Quotes {
        byte,
        tripled: false,
        raw,
    };
    let tripled = Quotes {
        byte,
        tripled: true,
        raw,
    };
    longer(closed_length(single, rest).max(after_one_length(tripled, rest)))
}

fn raw_string_length(text: &[u8]) -> usize
    ensures spelling { LongestSpelling spec.is_raw_string text.now result }
    ensures within { result ≤ length text.now }
{
    if begins_either(text, b'r', b'R') {
        longer(string_length(true, after(text, 1)))
    } else {
        0
    }
}

fn after_b_length(text: &[u8]) -> usize
    ensures spelling { LongestSpelling spec.is_after_b text.now result }
    ensures within { result ≤ length text.now }
{
    string_length(false, text).max(raw_string_length(text))
}

fn bytes_length(text: &[u8]) -> usize
    ensures spelling { LongestSpelling spec.is_bytes text.now result }
    ensures within { result ≤ length text.now }
{
    if begins_either(text, b'b', b'B') {
        longer(after_b_length(after(text, 1)))
    } else {
        0
    }
}

/// The length in bytes of the longest string with a prefix, or 0 if there is none.
pub(crate) fn prefixed_length(text: &[u8]) -> usize
    ensures spelling { LongestSpelling spec.is_prefixed text.now result }
    ensures within { result ≤ length text.now }
{
    raw_string_length(text).max(bytes_length(text))
}
