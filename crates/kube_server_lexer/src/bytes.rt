//! Classes of bytes, and the number of bytes of a class at the front of a text.

ghost use Rattle.std.specs.Prelude.{◌≡◌, ◌<◌, ◌≤◌, IsTrue, length, drop};
ghost use Rattle.std.specs.List.{prefix_len};
ghost use Rattle.std.specs.Char.{is_ascii_digit, is_ascii_hexdigit};
ghost use Rattle.cel_syntax_lexer.specs.Spelling as spelling;
ghost use Rattle.cel_syntax_lexer.specs.Strings as strings;
ghost use Rattle.cel_syntax_lexer.specs.Tokens as spec;

pub(crate) fn is_letter(byte: u8) -> bool
    ensures { result ≡ spec.is_letter byte }
{
    byte.is_ascii_alphabetic() || byte == b'_'
}

fn is_word_byte(byte: u8) -> bool
    ensures { result ≡ spec.is_word_byte byte }
{
    is_letter(byte) || byte.is_ascii_digit()
}

pub(crate) fn is_white_space(byte: u8) -> bool
    ensures { result ≡ spec.is_white_space byte }
{
    byte == b'\t' || byte == b'\n' || byte == b'\x0c' || byte == b'\r' || byte == b' '
}

pub(crate) fn is_quote(byte: u8) -> bool
    ensures { result ≡ strings.is_quote byte }
{
    byte == b'"' || byte == b'\''
}

/// Reports whether the byte is a newline or a carriage return.
pub(crate) fn is_line_break(byte: u8) -> bool
    ensures { result ≡ strings.is_line_break byte }
{
    byte == b'\n' || byte == b'\r'
}

/// Reports whether the text starts with this byte.
pub(crate) fn begins(text: &[u8], byte: u8) -> bool
    ensures value { result ≡ spelling.begins (spelling.is_byte byte) text.now }
    ensures within { IsTrue result → 1 ≤ length text.now }
{
    match text {
        [first, ..] => *first == byte,
        [] => false,
    }
}

/// Reports whether the text starts with one of these two bytes.
pub(crate) fn begins_either(text: &[u8], one: u8, other: u8) -> bool
    ensures value { result ≡ spelling.begins (spelling.is_either one other) text.now }
    ensures within { IsTrue result → 1 ≤ length text.now }
{
    match text {
        [first, ..] => *first == one || *first == other,
        [] => false,
    }
}

/// The text without its first `count` bytes.
pub(crate) fn after(text: &[u8], count: usize) -> &[u8]
    requires { count ≤ length text.now }
    ensures { result.now ≡ drop count text.now }
{
    &text[count..]
}

/// Returns the length plus one, or 0 if it is 0.
pub(crate) fn longer(length: usize) -> usize
    requires { length < usize.MAX }
    ensures { result ≡ spelling.longer length }
{
    if length == 0 { 0 } else { 1 + length }
}

/// The number of letters, digits and `_` at the front.
pub(crate) fn word_length(text: &[u8]) -> usize
    ensures value { result ≡ prefix_len spec.is_word_byte text.now }
    ensures within { result ≤ length text.now }
{
    text.iter().take_while(|byte| is_word_byte(**byte)).count()
}

/// The number of decimal digits at the front.
pub(crate) fn digits_length(text: &[u8]) -> usize
    ensures value { result ≡ prefix_len is_ascii_digit text.now }
    ensures within { result ≤ length text.now }
{
    text.iter().take_while(|byte| byte.is_ascii_digit()).count()
}

/// The number of hexadecimal digits at the front.
pub(crate) fn hexadecimal_digits_length(text: &[u8]) -> usize
    ensures value { result ≡ prefix_len is_ascii_hexdigit text.now }
    ensures within { result ≤ length text.now }
{
    text.iter()
        .take_while(|byte| byte.is_ascii_hexdigit())
        .count()
}

/// The number of bytes before the end of the line or of the text.
pub(crate) fn line_length(text: &[u8]) -> usize
    ensures value { result ≡ prefix_len spec.is_in_line text.now }
    ensures within { result ≤ length text.now }
{
    text.iter().take_while(|byte| **byte != b'\n').count()
}
