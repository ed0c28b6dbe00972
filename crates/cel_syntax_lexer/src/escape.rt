//! The escapes of quoted literals.

ghost use Rattle.std.specs.Option.{option_and_then};
ghost use Rattle.std.specs.Prelude.{◌≡◌, ◌≤◌, ◌<◌, ◌++◌, OnOk, drop, length, option_map, IfOk};
ghost use Rattle.cel_syntax_lexer.specs.declared.content.Content.TheVariants.{Bytes};
ghost use Rattle.cel_syntax_lexer.specs.Escape as spec;
ghost use Rattle.cel_syntax_lexer.specs.Number.{of_64_bits};

use crate::content::Content;
use crate::number_value::natural;
use std::alloc::{AllocError, Global};

/// The character that an escape of one letter denotes.
#[tactic(auto, unfolding(crate::specs::Escape::letter_code))]
fn letter_code(letter: u8) -> Option<char>
    ensures { result ≡ spec.letter_code letter }
{
    match letter {
        b'a' => Some('\x07'),
        b'b' => Some('\x08'),
        b'f' => Some('\x0c'),
        b'n' => Some('\n'),
        b'r' => Some('\r'),
        b't' => Some('\t'),
        b'v' => Some('\x0b'),
        b'\\' | b'?' | b'"' | b'\'' | b'`' => Some(char::from(letter)),
        _ => None,
    }
}

/// The number that the first `count` bytes denote, if it fits 64 bits.
#[tactic(auto, unfolding(crate::specs::Escape::digits_code))]
fn digits_code(radix: u32, count: usize, text: &[u8]) -> Option<u64>
    requires low { 2 ≤ radix }
    requires high { radix ≤ 36 }
    ensures { result ≡ option_and_then of_64_bits (spec.digits_code radix count text.now) }
{
    if text.len() < count {
        return None;
    }
    natural(radix, &text[..count])
}

/// The character that an 8-bit escape denotes.
#[tactic(auto, using(crate::proofs::Codes::octet_of_bits), unfolding(crate::specs::Escape::octet_code))]
fn octet_code(radix: u32, count: usize, text: &[u8]) -> Option<char>
    requires low { 2 ≤ radix }
    requires high { radix ≤ 36 }
    ensures { result ≡ spec.octet_code radix count text.now }
{
    let code = digits_code(radix, count, text)?;
    match u8::try_from(code) {
        Ok(octet) => Some(char::from(octet)),
        Err(_) => None,
    }
}

/// The character that an escape of a code point denotes. Bytes have no such escapes.
#[tactic(auto, using(crate::proofs::Codes::code_point_of_bits), unfolding(crate::specs::Escape::unicode_code))]
fn unicode_code(content: Content, count: usize, text: &[u8]) -> Option<char>
    ensures { result ≡ spec.unicode_code content count text.now }
{
    match content {
        Content::Text => {
            let code = digits_code(16, count, text)?;
            match u32::try_from(code) {
                Ok(code) => char::from_u32(code),
                Err(_) => None,
            }
        }
        Content::Bytes => None,
    }
}

fn code_and_size(size: usize, code: Option<char>) -> Option<(char, usize)>
    ensures { result ≡ spec.code_and_size size code }
{
    match code {
        Some(code) => Some((code, size)),
        None => None,
    }
}

/// Reads the escape after a backslash. Returns the character that it
/// denotes and the number of bytes that it takes.
#[tactic(auto, unfolding(crate::specs::Escape::escape))]
fn escape(content: Content, text: &[u8]) -> Option<(char, usize)>
    ensures { result ≡ spec.escape content text.now }
{
    match text {
        [b'x' | b'X', digits @ ..] => code_and_size(3, octet_code(16, 2, digits)),
        [b'u', digits @ ..] => code_and_size(5, unicode_code(content, 4, digits)),
        [b'U', digits @ ..] => code_and_size(9, unicode_code(content, 8, digits)),
        [b'0'..=b'7', ..] => code_and_size(3, octet_code(8, 3, text)),
        [letter, ..] => code_and_size(1, letter_code(*letter)),
        [] => None,
    }
}

/// Appends a code: as a code point in UTF-8 to a string, as a byte to bytes.
#[tactic(auto, unfolding(crate::specs::Escape::code_bytes))]
fn push_code(made: &mut Vec<u8>, content: Content, code: char) -> Result<(), AllocError>
    requires { content ≡ Bytes → code < 256 }
    ensures made { OnOk result (made.new.items ≡ made.old.items ++ spec.code_bytes content code) }
{
    match content {
        Content::Text => {
            let mut buffer = [0; 4];
            made.extend_from_slice(code.encode_utf8(&mut buffer).as_bytes())?;
        }
        Content::Bytes => made.push(code as u32 as u8)?,
    }
    Ok(())
}

fn after(text: &[u8], count: usize) -> &[u8]
    requires { count ≤ length text.now }
    ensures { result.now ≡ drop count text.now }
{
    &text[count..]
}

/// Returns the bytes that a literal's body denotes, or None if one of its escapes is invalid.
pub(crate) fn unescape(
    alloc: Global,
    content: Content,
    body: &[u8],
) -> Result<Option<Vec<u8>>, AllocError>
    ensures { IfOk result
        (λ made. option_map (λ bytes. bytes.items) made ≡ spec.unescaped_bytes content body.now) }
{
    let mut made = Vec::new(alloc);
    let mut rest = body;
    while !rest.is_empty() {
        let first = rest[0];
        rest = after(rest, 1);
        if first == b'\\' {
            match escape(content, rest) {
                Some((code, size)) => {
                    push_code(&mut made, content, code)?;
                    rest = after(rest, size);
                }
                None => return Ok(None),
            }
        } else {
            made.push(first)?;
        }
    }
    Ok(Some(made))
}
