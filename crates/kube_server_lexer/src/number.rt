//! The length in bytes of a number, or of a part of one, at the front of a text.

ghost use Rattle.std.specs.Prelude.{◌≤◌, length};
ghost use Rattle.cel_syntax_lexer.specs.Numbers as spec;
ghost use Rattle.cel_syntax_lexer.specs.Spelling.{LongestSpelling};

use crate::bytes::{
    after, begins, begins_either, digits_length, hexadecimal_digits_length, longer,
};

fn signed_length(text: &[u8]) -> usize
    ensures spelling { LongestSpelling spec.is_signed text.now result }
    ensures within { result ≤ length text.now }
{
    if begins_either(text, b'+', b'-') {
        longer(digits_length(after(text, 1)))
    } else {
        0
    }
}

fn power_length(text: &[u8]) -> usize
    ensures spelling { LongestSpelling spec.is_power text.now result }
    ensures within { result ≤ length text.now }
{
    digits_length(text).max(signed_length(text))
}

fn exponent_length(text: &[u8]) -> usize
    ensures spelling { LongestSpelling spec.is_exponent text.now result }
    ensures within { result ≤ length text.now }
{
    if begins_either(text, b'e', b'E') {
        longer(power_length(after(text, 1)))
    } else {
        0
    }
}

fn after_dot_length(text: &[u8]) -> usize
    ensures spelling { LongestSpelling spec.is_after_dot text.now result }
    ensures within { result ≤ length text.now }
{
    let digits = digits_length(text);
    if digits == 0 {
        return 0;
    }
    digits + exponent_length(after(text, digits))
}

fn fraction_length(text: &[u8]) -> usize
    ensures spelling { LongestSpelling spec.is_fraction text.now result }
    ensures within { result ≤ length text.now }
{
    if begins(text, b'.') {
        longer(after_dot_length(after(text, 1)))
    } else {
        0
    }
}

fn suffix_length(text: &[u8]) -> usize
    ensures spelling { LongestSpelling spec.is_end_or_suffix text.now result }
    ensures within { result ≤ length text.now }
{
    if begins_either(text, b'u', b'U') {
        1
    } else {
        0
    }
}

fn after_x_length(text: &[u8]) -> usize
    ensures spelling { LongestSpelling spec.is_after_x text.now result }
    ensures within { result ≤ length text.now }
{
    let digits = hexadecimal_digits_length(text);
    if digits == 0 {
        return 0;
    }
    digits + suffix_length(after(text, digits))
}

fn after_zero_length(text: &[u8]) -> usize
    ensures spelling { LongestSpelling spec.is_after_zero text.now result }
    ensures within { result ≤ length text.now }
{
    if begins(text, b'x') {
        longer(after_x_length(after(text, 1)))
    } else {
        0
    }
}

fn hexadecimal_length(text: &[u8]) -> usize
    ensures spelling { LongestSpelling spec.is_hexadecimal text.now result }
    ensures within { result ≤ length text.now }
{
    if begins(text, b'0') {
        longer(after_zero_length(after(text, 1)))
    } else {
        0
    }
}

fn after_digits_length(text: &[u8]) -> usize
    ensures spelling { LongestSpelling spec.is_after_digits text.now result }
    ensures within { result ≤ length text.now }
{
    suffix_length(text)
        .max(fraction_length(text))
        .max(exponent_length(text))
}

fn decimal_length(text: &[u8]) -> usize
    ensures spelling { LongestSpelling spec.is_decimal text.now result }
    ensures within { result ≤ length text.now }
{
    let digits = digits_length(text);
    if digits == 0 {
        return 0;
    }
    digits + after_digits_length(after(text, digits))
}

/// The length in bytes of the longest number at the front, or 0 if there is none.
pub(crate) fn number_length(text: &[u8]) -> usize
    ensures spelling { LongestSpelling spec.is_number text.now result }
    ensures within { result ≤ length text.now }
{
    hexadecimal_length(text)
        .max(fraction_length(text))
        .max(decimal_length(text))
}
