//! The values of numbers.

ghost use Rattle.std.specs.Char.{is_ascii_digit};
ghost use Rattle.std.specs.List.{prefix_len};
ghost use Rattle.std.specs.Option.{option_and_then, option_map};
ghost use Rattle.std.specs.Prelude.{◌≡◌, ◌≤◌, length};
ghost use Rattle.cel_value.specs.View.{view};
ghost use Rattle.cel_syntax_lexer.specs.Number as spec;

use cel_value::Value;

#[tactic(auto, unfolding(crate::specs::Number::is_digit_in))]
fn is_digit(radix: u32, byte: u8) -> bool
    requires low { 2 ≤ radix }
    requires high { radix ≤ 36 }
    ensures { result ≡ spec.is_digit_in radix byte }
{
    char::from(byte).is_digit(radix)
}

/// Reports whether these are one or more digits in the radix.
#[tactic(auto, unfolding(crate::specs::Number::is_numeral))]
fn is_numeral(radix: u32, digits: &[u8]) -> bool
    requires low { 2 ≤ radix }
    requires high { radix ≤ 36 }
    ensures { result ≡ spec.is_numeral radix digits.now }
{
    !digits.is_empty() && digits.iter().all(|digit| is_digit(radix, *digit))
}

/// The number that digits denote, if it fits 64 bits.
#[tactic(auto, unfolding(crate::specs::Number::numeral_value))]
pub(crate) fn natural(radix: u32, digits: &[u8]) -> Option<u64>
    requires low { 2 ≤ radix }
    requires high { radix ≤ 36 }
    ensures { result ≡ option_and_then spec.of_64_bits (spec.numeral_value radix digits.now) }
{
    if !is_numeral(radix, digits) {
        return None;
    }
    match str::from_utf8(digits) {
        Ok(digits) => u64::from_str_radix(digits, radix).ok(),
        Err(_) => None,
    }
}

/// The radix of an int's spelling, and its digits.
fn split_radix(spelling: &[u8]) -> (u32, &[u8])
    ensures radix { result.0 ≡ spec.radix_of spelling.now }
    ensures digits { result.1.now ≡ spec.digits_of spelling.now }
    ensures low { 2 ≤ result.0 }
    ensures high { result.0 ≤ 36 }
{
    match spelling {
        [b'0', b'x', digits @ ..] => (16, digits),
        _ => (10, spelling),
    }
}

#[tactic(auto, unfolding(crate::specs::Number::is_integer))]
fn is_integer(spelling: &[u8]) -> bool
    ensures { result ≡ spec.is_integer spelling.now }
{
    let (radix, digits) = split_radix(spelling);
    is_numeral(radix, digits)
}

/// The absolute value of an int's spelling, if it fits 64 bits.
#[tactic(auto, unfolding(crate::specs::Number::integer_value))]
fn integer(spelling: &[u8]) -> Option<u64>
    ensures { result ≡ option_and_then spec.of_64_bits (spec.integer_value spelling.now) }
{
    let (radix, digits) = split_radix(spelling);
    natural(radix, digits)
}

/// The int of this sign and absolute value, if it fits 64 bits.
#[tactic(auto, unfolding(crate::specs::Number::int_value))]
fn signed(negative: bool, size: u64) -> Option<i64>
    ensures { result ≡ spec.int_value negative size }
{
    if negative {
        0i64.checked_sub_unsigned(size)
    } else {
        i64::try_from(size).ok()
    }
}

fn digit_count(text: &[u8]) -> usize
    ensures value { result ≡ prefix_len is_ascii_digit text.now }
    ensures within { result ≤ length text.now }
{
    text.iter().take_while(|byte| byte.is_ascii_digit()).count()
}

#[tactic(auto, unfolding(crate::specs::Number::is_exponent))]
fn is_exponent(text: &[u8]) -> bool
    ensures { result ≡ spec.is_exponent text.now }
{
    match text {
        [b'e' | b'E', b'+' | b'-', digits @ ..] => is_numeral(10, digits),
        [b'e' | b'E', digits @ ..] => is_numeral(10, digits),
        _ => false,
    }
}

#[tactic(auto, unfolding(crate::specs::Number::is_fraction))]
fn is_fraction(text: &[u8]) -> bool
    ensures { result ≡ spec.is_fraction text.now }
{
    let (digits, rest) = text.split_at(digit_count(text));
    !digits.is_empty() && (rest.is_empty() || is_exponent(rest))
}

#[tactic(auto, unfolding(crate::specs::Number::is_double))]
fn is_double(spelling: &[u8]) -> bool
    ensures { result ≡ spec.is_double spelling.now }
{
    let (digits, rest) = spelling.split_at(digit_count(spelling));
    match rest {
        [b'.', fraction @ ..] => is_fraction(fraction),
        _ => !digits.is_empty() && is_exponent(rest),
    }
}

/// Reports whether a minus before the spelling is part of the literal.
#[tactic(auto, unfolding(crate::specs::Number::goes_with_minus))]
pub(crate) fn goes_with_minus(spelling: &[u8]) -> bool
    ensures { result ≡ spec.goes_with_minus spelling.now }
{
    is_double(spelling) || is_integer(spelling)
}

#[tactic(auto, using(crate::proofs::Bits::uint_of_bits), unfolding(crate::specs::Number::uint_value))]
fn uint(negative: bool, spelling: &[u8]) -> Option<u64>
    ensures { result ≡ option_and_then (spec.uint_value negative) (spec.integer_value spelling.now) }
{
    if negative { None } else { integer(spelling) }
}

#[tactic(auto, using(crate::proofs::Bits::int_of_bits))]
fn int(negative: bool, spelling: &[u8]) -> Option<i64>
    ensures { result ≡ option_and_then (spec.int_value negative) (spec.integer_value spelling.now) }
{
    let size = integer(spelling)?;
    signed(negative, size)
}

/// Returns the value of a number, with or without a minus before it.
#[tactic(auto, unfolding(crate::specs::Number::number_value))]
pub(crate) fn number(negative: bool, spelling: &[u8]) -> Option<Value>
    ensures { option_map view result ≡ spec.number_value negative spelling.now }
{
    if is_double(spelling) {
        return Some(Value::Float);
    }
    match spelling {
        [size @ .., b'u' | b'U'] => match uint(negative, size) {
            Some(value) => Some(Value::UInt(value)),
            None => None,
        },
        _ => match int(negative, spelling) {
            Some(value) => Some(Value::Int(value)),
            None => None,
        },
    }
}
