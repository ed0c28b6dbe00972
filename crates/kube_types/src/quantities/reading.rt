//! Reads the text of a quantity, part by part.
//!
//! Source: the grammar in the documentation of `Quantity`, `k8s.io/apimachinery/pkg/api/resource`.
ghost use Rattle.std.specs.Char.{is_ascii_digit};
ghost use Rattle.std.specs.List.{prefix_len};
ghost use Rattle.std.specs.Option.{SomeIff};
ghost use Rattle.std.specs.Prelude.{◌≡◌, ◌*◌, ◌^◌, ◌<◌, ◌++◌, ◌-ℤ◌, pos, unsigned_abs, IfSome};
ghost use Rattle.std.specs.Str.Parse.{starts_with_minus, without_leading_sign, digits_value, digits_value_after, AllDigits};
ghost use Rattle.kube_types.specs.Quantity.Reading.{leading_digits, after_digits, fraction_digits, suffix_of, decimal_suffix, binary_suffix, exponent_of, factor_of};

use crate::quantities::scaling::signed;

/// An unsigned text, split into the digits before and after the point and the suffix after them.
#[derive(Clone, Copy)]
pub(crate) struct Numeral<'a> {
    pub whole: &'a [u8],
    pub fraction: &'a [u8],
    pub suffix: &'a [u8],
}

/// The factor of a suffix: ten to the `tens`, times the whole number `times`.
#[derive(Clone, Copy)]
pub(crate) struct Factor {
    pub tens: i32,
    pub times: u64,
}

/// Reports whether the text starts with a minus, and returns the text after an optional sign.
pub(crate) fn split_sign(text: &[u8]) -> (bool, &[u8])
    ensures negative { result.0 ≡ starts_with_minus text.now }
    ensures rest { result.1.now ≡ without_leading_sign text.now }
{
    match text {
        [b'-', rest @ ..] => (true, rest),
        [b'+', rest @ ..] => (false, rest),
        _ => (false, text),
    }
}

/// The number of digits that the text starts with.
fn digit_count(text: &[u8]) -> usize
    ensures { result ≡ prefix_len is_ascii_digit text.now }
{
    text.iter().take_while(|byte| byte.is_ascii_digit()).count()
}

/// The digits that the text starts with, and the rest.
fn split_digits(text: &[u8]) -> (&[u8], &[u8])
    ensures digits { result.0.now ≡ leading_digits text.now }
    ensures rest { result.1.now ≡ after_digits text.now }
{
    text.split_at(digit_count(text))
}

/// Splits an unsigned text at the ends of its digits.
#[tactic(auto, unfolding(crate::specs::Quantity::Reading::fraction_digits, crate::specs::Quantity::Reading::suffix_of))]
pub(crate) fn split_numeral(text: &[u8]) -> Numeral<'_>
    ensures whole { result.whole.now ≡ leading_digits text.now }
    ensures fraction { result.fraction.now ≡ fraction_digits text.now }
    ensures suffix { result.suffix.now ≡ suffix_of text.now }
{
    let (whole, rest) = split_digits(text);
    match rest {
        [b'.', after_point @ ..] => {
            let (fraction, suffix) = split_digits(after_point);
            Numeral {
                whole,
                fraction,
                suffix,
            }
        }
        _ => Numeral {
            whole,
            fraction: &[],
            suffix: rest,
        },
    }
}

/// The number read so far, `start`, continued with
/// these digits. None if it isn't below 2 to the 127.
pub(crate) fn digits_number(start: u128, digits: &[u8]) -> Option<u128>
    requires { AllDigits 10 digits.now }
    ensures { SomeIff result (digits_value_after 10 start digits.now < 2 ^ 127)
        (digits_value_after 10 start digits.now) }
{
    let mut number = start;
    for digit in digits {
        let next = u128::from(*digit - b'0');
        number = number.checked_mul(10)?.checked_add(next)?;
    }
    if number < 1 << 127 {
        Some(number)
    } else {
        None
    }
}

/// Parses an exponent: an optional sign and digits. None if it doesn't fit in 32 bits.
#[tactic(auto, unfolding(crate::specs::Quantity::Reading::exponent_of))]
fn exponent(text: &[u8]) -> Option<i32>
    ensures { result ≡ exponent_of text.now }
{
    let (negative, unsigned) = split_sign(text);
    let (digits, rest) = split_digits(unsigned);
    if digits.is_empty() || !rest.is_empty() {
        return None;
    }
    let size = digits_number(0, digits)?;
    i32::try_from(signed(negative, size)?).ok()
}

/// The power of ten that a letter stands for.
#[tactic(auto, unfolding(crate::specs::Quantity::Reading::decimal_suffix))]
fn decimal_power(letter: u8) -> Option<i32>
    ensures { result ≡ decimal_suffix letter }
{
    match letter {
        b'n' => Some(-9),
        b'u' => Some(-6),
        b'm' => Some(-3),
        b'k' => Some(3),
        b'M' => Some(6),
        b'G' => Some(9),
        b'T' => Some(12),
        b'P' => Some(15),
        b'E' => Some(18),
        _ => None,
    }
}

/// The power of two that a letter before an `i` stands for.
#[tactic(auto, unfolding(crate::specs::Quantity::Reading::binary_suffix))]
fn binary_power(letter: u8) -> Option<u64>
    ensures value { result ≡ binary_suffix letter }
    ensures positive { IfSome result (λ times. 0 < times) }
{
    match letter {
        b'K' => Some(1 << 10),
        b'M' => Some(1 << 20),
        b'G' => Some(1 << 30),
        b'T' => Some(1 << 40),
        b'P' => Some(1 << 50),
        b'E' => Some(1 << 60),
        _ => None,
    }
}

/// The factor of a suffix.
#[tactic(auto, unfolding(crate::specs::Quantity::Reading::factor_of))]
pub(crate) fn suffix_factor(suffix: &[u8]) -> Option<Factor>
    ensures value { result ≡ factor_of suffix.now }
    ensures positive { IfSome result (λ factor. 0 < factor.times) }
{
    match suffix {
        [] => Some(Factor { tens: 0, times: 1 }),
        [letter] => {
            let tens = decimal_power(*letter)?;
            Some(Factor { tens, times: 1 })
        }
        [letter, b'i'] => {
            let times = binary_power(*letter)?;
            Some(Factor { tens: 0, times })
        }
        [b'e' | b'E', text @ ..] => {
            let tens = exponent(text)?;
            Some(Factor { tens, times: 1 })
        }
        _ => None,
    }
}

/// The digits before and after the point as one number. None if it isn't below 2 to the 127.
fn numeral_digits(whole: &[u8], fraction: &[u8]) -> Option<u128>
    requires whole_digits { AllDigits 10 whole.now }
    requires fraction_digits { AllDigits 10 fraction.now }
    ensures { SomeIff result (digits_value 10 (whole.now ++ fraction.now) < 2 ^ 127)
        (digits_value 10 (whole.now ++ fraction.now)) }
{
    let start = digits_number(0, whole)?;
    digits_number(start, fraction)
}

/// The digits before and after the point as one number, times a
/// whole number. None if the product isn't below 2 to the 127.
pub(crate) fn numeral_size(whole: &[u8], fraction: &[u8], times: u64) -> Option<u128>
    requires whole_digits { AllDigits 10 whole.now }
    requires fraction_digits { AllDigits 10 fraction.now }
    requires positive { 0 < times }
    ensures { SomeIff result (digits_value 10 (whole.now ++ fraction.now) * times < 2 ^ 127)
        (digits_value 10 (whole.now ++ fraction.now) * times) }
{
    let digits = numeral_digits(whole, fraction)?;
    let size = digits.checked_mul(u128::from(times))?;
    if size < 1 << 127 { Some(size) } else { None }
}

/// The scale of a numeral with `places` digits after
/// its point, under a factor of ten to the `tens`.
pub(crate) fn scale_of(tens: i32, places: usize) -> i128
    ensures value { result ≡ tens -ℤ pos places }
    ensures bound { unsigned_abs result < 2 ^ 66 }
{
    i128::from(tens) - places as i128
}
