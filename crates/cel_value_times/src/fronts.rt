//! Parsers of the front of a text. Each returns what it found and the rest of the text.
ghost use Rattle.std.specs.Prelude.{◌≡◌, ◌+◌, ◌*◌, ◌^◌, ◌<◌, ◌≤◌, true, length, IfSome, IsSome, ◌↔◌, option_map};
ghost use Rattle.std.specs.List.{prefix_len};
ghost use Rattle.std.specs.Str.{all_ascii_digits};
ghost use Rattle.std.specs.Char.{is_ascii_digit};
ghost use Rattle.cel_value_times.specs.Digits.{number, cut_part};
ghost use Rattle.cel_value_times.specs.Fronts.{after, leading_digits, after_digits, fraction_at};

/// The text after the byte, if it starts with that byte.
pub(crate) fn after(byte: u8, text: &[u8]) -> Option<&[u8]>
    ensures { option_map (λ rest. rest.now) result ≡ after byte text.now }
{
    match text {
        [first, rest @ ..] if *first == byte => Some(rest),
        _ => None,
    }
}

fn digits_len(text: &[u8]) -> usize
    ensures len { result ≡ prefix_len is_ascii_digit text.now }
    ensures within { result ≤ length text.now }
{
    text.iter().take_while(|c| c.is_ascii_digit()).count()
}

/// Splits off the digits at the front.
#[tactic(auto, using(crate::proofs::DigitLemmas::leading_are_digits))]
pub(crate) fn digits(text: &[u8]) -> (&[u8], &[u8])
    ensures digits { result.0.now ≡ leading_digits text.now }
    ensures rest { result.1.now ≡ after_digits text.now }
    ensures all { all_ascii_digits result.0.now ≡ true }
{
    text.split_at(digits_len(text))
}

/// Splits off a dot and the digits after it, if the text
/// starts with a dot. Returns the digits and the rest.
pub(crate) fn fraction(text: &[u8]) -> (Option<&[u8]>, &[u8])
    ensures digits { option_map (λ digits. digits.now) result.0 ≡ (fraction_at text.now).0 }
    ensures rest { result.1.now ≡ (fraction_at text.now).1 }
    ensures all { IfSome result.0 (λ digits. all_ascii_digits digits.now ≡ true) }
{
    match text {
        [b'.', rest @ ..] => {
            let (digits, rest) = digits(rest);
            (Some(digits), rest)
        }
        _ => (None, text),
    }
}

/// Returns the number that the digits denote, or None if it doesn't fit.
#[tactic(auto, using(crate::proofs::DigitLemmas::number_at_least, crate::proofs::DigitLemmas::number_at, crate::proofs::DigitLemmas::digits_left))]
pub(crate) fn number(digits: &[u8]) -> Option<u64>
    requires { all_ascii_digits digits.now ≡ true }
    ensures fits { IsSome result ↔ (number digits.now < 2 ^ 64) }
    ensures value { IfSome result (λ n. n ≡ number digits.now) }
{
    let mut n = 0u64;
    for digit in digits {
        n = n.checked_mul(10)?.checked_add((digit - b'0') as u64)?;
    }
    Some(n)
}

/// Returns how many of a unit's `parts` the digits after a dot denote, truncated to a whole number.
#[tactic(auto, using(crate::proofs::DigitLemmas::digit_in, crate::proofs::DigitLemmas::cut_part_at))]
pub(crate) fn cut_part(parts: u64, digits: &[u8]) -> u64
    requires all { all_ascii_digits digits.now ≡ true }
    requires some { 0 < parts }
    requires few { parts < 2 ^ 60 }
    ensures value { result ≡ cut_part parts digits.now }
    ensures below { result < parts }
{
    let mut part = 0;
    for place in (0..digits.len()).rev() {
        part = (parts * (digits[place] - b'0') as u64 + part) / 10;
    }
    part
}
