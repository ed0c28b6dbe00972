//! Readers of the front of a text.
ghost use Rattle.std.specs.Prelude.{◌≡◌, ◌<◌, IfSome, ◌≤◌, length, drop, option_map};
ghost use Rattle.kube_server_patterns.specs.Fronts as spec;

/// The text after the character, if it begins with it.
pub(crate) fn after(c: char, text: &[char]) -> Option<&[char]>
    ensures { option_map (λ rest. rest.now) result ≡ spec.after c text.now }
{
    match text {
        [first, rest @ ..] if *first == c => Some(rest),
        _ => None,
    }
}

/// Reports whether the text begins with the character.
pub(crate) fn begins(c: char, text: &[char]) -> bool
    ensures { result ≡ spec.begins c text.now }
{
    match text {
        [first, ..] => *first == c,
        [] => false,
    }
}

/// How many characters stand before the first `c`.
fn before_first(c: char, text: &[char]) -> usize
    ensures len { result ≡ spec.before_first c text.now }
    ensures within { result ≤ length text.now }
{
    text.iter().take_while(|d| **d != c).count()
}

/// The characters before the first `c`, and those after it.
pub(crate) fn until(c: char, text: &[char]) -> Option<(&[char], &[char])>
    ensures { option_map (λ found. (found.0.now, found.1.now)) result ≡ spec.until c text.now }
{
    let n = before_first(c, text);
    if n < text.len() {
        Some((&text[..n], &text[n + 1..]))
    } else {
        None
    }
}

/// How many digits in this radix stand at the front.
pub(crate) fn digit_count(radix: u32, text: &[char]) -> usize
    requires low { 2 ≤ radix }
    requires high { radix ≤ 16 }
    ensures count { result ≡ spec.digit_count radix text.now }
    ensures within { result ≤ length text.now }
{
    text.iter().take_while(|c| c.is_digit(radix)).count()
}

/// The decimal digits at the front, and what follows them.
pub(crate) fn digits(text: &[char]) -> (&[char], &[char])
    ensures digits { result.0.now ≡ spec.leading_digits text.now }
    ensures rest { result.1.now ≡ spec.after_digits text.now }
{
    text.split_at(digit_count(10, text))
}

/// The number that a further digit makes of `n`, but at most `limit`.
fn next_number(radix: u32, limit: u32, n: u32, c: char) -> Option<u32>
    requires low { 2 ≤ radix }
    requires high { radix ≤ 16 }
    requires limit { limit ≤ 0x110000 }
    requires within { n ≤ limit }
    ensures value { result ≡ spec.next_number radix limit n c }
    ensures within { IfSome result (λ m. m ≤ limit) }
{
    let digit = c.to_digit(radix)?;
    Some(limit.min(n * radix + digit))
}

/// The number that digits denote, but at most `limit`. Returns `None` if one is no digit.
#[tactic(auto, using(crate::proofs::Numbers::number_more, crate::proofs::Numbers::number_done), unfolding(crate::specs::Fronts::number))]
pub(crate) fn number(radix: u32, limit: u32, digits: &[char]) -> Option<u32>
    requires low { 2 ≤ radix }
    requires high { radix ≤ 16 }
    requires limit { limit ≤ 0x110000 }
    ensures { result ≡ spec.number radix limit digits.now }
{
    let mut n = 0u32;
    for c in digits {
        n = next_number(radix, limit, n, *c)?;
    }
    Some(n)
}
