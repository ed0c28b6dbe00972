//! Parses and prints durations.
ghost use Rattle.std.specs.Prelude.{ℕ, ℤ, ◌≡◌, ◌+◌, ◌*◌, ◌<◌, ◌^◌, true, List, IsTrue, ◌↔◌, Some, None, IfSome, IsSome, IsSomeAnd, IfOk, IfErr, OnOk, ◌++◌, option_map, string_bytes, codes};
ghost use Rattle.std.specs.Str.{all_ascii_digits};
ghost use Rattle.kube_types_refused.specs.declared.Refused.TheVariants.{Memory};
ghost use Rattle.cel_value_times.specs.Digits.{number, cut_part};
ghost use Rattle.cel_value_times.specs.Fronts.{option_front, unit_at, amount_at};
ghost use Rattle.cel_value_times.specs.DurationTexts.{AreAmounts, IsMagnitude, IsDurationText, duration_text, magnitude_text, small_text, hours_text, minutes_text, seconds_text};
ghost use Rattle.cel_value_times.specs.TextFunctions.{duration_of};

use crate::Duration;
use crate::decimals::write_decimals;
use crate::fronts::{after, cut_part, digits, fraction, number};
use kube_types_refused::Refused;
use std::alloc::{AllocError, Global};
use std::fmt::Write;

const HOUR: u64 = 3_600_000_000_000;

const MINUTE: u64 = 60_000_000_000;

const SECOND: u64 = 1_000_000_000;

const MILLISECOND: u64 = 1_000_000;

const MICROSECOND: u64 = 1_000;

const NANOSECOND: u64 = 1;

impl Duration {
    /// Parses a duration by the grammar of Go's `time.ParseDuration`: an optional `-` and one or
    /// more decimal numbers, each with an optional fraction and a unit (`h`, `m`, `s`, `ms`, `us`,
    /// `µs` or `ns`), or a bare `0`. Each number is truncated to whole nanoseconds. Returns `None`
    /// if the text is no duration, or one out of range.
    pub fn read(text: &str) -> Option<Duration>
        ensures found { IfSome result (λ d. IsDurationText text.now d.nanoseconds) }
        ensures only { (n : ℤ) → IsDurationText text.now n →
            IsSomeAnd result (λ d. d.nanoseconds ≡ n) }
        ensures function { option_map (λ d. d.nanoseconds) result ≡ duration_of text.now }
    {
        read(text.as_bytes())
    }

    /// Returns the text of the duration, as Go prints it: in hours, minutes and seconds if it is at
    /// least one second, and otherwise in the largest unit of which there is at least one.
    pub fn text(&self, alloc: Global) -> Result<String, Refused>
        ensures text { IfOk result (λ text. string_bytes text ≡ duration_text self.now.nanoseconds) }
        ensures memory { IfErr result (λ e. e ≡ Memory) }
    {
        let mut out = String::new(alloc);
        if self.nanoseconds < 0 {
            out.push('-')?;
        }
        write_magnitude(self.nanoseconds.unsigned_abs(), &mut out)?;
        Ok(out)
    }
}

/// Parses a duration.
fn read(text: &[u8]) -> Option<Duration>
    ensures found { IfSome result (λ d. IsDurationText text.now d.nanoseconds) }
    ensures only { (n : ℤ) → IsDurationText text.now n → IsSomeAnd result (λ d. d.nanoseconds ≡ n) }
{
    match after(b'-', text) {
        Some(rest) => Duration::backward(magnitude(rest)?),
        None => Duration::forward(magnitude(text)?),
    }
}

/// Parses the unit at the front. Returns its nanoseconds and the rest of the text.
fn unit(text: &[u8]) -> Option<(u64, &[u8])>
    ensures found { option_front result ≡ unit_at text.now }
    ensures size { IfSome result (λ x. (0 < x.0) × (x.0 < 2 ^ 60)) }
{
    match text {
        [b'h', rest @ ..] => Some((HOUR, rest)),
        [b'm', rest @ ..] => match after(b's', rest) {
            Some(rest) => Some((MILLISECOND, rest)),
            None => Some((MINUTE, rest)),
        },
        [b's', rest @ ..] => Some((SECOND, rest)),
        [b'u', rest @ ..] => Some((MICROSECOND, after(b's', rest)?)),
        [0xc2, rest @ ..] => Some((MICROSECOND, after(b's', after(0xb5, rest)?)?)),
        [0xce, rest @ ..] => Some((MICROSECOND, after(b's', after(0xbc, rest)?)?)),
        [b'n', rest @ ..] => Some((NANOSECOND, after(b's', rest)?)),
        _ => None,
    }
}

/// Returns the nanoseconds of a number with a unit,
/// truncated to whole ones, or None if they don't fit.
fn nanoseconds(whole: &[u8], fraction: &[u8], unit: u64) -> Option<u64>
    requires whole { all_ascii_digits whole.now ≡ true }
    requires fraction { all_ascii_digits fraction.now ≡ true }
    requires some { 0 < unit }
    requires few { unit < 2 ^ 60 }
    ensures fits { IsSome result ↔ (number whole.now * unit + cut_part unit fraction.now < 2 ^ 64) }
    ensures value { IfSome result (λ n. n ≡ number whole.now * unit + cut_part unit fraction.now) }
{
    number(whole)?
        .checked_mul(unit)?
        .checked_add(cut_part(unit, fraction))
}

/// Parses the number with its unit at the front. Returns its nanoseconds and the rest of the
/// text, or None if there is none or it doesn't fit.
#[tactic(auto, unfolding(crate::specs::Fronts::amount_at))]
fn amount(text: &[u8]) -> Option<(u64, &[u8])>
    ensures found { IfSome result (λ x. amount_at text.now ≡ Some (x.0, x.1.now)) }
    ensures only { (n : ℕ) (rest : List ℕ) → amount_at text.now ≡ Some (n, rest) → n < 2 ^ 64 →
        IsSome result }
{
    let (whole, rest) = digits(text);
    let (fraction, rest) = fraction(rest);
    let fraction = fraction.unwrap_or(&[]);
    if whole.is_empty() && fraction.is_empty() {
        return None;
    }
    let (unit, rest) = unit(rest)?;
    let nanoseconds = nanoseconds(whole, fraction, unit)?;
    Some((nanoseconds, rest))
}

/// Parses numbers with units and returns the sum of their nanoseconds, or None if the
/// text is anything else or the sum doesn't fit.
fn amounts(text: &[u8]) -> Option<u64>
    ensures found { IfSome result (λ n. AreAmounts text.now n) }
    ensures only { (n : ℕ) → AreAmounts text.now n → n < 2 ^ 64 → result ≡ Some n }
{
    let mut total = 0u64;
    let mut rest = text;
    'amounts: while !rest.is_empty() {
        let (nanoseconds, later) = amount(rest)?;
        total = total.checked_add(nanoseconds)?;
        rest = later;
    }
    Some(total)
}

/// Reports whether the text is a zero without a unit.
fn is_bare_zero(text: &[u8]) -> bool
    ensures { IsTrue result ↔ (text.now ≡ codes "0") }
{
    matches!(text, [b'0'])
}

/// Parses a duration without its sign. Returns its nanoseconds if they fit.
fn magnitude(text: &[u8]) -> Option<u64>
    ensures found { IfSome result (λ n. IsMagnitude text.now n) }
    ensures only { (n : ℕ) → IsMagnitude text.now n → n < 2 ^ 64 → result ≡ Some n }
{
    if text.is_empty() {
        return None;
    }
    if is_bare_zero(text) {
        return Some(0);
    }
    amounts(text)
}

/// Writes the text of a duration without its sign.
fn write_magnitude(n: u64, out: &mut String) -> Result<(), AllocError>
    ensures { OnOk result (string_bytes out.new ≡ string_bytes out.old ++ magnitude_text n) }
{
    if n == 0 {
        out.push_str("0s")?;
        return Ok(());
    }
    if n < SECOND {
        return write_small(n, out);
    }
    write_hours(n, out)?;
    write_minutes(n, out)?;
    write_seconds(n, out)
}

/// Writes the hours, if there are any.
fn write_hours(n: u64, out: &mut String) -> Result<(), AllocError>
    ensures { OnOk result (string_bytes out.new ≡ string_bytes out.old ++ hours_text n) }
{
    if n >= HOUR {
        write!(out, "{}h", n / HOUR)?;
    }
    Ok(())
}

/// Writes the minutes, if there are any or hours were written.
fn write_minutes(n: u64, out: &mut String) -> Result<(), AllocError>
    ensures { OnOk result (string_bytes out.new ≡ string_bytes out.old ++ minutes_text n) }
{
    if n >= MINUTE {
        write!(out, "{}m", n / MINUTE % 60)?;
    }
    Ok(())
}

/// Writes the seconds with their fraction.
fn write_seconds(n: u64, out: &mut String) -> Result<(), AllocError>
    ensures { OnOk result (string_bytes out.new ≡ string_bytes out.old ++ seconds_text n) }
{
    write!(out, "{}", n / SECOND % 60)?;
    write_decimals(9, n % SECOND, out)?;
    out.push('s')?;
    Ok(())
}

/// Writes a duration below one second, in the largest unit of which there is at least one.
fn write_small(n: u64, out: &mut String) -> Result<(), AllocError>
    ensures { OnOk result (string_bytes out.new ≡ string_bytes out.old ++ small_text n) }
{
    if n < MICROSECOND {
        write!(out, "{n}ns")?;
        return Ok(());
    }
    if n < MILLISECOND {
        write!(out, "{}", n / MICROSECOND)?;
        write_decimals(3, n % MICROSECOND, out)?;
        out.push_str("µs")?;
        return Ok(());
    }
    write!(out, "{}", n / MILLISECOND)?;
    write_decimals(6, n % MILLISECOND, out)?;
    out.push_str("ms")?;
    Ok(())
}
