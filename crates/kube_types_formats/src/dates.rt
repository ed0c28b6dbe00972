//! Dates and date-times, by RFC 3339.
ghost use Rattle.std.specs.Prelude.{◌≡◌, ◌+◌, ◌<◌, length, IfSome};
ghost use Rattle.std.specs.List.{list_all};
ghost use Rattle.std.specs.Char.{is_ascii_digit};
ghost use Rattle.kube_types_formats.specs.Dates.{is_civil, date_fault, is_clock, is_fraction, is_time, is_offset, is_zone, last_sign, zone_start, time_fault, date_time_fault};

use crate::fault::Fault;
use crate::forms::{fits, two_digits};
use crate::offsets::{cut, first_offset, last_offset};
use jiff::civil::Date;

/// Reports whether the calendar has this day.
fn is_civil(year: u32, month: u32, day: u32) -> bool
    ensures { result ≡ is_civil year month day }
{
    year <= 9999
        && month <= 12
        && day <= 31
        && Date::new(year as i16, month as i8, day as i8).is_ok()
}

/// The fault of the text as a date, if any.
#[tactic(auto, unfolding(crate::specs::Dates::date_fault))]
pub(crate) fn date_fault(text: &[u8]) -> Option<Fault>
    ensures { result ≡ date_fault text.now }
{
    if !fits(b"dddd-dd-dd", text) {
        return Some(Fault::NotDate);
    }
    let year = two_digits(text, 0) * 100 + two_digits(text, 2);
    if is_civil(year, two_digits(text, 5), two_digits(text, 8)) {
        None
    } else {
        Some(Fault::NoSuchDay)
    }
}

/// Reports whether the text is an hour, a minute and a second.
#[tactic(auto, unfolding(crate::specs::Dates::is_clock))]
fn is_clock(text: &[u8]) -> bool
    ensures { result ≡ is_clock text.now }
{
    fits(b"dd:dd:dd", text)
        && two_digits(text, 0) <= 23
        && two_digits(text, 3) <= 59
        && two_digits(text, 6) <= 60
}

/// Reports whether all bytes are digits.
fn is_digits(text: &[u8]) -> bool
    ensures { result ≡ list_all is_ascii_digit text.now }
{
    text.iter().all(|byte| byte.is_ascii_digit())
}

/// Reports whether the text is empty, or a dot and digits.
fn is_fraction(text: &[u8]) -> bool
    ensures { result ≡ is_fraction text.now }
{
    match text {
        [] => true,
        [first, digits @ ..] => *first == b'.' && digits.len() >= 1 && is_digits(digits),
    }
}

/// Reports whether the text is a time.
#[tactic(auto, using(crate::proofs::DateLemmas::short_clock))]
fn is_time(text: &[u8]) -> bool
    ensures { result ≡ is_time text.now }
{
    if text.len() < 8 {
        return false;
    }
    let (clock, fraction) = text.split_at(8);
    is_clock(clock) && is_fraction(fraction)
}

/// Reports whether the text is the hours and minutes of an offset.
fn is_offset(text: &[u8]) -> bool
    ensures { result ≡ is_offset text.now }
{
    fits(b"dd:dd", text) && two_digits(text, 0) <= 23 && two_digits(text, 3) <= 59
}

/// Reports whether the text is a time zone.
#[tactic(auto, unfolding(crate::specs::Dates::is_zone, crate::specs::Offsets::is_one_of))]
fn is_zone(text: &[u8]) -> bool
    ensures { result ≡ is_zone text.now }
{
    match text {
        [b'Z' | b'z'] => true,
        [b'+' | b'-', offset @ ..] => is_offset(offset),
        _ => false,
    }
}

/// The offset of the last sign, searched from the third byte on.
fn last_sign(rest: &[u8]) -> Option<usize>
    ensures byte_offset { result ≡ last_sign rest.now }
    ensures within { IfSome result (λ byte_offset. byte_offset < length rest.now) }
{
    if rest.len() < 2 {
        return None;
    }
    Some(last_offset(b"+-", &rest[2..])? + 2)
}

/// The offset at which the zone of a time starts, or None if there is none.
#[tactic(auto, unfolding(crate::specs::Dates::zone_start))]
fn zone_start(rest: &[u8]) -> Option<usize>
    ensures byte_offset { result ≡ zone_start rest.now }
    ensures within { IfSome result (λ byte_offset. byte_offset < length rest.now) }
{
    match last_offset(b"Zz", rest) {
        Some(byte_offset) => Some(byte_offset),
        None => last_sign(rest),
    }
}

/// The fault of the text after the date and the letter that follows it, if any.
fn time_fault(rest: &[u8]) -> Option<Fault>
    ensures { result ≡ time_fault rest.now }
{
    if rest.is_empty() {
        return Some(Fault::NotDateTime);
    }
    match zone_start(rest) {
        None => Some(Fault::NoTimeZone),
        Some(byte_offset) => {
            if is_time(&rest[..byte_offset]) && is_zone(&rest[byte_offset..]) {
                None
            } else {
                Some(Fault::NotDateTime)
            }
        }
    }
}

/// The fault of the text as a date-time, if any.
#[tactic(auto, unfolding(crate::specs::Dates::date_time_fault))]
pub(crate) fn date_time_fault(text: &[u8]) -> Option<Fault>
    ensures { result ≡ date_time_fault text.now }
{
    match first_offset(b"Tt", text) {
        None => Some(Fault::NotDateTime),
        Some(byte_offset) => {
            let (date, rest) = cut(text, byte_offset);
            if date_fault(date).is_some() {
                Some(Fault::NotDateTime)
            } else {
                time_fault(rest)
            }
        }
    }
}
