//! Parses and prints timestamps.
ghost use Rattle.std.specs.Prelude.{ℕ, ℤ, ◌≡◌, ◌+◌, ◌*◌, ◌/◌, ◌%◌, ◌<◌, ◌≤◌, ◌++◌, pos, neg_ℤ, ◌≤ℤ◌, ◌+ℤ◌, ◌*ℤ◌, IfSome, IsSomeAnd, IsOk, ◌↔◌, IfOk, IfErr, OnOk, option_map, string_bytes};
ghost use Rattle.kube_types_refused.specs.declared.Refused.TheVariants.{Memory};
ghost use Rattle.cel_value_times.specs.Ranges.{IsSecond, IsOffset, local_second};
ghost use Rattle.cel_value_times.specs.Instants.{instant};
ghost use Rattle.cel_value_times.specs.TextFunctions.{timestamp_of, timestamp_text};
ghost use Rattle.cel_value_times.specs.TimestampTexts as texts;
ghost use Rattle.cel_value_times.specs.TimestampFronts as fronts;
ghost use Rattle.cel_value_times.specs.Fronts.{option_front, rest_front};
ghost use Rattle.jiff_core.specs.Calendar.{IsBetween, IsCivilDate, days_from_civil};

use crate::Timestamp;
use crate::fronts::{after, cut_part, fraction};
use jiff::civil::Date;
use jiff_core::{Error, civil};
use kube_types_refused::Refused;
use std::alloc::{AllocError, Global};

const FIRST_SECOND: i64 = -62_135_596_800;

const LAST_SECOND: i64 = 253_402_300_799;

const FIRST_DAY: i64 = -719_162;

const SECONDS_OF_DAY: u64 = 86_400;

impl Timestamp {
    /// Parses a timestamp by RFC 3339, section 5.6. A second is at most 59, a year at least
    /// 1, and a fraction is truncated after its ninth digit. Returns `None` if the text is
    /// no timestamp, or its instant is out of range.
    pub fn read(text: &str) -> Option<Timestamp>
        ensures found { IfSome result
            (λ t. texts.IsTimestampText text.now t.seconds t.nanoseconds t.offset_minutes) }
        ensures only { (second : ℤ) (nanoseconds : ℕ) (offset : ℤ) →
            texts.IsTimestampText text.now second nanoseconds offset →
            IsSomeAnd result (λ t. (t.seconds ≡ second) × (t.nanoseconds ≡ nanoseconds)
            × (t.offset_minutes ≡ offset)) }
        ensures function { option_map (λ t. (instant t, t.offset_minutes)) result
            ≡ timestamp_of text.now }
    {
        read_parts(text.as_bytes())
    }

    /// Returns the text of the timestamp: the local time with `T`, a fraction of 0, 3, 6 or 9
    /// digits (the fewest that are exact), and the offset in digits.
    pub fn text(&self, alloc: Global) -> Result<String, Refused>
        ensures text { IfOk result (λ text. texts.IsPrintedTimestamp (string_bytes text)
            self.now.seconds self.now.nanoseconds self.now.offset_minutes) }
        ensures function { IfOk result (λ text. string_bytes text
            ≡ timestamp_text (instant self.now) self.now.offset_minutes) }
        ensures memory { IfErr result (λ e. e ≡ Memory) }
    {
        let mut out = String::new(alloc);
        let (number, second) = day_and_second(self.local_second());
        let (year, month, day) = date_of(number);
        write_local(year, month, day, second, &mut out)?;
        write_nanoseconds(self.nanoseconds, &mut out)?;
        write_offset(self.offset_minutes, &mut out)?;
        Ok(out)
    }

    /// The second that the local clock shows, since 1970-01-01T00:00:00.
    fn local_second(&self) -> i64
        ensures value { result ≡ local_second self.now.seconds self.now.offset_minutes }
        ensures range { IsSecond result }
    {
        self.seconds + 60 * self.offset_minutes as i64
    }
}

/// Returns the day number of a second, and the second of that day.
fn day_and_second(second: i64) -> (i64, u32)
    requires { IsSecond second }
    ensures whole { result.0 *ℤ pos 86_400 +ℤ pos result.1 ≡ second }
    ensures day { IsBetween (neg_ℤ (pos 719_162)) (pos 2_932_896) result.0 }
    ensures second { result.1 < 86_400 }
{
    let since_first = (second - FIRST_SECOND) as u64;
    let day = (since_first / SECONDS_OF_DAY) as i64 + FIRST_DAY;
    (day, (since_first % SECONDS_OF_DAY) as u32)
}

/// Returns the year, month and day of a day number in the years 1 to 9999.
#[tactic(auto, using(crate::proofs::CalendarFacts::year_from_one))]
fn date_of(number: i64) -> (u16, u8, u8)
    requires { IsBetween (neg_ℤ (pos 719_162)) (pos 2_932_896) number }
    ensures date { IsCivilDate (pos result.0) result.1 result.2 }
    ensures from { 1 ≤ result.0 }
    ensures number { days_from_civil (pos result.0) result.1 result.2 ≡ number }
{
    let date = civil::Date::from_unix_epoch_day(number).unwrap();
    (unsigned_year(date.year), date.month, date.day)
}

/// Converts a year that is at least 1.
fn unsigned_year(year: i16) -> u16
    requires { pos 1 ≤ℤ year }
    ensures { pos result ≡ year }
{
    year as u16
}

/// Parses a timestamp part by part.
#[tactic(auto, using(crate::proofs::ReadLemmas::local_in_years), unfolding(crate::specs::TimestampFronts::parts_at))]
fn read_parts(text: &[u8]) -> Option<Timestamp>
    ensures { option_map fronts.timestamp_parts result ≡ fronts.parts_at text.now }
{
    let (day, rest) = date(text)?;
    let (second, rest) = clock(letter(rest)?)?;
    let (nanoseconds, rest) = part(rest)?;
    let offset_minutes = zone(rest)?;
    timestamp(
        utc_second(day, second, offset_minutes),
        nanoseconds,
        offset_minutes,
    )
}

/// Returns the UTC second of a day, a second of that day and the offset of the local clock.
fn utc_second(day: i32, second: u32, offset_minutes: i16) -> i64
    requires day { IsBetween (neg_ℤ (pos 719_162)) (pos 2_932_896) day }
    requires second { second < 86_400 }
    requires offset { IsOffset offset_minutes }
    ensures { result ≡ fronts.utc_second day second offset_minutes }
{
    day as i64 * SECONDS_OF_DAY as i64 + second as i64 - 60 * offset_minutes as i64
}

/// Returns the timestamp with these parts, or None if its second is out of range.
fn timestamp(seconds: i64, nanoseconds: u32, offset_minutes: i16) -> Option<Timestamp>
    requires nanoseconds { nanoseconds < 1_000_000_000 }
    requires offset { IsOffset offset_minutes }
    requires local { IsSecond (local_second seconds offset_minutes) }
    ensures { option_map fronts.timestamp_parts result ≡ fronts.in_range
        (record { second = seconds; nanoseconds = nanoseconds; offset = offset_minutes }) }
{
    if seconds < FIRST_SECOND {
        return None;
    }
    if seconds > LAST_SECOND {
        return None;
    }
    Some(Timestamp {
        seconds,
        nanoseconds,
        offset_minutes,
    })
}

/// Parses the two digits at the front. Returns their number and the rest of the text.
fn two_digits(text: &[u8]) -> Option<(u8, &[u8])>
    ensures value { option_front result ≡ fronts.two_at text.now }
    ensures below { IfSome result (λ x. x.0 < 100) }
{
    match text {
        [high @ b'0'..=b'9', low @ b'0'..=b'9', rest @ ..] => {
            Some(((*high - b'0') * 10 + (*low - b'0'), rest))
        }
        _ => None,
    }
}

/// Parses the four digits at the front. Returns their number and the rest of the text.
#[tactic(auto, unfolding(crate::specs::TimestampFronts::four_at))]
fn four_digits(text: &[u8]) -> Option<(u16, &[u8])>
    ensures value { option_front result ≡ fronts.four_at text.now }
    ensures below { IfSome result (λ x. x.0 < 10_000) }
{
    let (century, rest) = two_digits(text)?;
    let (year, rest) = two_digits(rest)?;
    Some((century as u16 * 100 + year as u16, rest))
}

/// Returns the day number of a date, or None if the
/// calendar doesn't have it or its year is below 1.
#[tactic(auto, using(crate::proofs::CalendarFacts::days_in_range, crate::proofs::ReadLemmas::day_number_yes, crate::proofs::ReadLemmas::day_number_no))]
fn day_number(year: u16, month: u8, day: u8) -> Option<i32>
    requires year { year < 10_000 }
    requires month { month < 100 }
    requires day { day < 100 }
    ensures value { result ≡ fronts.day_number_of
        (record { year = year; month = month; day = day }) }
    ensures range { IfSome result (IsBetween (neg_ℤ (pos 719_162)) (pos 2_932_896)) }
{
    if year == 0 {
        return None;
    }
    match civil_date(year, month, day) {
        Ok(date) => Some(date.to_plain().to_unix_epoch_day()),
        Err(_) => None,
    }
}

/// Returns the date of these numbers, or an error if the calendar doesn't have it.
fn civil_date(year: u16, month: u8, day: u8) -> Result<Date, Error>
    requires year { year < 10_000 }
    requires month { month < 100 }
    requires day { day < 100 }
    ensures succeeds { IsOk result ↔ IsCivilDate (pos year) month day }
    ensures value { IfOk result
        (λ date. (date.year ≡ pos year) × (date.month ≡ month) × (date.day ≡ day)) }
{
    Date::new(year as i16, month as i8, day as i8)
}

/// Parses the date at the front. Returns its day number and the rest of the text.
#[tactic(auto, unfolding(crate::specs::TimestampFronts::date_at))]
fn date(text: &[u8]) -> Option<(i32, &[u8])>
    ensures value { option_front result ≡ fronts.date_at text.now }
    ensures range { IfSome result (λ x. IsBetween (neg_ℤ (pos 719_162)) (pos 2_932_896) x.0) }
{
    let (year, rest) = four_digits(text)?;
    let (month, rest) = two_digits(after(b'-', rest)?)?;
    let (day, rest) = two_digits(after(b'-', rest)?)?;
    Some((day_number(year, month, day)?, rest))
}

/// Skips the letter between date and time.
fn letter(text: &[u8]) -> Option<&[u8]>
    ensures { rest_front result ≡ fronts.letter_at text.now }
{
    match text {
        [b'T' | b't', rest @ ..] => Some(rest),
        _ => None,
    }
}

/// Returns the second of the day of a time, or None if there is no such time.
fn second_of_day(hour: u8, minute: u8, second: u8) -> Option<u32>
    ensures value { result ≡ fronts.seconds_of_day hour minute second }
    ensures below { IfSome result (λ n. n < 86_400) }
{
    if hour < 24 && minute < 60 && second < 60 {
        Some(3600 * hour as u32 + 60 * minute as u32 + second as u32)
    } else {
        None
    }
}

/// Parses the time at the front. Returns its second of the day and the rest of the text.
#[tactic(auto, unfolding(crate::specs::TimestampFronts::clock_at))]
fn clock(text: &[u8]) -> Option<(u32, &[u8])>
    ensures value { option_front result ≡ fronts.clock_at text.now }
    ensures below { IfSome result (λ x. x.0 < 86_400) }
{
    let (hour, rest) = two_digits(text)?;
    let (minute, rest) = two_digits(after(b':', rest)?)?;
    let (second, rest) = two_digits(after(b':', rest)?)?;
    Some((second_of_day(hour, minute, second)?, rest))
}

/// Parses the fraction at the front, if there is one.
/// Returns its nanoseconds and the rest of the text.
fn part(text: &[u8]) -> Option<(u32, &[u8])>
    ensures value { option_front result ≡ fronts.part_at text.now }
    ensures below { IfSome result (λ x. x.0 < 1_000_000_000) }
{
    let (digits, rest) = fraction(text);
    match digits {
        None => Some((0, rest)),
        Some([]) => None,
        Some(digits) => Some((cut_part(1_000_000_000, digits) as u32, rest)),
    }
}

/// Parses the hours and minutes of an offset, which are the whole text. Returns them in minutes.
#[tactic(auto, unfolding(crate::specs::TimestampFronts::minutes_at))]
fn minutes(text: &[u8]) -> Option<i16>
    ensures value { result ≡ option_map (λ n. pos n) (fronts.minutes_at text.now) }
    ensures range { IfSome result (IsBetween (pos 0) (pos 1439)) }
{
    let (hour, rest) = two_digits(text)?;
    let (minute, rest) = two_digits(after(b':', rest)?)?;
    if hour < 24 && minute < 60 && rest.is_empty() {
        Some(60 * hour as i16 + minute as i16)
    } else {
        None
    }
}

/// Parses the offset, which is the whole text. Returns it in minutes.
fn zone(text: &[u8]) -> Option<i16>
    ensures value { result ≡ fronts.zone_at text.now }
    ensures range { IfSome result IsOffset }
{
    match text {
        [b'Z' | b'z'] => Some(0),
        [b'+', rest @ ..] => minutes(rest),
        [b'-', rest @ ..] => Some(-minutes(rest)?),
        _ => None,
    }
}

/// Writes a number as two digits.
fn write_two(n: u8, out: &mut String) -> Result<(), AllocError>
    requires { n < 100 }
    ensures { OnOk result (string_bytes out.new ≡ string_bytes out.old ++ texts.two_digits n) }
{
    out.push(char::from(b'0' + n / 10))?;
    out.push(char::from(b'0' + n % 10))?;
    Ok(())
}

/// Writes a number as three digits.
fn write_three(n: u32, out: &mut String) -> Result<(), AllocError>
    requires { n < 1_000 }
    ensures { OnOk result (string_bytes out.new ≡ string_bytes out.old ++ texts.three_digits n) }
{
    out.push(char::from(b'0' + (n / 100) as u8))?;
    write_two((n % 100) as u8, out)
}

/// Writes a number as four digits.
fn write_four(n: u16, out: &mut String) -> Result<(), AllocError>
    requires { n < 10_000 }
    ensures { OnOk result (string_bytes out.new ≡ string_bytes out.old ++ texts.four_digits n) }
{
    write_two((n / 100) as u8, out)?;
    write_two((n % 100) as u8, out)
}

/// Writes a date.
fn write_date(year: u16, month: u8, day: u8, out: &mut String) -> Result<(), AllocError>
    requires year { year < 10_000 }
    requires month { month < 100 }
    requires day { day < 100 }
    ensures { OnOk result
        (string_bytes out.new ≡ string_bytes out.old ++ texts.date_text year month day) }
{
    write_four(year, out)?;
    out.push('-')?;
    write_two(month, out)?;
    out.push('-')?;
    write_two(day, out)
}

/// Writes a date, a `T` and the time of a second of the day.
fn write_local(
    year: u16,
    month: u8,
    day: u8,
    second: u32,
    out: &mut String,
) -> Result<(), AllocError>
    requires year { year < 10_000 }
    requires month { month < 100 }
    requires day { day < 100 }
    requires second { second < 86_400 }
    ensures { OnOk result (string_bytes out.new ≡
        string_bytes out.old ++ texts.local_text (texts.local_at year month day second) 84) }
{
    write_date(year, month, day, out)?;
    out.push('T')?;
    write_clock(second, out)
}

/// Writes the time of a second of the day.
fn write_clock(second: u32, out: &mut String) -> Result<(), AllocError>
    requires { second < 86_400 }
    ensures { OnOk result (string_bytes out.new ≡ string_bytes out.old
        ++ texts.time_text (second / 3600) (second / 60 % 60) (second % 60)) }
{
    write_two((second / 3600) as u8, out)?;
    out.push(':')?;
    write_two((second / 60 % 60) as u8, out)?;
    out.push(':')?;
    write_two((second % 60) as u8, out)
}

/// Writes the nanoseconds as a fraction of 0, 3, 6 or 9 digits, the fewest that are exact.
fn write_nanoseconds(n: u32, out: &mut String) -> Result<(), AllocError>
    requires { n < 1_000_000_000 }
    ensures { OnOk result
        (string_bytes out.new ≡ string_bytes out.old ++ texts.nanoseconds_text n) }
{
    if n == 0 {
        return Ok(());
    }
    out.push('.')?;
    write_three(n / 1_000_000, out)?;
    if n % 1_000_000 == 0 {
        return Ok(());
    }
    write_three(n / 1_000 % 1_000, out)?;
    if n % 1_000 == 0 {
        return Ok(());
    }
    write_three(n % 1_000, out)
}

/// Writes the sign, the hours and the minutes of an offset.
fn write_offset(offset_minutes: i16, out: &mut String) -> Result<(), AllocError>
    requires { IsOffset offset_minutes }
    ensures { OnOk result
        (string_bytes out.new ≡ string_bytes out.old ++ texts.offset_text offset_minutes) }
{
    out.push(if offset_minutes < 0 { '-' } else { '+' })?;
    let minutes = offset_minutes.unsigned_abs();
    write_two((minutes / 60) as u8, out)?;
    out.push(':')?;
    write_two((minutes % 60) as u8, out)
}
