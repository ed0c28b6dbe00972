//! Timestamps: instants with the UTC offset of a local clock.
ghost use Rattle.std.specs.Prelude.{◌≡◌, ◌↔◌, ◌<◌, ◌+ℤ◌, ◌-ℤ◌, ◌*ℤ◌, pos, IsTrue, IsSome, IfSome, Some, refl};
ghost use Rattle.std.specs.Ordering.{int_cmp, int_eq, on};
ghost use Rattle.std.specs.Cmp.{on_equiv, on_total, on_po, partial_equiv_from_equiv, int_eq_equiv, int_cmp_total, signed_po};
ghost use Rattle.cel_value_times.specs.Ranges.{IsDuration, IsSecond, IsNanosecond, IsOffset, local_second, local_nanosecond};

use crate::Duration;
use std::cmp::Ordering;

const NANOSECONDS_OF_SECOND: i128 = 1_000_000_000;

const FIRST_SECOND: i64 = -62_135_596_800;

const FIRST_NANOSECOND: i128 = -62_135_596_800_000_000_000;

const LAST_NANOSECOND: i128 = 253_402_300_799_999_999_999;

/// An instant from 0001-01-01T00:00:00Z to 9999-12-31T23:59:59.999999999Z, with the
/// offset of the local clock whose time is printed.
///
/// The local time has a year from 1 to 9999, too. Timestamps are compared by their instants only.
#[derive(Clone, Copy, Debug)]
pub struct Timestamp {
    /// The whole seconds since 1970-01-01T00:00:00Z, rounded down.
    pub seconds: i64,
    /// The nanoseconds after that second.
    pub nanoseconds: u32,
    /// The minutes by which the local clock is ahead of UTC.
    pub offset_minutes: i16,
    pub ghost within_second: { nanoseconds < 1_000_000_000 },
    pub ghost instant_in_range: { IsSecond seconds },
    pub ghost offset_in_range: { IsOffset offset_minutes },
    pub ghost local_in_range: { IsSecond (local_second seconds offset_minutes) },
}

impl Timestamp {
    ghost use Rattle.cel_value_times.specs.Instants.{instant, HasTimestamp};

    /// The nanoseconds since 1970-01-01T00:00:00Z.
    fn instant(self) -> i128
        ensures { result ≡ instant self }
    {
        self.seconds as i128 * NANOSECONDS_OF_SECOND + self.nanoseconds as i128
    }

    /// The instant this many nanoseconds later, in nanoseconds since 1970-01-01T00:00:00Z.
    fn instant_after(self, nanoseconds: i64) -> i128
        ensures { result ≡ instant self +ℤ nanoseconds }
    {
        self.instant() + nanoseconds as i128
    }

    /// The instant this many nanoseconds earlier, in nanoseconds since 1970-01-01T00:00:00Z.
    fn instant_before(self, nanoseconds: i64) -> i128
        ensures { result ≡ instant self -ℤ nanoseconds }
    {
        self.instant() - nanoseconds as i128
    }

    /// The nanoseconds from the other instant to this one.
    fn nanoseconds_since(self, earlier: Timestamp) -> i128
        ensures { result ≡ instant self -ℤ instant earlier }
    {
        self.instant() - earlier.instant()
    }

    /// Returns the timestamp of an instant, or None if
    /// the instant or the local time is out of range.
    fn at(nanosecond: i128, offset_minutes: i16) -> Option<Timestamp>
        requires { IsOffset offset_minutes }
        ensures succeeds { IsSome result ↔ HasTimestamp nanosecond offset_minutes }
        ensures value { IfSome result
            (λ t. (instant t ≡ nanosecond) × (t.offset_minutes ≡ offset_minutes)) }
    {
        if !is_nanosecond(nanosecond) {
            return None;
        }
        if !is_nanosecond(local_nanosecond(nanosecond, offset_minutes)) {
            return None;
        }
        Some(Timestamp::made(nanosecond, offset_minutes))
    }

    /// Returns the timestamp of an instant that is in range.
    #[tactic(auto, using(crate::proofs::InstantLemmas::second_in_range, crate::proofs::InstantLemmas::local_in_range))]
    fn made(nanosecond: i128, offset_minutes: i16) -> Timestamp
        requires offset { IsOffset offset_minutes }
        requires range { HasTimestamp nanosecond offset_minutes }
        ensures instant { instant result ≡ nanosecond }
        ensures offset { result.offset_minutes ≡ offset_minutes }
    {
        let (seconds, nanoseconds) = split_second(nanosecond);
        Timestamp {
            seconds,
            nanoseconds,
            offset_minutes,
        }
    }

    /// Adds a duration and keeps the offset. Returns `None` if the
    /// instant or the local time would be out of range.
    pub fn checked_add(self, duration: Duration) -> Option<Timestamp>
        ensures succeeds { IsSome result ↔
            HasTimestamp (instant self +ℤ duration.nanoseconds) self.offset_minutes }
        ensures value { IfSome result (λ t. (instant t ≡ instant self +ℤ duration.nanoseconds)
            × (t.offset_minutes ≡ self.offset_minutes)) }
    {
        Timestamp::at(
            self.instant_after(duration.nanoseconds),
            self.offset_minutes,
        )
    }

    /// Subtracts a duration and keeps the offset. Returns `None` if the
    /// instant or the local time would be out of range.
    pub fn checked_sub(self, duration: Duration) -> Option<Timestamp>
        ensures succeeds { IsSome result ↔
            HasTimestamp (instant self -ℤ duration.nanoseconds) self.offset_minutes }
        ensures value { IfSome result (λ t. (instant t ≡ instant self -ℤ duration.nanoseconds)
            × (t.offset_minutes ≡ self.offset_minutes)) }
    {
        Timestamp::at(
            self.instant_before(duration.nanoseconds),
            self.offset_minutes,
        )
    }

    /// Returns the duration from the other timestamp to this one, or `None` if it is out of range.
    pub fn since(self, earlier: Timestamp) -> Option<Duration>
        ensures succeeds { IsSome result ↔ IsDuration (instant self -ℤ instant earlier) }
        ensures value { IfSome result (λ d. d.nanoseconds ≡ instant self -ℤ instant earlier) }
    {
        Duration::of(self.nanoseconds_since(earlier))
    }
}

impl PartialEq for Timestamp {
    ghost use Rattle.cel_value_times.specs.Instants.{instant};

    ghost eq = { on instant int_eq };

    ghost laws = { partial_equiv_from_equiv (on_equiv instant int_eq_equiv) };

    fn eq(&self, other: &Timestamp) -> bool {
        self.instant() == other.instant()
    }
}

impl Eq for Timestamp {
    ghost use Rattle.cel_value_times.specs.Instants.{instant};

    ghost laws = { on_equiv instant int_eq_equiv };
}

impl PartialOrd for Timestamp {
    ghost use Rattle.cel_value_times.specs.Instants.{instant};

    ghost partial_cmp = { λ a b. Some (int_cmp (instant a) (instant b)) };

    ghost laws = { on_po instant signed_po };

    fn partial_cmp(&self, other: &Timestamp) -> Option<Ordering> {
        Some(self.cmp(other))
    }
}

impl Ord for Timestamp {
    ghost use Rattle.cel_value_times.specs.Instants.{instant};

    ghost cmp = { on instant int_cmp };

    ghost total = { on_total instant int_cmp_total };

    ghost matches_partial_cmp = { λ a b. refl };

    ghost matches_eq = { λ a b. refl };

    fn cmp(&self, other: &Timestamp) -> Ordering {
        self.instant().cmp(&other.instant())
    }
}

/// Reports whether the nanosecond is in the years 1 to 9999.
fn is_nanosecond(nanosecond: i128) -> bool
    ensures { IsTrue result ↔ IsNanosecond nanosecond }
{
    FIRST_NANOSECOND <= nanosecond && nanosecond <= LAST_NANOSECOND
}

/// Returns the local time at an instant, in nanoseconds, of a clock this many minutes ahead of UTC.
fn local_nanosecond(nanosecond: i128, offset_minutes: i16) -> i128
    requires instant { IsNanosecond nanosecond }
    requires offset { IsOffset offset_minutes }
    ensures { result ≡ local_nanosecond nanosecond offset_minutes }
{
    nanosecond + 60 * NANOSECONDS_OF_SECOND * offset_minutes as i128
}

/// Splits a nanosecond into its whole second, rounded down, and the nanoseconds after it.
fn split_second(nanosecond: i128) -> (i64, u32)
    requires { IsNanosecond nanosecond }
    ensures whole { result.0 *ℤ pos 1_000_000_000 +ℤ pos result.1 ≡ nanosecond }
    ensures part { result.1 < 1_000_000_000 }
{
    let since_first = (nanosecond - FIRST_NANOSECOND) as u128;
    let seconds = (since_first / 1_000_000_000) as i64 + FIRST_SECOND;
    (seconds, (since_first % 1_000_000_000) as u32)
}
