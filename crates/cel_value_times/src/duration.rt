//! Durations: whole nanoseconds.
ghost use Rattle.std.specs.Prelude.{◌≡◌, ◌↔◌, ◌+ℤ◌, ◌-ℤ◌, pos, neg_ℤ, IsSome, IfSome};
ghost use Rattle.cel_value_times.specs.Ranges.{IsDuration};

/// A length of time in whole nanoseconds. They fit an `i64`,
/// which holds about 292 years in either direction.
#[derive(Clone, Copy, Debug, PartialEq, Eq, PartialOrd, Ord)]
pub struct Duration {
    /// The nanoseconds.
    pub nanoseconds: i64,
}

impl Duration {
    /// The nanoseconds.
    pub fn nanoseconds(self) -> i64
        ensures { result ≡ self.nanoseconds }
    {
        let Duration { nanoseconds } = self;
        nanoseconds
    }

    /// Returns the duration of this many nanoseconds, or None if it is out of range.
    pub(crate) fn of(nanoseconds: i128) -> Option<Duration>
        ensures succeeds { IsSome result ↔ IsDuration nanoseconds }
        ensures value { IfSome result (λ d. d.nanoseconds ≡ nanoseconds) }
    {
        if nanoseconds < i64::MIN as i128 || nanoseconds > i64::MAX as i128 {
            return None;
        }
        Some(Duration {
            nanoseconds: nanoseconds as i64,
        })
    }

    /// Returns the duration of this many nanoseconds, or None if it is out of range.
    pub(crate) fn forward(nanoseconds: u64) -> Option<Duration>
        ensures succeeds { IsSome result ↔ IsDuration (pos nanoseconds) }
        ensures value { IfSome result (λ d. d.nanoseconds ≡ pos nanoseconds) }
    {
        if nanoseconds > i64::MAX as u64 {
            return None;
        }
        Some(Duration {
            nanoseconds: nanoseconds as i64,
        })
    }

    /// Returns the duration of minus this many nanoseconds, or None if it is out of range.
    pub(crate) fn backward(nanoseconds: u64) -> Option<Duration>
        ensures succeeds { IsSome result ↔ IsDuration (neg_ℤ (pos nanoseconds)) }
        ensures value { IfSome result (λ d. d.nanoseconds ≡ neg_ℤ (pos nanoseconds)) }
    {
        if nanoseconds > 9_223_372_036_854_775_808 {
            return None;
        }
        Some(Duration {
            nanoseconds: -(nanoseconds as i128) as i64,
        })
    }

    /// Adds two durations. Returns `None` if the sum is out of range.
    pub fn checked_add(self, other: Duration) -> Option<Duration>
        ensures succeeds { IsSome result ↔ IsDuration (self.nanoseconds +ℤ other.nanoseconds) }
        ensures value { IfSome result
            (λ sum. sum.nanoseconds ≡ self.nanoseconds +ℤ other.nanoseconds) }
    {
        let nanoseconds = self.nanoseconds.checked_add(other.nanoseconds)?;
        Some(Duration { nanoseconds })
    }

    /// Subtracts a duration. Returns `None` if the difference is out of range.
    pub fn checked_sub(self, other: Duration) -> Option<Duration>
        ensures succeeds { IsSome result ↔ IsDuration (self.nanoseconds -ℤ other.nanoseconds) }
        ensures value { IfSome result
            (λ rest. rest.nanoseconds ≡ self.nanoseconds -ℤ other.nanoseconds) }
    {
        let nanoseconds = self.nanoseconds.checked_sub(other.nanoseconds)?;
        Some(Duration { nanoseconds })
    }
}
