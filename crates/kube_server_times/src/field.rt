//! The fields of times that getters return.

/// A field of the time that a clock shows, or of a duration.
#[derive(Clone, Copy, Debug, PartialEq, Eq)]
pub enum Field {
    /// `getFullYear`.
    FullYear,
    /// `getMonth`, from 0.
    Month,
    /// `getDayOfYear`, from 0.
    DayOfYear,
    /// `getDayOfMonth`, from 0.
    DayOfMonth,
    /// `getDate`: the day of the month, from 1.
    Date,
    /// `getDayOfWeek`, from 0 for Sunday.
    DayOfWeek,
    /// `getHours`.
    Hours,
    /// `getMinutes`.
    Minutes,
    /// `getSeconds`.
    Seconds,
    /// `getMilliseconds`.
    Milliseconds,
}
