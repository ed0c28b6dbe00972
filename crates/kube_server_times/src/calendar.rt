//! The fields of the time that a clock shows.
ghost use Rattle.std.specs.Prelude.{◌≡◌, ◌<◌, true, pos, neg_ℤ};
ghost use Rattle.jiff_core.specs.Calendar.{IsBetween, IsWithin};
ghost use Rattle.cel_value.specs.Instants.{instant};
ghost use Rattle.cel_value.specs.Ranges.{IsNanosecond, local_nanosecond};
ghost use Rattle.kube_server_times.specs.Fields as spec;

use crate::field::Field;
use cel_value::Timestamp;
use jiff_core::civil::Date;

const NANOSECONDS_OF_DAY: i128 = 86_400_000_000_000;

const FIRST_NANOSECOND: i128 = -62_135_596_800_000_000_000;

const LAST_NANOSECOND: i128 = 253_402_300_799_999_999_999;

/// The nanoseconds of a timestamp since 1970-01-01T00:00:00Z.
pub(crate) fn instant(moment: Timestamp) -> i128
    ensures value { result ≡ instant moment }
    ensures range { IsNanosecond result }
{
    moment.seconds as i128 * 1_000_000_000 + moment.nanoseconds as i128
}

/// Returns the local time of an instant, in nanoseconds, by a clock this many minutes ahead of UTC.
pub(crate) fn local_nanosecond(instant: i128, minutes: i16) -> i128
    requires instant { IsNanosecond instant }
    requires minutes { IsWithin 899 minutes }
    ensures { result ≡ local_nanosecond instant minutes }
{
    instant + 60_000_000_000 * minutes as i128
}

/// Reports whether the local time is in the years 1 to 9999.
pub(crate) fn is_shown(local: i128) -> bool
    ensures { result ≡ spec.is_shown local }
{
    FIRST_NANOSECOND <= local && local <= LAST_NANOSECOND
}

fn day_number(local: i128) -> i64
    requires { spec.is_shown local ≡ true }
    ensures value { result ≡ spec.day_number local }
    ensures range { IsBetween (neg_ℤ (pos 719_162)) (pos 2_932_896) result }
{
    local.div_euclid(NANOSECONDS_OF_DAY) as i64
}

fn time_of_day(local: i128) -> u64
    ensures value { result ≡ spec.time_of_day local }
    ensures below { result < 86_400_000_000_000 }
{
    local.rem_euclid(NANOSECONDS_OF_DAY) as u64
}

fn date_of(day: i64) -> Date
    requires { IsBetween (neg_ℤ (pos 719_162)) (pos 2_932_896) day }
    ensures year { result.year ≡ pos (spec.year_at day) }
    ensures month { result.month ≡ spec.month_at day }
    ensures day { result.day ≡ spec.day_at day }
{
    Date::from_unix_epoch_day(day).unwrap()
}

fn day_of_year(day: i64) -> i64
    requires { IsBetween (neg_ℤ (pos 719_162)) (pos 2_932_896) day }
    ensures { result ≡ spec.day_of_year day }
{
    let first = Date::new(date_of(day).year, 1, 1).unwrap();
    day - first.to_unix_epoch_day() as i64
}

fn weekday(day: i64) -> i64
    requires { IsBetween (neg_ℤ (pos 719_162)) (pos 2_932_896) day }
    ensures { result ≡ pos (spec.weekday_at day) }
{
    (day + 4).rem_euclid(7)
}

/// Returns a field of a local time, which is in nanoseconds since 1970-01-01T00:00:00.
pub(crate) fn field_at(field: Field, local: i128) -> i64
    requires { spec.is_shown local ≡ true }
    ensures { result ≡ spec.field_at field local }
{
    let day = day_number(local);
    let time = time_of_day(local);
    match field {
        Field::FullYear => date_of(day).year as i64,
        Field::Month => date_of(day).month as i64 - 1,
        Field::DayOfYear => day_of_year(day),
        Field::DayOfMonth => date_of(day).day as i64 - 1,
        Field::Date => date_of(day).day as i64,
        Field::DayOfWeek => weekday(day),
        Field::Hours => (time / 3_600_000_000_000) as i64,
        Field::Minutes => (time / 60_000_000_000 % 60) as i64,
        Field::Seconds => (time / 1_000_000_000 % 60) as i64,
        Field::Milliseconds => (time / 1_000_000 % 1_000) as i64,
    }
}
