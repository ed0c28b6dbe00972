//! Reads zones: UTC, and fixed offsets from it.
ghost use Rattle.std.specs.Prelude.{◌≡◌, ◌<◌, pos, neg_ℤ, IfSome, option_map};
ghost use Rattle.jiff_core.specs.Calendar.{IsWithin};
ghost use Rattle.kube_server_times.specs.Zones as spec;

fn two_digits(high: u8, low: u8) -> Option<u16>
    ensures { result ≡ spec.two_digits high low }
{
    if high.is_ascii_digit() && low.is_ascii_digit() {
        Some((high - b'0') as u16 * 10 + (low - b'0') as u16)
    } else {
        None
    }
}

fn minutes_of(hours: Option<u16>, minutes: Option<u16>) -> Option<u16>
    ensures value { result ≡ spec.minutes_of hours minutes }
    ensures below { IfSome result (λ n. n < 900) }
{
    match (hours, minutes) {
        (Some(hours), Some(minutes)) => {
            if hours <= 14 && minutes < 60 {
                Some(60 * hours + minutes)
            } else {
                None
            }
        }
        (None, _) => None,
        (_, None) => None,
    }
}

fn clock(text: &[u8]) -> Option<u16>
    ensures value { result ≡ spec.clock_of text.now }
    ensures below { IfSome result (λ n. n < 900) }
{
    match text {
        [a, b, b':', d, e] => minutes_of(two_digits(*a, *b), two_digits(*d, *e)),
        _ => None,
    }
}

fn ahead(text: &[u8]) -> Option<i16>
    ensures value { result ≡ option_map (λ n. pos n) (spec.clock_of text.now) }
    ensures within { IfSome result (IsWithin 899) }
{
    match clock(text) {
        Some(minutes) => Some(minutes as i16),
        None => None,
    }
}

fn behind(text: &[u8]) -> Option<i16>
    ensures value { result ≡ option_map (λ n. neg_ℤ (pos n)) (spec.clock_of text.now) }
    ensures within { IfSome result (IsWithin 899) }
{
    match clock(text) {
        Some(minutes) => Some(-(minutes as i16)),
        None => None,
    }
}

fn offset(text: &[u8]) -> Option<i16>
    ensures value { result ≡ spec.offset_of text.now }
    ensures within { IfSome result (IsWithin 899) }
{
    match text {
        [b'+', rest @ ..] => ahead(rest),
        [b'-', rest @ ..] => behind(rest),
        _ => ahead(text),
    }
}

/// Returns the minutes by which the clock of a zone is ahead of UTC, if the zone
/// is UTC or a fixed offset.
pub(crate) fn minutes_ahead(zone: &str) -> Option<i16>
    ensures value { result ≡ spec.minutes_ahead zone.now }
    ensures within { IfSome result (IsWithin 899) }
{
    if zone == "" {
        Some(0)
    } else if zone == "UTC" {
        Some(0)
    } else {
        offset(zone.as_bytes())
    }
}
