//! Writes decimal places.
ghost use Rattle.std.specs.Prelude.{◌≡◌, ◌<◌, ◌≤◌, ◌^◌, ◌++◌, OnOk, string_bytes};
ghost use Rattle.cel_value_times.specs.Digits.{places_text, decimals_text};

use std::alloc::AllocError;

/// Writes a dot and the decimal places of `n / 10^places`,
/// without trailing zeros. Writes nothing if `n` is 0.
pub(crate) fn write_decimals(places: u32, n: u64, out: &mut String) -> Result<(), AllocError>
    requires few { places ≤ 9 }
    requires part { n < 10 ^ places }
    ensures { OnOk result (string_bytes out.new ≡ string_bytes out.old ++ decimals_text places n) }
{
    if n == 0 {
        return Ok(());
    }
    out.push('.')?;
    write_places(places, n, out)
}

/// Writes the decimal places up to the last one that isn't 0.
#[tactic(auto, using(crate::proofs::DigitLemmas::places_zero, crate::proofs::DigitLemmas::places_some, crate::proofs::DigitLemmas::places_more, crate::proofs::DigitLemmas::place_bounds))]
fn write_places(places: u32, n: u64, out: &mut String) -> Result<(), AllocError>
    requires few { places ≤ 9 }
    requires part { n < 10 ^ places }
    ensures { OnOk result (string_bytes out.new ≡ string_bytes out.old ++ places_text places n) }
{
    if n == 0 {
        return Ok(());
    }
    let place = 10u64.pow(places - 1);
    out.push(char::from(b'0' + (n / place) as u8))?;
    write_places(places - 1, n % place, out)
}
