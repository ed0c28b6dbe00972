//! Writes decimal places.
ghost use Rattle.std.specs.Prelude.{◌≡◌, ◌<◌, ◌≤◌, ◌^◌, ◌++◌, OnOk, string_bytes};
ghost use Rattle.cel_value.specs.Digits.{places_text, decimals_text};

use std::alloc::AllocError;

/// Writes a dot and the nine decimal places of a part of a second, without trailing zeros, or
/// nothing if there are no nanoseconds.
pub(crate) fn write_nanoseconds(nanoseconds: u32, out: &mut String) -> Result<(), AllocError>
    requires { nanoseconds < 1_000_000_000 }
    ensures { OnOk result
        (string_bytes out.new ≡ string_bytes out.old ++ decimals_text 9 nanoseconds) }
{
    if nanoseconds == 0 {
        return Ok(());
    }
    out.push('.')?;
    write_places(9, nanoseconds, out)
}

/// Writes the decimal places of `n / 10^places` up to the last one that isn't 0.
#[tactic(auto, using(crate::proofs::Places::places_zero, crate::proofs::Places::places_some, crate::proofs::Places::places_more, crate::proofs::Places::place_bounds))]
fn write_places(places: u32, n: u32, out: &mut String) -> Result<(), AllocError>
    requires few { places ≤ 9 }
    requires part { n < 10 ^ places }
    ensures { OnOk result (string_bytes out.new ≡ string_bytes out.old ++ places_text places n) }
{
    if n == 0 {
        return Ok(());
    }
    let place = 10u32.pow(places - 1);
    out.push(char::from(b'0' + (n / place) as u8))?;
    write_places(places - 1, n % place, out)
}
