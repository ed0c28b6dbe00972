//! Normal forms: trailing zeros of a mantissa are moved into the scale.
ghost use Rattle.std.specs.Option.{option_map};
ghost use Rattle.std.specs.Prelude.{◌≡◌, ◌≢◌, ◌*◌, ◌^◌, ◌%◌, ◌<◌, unsigned_abs};
ghost use Rattle.kube_types.specs.Quantity.Normal.{mantissa_without_zeros, trailing_zeros, quantity_holding};
ghost use Rattle.kube_types.specs.Quantity.Shown.{number};
ghost use Rattle.kube_types.specs.Quantity.Sums.{decimal_at};

use crate::quantities::quantity::KubeQuantity;
use crate::quantities::scaling::signed;

/// A positive number without its trailing zeros, and the number of these zeros.
fn without_trailing_zeros(size: u128) -> (u128, u32)
    requires { 0 < size }
    ensures product { size ≡ result.0 * 10 ^ result.1 }
    ensures last_digit { result.0 % 10 ≢ 0 }
    ensures few { result.1 < 39 }
{
    let mut rest = size;
    let mut zeros = 0;
    while rest % 10 == 0 {
        rest /= 10;
        zeros += 1;
    }
    (rest, zeros)
}

/// A mantissa without its trailing zeros, and the number of these zeros.
pub(crate) fn reduced(mantissa: i128) -> (i128, u32)
    ensures value { result.0 ≡ mantissa_without_zeros mantissa }
    ensures zeros { result.1 ≡ trailing_zeros (unsigned_abs mantissa) }
    ensures zero { unsigned_abs mantissa ≡ 0 → (unsigned_abs result.0 ≡ 0) × (result.1 ≡ 0) }
    ensures last_digit { 0 < unsigned_abs mantissa → unsigned_abs result.0 % 10 ≢ 0 }
    ensures few { result.1 < 39 }
{
    if mantissa == 0 {
        return (0, 0);
    }
    let (size, zeros) = without_trailing_zeros(mantissa.unsigned_abs());
    (signed(mantissa.is_negative(), size).unwrap(), zeros)
}

/// The quantity `mantissa` times ten to the `scale`, or
/// None if the scale of its normal form exceeds 32 bits.
#[tactic(auto, unfolding(crate::specs::Quantity::Normal::quantity_holding, crate::specs::Quantity::Normal::normal_form))]
pub(crate) fn normalised(mantissa: i128, scale: i128) -> Option<KubeQuantity>
    requires { unsigned_abs scale < 2 ^ 66 }
    ensures { option_map number result ≡ quantity_holding (decimal_at mantissa scale) }
{
    if mantissa == 0 {
        return Some(KubeQuantity {
            mantissa: 0,
            scale: 0,
        });
    }
    let (mantissa, zeros) = reduced(mantissa);
    match i32::try_from(scale + i128::from(zeros)) {
        Ok(scale) => Some(KubeQuantity { mantissa, scale }),
        Err(_) => None,
    }
}
