//! Mantissas at a smaller scale.
ghost use Rattle.std.specs.Int.{w128};
ghost use Rattle.std.specs.Option.{SomeIff};
ghost use Rattle.std.specs.Prelude.{FitsSigned};
ghost use Rattle.kube_types.specs.Quantity.Decimal.{times_ten_to, with_sign};

/// The number with this sign and absolute value, or None if it exceeds 128 bits.
pub(crate) fn signed(negative: bool, size: u128) -> Option<i128>
    ensures { SomeIff result (FitsSigned w128 (with_sign negative size)) (with_sign negative size) }
{
    if negative {
        0i128.checked_sub_unsigned(size)
    } else {
        0i128.checked_add_unsigned(size)
    }
}

/// `mantissa` times ten to the `places`, or None if it exceeds 128 bits.
pub(crate) fn scaled(mantissa: i128, places: u32) -> Option<i128>
    ensures { SomeIff result (FitsSigned w128 (times_ten_to mantissa places)) (times_ten_to mantissa places) }
{
    if mantissa == 0 {
        return Some(0);
    }
    let power = 10u128.checked_pow(places)?;
    let size = mantissa.unsigned_abs().checked_mul(power)?;
    signed(mantissa < 0, size)
}
