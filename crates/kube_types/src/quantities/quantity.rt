//! `KubeQuantity`: parsing, order, sums and conversion to integers.
ghost use Rattle.std.specs.Int.{w128, int_min};
ghost use Rattle.std.specs.Option.{option_map, SomeIff};
ghost use Rattle.std.specs.Prelude.{◌≡◌, true, Some, pos, FitsSigned, is_ok};
ghost use Rattle.kube_types.specs.Quantity.Normal.{is_normal, quantity_holding};
ghost use Rattle.kube_types.specs.Quantity.Sums.{decimal_at};

use crate::quantities::integer::IntegerError;
use crate::quantities::normal::{normalised, reduced};
use crate::quantities::reading::{
    numeral_size, scale_of, split_numeral, split_sign, suffix_factor,
};
use crate::quantities::scaling::{scaled, signed};

/// An exact decimal number: `mantissa` times ten to the `scale`, in normal form.
///
/// The mantissa has no trailing zeros, and zero has mantissa 0 and scale 0. So two quantities are
/// the same number exactly if their fields are equal.
#[derive(Clone, Copy, Debug, PartialEq, Eq)]
pub struct KubeQuantity {
    pub(crate) mantissa: i128,
    pub(crate) scale: i32,
    ghost normal: { is_normal mantissa scale ≡ true },
}

impl KubeQuantity {
    ghost use Rattle.std.specs.Int.{int_signum};
    ghost use Rattle.kube_types.specs.Quantity.Decimal.{aligned_mantissa};
    ghost use Rattle.kube_types.specs.Quantity.Integers.{integer_of};
    ghost use Rattle.kube_types.specs.Quantity.Reading.{quantity_of};
    ghost use Rattle.kube_types.specs.Quantity.Shown.{number};
    ghost use Rattle.kube_types.specs.Quantity.Sums.{sum_of, difference_of};

    /// Parses a quantity, or returns None if the text isn't one. Takes no memory.
    ///
    /// White space at both ends is ignored. An optional sign is followed by digits with at most one
    /// point, and then nothing, a suffix (`n u m k M G T P E`, `Ki Mi Gi Ti Pi Ei`), or `e` or `E`
    /// with an exponent. The digits times the factor of a binary suffix must fit in 127 bits, and
    /// the scale of the normal form in 32 bits.
    #[tactic(auto, unfolding(crate::specs::Quantity::Reading::quantity_of, crate::specs::Quantity::Reading::unsigned_quantity, crate::specs::Quantity::Reading::value_of))]
    pub fn read(text: &str) -> Option<KubeQuantity>
        ensures { option_map number result ≡ quantity_of text.now }
    {
        let (negative, unsigned) = split_sign(text.trim().as_bytes());
        let numeral = split_numeral(unsigned);
        if numeral.whole.len() + numeral.fraction.len() == 0 {
            return None;
        }
        let factor = suffix_factor(numeral.suffix)?;
        let size = numeral_size(numeral.whole, numeral.fraction, factor.times)?;
        let mantissa = signed(negative, size)?;
        normalised(mantissa, scale_of(factor.tens, numeral.fraction.len()))
    }

    /// Converts an integer to a quantity.
    #[tactic(auto, unfolding(crate::specs::Quantity::Normal::quantity_holding, crate::specs::Quantity::Normal::normal_form))]
    pub fn from_integer(value: i128) -> KubeQuantity
        ensures { Some (number result) ≡ quantity_holding (decimal_at value (pos 0)) }
    {
        let (mantissa, zeros) = reduced(value);
        KubeQuantity {
            mantissa,
            scale: zeros as i32,
        }
    }

    /// Returns -1, 0 or 1 if the number is below, at or above zero.
    pub fn sign(&self) -> i64
        ensures { result ≡ int_signum (number self.now).mantissa }
    {
        if self.mantissa < 0 {
            -1
        } else if self.mantissa == 0 {
            0
        } else {
            1
        }
    }

    /// Returns the exact sum. None if both mantissas at the smaller scale, or their sum, don't fit
    /// in 128 bits, or if the scale of the sum doesn't fit in 32 bits.
    #[tactic(auto, unfolding(crate::specs::Quantity::Sums::sum_of))]
    pub fn add(&self, other: &KubeQuantity) -> Option<KubeQuantity>
        ensures { option_map number result ≡ sum_of (number self.now) (number other.now) }
    {
        let left = self.aligned_to(other)?;
        let right = other.aligned_to(self)?;
        let sum = left.checked_add(right)?;
        self.at_smaller_scale(other, sum)
    }

    /// Returns the exact difference, or None under the conditions of `add`.
    #[tactic(auto, unfolding(crate::specs::Quantity::Sums::difference_of))]
    pub fn sub(&self, other: &KubeQuantity) -> Option<KubeQuantity>
        ensures { option_map number result ≡ difference_of (number self.now) (number other.now) }
    {
        let left = self.aligned_to(other)?;
        let right = other.aligned_to(self)?;
        let difference = left.checked_sub(right)?;
        self.at_smaller_scale(other, difference)
    }

    /// Reports whether `as_integer` returns an integer.
    pub fn is_integer(&self) -> bool
        ensures { result ≡ is_ok (integer_of (number self.now)) }
    {
        self.as_integer().is_ok()
    }

    /// Returns the quantity as an integer, or the reason why it isn't one of 64 bits.
    #[tactic(auto, unfolding(crate::specs::Quantity::Integers::integer_of))]
    pub fn as_integer(&self) -> Result<i64, IntegerError>
        ensures { result ≡ integer_of (number self.now) }
    {
        if self.scale < 0 {
            return Err(IntegerError::NotAnInteger);
        }
        match scaled(self.mantissa, self.scale.unsigned_abs()) {
            None => Err(IntegerError::TooLargeForInteger),
            Some(value) => match i64::try_from(value) {
                Err(_) => Err(IntegerError::TooLargeForInteger),
                Ok(integer) => Ok(integer),
            },
        }
    }

    /// The mantissa at the smaller of the two scales, or None if it exceeds 128 bits.
    fn aligned_to(&self, other: &KubeQuantity) -> Option<i128>
        ensures { SomeIff result (FitsSigned w128 (aligned_mantissa (number self.now) (number other.now)))
            (aligned_mantissa (number self.now) (number other.now)) }
    {
        if self.scale <= other.scale {
            Some(self.mantissa)
        } else {
            scaled(self.mantissa, self.scale.abs_diff(other.scale))
        }
    }

    /// The quantity with a mantissa at the smaller of the two scales,
    /// or None if the scale of its normal form exceeds 32 bits.
    fn at_smaller_scale(&self, other: &KubeQuantity, mantissa: i128) -> Option<KubeQuantity>
        ensures { option_map number result ≡ quantity_holding (decimal_at mantissa
            (int_min (number self.now).scale (number other.now).scale)) }
    {
        normalised(mantissa, i128::from(self.scale.min(other.scale)))
    }
}
