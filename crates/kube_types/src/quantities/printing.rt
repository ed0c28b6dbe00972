//! The text of a quantity: its decimal number in full.
ghost use Rattle.std.specs.Fmt.{decimal};
ghost use Rattle.std.specs.Prelude.{◌≡◌, ◌/◌, ◌%◌, ◌^◌, length, replicate, Some};

use crate::quantities::quantity::KubeQuantity;
use std::fmt;

/// Prints as this number of zeros.
#[derive(Clone, Copy)]
struct Zeros(u32);

impl fmt::Display for Zeros {
    ghost output = { λ z. Some (replicate z.0 48) };

    fn fmt<W: fmt::Write>(&self, f: &mut fmt::Formatter<W>) -> fmt::Result {
        for _i in 0..self.0 {
            f.write_str("0")?;
        }
        Ok(())
    }
}

/// The number of digits that a number is printed with.
fn printed_len(number: u128) -> u32
    ensures { result ≡ length (decimal number) }
{
    if number == 0 { 1 } else { number.ilog10() + 1 }
}

/// The parts of a number before and after a point in front of its last `places` digits.
fn split_at_point(number: u128, places: u32) -> (u128, u128)
    ensures whole { result.0 ≡ number / 10 ^ places }
    ensures fraction { result.1 ≡ number % 10 ^ places }
{
    match 10u128.checked_pow(places) {
        Some(power) => (number / power, number % power),
        None => (0, number),
    }
}

/// Prints the decimal number in full, with no exponent and no suffix.
/// A scale near its upper or lower limit prints billions of zeros.
#[tactic(auto, unfolding(crate::specs::Quantity::Printed::decimal_text))]
impl fmt::Display for KubeQuantity {
    ghost use Rattle.kube_types.specs.Quantity.Printed.{decimal_text};
    ghost use Rattle.kube_types.specs.Quantity.Shown.{number};

    ghost output = { λ q. Some (decimal_text (number q)) };

    fn fmt<W: fmt::Write>(&self, f: &mut fmt::Formatter<W>) -> fmt::Result {
        let places = self.scale.unsigned_abs();
        if self.scale >= 0 {
            let mantissa = self.mantissa;
            let zeros = Zeros(places);
            return write!(f, "{mantissa}{zeros}");
        }
        let sign = if self.mantissa < 0 { "-" } else { "" };
        let (whole, fraction) = split_at_point(self.mantissa.unsigned_abs(), places);
        let zeros = Zeros(places.saturating_sub(printed_len(fraction)));
        write!(f, "{sign}{whole}.{zeros}{fraction}")
    }
}
