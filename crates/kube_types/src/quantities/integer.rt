//! The reasons why a quantity isn't an integer of 64 bits.
ghost use Rattle.std.specs.Prelude.{Some};

use std::fmt;

/// Why a quantity isn't an integer of 64 bits.
#[derive(Clone, Copy, Debug, PartialEq, Eq)]
pub enum IntegerError {
    /// The number has digits after the point.
    NotAnInteger,
    /// The number is an integer, but doesn't fit in 64 bits.
    TooLargeForInteger,
}

impl fmt::Display for IntegerError {
    ghost use Rattle.kube_types.specs.Quantity.Integers.{integer_error_text};

    ghost output = { λ e. Some (integer_error_text e) };

    fn fmt<W: fmt::Write>(&self, f: &mut fmt::Formatter<W>) -> fmt::Result {
        match self {
            IntegerError::NotAnInteger => f.write_str("quantity is not an integer"),
            IntegerError::TooLargeForInteger => f.write_str("quantity too large for integer"),
        }
    }
}
