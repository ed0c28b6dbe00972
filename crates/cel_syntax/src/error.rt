//! The error for a text that can't be parsed.

ghost use Rattle.std.specs.Prelude.{Some, codes};

use std::fmt;

/// The error for a text that derives no tree.
#[derive(Clone, Copy, Debug, PartialEq, Eq)]
pub struct ParseErrors;

impl fmt::Display for ParseErrors {
    ghost output = { λ _. Some (codes "invalid CEL expression") };

    fn fmt<W: fmt::Write>(&self, f: &mut fmt::Formatter<W>) -> fmt::Result {
        write!(f, "invalid CEL expression")
    }
}
