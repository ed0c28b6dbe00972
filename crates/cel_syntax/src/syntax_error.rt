//! The errors of the parser.

ghost use Rattle.std.specs.Prelude.{◌≡◌};
ghost use Rattle.cel_syntax.specs.declared.syntax_error.SyntaxError.TheVariants.{Memory};

use kube_types::Refused;
use std::alloc::{AllocError, AllocFailed};

#[derive(Clone, Copy, Debug, PartialEq, Eq)]
pub enum SyntaxError {
    /// Memory was refused.
    Memory,
    /// The tokens derive no tree.
    Invalid,
}

impl<T: Drop> From<AllocFailed<T>> for SyntaxError {
    ghost from_gives = { λ _ e. e ≡ Memory };

    fn from(_error: AllocFailed<T>) -> SyntaxError {
        SyntaxError::Memory
    }
}

impl From<AllocError> for SyntaxError {
    ghost from_gives = { λ _ e. e ≡ Memory };

    fn from(_error: AllocError) -> SyntaxError {
        SyntaxError::Memory
    }
}

impl From<Refused> for SyntaxError {
    ghost from_gives = { λ _ e. e ≡ Memory };

    fn from(_error: Refused) -> SyntaxError {
        SyntaxError::Memory
    }
}
