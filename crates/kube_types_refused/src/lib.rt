//! `Refused`, the outer error of every call that takes memory: the call has no answer.
#![tactic(auto)]

ghost use Rattle.kube_types_refused.specs.declared.Refused.TheVariants.{Memory};
ghost use Rattle.std.specs.Prelude.{◌≡◌};

use std::alloc::{AllocError, AllocFailed};
use std::{fmt, io};

/// Why a call has no answer.
///
/// It is never an answer itself: not a rule's error, not a failed
/// validation and not a pass. What the call only borrowed is unchanged. Of
/// a `&mut` argument, only what the call's contract says can be relied on.
#[derive(Clone, Copy, Debug, PartialEq, Eq)]
pub enum Refused {
    /// Memory was refused, or a capacity would have exceeded its maximum.
    Memory,
    /// A text is longer than the crate that parses it can hold.
    TooLarge,
}

impl From<AllocError> for Refused {
    ghost from_gives = { λ _ e. e ≡ Memory };

    fn from(_error: AllocError) -> Refused {
        Refused::Memory
    }
}

impl<T: Drop> From<AllocFailed<T>> for Refused {
    ghost from_gives = { λ _ e. e ≡ Memory };

    fn from(_error: AllocFailed<T>) -> Refused {
        Refused::Memory
    }
}

impl fmt::Display for Refused {
    ghost use Rattle.std.specs.Prelude.{Some};
    ghost use Rattle.kube_types_refused.specs.Texts.{refusal_text};

    ghost output = { λ r. Some (refusal_text r) };

    fn fmt<W: fmt::Write>(&self, f: &mut fmt::Formatter<W>) -> fmt::Result {
        match self {
            Refused::Memory => write!(f, "memory is refused"),
            Refused::TooLarge => write!(f, "a text is too large"),
        }
    }
}

/// Lets a `main` that returns an `io::Result` propagate a refusal with `?`.
impl From<Refused> for io::Error {
    ghost use Rattle.std.specs.IoError.{error_kind};
    ghost use Rattle.kube_types_refused.specs.Texts.{refusal_kind};

    ghost from_gives = { λ r e. error_kind e ≡ refusal_kind r };

    fn from(refused: Refused) -> io::Error {
        match refused {
            Refused::Memory => io::Error::from(io::ErrorKind::OutOfMemory),
            Refused::TooLarge => io::Error::from(io::ErrorKind::InvalidInput),
        }
    }
}
