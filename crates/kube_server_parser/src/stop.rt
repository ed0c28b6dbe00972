//! Why the machine stops.

ghost use Rattle.std.specs.Prelude.{◌≡◌};
ghost use Rattle.kube_server_parser.specs.declared.stop.Stop.TheVariants.{Memory};

use crate::expected::Expected;
use kube_types::Refused;
use std::alloc::{AllocError, AllocFailed};

#[derive(Clone, Copy)]
pub(crate) enum Stop {
    /// Memory was refused.
    Memory,
    /// A part nests too deep.
    TooDeep,
    /// No text of the grammar goes on with the token.
    Unexpected(Expected),
}

impl<T: Drop> From<AllocFailed<T>> for Stop {
    ghost from_gives = { λ _ e. e ≡ Memory };

    fn from(_error: AllocFailed<T>) -> Stop {
        Stop::Memory
    }
}

impl From<AllocError> for Stop {
    ghost from_gives = { λ _ e. e ≡ Memory };

    fn from(_error: AllocError) -> Stop {
        Stop::Memory
    }
}

impl From<Refused> for Stop {
    ghost from_gives = { λ _ e. e ≡ Memory };

    fn from(_error: Refused) -> Stop {
        Stop::Memory
    }
}
