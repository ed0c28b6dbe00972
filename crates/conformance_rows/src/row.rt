//! The fields of rows, and the reasons why a field has no answer.
ghost use Rattle.conformance_rows.specs.declared.row.Stop.TheVariants.{Memory, TooLarge};
ghost use Rattle.kube_types_refused.specs.declared.Refused.TheVariants as refused;
ghost use Rattle.std.specs.Prelude.{◌≡◌};

use kube_types_refused::Refused;
use std::alloc::{AllocError, AllocFailed};

/// A field of a row: its key, its text, and its line number.
#[derive(Drop)]
pub struct Field {
    pub key: String,
    pub text: String,
    pub line: usize,
}

impl Field {
    /// Reports whether this is the field's key.
    pub fn has(&self, key: &str) -> bool {
        self.key.as_str() == key
    }
}

/// A row: its name, the number of the line with the name, and its fields in order.
#[derive(Drop)]
pub(crate) struct Row {
    pub(crate) name: String,
    pub(crate) line: usize,
    pub(crate) fields: Vec<Field>,
}

/// Why a field has no single answer.
#[derive(Clone, Copy)]
pub enum Stop {
    /// Memory was refused.
    Memory,
    /// A text is too long for what it is read as.
    TooLarge,
    /// The row must give a value under this key, and it is missing or can't be read.
    Unfit(&'static str),
    /// This call gives another answer than the calls before it.
    Differs(&'static str),
}

impl From<AllocError> for Stop {
    ghost from_gives = { λ _ stop. stop ≡ Memory };

    fn from(_error: AllocError) -> Stop {
        Stop::Memory
    }
}

impl<T: Drop> From<AllocFailed<T>> for Stop {
    ghost from_gives = { λ _ stop. stop ≡ Memory };

    fn from(_error: AllocFailed<T>) -> Stop {
        Stop::Memory
    }
}

impl From<Refused> for Stop {
    ghost from_gives = { λ r stop. (r ≡ refused.Memory → stop ≡ Memory)
        × (r ≡ refused.TooLarge → stop ≡ TooLarge) };

    fn from(refused: Refused) -> Stop {
        match refused {
            Refused::Memory => Stop::Memory,
            Refused::TooLarge => Stop::TooLarge,
        }
    }
}
