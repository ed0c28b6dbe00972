//! Reports whether an object has a key twice.
ghost use Rattle.kubecel_io.specs.Repeats.{has_unique_keys};
ghost use Rattle.std.specs.Prelude.{◌≡◌, IfOk};

use json::{Scratch, Tape};
use kube_types_refused::Refused;
use std::alloc::Global;

/// Reports whether a text is JSON in which no object has a key twice.
pub(crate) fn has_unique_keys(alloc: Global, text: &str) -> Result<bool, Refused>
    ensures { IfOk result (λ b. b ≡ has_unique_keys text.now) }
{
    let mut scratch = Scratch::new(alloc);
    match Tape::parse_strict(text, &mut scratch, Vec::new(alloc)) {
        Ok(_) => Ok(true),
        Err(json::Error::Invalid) => Ok(false),
        Err(json::Error::DuplicateKey) => Ok(false),
        Err(json::Error::OutOfMemory) => Err(Refused::Memory),
        Err(json::Error::TooLong) => Err(Refused::TooLarge),
    }
}
