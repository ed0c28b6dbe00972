//! Holds what is owned until two results are there. These functions are generic, so that their
//! proofs see nothing of the trees that they hold.

ghost use Rattle.std.specs.Prelude.{◌≡◌, ◌⊎◌, Err, IfOk, MatchResult, Ok};

use std::alloc::{AllocError, Global};

/// Returns the values of both results, or the first error.
pub fn both<A: Drop, B: Drop, E: Drop>(
    first: Result<A, E>,
    second: Result<B, E>,
) -> Result<(A, B), E>
    ensures { MatchResult result (λ pair. (first ≡ Ok pair.0) × (second ≡ Ok pair.1))
        (λ error. (first ≡ Err error) ⊎ ((value : A) × (first ≡ Ok value) × (second ≡ Err error))) }
{
    match first {
        Ok(first) => match second {
            Ok(second) => Ok((first, second)),
            Err(error) => Err(error),
        },
        Err(error) => Err(error),
    }
}

/// Moves a value into a box.
pub(crate) fn in_box<A: Drop>(alloc: Global, value: A) -> Result<Box<A>, AllocError>
    ensures { IfOk result (λ b. b.value ≡ value) }
{
    Ok(Box::new(alloc, value)?)
}

/// Moves both values into boxes.
pub(crate) fn boxed<A: Drop, B: Drop>(
    alloc: Global,
    first: A,
    second: B,
) -> Result<(Box<A>, Box<B>), AllocError>
    ensures { IfOk result (λ pair. (pair.0.value ≡ first) × (pair.1.value ≡ second)) }
{
    both(in_box(alloc, first), in_box(alloc, second))
}
