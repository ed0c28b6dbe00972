//! Turns what only memory can refuse into what may be refused.
ghost use Rattle.std.specs.Prelude.{◌≡◌, MatchResult, Ok};

use kube_types::Refused;
use std::alloc::AllocError;

/// Returns the value, or that memory is refused. It is generic, so that its proof sees nothing of
/// what it holds.
pub(crate) fn or_refused<T: Drop>(made: Result<T, AllocError>) -> Result<T, Refused>
    ensures { MatchResult result (λ value. made ≡ Ok value) (λ error. error ≡ Refused.Memory) }
{
    Ok(made?)
}
