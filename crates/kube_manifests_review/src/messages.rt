//! The messages of findings about calls.
ghost use Rattle.std.specs.Prelude.{◌≡◌, IfOk, string_bytes};
ghost use Rattle.kube_manifests_review.specs.Calls as spec;

use std::alloc::{AllocError, Global};

/// Returns the message that a function is unknown.
pub(crate) fn unknown_text(alloc: Global, name: &str) -> Result<String, AllocError>
    ensures { IfOk result (λ s. string_bytes s ≡ spec.unknown_text name.now) }
{
    format!(in alloc; "function '{name}' is unknown")
}

/// Returns the message that a function has no form with this number of arguments, with or without a
/// receiver.
pub(crate) fn wrong_text(
    alloc: Global,
    name: &str,
    has_receiver: bool,
    count: usize,
) -> Result<String, AllocError>
    ensures { IfOk result (λ s. string_bytes s ≡ spec.wrong_text name.now has_receiver count) }
{
    if has_receiver {
        format!(in alloc;
            "function '{name}' can't be called with a receiver and this number of arguments: {count}"
        )
    } else {
        format!(in alloc;
            "function '{name}' can't be called without a receiver and with this number of arguments: {count}"
        )
    }
}

/// Returns the message that a method of optionals is called on `oldSelf`.
pub(crate) fn old_self_text(alloc: Global, name: &str) -> Result<String, AllocError>
    ensures { IfOk result (λ s. string_bytes s ≡ spec.old_self_text name.now) }
{
    format!(in alloc; "'oldSelf' isn't an optional here: {name}() always fails")
}

/// Returns the message that calling a function with this string always fails.
pub(crate) fn fails_text(alloc: Global, name: &str, string: &str) -> Result<String, AllocError>
    ensures { IfOk result (λ s. string_bytes s ≡ spec.fails_text name.now string.now) }
{
    format!(in alloc; "{name}('{string}') always fails")
}

/// Returns the message that a pattern is refused.
pub(crate) fn pattern_text(alloc: Global, pattern: &str) -> Result<String, AllocError>
    ensures { IfOk result (λ s. string_bytes s ≡ spec.pattern_text pattern.now) }
{
    format!(in alloc; "pattern '{pattern}' can't be compiled")
}
