//! The functions of CEL-Go's encoders library, and `jsonpatch.escapeKey` of Kubernetes.
ghost use Rattle.std.specs.Prelude.{◌≡◌, IfOk, option_map};
ghost use Rattle.cel_value.specs.View.{view};
ghost use Rattle.cel_semantics.specs.Outcome.{outcome_view};
ghost use Rattle.kube_functions.specs.Encoders as spec;

use cel_semantics::operators::{Answer, no_such_overload};
use cel_value::{Refused, Value};
use kube_functions_strings as strings;
use std::alloc::Global;

/// A function of the encoders library, or `jsonpatch.escapeKey`.
#[derive(Clone, Copy)]
pub(crate) enum EncodersFunction {
    Decode,
    Encode,
    EscapeKey,
}

impl EncodersFunction {
    /// Returns the answer to a call of the function. The operands are the receiver, if
    /// there is one, followed by the arguments. `name` is the function's name in errors.
    ///
    /// # Errors
    /// [`Refused::Memory`] if memory is refused.
    pub(crate) fn answer(
        self,
        alloc: Global,
        name: &str,
        first: Option<&Value>,
    ) -> Result<Answer, Refused>
        ensures value { IfOk result (λ r. outcome_view r ≡ spec.answer self name.now
            (option_map (λ v. view v.now) first.entry)) }
    {
        match (self, first) {
            (Self::Decode, Some(value)) => strings::base64_decode(alloc, value),
            (Self::Encode, Some(value)) => strings::base64_encode(alloc, value),
            (Self::EscapeKey, Some(value)) => strings::escape_key(alloc, value),
            (_, None) => Ok(Err(no_such_overload(alloc, name)?)),
        }
    }
}
