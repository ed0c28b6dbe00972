//! The functions of Kubernetes' URL library.
ghost use Rattle.std.specs.Prelude.{◌≡◌, IfOk, option_map};
ghost use Rattle.cel_value.specs.View.{view};
ghost use Rattle.cel_semantics.specs.Outcome.{outcome_view};
ghost use Rattle.kube_functions.specs.Url as spec;

use cel_semantics::operators::{Answer, no_such_overload};
use cel_value::{Refused, Value};
use kube_functions_types::url_functions;
use std::alloc::Global;

/// A function of the URL library.
#[derive(Clone, Copy)]
pub(crate) enum UrlFunction {
    Url,
    IsUrl,
    EscapedPath,
    Host,
    Hostname,
    Port,
    Query,
    Scheme,
}

impl UrlFunction {
    /// Returns the answer to a call of the function. The operands are the receiver, if
    /// there is one, followed by the arguments. `name` is the function's name in errors.
    ///
    /// # Errors
    /// [`Refused::Memory`] if memory is refused, [`Refused::TooLarge`] if a URL is too large.
    pub(crate) fn answer(
        self,
        alloc: Global,
        name: &str,
        first: Option<&Value>,
    ) -> Result<Answer, Refused>
        ensures value { IfOk result (λ r. outcome_view r ≡ spec.answer self name.now
            (option_map (λ v. view v.now) first.entry)) }
    {
        match (self, first) {
            (Self::Url, Some(value)) => url_functions::url(alloc, value),
            (Self::IsUrl, Some(value)) => url_functions::is_url(alloc, value),
            (Self::EscapedPath, Some(value)) => url_functions::escaped_path(alloc, value),
            (Self::Host, Some(value)) => url_functions::host(alloc, value),
            (Self::Hostname, Some(value)) => url_functions::hostname(alloc, value),
            (Self::Port, Some(value)) => url_functions::port(alloc, value),
            (Self::Query, Some(value)) => url_functions::query(alloc, value),
            (Self::Scheme, Some(value)) => url_functions::scheme(alloc, value),
            (_, None) => Ok(Err(no_such_overload(alloc, name)?)),
        }
    }
}
