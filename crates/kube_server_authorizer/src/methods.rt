//! The methods of an authorizer, of checks and of decisions.
ghost use Rattle.std.specs.Prelude.{◌≡◌, Some, IfOk, option_map};
ghost use Rattle.std.specs.Map.{lookup};
ghost use Rattle.std.specs.Str.{bytes_eq};
ghost use Rattle.cel_value.specs.View.{view};
ghost use Rattle.cel_semantics.specs.Outcome.{outcome_view};
ghost use Rattle.kube_server_authorizer.specs.Methods as spec;

use crate::calls;
use cel_semantics::operators::{Answer, no_such_overload};
use cel_value::{Refused, Value};
use std::alloc::Global;

/// A function that is called on an authorizer, on a check or on a decision.
#[derive(Clone, Copy)]
pub enum AuthorizerFunction {
    /// `path`.
    Path,
    /// `group`.
    Group,
    /// `serviceAccount`.
    ServiceAccount,
    /// `resource`.
    Resource,
    /// `subresource`.
    Subresource,
    /// `namespace`.
    Namespace,
    /// `name`.
    Name,
    /// `check`.
    Check,
    /// `allowed`.
    Allowed,
    /// `reason`.
    Reason,
    /// `errored`.
    Errored,
    /// `error`.
    Error,
}

/// A function, and how many arguments it takes.
#[derive(Clone, Copy)]
pub struct Method {
    /// The number of arguments.
    pub arguments: usize,
    /// The function.
    pub function: AuthorizerFunction,
}

#[inline(always)]
fn takes(arguments: usize, function: AuthorizerFunction) -> Option<Method>
    ensures { result ≡ Some (spec.takes arguments function) }
{
    Some(Method {
        arguments,
        function,
    })
}

/// Returns the method of this name, if any.
pub fn method_named(name: &str) -> Option<Method>
    ensures { result ≡ lookup (bytes_eq name.now) spec.methods }
{
    match name {
        "path" => takes(1, AuthorizerFunction::Path),
        "group" => takes(1, AuthorizerFunction::Group),
        "serviceAccount" => takes(2, AuthorizerFunction::ServiceAccount),
        "resource" => takes(1, AuthorizerFunction::Resource),
        "subresource" => takes(1, AuthorizerFunction::Subresource),
        "namespace" => takes(1, AuthorizerFunction::Namespace),
        "name" => takes(1, AuthorizerFunction::Name),
        "check" => takes(1, AuthorizerFunction::Check),
        "allowed" => takes(0, AuthorizerFunction::Allowed),
        "reason" => takes(0, AuthorizerFunction::Reason),
        "errored" => takes(0, AuthorizerFunction::Errored),
        "error" => takes(0, AuthorizerFunction::Error),
        _ => None,
    }
}

/// Returns the answer to a call on a receiver with these arguments. `name` is the method's name in
/// errors.
///
/// # Errors
/// [`Refused::Memory`] if memory is refused.
pub fn answer(
    alloc: Global,
    function: AuthorizerFunction,
    name: &str,
    value: &Value,
    first: Option<&Value>,
    second: Option<&Value>,
) -> Result<Answer, Refused>
    ensures value { IfOk result (λ r. outcome_view r ≡ spec.answer function name.now (view value.now)
        (option_map (λ v. view v.now) first.entry) (option_map (λ v. view v.now) second.entry)) }
{
    match (function, first, second) {
        (AuthorizerFunction::Allowed, _, _) => calls::allowed(alloc, value),
        (AuthorizerFunction::Reason, _, _) => calls::reason(alloc, value),
        (AuthorizerFunction::Errored, _, _) => calls::errored(alloc, value),
        (AuthorizerFunction::Error, _, _) => calls::error(alloc, value),
        (AuthorizerFunction::Path, Some(text), _) => calls::path(alloc, value, text),
        (AuthorizerFunction::Group, Some(text), _) => calls::group(alloc, value, text),
        (AuthorizerFunction::Resource, Some(text), _) => calls::resource(alloc, value, text),
        (AuthorizerFunction::Subresource, Some(text), _) => calls::subresource(alloc, value, text),
        (AuthorizerFunction::Namespace, Some(text), _) => calls::namespace(alloc, value, text),
        (AuthorizerFunction::Name, Some(text), _) => calls::name(alloc, value, text),
        (AuthorizerFunction::Check, Some(verb), _) => calls::check(alloc, value, verb),
        (AuthorizerFunction::ServiceAccount, Some(namespace), Some(name)) => {
            calls::service_account(alloc, value, namespace, name)
        }
        (_, None, _) | (_, _, None) => Ok(Err(no_such_overload(alloc, name)?)),
    }
}
