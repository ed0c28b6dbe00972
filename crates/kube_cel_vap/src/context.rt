//! The names of a policy's expressions. How values are made of JSON and which functions may be
//! called are parameters.
ghost use Rattle.cel.specs.Bindings.{binding, bindings_of};
ghost use Rattle.cel_value.specs.View.{view};
ghost use Rattle.kube_cel_vap.specs.Bound.{always_bound, value_or_null, with_given};
ghost use Rattle.kube_cel_vap.specs.Requests.{empty_request, request_value, request_view};
ghost use Rattle.kube_cel_vap.specs.Variables.{bindings_always, given_view, policy_bindings};
ghost use Rattle.serde_json.specs.View.{view as json_view};
ghost use Rattle.std.specs.Prelude.{◌≡◌, [], ℕ, if◌then◌else◌, IfOk, List, OnOk, option_map, Some, unwrap_or};
ghost use Rattle.std.specs.Result.{IsOkAnd};
ghost use Rattle.std.specs.Str.{bytes_eq};

use crate::adapter::{Adapter, EscapedKeys};
use crate::request::AdmissionRequest;
use crate::value::request_value;
use crate::variables::Given;
use cel::{Context, Functions};
use cel_value::Value;
use kube_functions::AllFunctions;
use kube_types::Refused;
use serde_json::Value as Json;
use std::alloc::Global;

/// The context of a policy's expressions, with all functions of Kubernetes.
pub(crate) type PolicyContext<'a> = Context<'a, AllFunctions>;

/// Returns the value of an input, or null if it isn't given.
fn value_or_null<A: Adapter>(
    alloc: Global,
    adapter: &A,
    json: &Option<Json>,
) -> Result<Value, Refused>
    ensures value { IfOk result (λ v. view v
        ≡ value_or_null (A.value adapter.now) (option_map json_view json.now)) }
{
    match json {
        Some(json) => adapter.value_of(alloc, json),
        None => Ok(Value::Null),
    }
}

/// Binds a name to a value, if it was made.
///
/// # Errors
///
/// [`Refused`] if memory is refused.
pub fn bind<F: Functions>(
    context: &mut Context<'_, F>,
    name: &str,
    value: Result<Value, Refused>,
) -> Result<(), Refused>
    ensures bound { OnOk result (IsOkAnd value (λ v. (x : List ℕ) → binding x (bindings_of context.new)
        ≡ (if bytes_eq name.now x then Some (view v) else binding x (bindings_of context.old)))) }
{
    context.add_variable(name, value?)
}

/// Binds a name to an input, if it is given.
///
/// # Errors
///
/// [`Refused`] if memory is refused.
pub fn bind_given<A: Adapter, F: Functions>(
    alloc: Global,
    adapter: &A,
    context: &mut Context<'_, F>,
    name: &str,
    json: &Option<Json>,
) -> Result<(), Refused>
    ensures bound { OnOk result ((x : List ℕ) → binding x (bindings_of context.new)
        ≡ binding x
        (with_given (A.value adapter.now) name.now (option_map json_view json.now) (bindings_of context.old))) }
{
    let Some(json) = json else {
        return Ok(());
    };
    context.add_variable(name, adapter.value_of(alloc, json)?)
}

/// Binds the names that are always bound, in a context without bindings. `request` is the value of
/// the request, if it was made.
///
/// # Errors
///
/// [`Refused`] if memory is refused.
pub fn bind_always<A: Adapter, F: Functions>(
    alloc: Global,
    adapter: &A,
    context: &mut Context<'_, F>,
    object: &Option<Json>,
    old_object: &Option<Json>,
    request: Result<Value, Refused>,
) -> Result<(), Refused>
    requires { bindings_of context.old ≡ [] }
    ensures bound { OnOk result (IsOkAnd request (λ r. (x : List ℕ) → binding x (bindings_of context.new)
        ≡ binding x
        (always_bound (A.value adapter.now) (option_map json_view object.now) (option_map json_view old_object.now)
        (view r)))) }
{
    bind(context, "request", request)?;
    bind(
        context,
        "oldObject",
        value_or_null(alloc, adapter, old_object),
    )?;
    bind(context, "object", value_or_null(alloc, adapter, object))?;
    Ok(())
}

/// Returns the value of the request that was set, or of an empty request.
fn request_or_empty(alloc: Global, request: &Option<AdmissionRequest>) -> Result<Value, Refused>
    ensures value { IfOk result (λ v. view v
        ≡ request_value (unwrap_or (option_map request_view request.now) empty_request)) }
{
    match request {
        Some(request) => request_value(alloc, request),
        None => request_value(alloc, &AdmissionRequest::default(alloc)),
    }
}

/// Binds the names of all variables of a policy, in a context without bindings.
fn bind_all(alloc: Global, context: &mut PolicyContext<'_>, given: &Given) -> Result<(), Refused>
    requires { bindings_of context.old ≡ [] }
    ensures bound { OnOk result ((x : List ℕ) → binding x (bindings_of context.new)
        ≡ binding x (policy_bindings (given_view given.now))) }
{
    let keys = EscapedKeys;
    let request = request_or_empty(alloc, &given.request);
    bind_always(
        alloc,
        &keys,
        context,
        &given.object,
        &given.old_object,
        request,
    )?;
    bind_given(alloc, &keys, context, "params", &given.params)?;
    bind_given(
        alloc,
        &keys,
        context,
        "namespaceObject",
        &given.namespace_object,
    )?;
    Ok(())
}

/// Returns the context of a policy's expressions, with the variables that were set.
pub(crate) fn context_of<'a>(alloc: Global, given: &Given) -> Result<PolicyContext<'a>, Refused>
    ensures bound { IfOk result (λ c. (x : List ℕ) → binding x (bindings_of c)
        ≡ binding x (policy_bindings (given_view given.now))) }
{
    let mut context = Context::default(alloc);
    bind_all(alloc, &mut context, given)?;
    Ok(context)
}
