//! The names bound before a policy's variables are evaluated.
ghost use Rattle.cel.specs.Bindings.{binding, bindings_of};
ghost use Rattle.cel_value.specs.Data.{map_of, no_entries};
ghost use Rattle.cel_value.specs.View.{view};
ghost use Rattle.kube_manifests_policies.specs.Bound.{bindings_always, policy_bindings, request_or_null};
ghost use Rattle.kube_manifests_documents.specs.Inputs.{inputs_view};
ghost use Rattle.kube_manifests_names.specs.Inputs.{without_namespace};
ghost use Rattle.kube_manifests_names.specs.Unstructured.{unstructured};
ghost use Rattle.kube_manifests_documents.specs.Policies.{item_view};
ghost use Rattle.kube_manifests_policies.specs.Scopes.{Alike, first_scope, scope_for, scope_view, with_no_values};
ghost use Rattle.serde_json.specs.View.{view as json_view};
ghost use Rattle.std.specs.Prelude.{◌≡◌, ℕ, IfOk, List, map, OnOk, option_map};

use crate::scope::{PolicyContext, Scope};
use cel::{Context, Entries, Value};
use cel_syntax_ast::both;
use kube_cel_vap::{Adapter, bind_always, bind_given};
use kube_manifests_documents::{Item, PolicyInputs};
use kube_manifests_names::{absent_inputs, request_value, unstructured};
use kube_types::Refused;
use serde_json::Value as Json;
use std::alloc::Global;
use std::mem::replace;

/// Makes maps with their own keys of objects.
#[derive(Drop)]
struct OwnKeys;

impl Adapter for OwnKeys {
    ghost value = { λ _. unstructured };

    fn value_of(&self, alloc: Global, json: &Json) -> Result<Value, Refused> {
        unstructured(alloc, json)
    }
}

/// Returns the value of the request, or null if it isn't given.
fn request_or_null(alloc: Global, request: &Option<Json>) -> Result<Value, Refused>
    ensures value { IfOk result (λ v. view v ≡ request_or_null (option_map json_view request.now)) }
{
    match request {
        Some(request) => request_value(alloc, request),
        None => Ok(Value::Null),
    }
}

/// Returns a context with the names that are always bound: `object`, `oldObject` and `request`.
fn context_always<'a>(alloc: Global, inputs: &PolicyInputs) -> Result<PolicyContext<'a>, Refused>
    ensures bound { IfOk result (λ c. (x : List ℕ) → binding x (bindings_of c)
        ≡ binding x (bindings_always (inputs_view inputs.now))) }
{
    let mut context = Context::default(alloc);
    let request = request_or_null(alloc, &inputs.request);
    let (object, old_object) = (&inputs.object, &inputs.old_object);
    let bound = bind_always(alloc, &OwnKeys, &mut context, object, old_object, request);
    let (_, context) = both(bound, Ok(context))?;
    Ok(context)
}

/// Returns an empty map of variables.
fn no_values(alloc: Global) -> Result<Value, Refused>
    ensures value { IfOk result (λ v. view v ≡ map_of no_entries) }
{
    Value::from_entries(alloc, Entries::new(alloc))
}

/// Returns the scope of the match conditions.
pub(crate) fn condition_scope<'a>(
    alloc: Global,
    inputs: &PolicyInputs,
) -> Result<Scope<'a>, Refused>
    ensures scope { IfOk result (λ s. Alike (scope_view s)
        (first_scope (without_namespace (inputs_view inputs.now)))) }
{
    let mut context = context_always(alloc, inputs)?;
    bind_given(alloc, &OwnKeys, &mut context, "params", &inputs.params)?;
    let absent = absent_inputs(alloc, inputs, &None)?;
    let values = no_values(alloc)?;
    Ok(Scope {
        context,
        absent,
        values,
        missing: Vec::new(alloc),
    })
}

/// Binds `variables` to an empty map, if the policy has variables.
fn bind_no_values(
    alloc: Global,
    context: &mut PolicyContext<'_>,
    variables: &[Item<'_>],
) -> Result<(), Refused>
    ensures bound { OnOk result ((x : List ℕ) → binding x (bindings_of context.new)
        ≡ binding x (with_no_values (map item_view variables.now) (bindings_of context.old))) }
{
    if variables.is_empty() {
        return Ok(());
    }
    let values = no_values(alloc)?;
    context.add_variable("variables", values)?;
    Ok(())
}

/// Binds the further names of a policy's variables and validations, in a context with the names that
/// the match conditions see.
fn bind_policy(
    alloc: Global,
    context: &mut PolicyContext<'_>,
    inputs: &PolicyInputs,
    variables: &[Item<'_>],
) -> Result<(), Refused>
    requires { (x : List ℕ) → binding x (bindings_of context.old)
        ≡ binding x (policy_bindings (without_namespace (inputs_view inputs.now))) }
    ensures bound { OnOk result ((x : List ℕ) → binding x (bindings_of context.new)
        ≡ binding x (with_no_values (map item_view variables.now) (policy_bindings (inputs_view inputs.now)))) }
{
    bind_given(
        alloc,
        &OwnKeys,
        context,
        "namespaceObject",
        &inputs.namespace_object,
    )?;
    bind_no_values(alloc, context, variables)?;
    Ok(())
}

/// Turns the scope of the match conditions into that of the first variable or, if the policy has no
/// variables, of its validations.
pub(crate) fn policy_scope<'a>(
    alloc: Global,
    mut scope: Scope<'a>,
    inputs: &PolicyInputs,
    variables: &[Item<'_>],
) -> Result<Scope<'a>, Refused>
    requires { Alike (scope_view scope) (first_scope (without_namespace (inputs_view inputs.now))) }
    ensures scope { IfOk result (λ s. Alike (scope_view s)
        (scope_for (inputs_view inputs.now) (map item_view variables.now))) }
{
    let bound = bind_policy(alloc, &mut scope.context, inputs, variables);
    let (_, scope) = both(bound, Ok(scope))?;
    let absent = absent_inputs(alloc, inputs, &inputs.namespace_object);
    let (absent, mut scope) = both(absent, Ok(scope))?;
    drop(replace(&mut scope.absent, absent));
    Ok(scope)
}
