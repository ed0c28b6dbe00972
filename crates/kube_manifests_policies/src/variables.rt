//! Evaluates the variables of a policy, one after another.
ghost use Rattle.cel.specs.Book.{Extends, Book};
ghost use Rattle.cel.specs.Entries.{entries_of};
ghost use Rattle.cel.specs.Members.{put_in};
ghost use Rattle.cel.specs.Outcome.{outcome_view};
ghost use Rattle.cel_value.specs.Data.{text};
ghost use Rattle.cel_value.specs.Faults.{fault_view};
ghost use Rattle.cel_value.specs.View.{view};
ghost use Rattle.kube_manifests_documents.specs.Policies.{item_view};
ghost use Rattle.kube_manifests_policies.specs.Scopes.{Alike, fault_report, is_absent, is_new, is_no, outcome_seen, scope_view, variable_step, variables_after, with_stored, with_values, with_variable, without_value};
ghost use Rattle.kube_manifests_policies.specs.Verdicts.{report_view, result_view, with_report};
ghost use Rattle.std.specs.Prelude.{◌≡◌, ◌++◌, [], ◌∷◌, IfOk, map, Ok, OnOk, true};

use crate::scope::{Scope, evaluate, fault_report};
use crate::verdict::{ItemReport, PolicyResult, with_report};
use cel::{Answer, ExecutionError, Key, PatternBook, Text, Value};
use cel_semantics::members::{has, put};
use cel_syntax_ast::both;
use kube_cel_vap::bind;
use kube_manifests_documents::Item;
use kube_types::Refused;
use std::alloc::{AllocError, Global};
use std::mem::replace;

/// Returns the map of variables with one more variable, or an error if it has one of this name.
fn stored(alloc: Global, values: &Value, name: &str, value: &Value) -> Result<Answer, Refused>
    ensures value { IfOk result (λ r. outcome_view r
        ≡ put_in (view values.now) (text name.now) (view value.now)) }
{
    let (key, values) = both(Value::of_str(alloc, name), values.try_clone())?;
    let answer = put(alloc, values, &key, value);
    drop(key);
    answer
}

fn is_no(there: Option<bool>) -> bool
    ensures { result ≡ is_no there }
{
    match there {
        Some(there) => !there,
        None => false,
    }
}

/// Reports whether an answer says that a map has no variable of some name.
fn is_absent(there: &Answer) -> bool
    ensures { result ≡ is_absent (outcome_view there.now) }
{
    match there {
        Ok(there) => is_no(there.as_bool()),
        Err(_) => false,
    }
}

/// Reports whether a map of variables has none of this name.
fn is_new(alloc: Global, values: &Value, name: &str) -> Result<bool, Refused>
    ensures new { IfOk result (λ b. b ≡ is_new (view values.now) name.now) }
{
    let key = Key::String(Text::of_str(alloc, name)?);
    let there = has(alloc, &key, values);
    drop(key);
    let there = there?;
    let new = is_absent(&there);
    drop(there);
    Ok(new)
}

/// Adds a variable without a value.
fn add_missing(
    alloc: Global,
    name: &str,
    reported: ItemReport,
    missing: &mut Vec<PolicyResult>,
) -> Result<(), AllocError>
    ensures { OnOk result (map result_view missing.new.items
        ≡ map result_view missing.old.items ++ with_report name.now (report_view reported) ∷ []) }
{
    missing.push(with_report(alloc, name, reported)?)?;
    Ok(())
}

/// Adds a variable without a value to a scope.
fn without_value<'a>(
    alloc: Global,
    mut scope: Scope<'a>,
    name: &str,
    reported: ItemReport,
) -> Result<Scope<'a>, Refused>
    ensures scope { IfOk result (λ s. Alike (scope_view s)
        (without_value (scope_view scope.entry) name.now (report_view reported))) }
{
    let added = add_missing(alloc, name, reported, &mut scope.missing);
    let (_, scope) = both(added, Ok(scope))?;
    Ok(scope)
}

/// Replaces the map of variables in a scope.
fn with_values<'a>(mut scope: Scope<'a>, map: Value) -> Result<Scope<'a>, Refused>
    ensures scope { IfOk result (λ s. Alike (scope_view s)
        (with_values (scope_view scope.entry) (view map))) }
{
    let bound = bind(&mut scope.context, "variables", map.try_clone());
    drop(replace(&mut scope.values, map));
    let (_, scope) = both(bound, Ok(scope))?;
    Ok(scope)
}

/// Adds a variable that fails to a scope.
fn without_fault<'a>(
    alloc: Global,
    scope: Scope<'a>,
    name: &str,
    fault: &ExecutionError,
) -> Result<Scope<'a>, Refused>
    ensures scope { IfOk result (λ s. Alike (scope_view s)
        (without_value (scope_view scope.entry) name.now (fault_report (fault_view fault.now)))) }
{
    let (reported, scope) = both(fault_report(alloc, fault), Ok(scope))?;
    without_value(alloc, scope, name, reported)
}

/// Replaces the map of variables in a scope if `answer` is a value. Otherwise the variable has
/// none.
fn with_stored<'a>(
    alloc: Global,
    scope: Scope<'a>,
    name: &str,
    answer: Answer,
) -> Result<Scope<'a>, Refused>
    ensures scope { IfOk result (λ s. Alike (scope_view s)
        (with_stored (scope_view scope.entry) name.now (outcome_view answer))) }
{
    match answer {
        Ok(map) => with_values(scope, map),
        Err(fault) => without_fault(alloc, scope, name, &fault),
    }
}

/// Returns the map of variables with one more variable, of a new name.
fn put_new(alloc: Global, values: Value, name: &str, value: &Value) -> Result<Value, Refused>
    requires { is_new (view values) name.now ≡ true }
    ensures map { IfOk result (λ m. Ok (view m) ≡ put_in (view values) (text name.now) (view value.now)) }
{
    let (key, values) = both(Value::of_str(alloc, name), Ok(values))?;
    let answer = put(alloc, values, &key, value);
    drop(key);
    match answer? {
        Ok(map) => Ok(map),
        // A map takes every new name.
        Err(_) => Ok(Value::Null),
    }
}

/// Adds a variable of a new name to the map of variables in a scope. Nothing else holds the map
/// meanwhile, so that it isn't copied.
fn with_new<'a>(
    alloc: Global,
    mut scope: Scope<'a>,
    name: &str,
    value: &Value,
) -> Result<Scope<'a>, Refused>
    requires { is_new (view scope.values) name.now ≡ true }
    ensures scope { IfOk result (λ s. Alike (scope_view s) (with_stored (scope_view scope.entry)
        name.now (put_in (view scope.entry.values) (text name.now) (view value.now)))) }
{
    drop(scope.context.take_variable("variables"));
    let values = replace(&mut scope.values, Value::Null);
    let map = put_new(alloc, values, name, value);
    let (map, scope) = both(map, Ok(scope))?;
    with_values(scope, map)
}

/// Adds a variable with this value to a scope.
fn with_value<'a>(
    alloc: Global,
    scope: Scope<'a>,
    name: &str,
    value: &Value,
) -> Result<Scope<'a>, Refused>
    ensures scope { IfOk result (λ s. Alike (scope_view s) (with_stored (scope_view scope.entry)
        name.now (put_in (view scope.entry.values) (text name.now) (view value.now)))) }
{
    let new = is_new(alloc, &scope.values, name);
    let (new, scope) = both(new, Ok(scope))?;
    if new {
        return with_new(alloc, scope, name, value);
    }
    let stored = stored(alloc, &scope.values, name, value);
    let (stored, scope) = both(stored, Ok(scope))?;
    with_stored(alloc, scope, name, stored)
}

/// Adds a variable to a scope, given its result.
fn with_variable<'a>(
    alloc: Global,
    scope: Scope<'a>,
    name: &str,
    reached: Result<Answer, ItemReport>,
) -> Result<Scope<'a>, Refused>
    ensures scope { IfOk result (λ s. Alike (scope_view s)
        (with_variable (scope_view scope.entry) name.now (outcome_seen reached))) }
{
    match reached {
        Err(reported) => without_value(alloc, scope, name, reported),
        Ok(Err(fault)) => without_fault(alloc, scope, name, &fault),
        Ok(Ok(value)) => {
            let added = with_value(alloc, scope, name, &value);
            drop(value);
            added
        }
    }
}

/// Evaluates a variable and adds it to a scope.
#[tactic(auto, unfolding(crate::specs::Scopes::variable_step))]
fn variable_step<'a>(
    alloc: Global,
    scope: Scope<'a>,
    item: &Item<'_>,
    book: &mut PatternBook,
) -> Result<Scope<'a>, Refused>
    ensures keeps { Extends (entries_of book.new) (entries_of book.old) }
    ensures scope { IfOk result (λ s. (b : Book) → Extends b (entries_of book.new)
        → Alike (scope_view s) (variable_step b (scope_view scope.entry) (item_view item.now))) }
{
    let reached = evaluate(alloc, item.expression, &scope, book);
    let (reached, scope) = both(reached, Ok(scope))?;
    with_variable(alloc, scope, item.label, reached)
}

/// Evaluates variables in order and adds each to the scope.
pub(crate) fn with_variables<'a>(
    alloc: Global,
    scope: Scope<'a>,
    items: &[Item<'_>],
    book: &mut PatternBook,
) -> Result<Scope<'a>, Refused>
    ensures keeps { Extends (entries_of book.new) (entries_of book.old) }
    ensures scope { IfOk result (λ s. (b : Book) → Extends b (entries_of book.new)
        → Alike (scope_view s) (variables_after b (scope_view scope.entry) (map item_view items.now))) }
{
    let mut so_far = scope;
    for item in items {
        so_far = variable_step(alloc, so_far, item, book)?;
    }
    Ok(so_far)
}
