//! The names of the functions, and the forms in which each may be called: the tables of
//! `specs/Table.antt` in code.
ghost use Rattle.std.specs.Prelude.{◌≡◌, Some};
ghost use Rattle.std.specs.Map.{lookup};
ghost use Rattle.std.specs.Str.{bytes_eq};
ghost use Rattle.kube_server_functions.specs.Table as spec;

use crate::functions::{Declaration, Function};
use kube_server_authorizer::method_named as authorizer_method;
use kube_server_times::Field;

#[inline(always)]
fn takes_from(least: usize, greatest: usize, function: Function) -> Option<Declaration>
    ensures { result ≡ Some (spec.takes_from least greatest function) }
{
    Some(Declaration {
        least,
        greatest,
        function,
    })
}

#[inline(always)]
fn getter(field: Field) -> Option<Declaration>
    ensures { result ≡ Some (spec.takes_from 0 1 (Function.Getter field)) }
{
    takes_from(0, 1, Function::Getter(field))
}

fn method_named(name: &str) -> Option<Declaration>
    ensures { result ≡ lookup (bytes_eq name.now) spec.methods }
{
    match name {
        "or" => takes_from(1, 1, Function::Or),
        "orValue" => takes_from(1, 1, Function::OrValue),
        "getFullYear" => getter(Field::FullYear),
        "getMonth" => getter(Field::Month),
        "getDayOfYear" => getter(Field::DayOfYear),
        "getDayOfMonth" => getter(Field::DayOfMonth),
        "getDate" => getter(Field::Date),
        "getDayOfWeek" => getter(Field::DayOfWeek),
        "getHours" => getter(Field::Hours),
        "getMinutes" => getter(Field::Minutes),
        "getSeconds" => getter(Field::Seconds),
        "getMilliseconds" => getter(Field::Milliseconds),
        _ => None,
    }
}

fn global_named(name: &str) -> Option<Declaration>
    ensures { result ≡ lookup (bytes_eq name.now) spec.globals }
{
    match name {
        "optional.of" => takes_from(1, 1, Function::OptionalOf),
        "optional.ofNonZeroValue" => takes_from(1, 1, Function::OptionalOfNonZeroValue),
        "optional.none" => takes_from(0, 0, Function::OptionalNone),
        "bool" => takes_from(1, 1, Function::Bool),
        "dyn" => takes_from(1, 1, Function::Dynamic),
        _ => None,
    }
}

fn internal_named(name: &str) -> Option<Declaration>
    ensures { result ≡ lookup (bytes_eq name.now) spec.internals }
{
    match name {
        "_?._" => takes_from(2, 2, Function::OptionalField),
        "_[?_]" => takes_from(2, 2, Function::OptionalIndex),
        "@pairs" => takes_from(1, 1, Function::Pairs),
        "@map_of_pairs" => takes_from(1, 1, Function::MapOfPairs),
        "@map_of_maps" => takes_from(1, 1, Function::MapOfMaps),
        "@type_name" => takes_from(1, 1, Function::TypeName),
        _ => None,
    }
}

fn authorizer_method_named(name: &str) -> Option<Declaration>
    ensures { result ≡ spec.authorizer_method name.now }
{
    match authorizer_method(name) {
        Some(method) => takes_from(
            method.arguments,
            method.arguments,
            Function::Authorizer(method.function),
        ),
        None => None,
    }
}

fn any_method_named(name: &str) -> Option<Declaration>
    ensures { result ≡ spec.method_named name.now }
{
    match method_named(name) {
        Some(declaration) => Some(declaration),
        None => authorizer_method_named(name),
    }
}

fn any_global_named(name: &str) -> Option<Declaration>
    ensures { result ≡ spec.global_named name.now }
{
    match global_named(name) {
        Some(declaration) => Some(declaration),
        None => internal_named(name),
    }
}

fn function_named(name: &str, receiver: bool) -> Option<Declaration>
    ensures { result ≡ spec.function_named name.now receiver }
{
    if receiver {
        any_method_named(name)
    } else {
        any_global_named(name)
    }
}

/// Reports whether a function has this name.
pub(crate) fn is_named(name: &str) -> bool
    ensures { result ≡ spec.is_named name.now }
{
    function_named(name, true).is_some() || function_named(name, false).is_some()
}

/// Returns the function that may be called by this name and in this form, if any.
pub(crate) fn known_function(name: &str, receiver: bool, count: usize) -> Option<Function>
    ensures { result ≡ spec.known_function name.now receiver count }
{
    match function_named(name, receiver) {
        Some(declaration) => {
            if declaration.least <= count && count <= declaration.greatest {
                Some(declaration.function)
            } else {
                None
            }
        }
        None => None,
    }
}
