//! Calls of the functions of the table.
ghost use Rattle.std.specs.Prelude.{◌≡◌, IfOk, Some, option_map};
ghost use Rattle.cel_value.specs.View.{view};
ghost use Rattle.cel_semantics.specs.Outcome.{outcome_view};
ghost use Rattle.kube_server_functions.specs.Calls as spec;

use crate::functions::Function;
use crate::operands::Operands;
use cel_semantics::operators::{Answer, no_such_overload};
use cel_value::{Refused, Value};
use kube_server_authorizer::methods;
use kube_server_times::getters::getter;
use kube_server_values::{bools, maps, optionals, pairs, selections, types};
use std::alloc::Global;

fn answer_of_one(
    alloc: Global,
    function: Function,
    name: &str,
    first: &Value,
    second: Option<&Value>,
    third: Option<&Value>,
) -> Result<Answer, Refused>
    ensures value { IfOk result (λ r. outcome_view r ≡ spec.answer function name.now
        (Some (view first.now)) (option_map (λ v. view v.now) second.entry)
        (option_map (λ v. view v.now) third.entry)) }
{
    match (function, second) {
        (Function::OptionalNone, _) => Ok(optionals::none_of_all()),
        (Function::OptionalOf, _) => optionals::some_of(alloc, first),
        (Function::OptionalOfNonZeroValue, _) => optionals::some_of_nonzero(alloc, first),
        (Function::Bool, _) => bools::bool(alloc, first),
        (Function::Dynamic, _) => types::dynamic(first),
        (Function::Pairs, _) => pairs::pairs_of(alloc, first),
        (Function::MapOfPairs, _) => maps::map_of_pairs(alloc, first),
        (Function::MapOfMaps, _) => maps::map_of_maps(alloc, first),
        (Function::TypeName, _) => types::type_name(alloc, first),
        (Function::Getter(field), _) => getter(alloc, field, name, first, second),
        (Function::Authorizer(function), _) => {
            methods::answer(alloc, function, name, first, second, third)
        }
        (Function::Or, Some(second)) => optionals::or_optional(alloc, first, second),
        (Function::OrValue, Some(second)) => optionals::or_value(alloc, first, second),
        (Function::OptionalField, Some(second)) => selections::field_optional(alloc, first, second),
        (Function::OptionalIndex, Some(second)) => selections::index_optional(alloc, first, second),
        (_, None) => Ok(Err(no_such_overload(alloc, name)?)),
    }
}

/// Returns the answer to a call of a function of the table with these operands.
///
/// # Errors
/// [`Refused::Memory`] if memory is refused.
pub(crate) fn answer(
    alloc: Global,
    function: Function,
    name: &str,
    operands: Operands<'_>,
) -> Result<Answer, Refused>
    ensures value { IfOk result (λ r. outcome_view r ≡ spec.answer function name.now
        (option_map (λ v. view v.now) operands.entry.first)
        (option_map (λ v. view v.now) operands.entry.second)
        (option_map (λ v. view v.now) operands.entry.third)) }
{
    match (function, operands.first) {
        (Function::OptionalNone, _) => Ok(optionals::none_of_all()),
        (_, Some(first)) => {
            answer_of_one(
                alloc,
                function,
                name,
                first,
                operands.second,
                operands.third,
            )
        }
        (_, None) => Ok(Err(no_such_overload(alloc, name)?)),
    }
}
