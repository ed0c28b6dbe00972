//! Calls of the functions that Kubernetes adds.
ghost use Rattle.std.specs.Prelude.{◌≡◌, IfOk, map, option_map};
ghost use Rattle.cel_patterns.specs.Book.{Extends};
ghost use Rattle.cel_patterns.specs.Entries.{entries_of};
ghost use Rattle.cel_patterns.specs.Extensions.{HoldsForExtensions};
ghost use Rattle.cel_value.specs.View.{view};
ghost use Rattle.cel_semantics.specs.Outcome.{outcome_view};
ghost use Rattle.kube_functions.specs.Calls as spec;

use crate::functions::Function;
use crate::operands::{first_operand, fourth_operand, second_operand, third_operand};
use cel_patterns::PatternBook;
use cel_semantics::operators::Answer;
use cel_value::{Refused, Value};
use std::alloc::Global;

/// Returns the answer to a call of a function that Kubernetes adds. `name`
/// is the function's name in errors. The book keeps its entries in any case.
///
/// # Errors
/// [`Refused::Memory`] if memory is refused, [`Refused::TooLarge`] if a URL is too large.
pub(crate) fn answer_of(
    alloc: Global,
    function: Function,
    name: &str,
    receiver: Option<&Value>,
    args: &[Value],
    book: &mut PatternBook,
) -> Result<Answer, Refused>
    ensures keeps { Extends (entries_of book.new) (entries_of book.old) }
    ensures value { IfOk result (λ r. HoldsForExtensions (entries_of book.new) (outcome_view r)
        (λ b. spec.answer_of function name.now
        (option_map (λ v. view v.now) receiver.entry) (map view args.now) b)) }
{
    let first = first_operand(receiver, args);
    let second = second_operand(receiver, args);
    let third = third_operand(receiver, args);
    let fourth = fourth_operand(receiver, args);
    match function {
        Function::Strings(function) => function.answer(alloc, name, first, second, third, fourth),
        Function::Lists(function) => function.answer(alloc, name, first, second, third),
        Function::Math(function) => function.answer(alloc, name, first, second, args),
        Function::Sets(function) => function.answer(alloc, name, first, second),
        Function::Encoders(function) => function.answer(alloc, name, first),
        Function::Regex(function) => function.answer(alloc, name, first, second, third, book),
        Function::Net(function) => function.answer(alloc, name, first, second),
        Function::Semver(function) => function.answer(alloc, name, first, second),
        Function::Quantity(function) => function.answer(alloc, name, first, second),
        Function::Url(function) => function.answer(alloc, name, first),
        Function::Format(function) => function.answer(alloc, name, first, second),
    }
}
