//! The set of standard functions.
ghost use Rattle.std.specs.Prelude.{◌≡◌, Some, Err, IfOk, map, option_map};
ghost use Rattle.std.specs.Option.{option_map_or};
ghost use Rattle.cel_patterns.specs.Book.{Extends};
ghost use Rattle.cel_patterns.specs.Entries.{entries_of};
ghost use Rattle.cel_patterns.specs.Extensions.{HoldsForExtensions};
ghost use Rattle.cel_value.specs.Faults.{no_overload};
ghost use Rattle.cel_value.specs.View.{view, items_view};
ghost use Rattle.cel_semantics.specs.Members.{nth_item};
ghost use Rattle.cel_semantics.specs.Outcome.{outcome_view};
ghost use Rattle.cel_stdlib.specs.Names.{standard_unknown};
ghost use Rattle.cel_stdlib.specs.Standard as spec;
ghost use Rattle.cel_stdlib.specs.Table.{function_named};

use crate::extremes::extreme_among;
use crate::names::{Function, OfOne, OfTwo, function_named, takes};
use crate::{conversions, optionals, sizes, strings, times};
use cel_patterns::PatternBook;
use cel_semantics::operators::{Answer, no_such_overload};
use cel_semantics::{Form, Functions};
use cel_value::{Refused, Value};
use std::alloc::Global;

/// The set of functions of the CEL standard.
#[derive(Clone, Copy, Debug, PartialEq, Eq)]
pub struct StandardFunctions;

fn answer_of_one(alloc: Global, function: OfOne, value: &Value) -> Result<Answer, Refused>
    ensures value { IfOk result (λ r. outcome_view r ≡ spec.answer_of_one function (view value.now)) }
{
    match function {
        OfOne::Size => sizes::size(alloc, value),
        OfOne::Int => conversions::int(alloc, value),
        OfOne::Uint => conversions::uint(alloc, value),
        OfOne::String => conversions::string(alloc, value),
        OfOne::Bytes => conversions::bytes(alloc, value),
        OfOne::Timestamp => times::timestamp(alloc, value),
        OfOne::Duration => times::duration(alloc, value),
        OfOne::HasValue => optionals::has_value(alloc, value),
        OfOne::Value => optionals::value(alloc, value),
    }
}

fn answer_of_two(
    alloc: Global,
    function: OfTwo,
    value: &Value,
    other: &Value,
    book: &mut PatternBook,
) -> Result<Answer, Refused>
    ensures keeps { Extends (entries_of book.new) (entries_of book.old) }
    ensures value { IfOk result (λ r. HoldsForExtensions (entries_of book.new) (outcome_view r)
        (λ b. spec.answer_of_two function (view value.now) (view other.now) b)) }
{
    match function {
        OfTwo::Contains => strings::contains(alloc, value, other),
        OfTwo::StartsWith => strings::starts_with(alloc, value, other),
        OfTwo::EndsWith => strings::ends_with(alloc, value, other),
        OfTwo::Matches => strings::matches(alloc, value, other, book),
    }
}

// This and the following layers of a call are inlined, since
// each of them would otherwise copy the answer. The functions
// above are not: the call as a whole takes longer with them.
#[inline(always)]
fn nth(args: &[Value], index: usize) -> Option<&Value>
    ensures { option_map (λ v. view v.now) result ≡ nth_item index (items_view args.now) }
{
    args.get(index)
}

#[inline(always)]
fn first_operand<'a>(receiver: Option<&'a Value>, args: &'a [Value]) -> Option<&'a Value>
    ensures { option_map (λ v. view v.now) result
        ≡ spec.first_operand (option_map (λ v. view v.now) receiver.entry) (map view args.now) }
{
    match receiver {
        Some(value) => Some(value),
        None => nth(args, 0),
    }
}

#[inline(always)]
fn second_operand<'a>(receiver: Option<&'a Value>, args: &'a [Value]) -> Option<&'a Value>
    ensures { option_map (λ v. view v.now) result
        ≡ spec.second_operand (option_map (λ v. view v.now) receiver.entry) (map view args.now) }
{
    match receiver {
        Some(_) => nth(args, 0),
        None => nth(args, 1),
    }
}

#[inline(always)]
fn answer_of_both(
    alloc: Global,
    function: OfTwo,
    name: &str,
    value: Option<&Value>,
    other: Option<&Value>,
    book: &mut PatternBook,
) -> Result<Answer, Refused>
    ensures keeps { Extends (entries_of book.new) (entries_of book.old) }
    ensures value { IfOk result (λ r. HoldsForExtensions (entries_of book.new) (outcome_view r)
        (λ b. spec.answer_of_both function name.now (option_map (λ v. view v.now) value.entry)
        (option_map (λ v. view v.now) other.entry) b)) }
{
    match value {
        Some(value) => match other {
            Some(other) => answer_of_two(alloc, function, value, other, book),
            None => Ok(Err(no_such_overload(alloc, name)?)),
        },
        None => Ok(Err(no_such_overload(alloc, name)?)),
    }
}

#[inline(always)]
fn answer_of_first(
    alloc: Global,
    function: OfOne,
    name: &str,
    value: Option<&Value>,
) -> Result<Answer, Refused>
    ensures value { IfOk result (λ r. outcome_view r
        ≡ option_map_or (spec.answer_of_one function)
        (option_map (λ v. view v.now) value.entry) (Err (no_overload name.now))) }
{
    match value {
        Some(value) => answer_of_one(alloc, function, value),
        None => Ok(Err(no_such_overload(alloc, name)?)),
    }
}

#[inline(always)]
fn answer_of(
    alloc: Global,
    function: Function,
    name: &str,
    receiver: Option<&Value>,
    args: &[Value],
    book: &mut PatternBook,
) -> Result<Answer, Refused>
    ensures keeps { Extends (entries_of book.new) (entries_of book.old) }
    ensures value { IfOk result (λ r. HoldsForExtensions (entries_of book.new) (outcome_view r)
        (λ b. spec.answer_of function name.now
        (option_map (λ v. view v.now) receiver.entry) (map view args.now) b)) }
{
    let first = first_operand(receiver, args);
    match function {
        Function::One(function) => answer_of_first(alloc, function, name, first),
        Function::Two(function) => {
            let second = second_operand(receiver, args);
            answer_of_both(alloc, function, name, first, second, book)
        }
        Function::Many(end) => extreme_among(alloc, end, args),
    }
}

/// Returns the answer of a standard function that was found by its
/// name. The book keeps its entries in any case.
///
/// # Errors
/// Only [`Refused::Memory`], if memory is refused.
#[inline(always)]
pub fn answer_of_function(
    alloc: Global,
    function: Function,
    name: &str,
    receiver: Option<&Value>,
    args: &[Value],
    book: &mut PatternBook,
) -> Result<Answer, Refused>
    requires { function_named name.now ≡ Some function }
    ensures keeps { Extends (entries_of book.new) (entries_of book.old) }
    ensures value { IfOk result (λ r. HoldsForExtensions (entries_of book.new) (outcome_view r)
        (λ b. spec.standard_answer name.now
        (option_map (λ v. view v.now) receiver.entry) (map view args.now) b)) }
{
    answer_of(alloc, function, name, receiver, args, book)
}

impl Functions for StandardFunctions {
    ghost library = { λ _. spec.standard_library };

    ghost first = { record {} };

    ghost names_alone = { λ _. standard_unknown };

    fn start() -> StandardFunctions {
        StandardFunctions
    }

    fn form(&self, name: &str, receiver: bool, count: usize) -> Form {
        match function_named(name) {
            Some(function) => {
                if takes(function, receiver, count) {
                    Form::Known
                } else {
                    Form::Wrong
                }
            }
            None => Form::Unknown,
        }
    }

    fn call(
        &self,
        alloc: Global,
        name: &str,
        receiver: Option<&Value>,
        args: &[Value],
        book: &mut PatternBook,
    ) -> Result<Answer, Refused> {
        match function_named(name) {
            Some(function) => answer_of(alloc, function, name, receiver, args, book),
            None => Ok(Err(no_such_overload(alloc, name)?)),
        }
    }
}
