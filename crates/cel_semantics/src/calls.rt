//! Calls of functions.
ghost use Rattle.std.specs.Prelude.{◌≡◌, false, length, map, option_map, is_some, IfOk};
ghost use Rattle.std.specs.List.{list_any};
ghost use Rattle.std.specs.Option.{option_map_or};
ghost use Rattle.cel_patterns.specs.Book.{Extends};
ghost use Rattle.cel_patterns.specs.Entries.{entries_of};
ghost use Rattle.cel_patterns.specs.Extensions.{HoldsForExtensions};
ghost use Rattle.cel_value.specs.Same.{has_double};
ghost use Rattle.cel_value.specs.View.{view};
ghost use Rattle.cel_semantics.specs.Calls.{call_outcome};
ghost use Rattle.cel_semantics.specs.Outcome.{outcome_view};

use crate::functions::{Form, Functions};
use crate::operators::{Answer, double_fault};
use cel_patterns::PatternBook;
use cel_value::{Refused, Value};
use std::alloc::Global;

fn receiver_holds_double(receiver: Option<&Value>) -> bool
    ensures { result ≡ option_map_or has_double (option_map (λ v. view v.now) receiver.entry) false }
{
    match receiver {
        Some(value) => value.holds_double(),
        None => false,
    }
}

fn any_holds_double(args: &[Value]) -> bool
    ensures { result ≡ list_any has_double (map view args.now) }
{
    for value in args {
        if value.holds_double() {
            return true;
        }
    }
    false
}

/// Calls a function in a form that is known and returns its answer. A double in the receiver or an
/// argument is an error. The book keeps its entries in any case.
///
/// # Errors
/// [`Refused`] if the function set refuses the call, or memory is refused.
#[inline(always)]
pub fn call<F: Functions>(
    alloc: Global,
    functions: &F,
    name: &str,
    receiver: Option<&Value>,
    args: &[Value],
    book: &mut PatternBook,
) -> Result<Answer, Refused>
    requires { (F.library functions.now).form_of name.now (is_some receiver) (length args.now) ≡ Form.Known }
    ensures keeps { Extends (entries_of book.new) (entries_of book.old) }
    ensures value { IfOk result (λ r. HoldsForExtensions (entries_of book.new) (outcome_view r)
        (λ b. call_outcome (F.library functions.now) b name.now
        (option_map (λ v. view v.now) receiver.entry) (map view args.now))) }
{
    if receiver_holds_double(receiver) || any_holds_double(args) {
        return Ok(Err(double_fault(alloc)?));
    }
    functions.call(alloc, name, receiver, args, book)
}
