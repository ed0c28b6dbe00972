//! The functions of Kubernetes' regex library.
ghost use Rattle.std.specs.Prelude.{◌≡◌, IfOk, option_map};
ghost use Rattle.cel_patterns.specs.Book.{Extends};
ghost use Rattle.cel_patterns.specs.Entries.{entries_of};
ghost use Rattle.cel_patterns.specs.Extensions.{HoldsForExtensions};
ghost use Rattle.cel_value.specs.View.{view};
ghost use Rattle.cel_semantics.specs.Outcome.{outcome_view};
ghost use Rattle.kube_functions.specs.Regex as spec;

use cel_patterns::PatternBook;
use cel_semantics::operators::{Answer, no_such_overload};
use cel_value::{Refused, Value};
use kube_functions_strings as strings;
use std::alloc::Global;

/// A function of the regex library.
#[derive(Clone, Copy)]
pub(crate) enum RegexFunction {
    Find,
    FindAll,
}

impl RegexFunction {
    /// Returns the answer to a call of the function. The operands are the
    /// receiver, if there is one, followed by the arguments. `name` is the
    /// function's name in errors. The book keeps its entries in any case.
    ///
    /// # Errors
    /// [`Refused::Memory`] if memory is refused.
    pub(crate) fn answer(
        self,
        alloc: Global,
        name: &str,
        first: Option<&Value>,
        second: Option<&Value>,
        third: Option<&Value>,
        book: &mut PatternBook,
    ) -> Result<Answer, Refused>
        ensures keeps { Extends (entries_of book.new) (entries_of book.old) }
        ensures value { IfOk result (λ r. HoldsForExtensions (entries_of book.new) (outcome_view r)
            (λ b. spec.answer self name.now (option_map (λ v. view v.now) first.entry)
            (option_map (λ v. view v.now) second.entry) (option_map (λ v. view v.now) third.entry) b)) }
    {
        match (self, first, second) {
            (Self::Find, Some(value), Some(pattern)) => strings::find(alloc, value, pattern, book),
            (Self::FindAll, Some(value), Some(pattern)) => strings::find_all(
                alloc, value, pattern, third, book,
            ),
            (_, None, _) | (_, _, None) => Ok(Err(no_such_overload(alloc, name)?)),
        }
    }
}
