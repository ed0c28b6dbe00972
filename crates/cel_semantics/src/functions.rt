//! The functions that an expression may call.
ghost use Rattle.std.specs.Prelude.{◌≡◌, ℕ, List, Bool, length, map, option_map, is_some, IfOk};
ghost use Rattle.cel_patterns.specs.Book.{Extends};
ghost use Rattle.cel_patterns.specs.Entries.{entries_of};
ghost use Rattle.cel_patterns.specs.Extensions.{HoldsForExtensions};
ghost use Rattle.cel_value.specs.View.{view};
ghost use Rattle.cel_semantics.specs.Library.{Library};
ghost use Rattle.cel_semantics.specs.Outcome.{outcome_view};
ghost use Rattle.cel_semantics.specs.declared.functions.Form.TheVariants.{Unknown};

use cel_patterns::PatternBook;
use cel_value::{ExecutionError, Refused, Value};
use std::alloc::Global;

/// Whether a name may be called in a given form.
#[derive(Clone, Copy, Debug, PartialEq, Eq)]
pub enum Form {
    /// No function has this name.
    Unknown,
    /// There is such a function, but it can't be called with or without a
    /// receiver as asked, or with this number of arguments.
    Wrong,
    /// The name may be called in this form.
    Known,
}

/// A set of functions.
///
/// `library` is its definition: the known forms, and the answer of a call.
pub trait Functions: Copy {
    ghost library: { Self → Library };

    ghost first: { Self };

    /// A name that is unknown in one form (with or without a
    /// receiver, with some number of arguments) is unknown in every form.
    ghost names_alone: { (functions : Self) (name : List ℕ) (receiver other : Bool) (count number : ℕ)
        → (library functions).form_of name receiver count ≡ Unknown
        → (library functions).form_of name other number ≡ Unknown };

    /// The set that a context starts with.
    fn start() -> Self
        ensures { result ≡ first };

    /// Returns whether the name may be called with or
    /// without a receiver and with `count` arguments.
    fn form(&self, name: &str, receiver: bool, count: usize) -> Form
        ensures { result ≡ (library self.now).form_of name.now receiver count };

    /// Calls a function in a form that is known and returns its answer. The book
    /// keeps its entries, even if memory is refused.
    ///
    /// # Errors
    /// [`Refused`] if memory is refused, or a text is too large to be read.
    fn call(
        &self,
        alloc: Global,
        name: &str,
        receiver: Option<&Value>,
        args: &[Value],
        book: &mut PatternBook,
    ) -> Result<Result<Value, ExecutionError>, Refused>
        requires { (library self.now).form_of name.now (is_some receiver) (length args.now)
            ≡ Form.Known }
        ensures keeps { Extends (entries_of book.new) (entries_of book.old) }
        ensures value { IfOk result (λ r. HoldsForExtensions (entries_of book.new) (outcome_view r)
            ((library self.now).answer_of name.now
            (option_map (λ v. view v.now) receiver.entry) (map view args.now))) };
}
