//! Evaluators of programs.
ghost use Rattle.cel.specs.Program.{program_term};
ghost use Rattle.cel_patterns.specs.Book.{Book, Extends};
ghost use Rattle.cel_patterns.specs.Entries.{entries_of};
ghost use Rattle.cel_patterns.specs.Extensions.{HoldsForExtensions};
ghost use Rattle.cel_semantics.specs.Bindings.{bindings_of, functions_of};
ghost use Rattle.cel_semantics.specs.Meaning.{meaning};
ghost use Rattle.cel_semantics.specs.Outcome.{Outcome, outcome_view};
ghost use Rattle.cel_syntax.specs.Term.{Term};
ghost use Rattle.std.specs.Prelude.{◌≡◌, IfOk};

use crate::program::Program;
use cel_patterns::PatternBook;
use cel_semantics::{Answer, Context, Functions};
use cel_value::Refused;
use std::alloc::Global;

/// Evaluates programs.
///
/// `evaluation` is what a tree evaluates to under a book, as `Seen`, which `seen` makes of what is
/// returned.
pub trait Evaluator {
    /// What a program evaluates to.
    type Evaluation: Drop;

    ghost Seen: { Type 0 };

    ghost seen: { Self.Evaluation → Seen };

    ghost evaluation: { Self → Book → Term → Seen };

    /// Evaluates a program. The book keeps its entries, even if memory is refused.
    ///
    /// # Errors
    /// [`Refused`] if memory is refused, or a text is too large to be read.
    fn evaluate(
        &self,
        alloc: Global,
        program: &Program,
        book: &mut PatternBook,
    ) -> Result<Self::Evaluation, Refused>
        ensures keeps { Extends (entries_of book.new) (entries_of book.old) }
        ensures value { IfOk result (λ r. HoldsForExtensions (entries_of book.new) (seen r)
            (λ b. evaluation self.now b (program_term program.now))) };
}

impl<F: Functions> Evaluator for Context<'_, F> {
    type Evaluation = Answer;

    ghost Seen = { Outcome };

    ghost seen = { outcome_view };

    ghost evaluation = { λ c b t. meaning (F.library (functions_of c)) b t (bindings_of c) };

    fn evaluate(
        &self,
        alloc: Global,
        program: &Program,
        book: &mut PatternBook,
    ) -> Result<Answer, Refused> {
        program.execute_with(alloc, self, book)
    }
}
