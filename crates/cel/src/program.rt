//! Programs: expressions together with their code.
ghost use Rattle.std.specs.Prelude.{◌≡◌, ◌≤◌, ◌+◌, ◌*◌, IfOk, IfErr, MatchResult, length, map};
ghost use Rattle.cel_patterns.specs.Book.{Book, IsBook, Extends};
ghost use Rattle.cel_patterns.specs.Entries.{entries_of};
ghost use Rattle.cel_patterns.specs.Extensions.{HoldsForExtensions};
ghost use Rattle.cel_syntax.specs.Reading.{TextDerives, tree_of};
ghost use Rattle.kube_types.specs.Refused.TheVariants.{Memory};
ghost use Rattle.cel_syntax.specs.CallNames.{is_called};
ghost use Rattle.cel_syntax.specs.Names.{AreNames};
ghost use Rattle.cel_syntax.specs.References.{variable_names, function_names};
ghost use Rattle.cel_syntax.specs.FreeNames.{is_free};
ghost use Rattle.cel_syntax.specs.Term.{Term, term};
ghost use Rattle.cel_semantics.specs.Bindings.{bindings_of, functions_of};
ghost use Rattle.cel_semantics.specs.Meaning.{meaning};
ghost use Rattle.cel_semantics.specs.Outcome.{outcome_view};
ghost use Rattle.cel_vm.proofs.Sets.{same_code-prop};
ghost use Rattle.cel_vm_code.specs.Code.{code_of};
ghost use Rattle.cel_vm_code.specs.Op.{op};
ghost use Rattle.cel_vm_code.specs.Size.{nodes};

use cel_patterns::PatternBook;
use cel_semantics::{Answer, Context, Functions};
use cel_syntax::{Expr, ParseErrors, References, parse};
use cel_value::Refused;
use cel_vm::{Stacks, run_code, run_code_in};
use cel_vm_code::{Instr, compile_tree};
use std::alloc::Global;

/// A parsed expression and its code, ready to run.
#[derive(Debug)]
pub struct Program {
    expression: Expr,
    code: Vec<Instr>,
    ghost is_coded: { map op code.items ≡ code_of (term expression) } by { same_code-prop _ _ },
}

// By hand, so that a proof about code that owns one doesn't go through its parts.
impl Drop for Program {
    fn drop(self) {
        let Program {
            expression: _,
            code: _,
        } = self;
    }
}

impl Program {
    ghost use Rattle.cel.specs.Program.{program_term, program_seen};

    /// Parses an expression and compiles it.
    ///
    /// # Errors
    /// [`ParseErrors`] if the text derives no tree. The outer error is only [`Refused::Memory`].
    pub fn compile(alloc: Global, text: &str) -> Result<Result<Program, ParseErrors>, Refused>
        ensures grammar { IfOk result
            (λ answer. MatchResult answer (λ p. TextDerives text.now (program_term p))
            (λ _. (t : Term) → TextDerives text.now t → ⊥)) }
        ensures reads { IfOk result (λ answer. program_seen answer ≡ tree_of text.now) }
        ensures memory { IfErr result (λ e. e ≡ Memory) }
    {
        match parse(alloc, text)? {
            Ok(expression) => Ok(Ok(Program::from_expression(alloc, expression)?)),
            Err(errors) => Ok(Err(errors)),
        }
    }

    /// Compiles a tree.
    ///
    /// # Errors
    /// Only [`Refused::Memory`], if memory is refused.
    pub fn from_expression(alloc: Global, expression: Expr) -> Result<Program, Refused>
        ensures value { IfOk result (λ p. program_term p ≡ term expression) }
        ensures memory { IfErr result (λ e. e ≡ Memory) }
    {
        let code = compile_tree(alloc, &expression)?;
        Ok(Program { expression, code })
    }

    /// The program's tree.
    pub fn expression(&self) -> &Expr
        ensures { term result.now ≡ program_term self.now }
    {
        &self.expression
    }

    /// The program's code: that of its tree, with fewer than five instructions per node.
    pub fn code(&self) -> &[Instr]
        ensures code { map op result.now ≡ code_of (program_term self.now) }
        ensures short { length result.now + 2 ≤ 5 * nodes (program_term self.now) }
    {
        self.code.as_slice()
    }

    /// Reports whether the name is a free variable of the program's tree.
    pub fn has_variable(&self, name: &str) -> bool
        ensures { result ≡ is_free name.now (program_term self.now) }
    {
        self.expression.has_free_name(name)
    }

    /// Returns the names that the program refers to: exactly its free variables and the names of
    /// the functions that it calls.
    ///
    /// # Errors
    /// Only [`Refused::Memory`], if memory is refused.
    pub fn references(&self, alloc: Global) -> Result<References, Refused>
        ensures variables { IfOk result
            (λ r. AreNames (variable_names r) (λ x. is_free x (program_term self.now))) }
        ensures functions { IfOk result
            (λ r. AreNames (function_names r) (λ x. is_called x (program_term self.now))) }
        ensures memory { IfErr result (λ e. e ≡ Memory) }
    {
        References::of(alloc, &self.expression)
    }

    /// Runs the program in the context. Returns what its tree means there: a value or an error.
    /// Patterns are settled by a book of this call alone.
    ///
    /// # Errors
    /// [`Refused`] if memory is refused, or the function set refuses a call.
    pub fn execute<F: Functions>(
        &self,
        alloc: Global,
        context: &Context<'_, F>,
    ) -> Result<Answer, Refused>
        ensures value { IfOk result (λ r. (book : Book) × IsBook book
            × HoldsForExtensions book (outcome_view r)
            (λ b. meaning (F.library (functions_of context.now)) b
            (program_term self.now) (bindings_of context.now))) }
    {
        let mut book = PatternBook::new(alloc);
        self.execute_with(alloc, context, &mut book)
    }

    /// Runs the program in the context, with what the book knows of patterns. Returns what the tree
    /// means there: a value or an error. The book keeps its entries, even if memory is refused.
    ///
    /// # Errors
    /// [`Refused`] if memory is refused, or the function set refuses a call.
    pub fn execute_with<F: Functions>(
        &self,
        alloc: Global,
        context: &Context<'_, F>,
        book: &mut PatternBook,
    ) -> Result<Answer, Refused>
        ensures keeps { Extends (entries_of book.new) (entries_of book.old) }
        ensures value { IfOk result (λ r. HoldsForExtensions (entries_of book.new) (outcome_view r)
            (λ b. meaning (F.library (functions_of context.now)) b
            (program_term self.now) (bindings_of context.now))) }
    {
        run_code(alloc, self.code.as_slice(), context, book)
    }

    /// Runs the program like [`execute_with`](Program::execute_with), on stacks that are lent.
    ///
    /// # Errors
    /// [`Refused`] if memory is refused, or the function set refuses a call.
    pub fn execute_in<F: Functions>(
        &self,
        alloc: Global,
        context: &Context<'_, F>,
        book: &mut PatternBook,
        stacks: &mut Stacks,
    ) -> Result<Answer, Refused>
        ensures keeps { Extends (entries_of book.new) (entries_of book.old) }
        ensures value { IfOk result (λ r. HoldsForExtensions (entries_of book.new) (outcome_view r)
            (λ b. meaning (F.library (functions_of context.now)) b
            (program_term self.now) (bindings_of context.now))) }
    {
        run_code_in(alloc, self.code.as_slice(), context, book, stacks)
    }
}
