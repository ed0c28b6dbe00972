//! Compilers of texts.
ghost use Rattle.cel.specs.Program.{program_seen};
ghost use Rattle.cel_syntax.specs.Reading.{tree_of};
ghost use Rattle.cel_syntax.specs.Term.{Term};
ghost use Rattle.kube_types.specs.Refused.TheVariants.{Memory};
ghost use Rattle.std.specs.Prelude.{◌≡◌, IfErr, IfOk, List, Option, ℕ};

use crate::program::Program;
use cel_syntax::ParseErrors;
use cel_value::Refused;
use std::alloc::Global;

/// Compiles the texts of expressions.
///
/// `tree` is the tree that a text has, if it compiles.
pub trait Compiler {
    /// The reason why a text doesn't compile.
    type Error: Drop;

    ghost tree: { Self → List ℕ → Option Term };

    /// Compiles a text.
    ///
    /// # Errors
    /// The inner error is the reason why the text doesn't compile. The outer one is only
    /// [`Refused::Memory`], if memory is refused.
    fn compile(&self, alloc: Global, text: &str) -> Result<Result<Program, Self::Error>, Refused>
        ensures compiled { IfOk result (λ answer. program_seen answer ≡ tree self.now text.now) }
        ensures memory { IfErr result (λ e. e ≡ Memory) };
}

/// Compiles each text that derives a tree by the grammar of CEL, whatever its types are.
#[derive(Clone, Copy, Debug)]
pub struct Untyped;

impl Compiler for Untyped {
    type Error = ParseErrors;

    ghost tree = { λ _ text. tree_of text };

    fn compile(&self, alloc: Global, text: &str) -> Result<Result<Program, ParseErrors>, Refused> {
        Program::compile(alloc, text)
    }
}
