//! Checks: expressions that have to be true, each of which may have another for the message if it
//! is false. Kubernetes has them as the rules of a schema and the validations of a policy.
ghost use Rattle.cel.specs.Checks.{check_seen, judgement, judgement_view, message_text, value_judgement, with_tree, trees_of};
ghost use Rattle.cel.specs.Program.{program_term};
ghost use Rattle.cel_patterns.specs.Book.{Extends};
ghost use Rattle.cel_patterns.specs.Entries.{entries_of};
ghost use Rattle.cel_patterns.specs.Extensions.{HoldsForExtensions};
ghost use Rattle.cel_semantics.specs.Outcome.{outcome_view};
ghost use Rattle.kube_types.specs.Refused.TheVariants.{Memory};
ghost use Rattle.std.specs.Prelude.{◌≡◌, IfErr, IfOk, option_and_then, option_map};

use crate::compiler::Compiler;
use crate::evaluator::Evaluator;
use crate::program::Program;
use cel_patterns::PatternBook;
use cel_semantics::Answer;
use cel_syntax_ast::both;
use cel_value::{ExecutionError, Kind, Refused};
use std::alloc::Global;

/// The programs of a check.
#[derive(Debug, Drop)]
pub struct Check {
    /// The program of the expression that has to be true.
    pub program: Program,
    /// The program of the expression for its message, if it has one.
    pub message_program: Option<Program>,
}

/// The reason why a check doesn't compile: that of the first of its texts that doesn't.
#[derive(Debug, Drop)]
pub enum CheckError<'t, E> {
    /// The expression doesn't compile.
    Expression(E),
    /// The messageExpression, which is this text, doesn't compile.
    MessageExpression(&'t str, E),
}

/// What a check is judged to be.
#[derive(Debug, Drop)]
pub enum Judgement<M> {
    /// The expression is true.
    True,
    /// The expression is false. This is what its messageExpression evaluated to, if it has one.
    False(Option<M>),
    /// The value of the expression isn't a bool, but of this kind.
    NotBool(Kind),
    /// The evaluation of the expression failed.
    Error(ExecutionError),
}

impl Check {
    /// Compiles the texts of a check, first that of its expression.
    ///
    /// # Errors
    /// The inner error is the reason why the first text that doesn't compile doesn't. The outer one is
    /// only [`Refused::Memory`], if memory is refused.
    pub fn compile<'t, C: Compiler>(
        alloc: Global,
        compiler: &C,
        text: &str,
        message: Option<&'t str>,
    ) -> Result<Result<Check, CheckError<'t, C::Error>>, Refused>
        ensures compiled { IfOk result (λ r. check_seen r
            ≡ trees_of (C.tree compiler.now) text.now (option_map (λ m. m.now) message.entry)) }
        ensures memory { IfErr result (λ e. e ≡ Memory) }
    {
        match compiler.compile(alloc, text)? {
            Err(error) => Ok(Err(CheckError::Expression(error))),
            Ok(program) => with_message(alloc, compiler, program, message),
        }
    }
}

/// Compiles the messageExpression, if there is one, of a check whose expression has this program.
fn with_message<'t, C: Compiler>(
    alloc: Global,
    compiler: &C,
    program: Program,
    message: Option<&'t str>,
) -> Result<Result<Check, CheckError<'t, C::Error>>, Refused>
    ensures compiled { IfOk result (λ r. check_seen r
        ≡ with_tree (C.tree compiler.now) (option_map (λ m. m.now) message.entry) (program_term program)) }
    ensures memory { IfErr result (λ e. e ≡ Memory) }
{
    let Some(text) = message else {
        return Ok(Ok(Check {
            program,
            message_program: None,
        }));
    };
    let (compiled, program) = both(compiler.compile(alloc, text), Ok(program))?;
    match compiled {
        Err(error) => Ok(Err(CheckError::MessageExpression(text, error))),
        Ok(message_program) => Ok(Ok(Check {
            program,
            message_program: Some(message_program),
        })),
    }
}

/// Evaluates a messageExpression, if there is one.
fn evaluated<E: Evaluator>(
    alloc: Global,
    program: &Option<Program>,
    evaluator: &E,
    book: &mut PatternBook,
) -> Result<Option<E::Evaluation>, Refused>
    ensures keeps { Extends (entries_of book.new) (entries_of book.old) }
    ensures value { IfOk result (λ o. HoldsForExtensions (entries_of book.new) (option_map E.seen o)
        (λ b. option_map (E.evaluation evaluator.now b) (option_map program_term program.now))) }
{
    match program {
        Some(program) => Ok(Some(evaluator.evaluate(alloc, program, book)?)),
        None => Ok(None),
    }
}

/// Judges a value of this kind, which is this bool, if it is one.
fn judge_value<E: Evaluator>(
    alloc: Global,
    value: Option<bool>,
    kind: Kind,
    message_program: &Option<Program>,
    evaluator: &E,
    book: &mut PatternBook,
) -> Result<Judgement<E::Evaluation>, Refused>
    ensures keeps { Extends (entries_of book.new) (entries_of book.old) }
    ensures judged { IfOk result (λ j. HoldsForExtensions (entries_of book.new) (judgement_view E.seen j)
        (λ b. value_judgement
        (option_map (E.evaluation evaluator.now b) (option_map program_term message_program.now))
        kind value)) }
{
    match value {
        Some(true) => Ok(Judgement::True),
        Some(false) => {
            let message = evaluated(alloc, message_program, evaluator, book)?;
            Ok(Judgement::False(message))
        }
        None => Ok(Judgement::NotBool(kind)),
    }
}

/// Judges a check by the outcome of its expression. Evaluates the messageExpression if the expression
/// is false. The book keeps its entries, even if memory is refused.
///
/// # Errors
/// [`Refused`] if the evaluator refuses the messageExpression.
pub fn judge<E: Evaluator>(
    alloc: Global,
    outcome: Answer,
    message_program: &Option<Program>,
    evaluator: &E,
    book: &mut PatternBook,
) -> Result<Judgement<E::Evaluation>, Refused>
    ensures keeps { Extends (entries_of book.new) (entries_of book.old) }
    ensures judged { IfOk result (λ j. HoldsForExtensions (entries_of book.new) (judgement_view E.seen j)
        (λ b. judgement
        (option_map (E.evaluation evaluator.now b) (option_map program_term message_program.now))
        (outcome_view outcome))) }
{
    match outcome {
        Err(error) => Ok(Judgement::Error(error)),
        Ok(value) => {
            let (truth, kind) = (value.as_bool(), value.type_of());
            drop(value);
            judge_value(alloc, truth, kind, message_program, evaluator, book)
        }
    }
}

/// The string that a messageExpression evaluated to, if it did.
pub fn message_text(evaluated: &Option<Answer>) -> Option<&str>
    ensures { option_map (λ s. s.now) result
        ≡ option_and_then message_text (option_map outcome_view evaluated.now) }
{
    match evaluated {
        Some(Ok(value)) => value.as_str(),
        Some(Err(_)) => None,
        None => None,
    }
}
