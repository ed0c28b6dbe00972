//! Parses CEL expressions, compiles them to flat code and runs the code.
//!
//! [`Program::compile`] parses and compiles an expression, and [`Program::execute`] runs it in a
//! [`Context`], which holds the variables and the set of functions. Both calls return nested
//! results: the outer error says that memory was refused, the inner result is the outcome.
//!
//! ```rust
//! use cel::{Answer, Context, Program, Refused, StandardFunctions, Value};
//! use std::alloc::Global;
//!
//! /// Evaluates an expression with `n` bound to 3. Returns `None` if it can't be parsed.
//! fn evaluated(alloc: Global, text: &str) -> Result<Option<Answer>, Refused> {
//!     let Ok(program) = Program::compile(alloc, text)? else {
//!         return Ok(None);
//!     };
//!     let mut context: Context<'_, StandardFunctions> = Context::default(alloc);
//!     context.add_variable("n", Value::Int(3))?;
//!     Ok(Some(program.execute(alloc, &context)?))
//! }
//! ```
//!
//! A [`PatternBook`] remembers what `regex` answered to each pattern. Calls that share one treat
//! every pattern alike.
//!
//! Proved: the tree of a program is the one that its text derives, and an execution ends with what
//! that tree means (`Meaning.antt` of `cel_semantics`) under the context's variables and functions,
//! for every set of functions that keeps the law of [`Functions`]. There is no evaluator of trees:
//! that running the code ends with the tree's meaning is a theorem.
#![tactic(auto)]

pub mod check;
pub mod compiler;
pub mod evaluator;
pub mod laws;
pub mod program;

pub use cel_patterns::PatternBook;
pub use cel_semantics::{Answer, Context, Form, Functions};
pub use cel_stdlib::StandardFunctions;
pub use cel_syntax::{
    BinaryOperator, Expr, MacroKind, ParseErrors, References, UnaryOperator, laws as syntax_laws,
};
pub use cel_value::{
    Duration, Entries, ExecutionError, Key, Kind, List, MAX_VALUE_LEVELS, Map, OptionalValue,
    Refused, Text, Timestamp, Value, laws as value_laws,
};
pub use cel_vm::{Stacks, run_code};
pub use cel_vm_code::{Instr, Operation, Test};
pub use check::{Check, CheckError, Judgement, judge, message_text};
pub use compiler::{Compiler, Untyped};
pub use evaluator::Evaluator;
pub use kube_types::{
    FormatKind, IntegerError, KubeCIDR, KubeFormat, KubeIP, KubeQuantity, KubeSemver, KubeUrl,
};
pub use program::Program;
