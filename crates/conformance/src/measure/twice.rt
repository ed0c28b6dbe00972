//! Makes a run twice, with timing and a report.

use conformance_rows::Output;
use kube_cel::cel::{Answer, ParseErrors, PatternBook, Program};
use kube_cel::{
    CompiledSchema, Context, KubeCelExt, Refused, ScopeContext, Validator, VapEvaluator,
    VapExpression, analyze_rule, apply_defaults, compile_schema,
};
use serde_json::Value;
use std::alloc::Global;
use std::fmt::Debug;
use std::io;
use std::rc::Rc;
use std::time::{Duration, Instant};

/// A run, with what it works on.
#[derive(Clone, Copy)]
pub(crate) enum Run<'r, 'c> {
    /// Compiles an expression.
    Read(&'r str),
    /// Compiles and executes an expression, with all functions.
    Evaluate(&'r str),
    /// Executes a program in a context.
    Execute(&'r Program, &'r Context<'c>),
    /// Fills an object with the defaults of a schema.
    Defaults(&'r Value, &'r Value),
    /// Compiles a schema.
    Compile(&'r Value),
    /// Validates an object by a schema.
    Validate(&'r Value, &'r Value),
    /// Validates an object by a compiled schema.
    ValidateCompiled(&'r CompiledSchema, &'r Value),
    /// Analyzes a rule of a compiled schema.
    Analyze(&'r CompiledSchema, &'r str),
    /// Evaluates the expressions of a policy.
    Policy(&'r VapEvaluator, &'r [VapExpression]),
}

/// One of the two turns of a run, from its start on.
#[derive(Clone, Copy)]
struct Turn<'r> {
    rt: &'r HostRuntime,
    start: Instant,
}

impl Turn<'_> {
    /// Ends the turn with its answer: prints the answer and the time that passed before.
    fn end<T: Debug + Drop>(self, answer: Result<T, Refused>) -> io::Result<()> {
        let passed = self.start.elapsed(self.rt);
        let mut text = Output::new(self.rt.alloc());
        if let Some(answer) = text.take(answer) {
            text.debug(&answer);
        }
        self.print(&text, passed)
    }

    /// Prints the text of an answer and the time that passed.
    fn print(self, text: &Output, passed: io::Result<Duration>) -> io::Result<()> {
        let line = if text.is_stopped() {
            "refused"
        } else {
            text.as_str()
        };
        self.rt.println(line)?;
        self.rt.eprintln(passed?.as_nanos())
    }
}

/// Compiles an expression. The program stands behind an `Rc`, since the proof of each function that
/// owns a program itself takes several seconds more (docs/GATE.md).
pub(crate) fn compile(
    alloc: Global,
    text: &str,
) -> Result<Result<Rc<Program>, ParseErrors>, Refused> {
    match Program::compile(alloc, text)? {
        Ok(program) => Ok(Ok(Rc::new(alloc, program)?)),
        Err(errors) => Ok(Err(errors)),
    }
}

/// Reports whether an expression compiles.
fn is_read(alloc: Global, text: &str) -> Result<bool, Refused> {
    match compile(alloc, text) {
        Ok(read) => Ok(read.is_ok()),
        Err(refused) => Err(refused),
    }
}

/// Executes a program with all functions.
fn executed(alloc: Global, program: &Program) -> Result<Option<Answer>, Refused> {
    let context: Context<'_> = Context::default(alloc).with_all();
    match program.execute(alloc, &context) {
        Ok(answer) => Ok(Some(answer)),
        Err(refused) => Err(refused),
    }
}

/// Evaluates an expression with all functions. `None` if it doesn't parse.
pub(crate) fn evaluated(alloc: Global, text: &str) -> Result<Option<Answer>, Refused> {
    match compile(alloc, text) {
        Ok(Ok(program)) => executed(alloc, program.as_ref()),
        Ok(Err(_)) => Ok(None),
        Err(refused) => Err(refused),
    }
}

/// Compiles a schema. Returns the number of its nodes and of the errors of its root.
fn compiled(alloc: Global, schema: &Value) -> Result<(usize, usize), Refused> {
    let compiled = compile_schema(alloc, schema)?;
    match compiled.compilation_errors(alloc) {
        Ok(errors) => Ok((compiled.node_count(), errors.len())),
        Err(refused) => Err(refused),
    }
}

/// Makes one turn of a run, with a lent book of patterns.
fn make(rt: &HostRuntime, run: Run<'_, '_>, book: &mut PatternBook) -> io::Result<()> {
    let (alloc, judge) = (rt.alloc(), Validator::new());
    let start = Instant::now(rt)?;
    let turn = Turn { rt, start };
    match run {
        Run::Read(text) => turn.end(is_read(alloc, text)),
        Run::Evaluate(text) => turn.end(evaluated(alloc, text)),
        Run::Execute(program, context) => turn.end(program.execute(alloc, context)),
        Run::Defaults(schema, object) => turn.end(apply_defaults(alloc, schema, object)),
        Run::Compile(schema) => turn.end(compiled(alloc, schema)),
        Run::Validate(schema, object) => {
            turn.end(judge.validate_in(alloc, schema, object, None, None, book))
        }
        Run::ValidateCompiled(schema, object) => {
            turn.end(judge.validate_compiled_in(alloc, schema, object, None, None, book))
        }
        Run::Analyze(schema, rule) => {
            turn.end(analyze_rule(alloc, rule, schema, ScopeContext::CrdValidation))
        }
        Run::Policy(evaluator, expressions) => turn.end(evaluator.evaluate(alloc, expressions)),
    }
}

/// Makes a run twice, with one book of patterns lent to both. Prints the result of each and the
/// time it took.
pub(crate) fn make_twice(rt: &HostRuntime, run: Run<'_, '_>) -> io::Result<()> {
    let mut book = PatternBook::new(rt.alloc());
    make(rt, run, &mut book)?;
    make(rt, run, &mut book)
}
