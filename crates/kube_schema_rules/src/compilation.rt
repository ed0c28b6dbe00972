//! Compilation of rules.
ghost use Rattle.std.specs.Prelude.{◌≡◌, IfErr, IfOk, map, option_map};
ghost use Rattle.serde_json.specs.View.{view};
ghost use Rattle.kube_schema_rules.specs.Rules.{rule_view, rule_items};
ghost use Rattle.cel.specs.Checks as check;
ghost use Rattle.cel.specs.Checks.{check_view, trees_of};
ghost use Rattle.cel.specs.Program.{program_term};
ghost use Rattle.cel_syntax.specs.Term.{term};
ghost use Rattle.kube_schema_rules.specs.Compilation.{check_seen, compile_result_by, compiled_seen, compiled_rule, compiled_rule_by, compiled_rules, compiled_rules_by, error_view, result_view, trees_in, unread_in, with_trees};

use crate::compiler::RuleCompiler;
use crate::demands::text_demands;
use crate::result::CompilationResult;
use crate::rule::{Rule, RuleFault, rule_values};
use cel::{Check, CheckError, Compiler, Expr, ParseErrors, Program, Untyped};
use cel_syntax_ast::both;
use kube_types::Refused;
use serde_json::Value;
use std::alloc::{AllocError, Global};
use std::fmt;

/// The reason why a rule doesn't compile.
#[derive(Debug, Drop)]
pub enum CompilationError {
    /// The text of the rule doesn't parse as CEL.
    Parse {
        /// The text.
        rule: String,
        /// The parse errors.
        source: ParseErrors,
    },
    /// The messageExpression of the rule doesn't parse as CEL.
    MessageExpressionParse {
        /// The text of the rule.
        rule: String,
        /// The messageExpression.
        message_expression: String,
        /// The parse errors.
        source: ParseErrors,
    },
    /// The JSON value isn't a rule.
    InvalidRule(RuleFault),
    /// The schema goes on past the maximum depth. No JSON value of a rule gives this error.
    SchemaTooDeep {
        /// The depth of the node.
        depth: usize,
    },
}

impl fmt::Display for CompilationError {
    ghost use Rattle.std.specs.Prelude.{Some};
    ghost use Rattle.kube_schema_rules.specs.Compilation.{error_view, error_text};

    ghost output = { λ e. Some (error_text (error_view e)) };

    fn fmt<W: fmt::Write>(&self, f: &mut fmt::Formatter<W>) -> fmt::Result {
        match self {
            CompilationError::Parse { rule, source } => {
                write!(f, "failed to compile CEL rule \"{rule}\": {source}")
            }
            CompilationError::MessageExpressionParse {
                rule,
                message_expression,
                source,
            } => {
                write!(
                    f,
                    "failed to compile messageExpression \"{message_expression}\" for rule \"{rule}\": {source}"
                )
            }
            CompilationError::InvalidRule(fault) => write!(f, "invalid rule definition: {fault}"),
            CompilationError::SchemaTooDeep { depth } => {
                write!(f, "schema nesting depth {depth} exceeds the maximum of 64")
            }
        }
    }
}

/// Parses a rule and compiles its texts. Returns the first fault: that of the
/// rule's fields, else that of its text, else that of its messageExpression.
///
/// # Errors
///
/// [`Refused`] if memory is refused.
pub fn compile_rule(
    alloc: Global,
    value: &Value,
) -> Result<Result<CompilationResult, CompilationError>, Refused>
    ensures rule { IfOk result (λ r. compiled_seen r ≡ compiled_rule (view value.now)) }
    ensures memory { IfErr result (λ e. e ≡ Refused.Memory) }
{
    compile_rule_by(alloc, &Untyped, value)
}

/// Parses a rule and compiles it by this compiler, like [`compile_rule`].
///
/// # Errors
///
/// [`Refused`] if memory is refused.
#[tactic(auto, unfolding(crate::specs::Compilation::compiled_rule_by))]
pub fn compile_rule_by<C: RuleCompiler>(
    alloc: Global,
    compiler: &C,
    value: &Value,
) -> Result<Result<CompilationResult, CompilationError>, Refused>
    ensures rule { IfOk result (λ r. compiled_seen r ≡ compiled_rule_by (C.compiled compiler.now) (view value.now)) }
    ensures memory { IfErr result (λ e. e ≡ Refused.Memory) }
{
    match Rule::from_json(alloc, value)? {
        Err(fault) => Ok(Err(CompilationError::InvalidRule(fault))),
        Ok(rule) => compiler.compile(alloc, rule),
    }
}

/// Parses and compiles the rules of a schema's node, in order.
///
/// # Errors
///
/// [`Refused`] if memory is refused.
pub fn rules_of(
    alloc: Global,
    schema: &Value,
) -> Result<Vec<Result<CompilationResult, CompilationError>>, Refused>
    ensures rules { IfOk result (λ v. map compiled_seen v.items
        ≡ compiled_rules (rule_items (view schema.now))) }
    ensures memory { IfErr result (λ e. e ≡ Refused.Memory) }
{
    rules_by(alloc, &Untyped, schema)
}

/// Parses and compiles the rules of a schema's node, in order, each by this compiler.
///
/// # Errors
///
/// [`Refused`] if memory is refused.
pub fn rules_by<C: RuleCompiler>(
    alloc: Global,
    compiler: &C,
    schema: &Value,
) -> Result<Vec<Result<CompilationResult, CompilationError>>, Refused>
    ensures rules { IfOk result (λ v. map compiled_seen v.items
        ≡ compiled_rules_by (C.compiled compiler.now) (rule_items (view schema.now))) }
    ensures memory { IfErr result (λ e. e ≡ Refused.Memory) }
{
    let values = rule_values(schema);
    let mut rules = Vec::with_capacity(alloc, values.len())?;
    for value in values {
        rules.push(compile_rule_by(alloc, compiler, value)?)?;
    }
    Ok(rules)
}

/// Compiles the texts of a rule by this compiler of texts. Returns the fault of the first that doesn't
/// compile: the text of the rule, else its messageExpression.
///
/// # Errors
///
/// [`Refused`] if memory is refused.
#[tactic(auto, unfolding(crate::specs::Compilation::compile_result_by))]
pub fn compile_texts<C: Compiler>(
    alloc: Global,
    compiler: &C,
    rule: Rule,
) -> Result<Result<CompilationResult, CompilationError>, Refused>
    ensures rule { IfOk result (λ r. compiled_seen r ≡ compile_result_by (C.tree compiler.now) (rule_view rule)) }
    ensures memory { IfErr result (λ e. e ≡ Refused.Memory) }
{
    let (check, rule) = both(check_of(alloc, compiler, &rule), Ok(rule))?;
    match check {
        Err(error) => Ok(Err(error)),
        Ok(check) => Ok(Ok(with_check(alloc, rule, check)?)),
    }
}

// The programs of a rule's texts.
fn check_of<C: Compiler>(
    alloc: Global,
    compiler: &C,
    rule: &Rule,
) -> Result<Result<Check, CompilationError>, Refused>
    ensures check { IfOk result (λ r. check_seen r ≡ trees_in (rule_view rule.now)
        (trees_of (C.tree compiler.now) (rule_view rule.now).rule (rule_view rule.now).message_expression)) }
    ensures memory { IfErr result (λ e. e ≡ Refused.Memory) }
{
    let text = rule.rule.as_str();
    let message = rule.message_expression.as_deref();
    match Check::compile(alloc, compiler, text, message)? {
        Ok(check) => Ok(Ok(check)),
        Err(error) => Ok(Err(unread_error(alloc, rule, error)?)),
    }
}

// Returns the error of a rule one of whose texts doesn't parse. It has the text, and not the reason of the compiler.
fn unread_error<E: Drop>(
    alloc: Global,
    rule: &Rule,
    error: CheckError<'_, E>,
) -> Result<CompilationError, AllocError>
    ensures { IfOk result (λ e. error_view e ≡ unread_in (rule_view rule.now) (check.error_view error.entry)) }
{
    match error {
        CheckError::Expression(_) => Ok(CompilationError::Parse {
            rule: rule.rule.clone()?,
            source: ParseErrors,
        }),
        CheckError::MessageExpression(message, _) => Ok(CompilationError::MessageExpressionParse {
            rule: rule.rule.clone()?,
            message_expression: String::from_str(alloc, message)?,
            source: ParseErrors,
        }),
    }
}

// Returns a rule with the programs of its texts.
fn with_check(alloc: Global, rule: Rule, check: Check) -> Result<CompilationResult, AllocError>
    ensures rule { IfOk result (λ r. result_view r ≡ with_trees (rule_view rule) (check_view check)) }
{
    let is_transition_rule = check.program.expression().has_free_name("oldSelf");
    let message = expression_of(&check.message_program);
    let demands = text_demands(alloc, check.program.expression(), message)?;
    let Check {
        program,
        message_program,
    } = check;
    Ok(CompilationResult {
        program,
        rule,
        is_transition_rule,
        message_program,
        demands,
    })
}

// The expression of a program, if there is one.
fn expression_of(program: &Option<Program>) -> Option<&Expr>
    ensures { option_map (λ e. term e.now) result ≡ option_map program_term program.now }
{
    match program {
        Some(program) => Some(program.expression()),
        None => None,
    }
}
