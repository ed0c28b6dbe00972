//! Evaluates expressions in the scope of a policy.
ghost use Rattle.cel.specs.Program.{program_term};
ghost use Rattle.cel.specs.Book.{Extends};
ghost use Rattle.cel.specs.Entries.{entries_of};
ghost use Rattle.cel.specs.Extensions.{HoldsForExtensions};
ghost use Rattle.cel.specs.Outcome.{Outcome, outcome_view};
ghost use Rattle.cel_value.specs.Faults.{fault_view};
ghost use Rattle.cel_syntax.specs.Term.{term};
ghost use Rattle.cel.specs.Bindings.{bindings_of};
ghost use Rattle.kube_manifests_policies.specs.Scopes.{evaluation as evaluation_of, fault_message, fault_report, first_stop, is_double, is_not_judged, outcome_in, outcome_or_reason, outcome_seen, scope_view, stops, tree_seen, tree_report, unread_report, why_not};
ghost use Rattle.kube_manifests_policies.specs.Verdicts.{ItemReportData, result_view, report_view};
ghost use Rattle.std.specs.Prelude.{◌≡◌, IfOk, map, option_map, Result, string_bytes};

use crate::verdict::{ItemReport, PolicyResult};
use cel::{
    Answer, Compiler, Context, Evaluator, ExecutionError, Expr, ParseErrors, PatternBook, Program,
    Untyped, Value,
};
use kube_functions::AllFunctions;
use kube_manifests_limits::is_limit;
use kube_manifests_names::{Input, asks, first_missing};
use kube_types::Refused;
use std::alloc::{AllocError, Global};

/// The context of a policy's expressions, which may call all functions of Kubernetes.
pub(crate) type PolicyContext<'a> = Context<'a, AllFunctions>;

/// The names and inputs that an expression of a policy sees.
#[derive(Drop)]
pub(crate) struct Scope<'a> {
    /// The bound names.
    pub(crate) context: PolicyContext<'a>,
    /// The inputs that aren't given.
    pub(crate) absent: Vec<Input>,
    /// The map of the variables that have a value.
    pub(crate) values: Value,
    /// The variables that have no value, each with the reason.
    pub(crate) missing: Vec<PolicyResult>,
}

fn is_not_judged(reported: &ItemReport) -> bool
    ensures { result ≡ is_not_judged (report_view reported.now) }
{
    match reported {
        ItemReport::True => false,
        ItemReport::False(_) => false,
        ItemReport::Text(_) => false,
        ItemReport::Null => false,
        ItemReport::Error(_) => false,
        ItemReport::NotGiven(_) => true,
        ItemReport::NotCompiled(_) => true,
    }
}

/// Reports whether a variable without a value keeps an expression from being evaluated.
fn stops(expr: &Expr, variable: &PolicyResult) -> bool
    ensures { result ≡ stops (term expr.now) (result_view variable.now) }
{
    asks(
        expr,
        "variables",
        variable.label.as_str(),
        is_not_judged(&variable.reported),
    )
}

/// The report of the first variable that keeps an expression from being evaluated, if any.
fn first_stop<'m>(missing: &'m [PolicyResult], expr: &Expr) -> Option<&'m ItemReport>
    ensures { option_map (λ t. report_view t.now) result
        ≡ first_stop (map result_view missing.now) (term expr.now) }
{
    for variable in missing {
        if stops(expr, variable) {
            return Some(&variable.reported);
        }
    }
    None
}

/// Returns the reason why an expression can't be evaluated, if there is one.
fn why_not(scope: &Scope<'_>, expr: &Expr) -> Result<Option<ItemReport>, Refused>
    ensures reported { IfOk result (λ o. option_map report_view o
        ≡ why_not (scope_view scope.now) (term expr.now)) }
{
    if let Some(input) = first_missing(scope.absent.as_slice(), expr) {
        return Ok(Some(ItemReport::NotGiven(input)));
    }
    match first_stop(scope.missing.as_slice(), expr) {
        Some(reported) => Ok(Some(reported.copy()?)),
        None => Ok(None),
    }
}

/// Executes a program under the names of a scope.
#[tactic(auto, unfolding(crate::specs::Scopes::outcome_in))]
fn outcome_of(
    alloc: Global,
    program: &Program,
    scope: &Scope<'_>,
    book: &mut PatternBook,
) -> Result<Answer, Refused>
    ensures keeps { Extends (entries_of book.new) (entries_of book.old) }
    ensures value { IfOk result (λ r. HoldsForExtensions (entries_of book.new) (outcome_view r)
        (λ b. outcome_in b (bindings_of scope.now.context) (program_term program.now))) }
{
    program.execute_with(alloc, &scope.context, book)
}

/// Executes a program in a scope. Returns the reason if it can't be evaluated there.
#[tactic(auto, unfolding(crate::specs::Scopes::outcome_or_reason))]
pub(crate) fn reach(
    alloc: Global,
    program: &Program,
    scope: &Scope<'_>,
    book: &mut PatternBook,
) -> Result<Result<Answer, ItemReport>, Refused>
    ensures keeps { Extends (entries_of book.new) (entries_of book.old) }
    ensures reached { IfOk result (λ r. HoldsForExtensions (entries_of book.new) (outcome_seen r)
        (λ b. outcome_or_reason b (scope_view scope.now) (program_term program.now))) }
{
    match why_not(scope, program.expression())? {
        Some(reported) => Ok(Err(reported)),
        None => {
            let answer = outcome_of(alloc, program, scope, book)?;
            Ok(Ok(answer))
        }
    }
}

impl Evaluator for Scope<'_> {
    type Evaluation = Result<Answer, ItemReport>;

    ghost Seen = { Result Outcome ItemReportData };

    ghost seen = { outcome_seen };

    ghost evaluation = { λ s b t. outcome_or_reason b (scope_view s) t };

    fn evaluate(
        &self,
        alloc: Global,
        program: &Program,
        book: &mut PatternBook,
    ) -> Result<Result<Answer, ItemReport>, Refused> {
        reach(alloc, program, self, book)
    }
}

/// Reports whether an expression met a double.
fn is_double(fault: &ExecutionError) -> bool
    ensures { result ≡ is_double (fault_view fault.now) }
{
    match fault {
        ExecutionError::UndeclaredReference(name) => name.as_str() == "double",
        ExecutionError::NoSuchKey(_) => false,
        ExecutionError::NoSuchOverload(_) => false,
        ExecutionError::FunctionError { .. } => false,
        ExecutionError::Overflow => false,
        ExecutionError::DivisionByZero => false,
        ExecutionError::RemainderByZero => false,
        ExecutionError::IndexOutOfBounds => false,
        ExecutionError::UnsupportedKey => false,
        ExecutionError::DuplicateKey => false,
        ExecutionError::InvalidPattern(_) => false,
    }
}

/// Returns what is said of a fault.
fn fault_message(alloc: Global, fault: &ExecutionError) -> Result<String, AllocError>
    ensures { IfOk result (λ s. string_bytes s ≡ fault_message (fault_view fault.now)) }
{
    if is_double(fault) {
        return String::from_str(alloc, "numbers of kind double aren't supported");
    }
    format!(in alloc; "evaluation error: {fault}")
}

/// Returns the report of an expression whose evaluation ended with a fault.
pub(crate) fn fault_report(alloc: Global, fault: &ExecutionError) -> Result<ItemReport, AllocError>
    ensures { IfOk result (λ t. report_view t ≡ fault_report (fault_view fault.now)) }
{
    let message = fault_message(alloc, fault)?;
    if is_limit(fault) {
        return Ok(ItemReport::NotCompiled(message));
    }
    Ok(ItemReport::Error(message))
}

/// Returns the report of an expression whose text doesn't parse.
pub(crate) fn unread_report(
    alloc: Global,
    text: &str,
    errors: &ParseErrors,
) -> Result<ItemReport, AllocError>
    ensures { IfOk result (λ t. report_view t ≡ unread_report text.now) }
{
    let message = format!(in alloc; "failed to compile VAP expression \"{text}\": {errors}")?;
    Ok(ItemReport::NotCompiled(message))
}

/// Compiles an expression. If it doesn't parse, the inner error is its report.
pub(crate) fn read(alloc: Global, text: &str) -> Result<Result<Program, ItemReport>, Refused>
    ensures read { IfOk result (λ r. tree_seen r ≡ tree_report text.now) }
{
    match Untyped.compile(alloc, text)? {
        Ok(program) => Ok(Ok(program)),
        Err(errors) => Ok(Err(unread_report(alloc, text, &errors)?)),
    }
}

/// Evaluates an expression in a scope. Returns the reason if it doesn't parse or can't be
/// evaluated.
pub(crate) fn evaluate(
    alloc: Global,
    text: &str,
    scope: &Scope<'_>,
    book: &mut PatternBook,
) -> Result<Result<Answer, ItemReport>, Refused>
    ensures keeps { Extends (entries_of book.new) (entries_of book.old) }
    ensures reached { IfOk result (λ r. HoldsForExtensions (entries_of book.new) (outcome_seen r)
        (λ b. evaluation_of (outcome_or_reason b (scope_view scope.now)) text.now)) }
{
    match read(alloc, text)? {
        Err(reported) => Ok(Err(reported)),
        Ok(program) => {
            let reached = reach(alloc, &program, scope, book);
            drop(program);
            reached
        }
    }
}
