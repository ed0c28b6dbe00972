//! The verdicts of rules whose names are bound.
ghost use Rattle.cel.specs.Checks.{false_message, judgement, judgement_view};
ghost use Rattle.cel.specs.Book.{Extends, Book};
ghost use Rattle.cel.specs.Entries.{entries_of};
ghost use Rattle.cel.specs.Bindings.{binding, bindings_of, functions_of};
ghost use Rattle.cel.specs.Outcome.{outcome_view};
ghost use Rattle.cel_value.specs.View.{view as cel_view};
ghost use Rattle.kube_cel_walk.specs.Errors.{error_view};
ghost use Rattle.kube_cel_walk.specs.Paths.{path_view};
ghost use Rattle.kube_cel_walk.specs.Roots.{root_view};
ghost use Rattle.kube_cel_walk.specs.RuleErrors.{failed_rule, malformed_error};
ghost use Rattle.kube_cel_walk.specs.AddedErrors.{AreAdded, is_true};
ghost use Rattle.kube_cel_walk.specs.Verdicts.{bound_verdict, compiled_verdict, is_applicable, is_old_optional, judged_error, list_of_option, optional_old_at, outcome_in, own_message, verdict, with_old, with_root};
ghost use Rattle.kube_cel_walk.specs.Visits.{visit_at};
ghost use Rattle.kube_schema_rules.specs.Compilation.{compiled_seen, error_view as malformed_view, result_view};
ghost use Rattle.kube_schema_rules.specs.Rules.{rule_view};
ghost use Rattle.serde_json.specs.View.{view};
ghost use Rattle.std.specs.List.{flat_map};
ghost use Rattle.std.specs.Prelude.{◌≡◌, ◌++◌, ◌∷◌, [], codes, IfErr, IfOk, List, map, OnOk, option_map, string_bytes, ℕ};

use crate::error::ValidationError;
use crate::node::Node;
use crate::path::Path;
use crate::root::RootContext;
use crate::rule_error::{failed_rule_error, fault_error, malformed_error, no_bool_error};
use crate::state::WalkState;
use cel::{Answer, Context, Functions, Judgement, PatternBook, Stacks, judge, message_text};
use cel_value::Value as CelValue;
use kube_schema_rules::{CompilationError, CompilationResult, Rule};
use kube_schema_values::bind_text;
use kube_types::Refused;
use serde_json::Value;
use std::alloc::{AllocError, Global};

/// Binds `apiVersion`, `apiGroup` and `kind`, if there is a root context.
///
/// # Errors
///
/// [`Refused`] if memory is refused.
pub fn bind_root<F: Functions>(
    alloc: Global,
    context: &mut Context<'_, F>,
    root: Option<&RootContext>,
) -> Result<(), Refused>
    ensures bound { OnOk result ((x : List ℕ) → binding x (bindings_of context.new)
        ≡ binding x (with_root (option_map (λ r. root_view r.now) root.entry) (bindings_of context.old))) }
    ensures memory { IfErr result (λ e. e ≡ Refused.Memory) }
{
    let Some(root) = root else {
        return Ok(());
    };
    context.add_variable("apiVersion", bind_text(alloc, root.api_version.as_str())?)?;
    context.add_variable("apiGroup", bind_text(alloc, root.api_group.as_str())?)?;
    context.add_variable("kind", bind_text(alloc, root.kind.as_str())?)?;
    Ok(())
}

/// Reports whether a rule applies at a place: a transition rule
/// needs an old value there, unless it sets `optionalOldSelf`.
fn is_applicable(rule: &CompilationResult, old: Option<&Value>) -> bool
    ensures { result ≡ is_applicable (option_map (λ v. view v.now) old.entry) (result_view rule.now) }
{
    !rule.is_transition_rule || old.is_some() || is_old_optional(&rule.rule)
}

/// Reports whether a rule sets `optionalOldSelf`.
fn is_old_optional(rule: &Rule) -> bool
    ensures { result ≡ is_old_optional (rule_view rule.now) }
{
    rule.optional_old_self == Some(true)
}

/// Returns a rule's `message` or, if it has none, a message made of its text.
fn own_message(alloc: Global, rule: &Rule) -> Result<String, AllocError>
    ensures { IfOk result (λ s. string_bytes s ≡ own_message (rule_view rule.now)) }
{
    if let Some(message) = &rule.message {
        return String::from_str(alloc, message.as_str());
    }
    let text = rule.rule.as_str();
    format!(in alloc; "failed rule: {text}")
}

/// Returns the message of a rule that is false: the string that its
/// messageExpression evaluated to, if it did, else its own message.
fn false_message(
    alloc: Global,
    rule: &Rule,
    evaluated: &Option<Answer>,
) -> Result<String, AllocError>
    ensures { IfOk result (λ s. string_bytes s
        ≡ false_message (own_message (rule_view rule.now)) (option_map outcome_view evaluated.now)) }
{
    match message_text(evaluated) {
        Some(text) => String::from_str(alloc, text),
        None => own_message(alloc, rule),
    }
}

/// Returns the error of a rule that is false, given what its messageExpression evaluated to.
fn false_error(
    alloc: Global,
    rule: &Rule,
    evaluated: &Option<Answer>,
    path: &Path<'_>,
) -> Result<ValidationError, AllocError>
    ensures { IfOk result (λ e. error_view e ≡ failed_rule (path_view path.now) (rule_view rule.now)
        (false_message (own_message (rule_view rule.now)) (option_map outcome_view evaluated.now))) }
{
    let message = false_message(alloc, rule, evaluated)?;
    failed_rule_error(alloc, rule, message, path)
}

/// Returns the error of a rule by what it is judged to be; None if it is true.
fn judged_error(
    alloc: Global,
    rule: &Rule,
    judgement: Judgement<Answer>,
    path: &Path<'_>,
) -> Result<Option<ValidationError>, AllocError>
    ensures { IfOk result (λ o. option_map error_view o ≡ judged_error (path_view path.now)
        (rule_view rule.now) (judgement_view outcome_view judgement)) }
{
    let error = match judgement {
        Judgement::True => return Ok(None),
        Judgement::False(evaluated) => false_error(alloc, rule, &evaluated, path),
        Judgement::NotBool(_) => no_bool_error(alloc, rule, path),
        Judgement::Error(fault) => fault_error(alloc, rule, fault, path),
    };
    Ok(Some(error?))
}

/// Appends an error, if there is one.
fn push_listed(
    error: Option<ValidationError>,
    errors: &mut Vec<ValidationError>,
) -> Result<(), AllocError>
    ensures { OnOk result (map error_view errors.new.items
        ≡ map error_view errors.old.items ++ list_of_option (option_map error_view error)) }
{
    let Some(error) = error else {
        return Ok(());
    };
    errors.push(error)?;
    Ok(())
}

/// Appends the error of a rule by its outcome in this context, if it has one.
#[inline(never)]
#[tactic(auto, unfolding(crate::specs::Verdicts::outcome_in))]
fn add_by_outcome<F: Functions>(
    rule: &CompilationResult,
    outcome: Answer,
    context: &Context<'_, F>,
    path: &Path<'_>,
    book: &mut PatternBook,
    errors: &mut Vec<ValidationError>,
) -> Result<(), Refused>
    ensures keeps { (b : Book) → Extends b (entries_of book.new) → Extends b (entries_of book.old) }
    ensures found { OnOk result (AreAdded (entries_of book.new) errors.old.items errors.new.items
        (λ b. list_of_option (judged_error (path_view path.now) (rule_view rule.now.rule)
        (judgement (option_map (outcome_in (F.library (functions_of context.now)) b (bindings_of context.now))
        (result_view rule.now).message_tree) (outcome_view outcome))))) }
{
    let alloc = *errors.allocator();
    let judgement = judge(alloc, outcome, &rule.message_program, context, book)?;
    let error = judged_error(alloc, &rule.rule, judgement, path)?;
    push_listed(error, errors)?;
    Ok(())
}

/// Reports whether an outcome is true.
fn is_true(outcome: &Answer) -> bool
    ensures { result ≡ is_true (outcome_view outcome.now) }
{
    match outcome {
        Ok(value) => value.as_bool() == Some(true),
        Err(_) => false,
    }
}

/// Evaluates a rule in a context that binds its names. Appends its error, unless the rule is true.
#[inline(always)]
fn add_where_bound<F: Functions>(
    rule: &CompilationResult,
    context: &Context<'_, F>,
    path: &Path<'_>,
    book: &mut PatternBook,
    stacks: &mut Stacks,
    errors: &mut Vec<ValidationError>,
) -> Result<(), Refused>
    ensures keeps { (b : Book) → Extends b (entries_of book.new) → Extends b (entries_of book.old) }
    ensures found { OnOk result (AreAdded (entries_of book.new) errors.old.items errors.new.items
        (λ b. list_of_option (bound_verdict (F.library (functions_of context.now)) b
        (bindings_of context.now) (path_view path.now) (result_view rule.now)))) }
{
    let outcome = rule
        .program
        .execute_in(*errors.allocator(), context, book, stacks)?;
    if is_true(&outcome) {
        return Ok(());
    }
    add_by_outcome(rule, outcome, context, path, book, errors)?;
    Ok(())
}

/// Evaluates a rule like [`add_where_bound`], with `oldSelf` bound to this value.
#[inline(never)]
fn add_with_old<F: Functions>(
    rule: &CompilationResult,
    context: &Context<'_, F>,
    old: CelValue,
    path: &Path<'_>,
    book: &mut PatternBook,
    stacks: &mut Stacks,
    errors: &mut Vec<ValidationError>,
) -> Result<(), Refused>
    ensures keeps { (b : Book) → Extends b (entries_of book.new) → Extends b (entries_of book.old) }
    ensures found { OnOk result (AreAdded (entries_of book.new) errors.old.items errors.new.items
        (λ b. list_of_option (bound_verdict (F.library (functions_of context.now)) b
        ((codes "oldSelf", cel_view old) ∷ bindings_of context.now) (path_view path.now) (result_view rule.now)))) }
{
    let mut inner = context.new_inner_scope();
    inner.add_variable("oldSelf", old)?;
    add_where_bound(rule, &inner, path, book, stacks, errors)?;
    Ok(())
}

/// Evaluates a rule that sets `optionalOldSelf` like [`add_where_bound`], with `oldSelf` bound as in such rules.
#[inline(never)]
fn add_where_optional<N: Node>(
    rule: &CompilationResult,
    context: &Context<'_, N::FunctionSet>,
    state: &WalkState<'_, N>,
    path: &Path<'_>,
    book: &mut PatternBook,
    stacks: &mut Stacks,
    errors: &mut Vec<ValidationError>,
) -> Result<(), Refused>
    ensures keeps { (b : Book) → Extends b (entries_of book.new) → Extends b (entries_of book.old) }
    ensures found { OnOk result (AreAdded (entries_of book.new) errors.old.items errors.new.items
        (λ b. list_of_option (bound_verdict N.form.library b
        (with_old (optional_old_at N.form (visit_at N.seen state.now (path_view path.now))) (bindings_of context.now))
        (path_view path.now) (result_view rule.now)))) }
{
    let alloc = *errors.allocator();
    match state.node.optional_old(alloc, state.old, state.depth)? {
        Some(old) => {
            add_with_old(rule, context, old, path, book, stacks, errors)?;
            Ok(())
        }
        None => {
            add_where_bound(rule, context, path, book, stacks, errors)?;
            Ok(())
        }
    }
}

/// Appends the verdict of a compiled rule in this context, which
/// binds the names that all rules at the place share.
fn add_compiled<N: Node>(
    rule: &CompilationResult,
    context: &Context<'_, N::FunctionSet>,
    state: &WalkState<'_, N>,
    path: &Path<'_>,
    book: &mut PatternBook,
    stacks: &mut Stacks,
    errors: &mut Vec<ValidationError>,
) -> Result<(), Refused>
    ensures keeps { (b : Book) → Extends b (entries_of book.new) → Extends b (entries_of book.old) }
    ensures found { OnOk result (AreAdded (entries_of book.new) errors.old.items errors.new.items
        (λ b. list_of_option (compiled_verdict N.form b (bindings_of context.now)
        (visit_at N.seen state.now (path_view path.now)) (result_view rule.now)))) }
{
    if !is_applicable(rule, state.old) {
        return Ok(());
    }
    if is_old_optional(&rule.rule) {
        add_where_optional(rule, context, state, path, book, stacks, errors)?;
        return Ok(());
    }
    add_where_bound(rule, context, path, book, stacks, errors)?;
    Ok(())
}

/// Appends the error of a malformed rule.
#[inline(never)]
fn add_malformed(
    error: &CompilationError,
    path: &Path<'_>,
    errors: &mut Vec<ValidationError>,
) -> Result<(), Refused>
    ensures { OnOk result (map error_view errors.new.items
        ≡ map error_view errors.old.items ++ malformed_error (path_view path.now) (malformed_view error.now) ∷ []) }
{
    let error = malformed_error(*errors.allocator(), error, path)?;
    errors.push(error)?;
    Ok(())
}

/// Appends the verdict of a rule at a place in this context, if it is an error. The context binds
/// the names that all rules there share. The rule runs on `stacks`.
///
/// # Errors
///
/// [`Refused`] if memory is refused, or a URL that a rule reads is too large.
pub fn add_verdict<N: Node>(
    rule: &Result<CompilationResult, CompilationError>,
    context: &Context<'_, N::FunctionSet>,
    state: &WalkState<'_, N>,
    path: &Path<'_>,
    book: &mut PatternBook,
    stacks: &mut Stacks,
    errors: &mut Vec<ValidationError>,
) -> Result<(), Refused>
    ensures keeps { (b : Book) → Extends b (entries_of book.new) → Extends b (entries_of book.old) }
    ensures found { OnOk result (AreAdded (entries_of book.new) errors.old.items errors.new.items
        (λ b. list_of_option (verdict N.form b (bindings_of context.now)
        (visit_at N.seen state.now (path_view path.now)) (compiled_seen rule.now)))) }
{
    match rule {
        Err(error) => {
            add_malformed(error, path, errors)?;
            Ok(())
        }
        Ok(rule) => {
            add_compiled(rule, context, state, path, book, stacks, errors)?;
            Ok(())
        }
    }
}

/// Appends the verdicts of rules at a place in this context, in order, like [`add_verdict`].
///
/// # Errors
///
/// [`Refused`] if memory is refused, or a URL that a rule reads is too large.
pub fn add_verdicts<N: Node>(
    rules: &[Result<CompilationResult, CompilationError>],
    context: &Context<'_, N::FunctionSet>,
    state: &WalkState<'_, N>,
    path: &Path<'_>,
    book: &mut PatternBook,
    stacks: &mut Stacks,
    errors: &mut Vec<ValidationError>,
) -> Result<(), Refused>
    ensures keeps { (b : Book) → Extends b (entries_of book.new) → Extends b (entries_of book.old) }
    ensures found { OnOk result (AreAdded (entries_of book.new) errors.old.items errors.new.items
        (λ b. flat_map (λ r. list_of_option (verdict N.form b (bindings_of context.now)
        (visit_at N.seen state.now (path_view path.now)) (compiled_seen r))) rules.now)) }
{
    for rule in rules {
        add_verdict(rule, context, state, path, book, stacks, errors)?;
    }
    Ok(())
}
