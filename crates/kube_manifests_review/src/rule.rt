//! Adds the candidate findings of the rules of a schema.
ghost use Rattle.std.specs.Prelude.{◌≡◌, OnOk, map, option_map, string_bytes};
ghost use Rattle.cel.specs.Program.{program_term};
ghost use Rattle.cel_syntax.specs.Term.{term};
ghost use Rattle.kube_manifests_review.specs.Calls.{text_view};
ghost use Rattle.kube_manifests_review.specs.Candidates.{AddsCandidates};
ghost use Rattle.kube_manifests_review.specs.Keywords.{keys_candidates};
ghost use Rattle.kube_manifests_documents.specs.Pointers.{index_pointer};
ghost use Rattle.kube_manifests_review.specs.Rules as spec;
ghost use Rattle.kube_manifests_review.specs.Rules.{tree_candidates};
ghost use Rattle.kube_schema.specs.Compilation.{compiled_seen, result_view};
ghost use Rattle.serde_json.specs.View.{items_view, view};

use crate::candidate::{Candidate, Condition};
use crate::finding::ReviewKind;
use crate::keyword::{RULE_FIELDS, add_keys};
use crate::message::is_no_string;
use crate::node::add_tree;
use crate::text::{Text, add_candidate, add_unconditional};
use cel::Program;
use cel_syntax::Expr;
use kube_manifests_documents::{index_pointer, keyword_pointer};
use kube_schema::{CompilationError, CompilationResult, compile_rule};
use kube_types::Refused;
use serde_json::Value;
use std::alloc::{AllocError, Global};
use std::rc::Rc;

/// Adds a candidate if a messageExpression obviously doesn't evaluate to a string.
fn add_kind(
    alloc: Global,
    text: Text<'_>,
    tree: &Expr,
    candidates: &mut Vec<Candidate>,
) -> Result<(), AllocError>
    ensures { OnOk result (AddsCandidates candidates.old.items candidates.new.items
        (spec.kind_candidates (text_view text.entry) (term tree.now))) }
{
    if !is_no_string(tree) {
        return Ok(());
    }
    let message = String::from_str(alloc, "messageExpression doesn't return a string")?;
    add_candidate(
        alloc,
        text,
        ReviewKind::Message,
        message,
        Condition::Always,
        candidates,
    )?;
    Ok(())
}

/// Adds the candidates of a messageExpression, if there is one.
fn add_message(
    alloc: Global,
    text: Text<'_>,
    program: &Option<Program>,
    candidates: &mut Vec<Candidate>,
) -> Result<(), AllocError>
    ensures { OnOk result (AddsCandidates candidates.old.items candidates.new.items
        (spec.message_candidates (text_view text.entry) (option_map program_term program.now))) }
{
    let Some(program) = program else {
        return Ok(());
    };
    let tree = program.expression();
    add_tree(alloc, text, tree, candidates)?;
    add_kind(alloc, text, tree, candidates)
}

/// Adds the candidates of a rule's own expression.
fn add_text(
    alloc: Global,
    pointer: &str,
    rule: &Rc<String>,
    tree: &Expr,
    candidates: &mut Vec<Candidate>,
) -> Result<(), AllocError>
    ensures { OnOk result (AddsCandidates candidates.old.items candidates.new.items
        (tree_candidates (spec.rule_text_at pointer.now (string_bytes rule.now.value)) (term tree.now))) }
{
    let location = keyword_pointer(alloc, pointer, "rule")?;
    let text = Text {
        pointer: location.as_str(),
        rule,
        is_message: false,
    };
    add_tree(alloc, text, tree, candidates)
}

/// Adds the candidates of a rule's messageExpression, if it has one.
fn add_message_text(
    alloc: Global,
    pointer: &str,
    rule: &Rc<String>,
    program: &Option<Program>,
    candidates: &mut Vec<Candidate>,
) -> Result<(), AllocError>
    ensures { OnOk result (AddsCandidates candidates.old.items candidates.new.items
        (spec.message_candidates (spec.message_text_at pointer.now (string_bytes rule.now.value))
        (option_map program_term program.now))) }
{
    let location = keyword_pointer(alloc, pointer, "messageExpression")?;
    let text = Text {
        pointer: location.as_str(),
        rule,
        is_message: true,
    };
    add_message(alloc, text, program, candidates)
}

/// Adds the candidates of a compiled rule.
fn add_compiled(
    alloc: Global,
    pointer: &str,
    compiled: &CompilationResult,
    candidates: &mut Vec<Candidate>,
) -> Result<(), AllocError>
    ensures { OnOk result (AddsCandidates candidates.old.items candidates.new.items
        (spec.compiled_candidates pointer.now (Ok (result_view compiled.now)))) }
{
    let rule = Rc::new(alloc, compiled.rule.rule.clone()?)?;
    add_text(
        alloc,
        pointer,
        &rule,
        compiled.program.expression(),
        candidates,
    )?;
    add_message_text(alloc, pointer, &rule, &compiled.message_program, candidates)
}

/// Adds the candidates of a rule, if it compiled.
fn add_result(
    alloc: Global,
    pointer: &str,
    outcome: Result<CompilationResult, CompilationError>,
    candidates: &mut Vec<Candidate>,
) -> Result<(), AllocError>
    ensures { OnOk result (AddsCandidates candidates.old.items candidates.new.items
        (spec.compiled_candidates pointer.now (compiled_seen outcome))) }
{
    match outcome {
        Ok(compiled) => add_compiled(alloc, pointer, &compiled, candidates),
        Err(_) => Ok(()),
    }
}

/// The source of a rule. Empty if it has none.
pub(crate) fn text_of_rule(rule: &Value) -> &str
    ensures { result.now ≡ spec.text_of_rule (view rule.now) }
{
    let Some(source) = rule.get("rule") else {
        return "";
    };
    match source.as_str() {
        Some(text) => text,
        None => "",
    }
}

/// Adds a candidate for each key of a value that is none of these fields.
pub(crate) fn add_keys_of(
    alloc: Global,
    fields: &[&str],
    pointer: &str,
    rule: &str,
    value: &Value,
    candidates: &mut Vec<Candidate>,
) -> Result<(), AllocError>
    ensures { OnOk result (AddsCandidates candidates.old.items candidates.new.items
        (keys_candidates (map (λ f. f.now) fields.now) pointer.now rule.now
        (spec.members_of (view value.now)))) }
{
    match value.as_object() {
        Some(members) => add_keys(alloc, fields, pointer, rule, members, candidates),
        None => Ok(()),
    }
}

/// Adds the candidates of a rule.
fn add_rule(
    alloc: Global,
    pointer: &str,
    rule: &Value,
    candidates: &mut Vec<Candidate>,
) -> Result<(), Refused>
    ensures candidates { OnOk result (AddsCandidates candidates.old.items candidates.new.items
        (spec.rule_candidates pointer.now (view rule.now))) }
{
    add_keys_of(
        alloc,
        &RULE_FIELDS,
        pointer,
        text_of_rule(rule),
        rule,
        candidates,
    )?;
    let compiled = compile_rule(alloc, rule)?;
    add_result(alloc, pointer, compiled, candidates)?;
    Ok(())
}

/// Adds the candidates of rules, in order.
fn add_rules(
    alloc: Global,
    pointer: &str,
    rules: &[Value],
    candidates: &mut Vec<Candidate>,
) -> Result<(), Refused>
    ensures candidates { OnOk result (AddsCandidates candidates.old.items candidates.new.items
        (spec.rules_candidates pointer.now 0 (items_view rules.now))) }
{
    for (index, rule) in rules.iter().enumerate() {
        let inner = index_pointer(alloc, pointer, index)?;
        add_rule(alloc, inner.as_str(), rule, candidates)?;
    }
    Ok(())
}

/// Adds the candidates of a schema's rules, if it has any, or that they aren't a list.
fn add_validations(
    alloc: Global,
    pointer: &str,
    rules: Option<&Value>,
    candidates: &mut Vec<Candidate>,
) -> Result<(), Refused>
    ensures candidates { OnOk result (AddsCandidates candidates.old.items candidates.new.items
        (spec.validations_candidates pointer.now (option_map (λ v. view v.now) rules.entry))) }
{
    let Some(rules) = rules else {
        return Ok(());
    };
    match rules.as_array() {
        Some(rules) => add_rules(alloc, pointer, rules.as_slice(), candidates)?,
        None => add_unconditional(
            alloc,
            pointer,
            ReviewKind::Rules,
            "x-kubernetes-validations isn't a list",
            candidates,
        )?,
    }
    Ok(())
}

/// Adds a candidate if a schema that isn't read has rules.
pub(crate) fn add_unread_rules(
    alloc: Global,
    pointer: &str,
    rules: Option<&Value>,
    candidates: &mut Vec<Candidate>,
) -> Result<(), AllocError>
    ensures { OnOk result (AddsCandidates candidates.old.items candidates.new.items
        (spec.unread_candidates pointer.now (option_map (λ v. view v.now) rules.entry))) }
{
    match rules {
        None => Ok(()),
        Some(_) => add_unconditional(
            alloc,
            pointer,
            ReviewKind::Rules,
            "no object is judged by this schema, so its rules are never evaluated",
            candidates,
        ),
    }
}

/// Adds the candidates of the rules of a schema, which is read or isn't.
pub(crate) fn add_schema_rules(
    alloc: Global,
    pointer: &str,
    is_read: bool,
    rules: Option<&Value>,
    candidates: &mut Vec<Candidate>,
) -> Result<(), Refused>
    ensures candidates { OnOk result (AddsCandidates candidates.old.items candidates.new.items
        (spec.schema_rules_candidates is_read pointer.now (option_map (λ v. view v.now) rules.entry))) }
{
    if is_read {
        add_validations(alloc, pointer, rules, candidates)
    } else {
        add_unread_rules(alloc, pointer, rules, candidates)?;
        Ok(())
    }
}
