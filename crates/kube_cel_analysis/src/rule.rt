//! The findings of the rules of one node.
ghost use Rattle.std.specs.Prelude.{◌≡◌, ◌++◌, [], ◌∷◌, IfErr, IfOk, OnOk, map, string_bytes};
ghost use Rattle.cel_syntax.specs.Names.{names_of};
ghost use Rattle.kube_cel_analysis.specs.Warnings.{remark_view, warning};
ghost use Rattle.kube_cel_analysis.specs.Findings.{Naming, compiled_findings, error_finding, finding_view, is_unknown, kind_of_error, kind_of_warning, name_findings, names_findings, rule_findings, rule_of_error, rules_findings, unknown_finding, warning_finding};
ghost use Rattle.kube_schema.specs.Compilation.{compiled_seen, error_view, result_view};
ghost use Rattle.kube_schema.specs.Shown.{node_tree};
ghost use Rattle.kube_schema.specs.Tree.{own};

use crate::analysis::remarks_of;
use crate::finding::{LintFinding, LintKind};
use crate::scope::ScopeContext;
use crate::warning::{Remark, WarningKind};
use cel::{Form, Functions};
use kube_functions::AllFunctions;
use kube_schema::{CompilationError, CompilationResult, SchemaNode};
use kube_types::Refused;
use std::alloc::{AllocError, Global};
use std::rc::Rc;

/// The kind of finding for a compilation error.
fn kind_of_error(error: &CompilationError) -> LintKind
    ensures { result ≡ kind_of_error (error_view error.now) }
{
    match error {
        CompilationError::Parse { .. } => LintKind::Compile,
        CompilationError::MessageExpressionParse { .. } => LintKind::Compile,
        CompilationError::InvalidRule(_) => LintKind::Compile,
        CompilationError::SchemaTooDeep { .. } => LintKind::Depth,
    }
}

/// The text of the rule in a compilation error; empty if it has none.
fn rule_of_error(error: &CompilationError) -> &str
    ensures { result.now ≡ rule_of_error (error_view error.now) }
{
    match error {
        CompilationError::Parse { rule, .. } => rule.as_str(),
        CompilationError::MessageExpressionParse { rule, .. } => rule.as_str(),
        CompilationError::InvalidRule(_) => "",
        CompilationError::SchemaTooDeep { .. } => "",
    }
}

/// Returns a copy of a text that findings can share.
fn shared(alloc: Global, text: &str) -> Result<Rc<String>, AllocError>
    ensures { IfOk result (λ s. string_bytes s.value ≡ text.now) }
{
    Ok(Rc::new(alloc, String::from_str(alloc, text)?)?)
}

/// Adds the finding for a rule that doesn't compile.
fn add_error(
    alloc: Global,
    pointer: &str,
    error: &CompilationError,
    found: &mut Vec<LintFinding>,
) -> Result<(), AllocError>
    ensures { OnOk result (map finding_view found.new.items
        ≡ map finding_view found.old.items ++ error_finding pointer.now (error_view error.now) ∷ []) }
{
    found.push(LintFinding {
        pointer: String::from_str(alloc, pointer)?,
        rule: shared(alloc, rule_of_error(error))?,
        kind: kind_of_error(error),
        message: error.to_string(alloc)?,
    })?;
    Ok(())
}

/// Reports whether no function has this name.
#[tactic(auto, unfolding(crate::specs::Findings::is_unknown))]
fn is_unknown(name: &str) -> bool
    ensures { result ≡ is_unknown name.now }
{
    match AllFunctions.form(name, false, 0) {
        Form::Unknown => true,
        Form::Wrong => false,
        Form::Known => false,
    }
}

/// Returns the finding for an unknown function.
fn unknown_finding(
    alloc: Global,
    pointer: &str,
    rule: &Rc<String>,
    name: &str,
) -> Result<LintFinding, AllocError>
    ensures { IfOk result (λ f. finding_view f
        ≡ unknown_finding pointer.now (string_bytes rule.now.value) name.now) }
{
    Ok(LintFinding {
        pointer: String::from_str(alloc, pointer)?,
        rule: rule.clone()?,
        kind: LintKind::Function,
        message: format!(in alloc; "function '{name}' is unknown")?,
    })
}

/// Adds a finding if the function is unknown.
fn add_name(
    alloc: Global,
    pointer: &str,
    rule: &Rc<String>,
    name: &str,
    found: &mut Vec<LintFinding>,
) -> Result<(), AllocError>
    ensures { OnOk result (map finding_view found.new.items ≡ map finding_view found.old.items
        ++ name_findings pointer.now (string_bytes rule.now.value) name.now) }
{
    if is_unknown(name) {
        found.push(unknown_finding(alloc, pointer, rule, name)?)?;
    }
    Ok(())
}

/// Adds a finding for each unknown function, in order.
fn add_names(
    alloc: Global,
    pointer: &str,
    rule: &Rc<String>,
    names: &[String],
    found: &mut Vec<LintFinding>,
) -> Result<(), AllocError>
    ensures { OnOk result (map finding_view found.new.items ≡ map finding_view found.old.items
        ++ names_findings pointer.now (string_bytes rule.now.value) (names_of names.now)) }
{
    for name in names {
        add_name(alloc, pointer, rule, name.as_str(), found)?;
    }
    Ok(())
}

/// The kind of finding for a warning.
fn kind_of_warning(kind: WarningKind) -> LintKind
    ensures { result ≡ kind_of_warning kind }
{
    match kind {
        WarningKind::WrongScope => LintKind::Scope,
        WarningKind::CostExceeded => LintKind::Cost,
        WarningKind::MissingBounds => LintKind::Bounds,
    }
}

/// Adds a remark on a rule as a finding.
fn add_remark(
    alloc: Global,
    pointer: &str,
    rule: &Rc<String>,
    remark: Remark,
    found: &mut Vec<LintFinding>,
) -> Result<(), AllocError>
    ensures { OnOk result (map finding_view found.new.items ≡ map finding_view found.old.items
        ++ warning_finding pointer.now (warning (string_bytes rule.now.value) (remark_view remark)) ∷ []) }
{
    let Remark { message, kind } = remark;
    found.push(LintFinding {
        pointer: String::from_str(alloc, pointer)?,
        rule: rule.clone()?,
        kind: kind_of_warning(kind),
        message,
    })?;
    Ok(())
}

/// Adds remarks on a rule as findings, in order.
fn add_remarks(
    alloc: Global,
    pointer: &str,
    rule: &Rc<String>,
    remarks: Vec<Remark>,
    found: &mut Vec<LintFinding>,
) -> Result<(), AllocError>
    ensures { OnOk result (map finding_view found.new.items ≡ map finding_view found.old.items
        ++ map (λ r. warning_finding pointer.now (warning (string_bytes rule.now.value) (remark_view r)))
        remarks.items) }
{
    for remark in remarks {
        add_remark(alloc, pointer, rule, remark, found)?;
    }
    Ok(())
}

/// Adds the findings of a compiled rule: its unknown functions, then the warnings of its analysis.
fn add_compiled(
    alloc: Global,
    pointer: &str,
    rule: &CompilationResult,
    node: &SchemaNode<'_>,
    found: &mut Vec<LintFinding>,
) -> Result<(), Refused>
    ensures found { OnOk result ((names : Naming) → map finding_view found.new.items
        ≡ map finding_view found.old.items
        ++ compiled_findings names pointer.now (node_tree node.now) (result_view rule.now)) }
    ensures memory { IfErr result (λ e. e ≡ Refused.Memory) }
{
    let text = shared(alloc, rule.rule.rule.as_str())?;
    let references = rule.program.references(alloc)?;
    add_names(alloc, pointer, &text, references.functions(), found)?;
    let expression = rule.program.expression();
    let remarks = remarks_of(alloc, expression, node, ScopeContext::CrdValidation)?;
    add_remarks(alloc, pointer, &text, remarks, found)?;
    Ok(())
}

/// Adds the findings of a rule.
fn add_rule(
    alloc: Global,
    pointer: &str,
    rule: &Result<CompilationResult, CompilationError>,
    node: &SchemaNode<'_>,
    found: &mut Vec<LintFinding>,
) -> Result<(), Refused>
    ensures found { OnOk result ((names : Naming) → map finding_view found.new.items
        ≡ map finding_view found.old.items
        ++ rule_findings names pointer.now (node_tree node.now) (compiled_seen rule.now)) }
    ensures memory { IfErr result (λ e. e ≡ Refused.Memory) }
{
    match rule {
        Ok(rule) => add_compiled(alloc, pointer, rule, node, found),
        Err(error) => Ok(add_error(alloc, pointer, error, found)?),
    }
}

/// Adds the findings of the rules of a node, in order.
pub(crate) fn add_rules(
    alloc: Global,
    pointer: &str,
    node: &SchemaNode<'_>,
    found: &mut Vec<LintFinding>,
) -> Result<(), Refused>
    ensures found { OnOk result ((names : Naming) → map finding_view found.new.items
        ≡ map finding_view found.old.items
        ++ rules_findings names pointer.now (node_tree node.now) (own (node_tree node.now)).validations) }
    ensures memory { IfErr result (λ e. e ≡ Refused.Memory) }
{
    for rule in node.validations() {
        add_rule(alloc, pointer, rule, node, found)?;
    }
    Ok(())
}
