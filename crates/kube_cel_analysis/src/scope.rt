//! The names that a rule may use where it runs.
ghost use Rattle.std.specs.List.{list_any};
ghost use Rattle.std.specs.Prelude.{◌≡◌, ◌++◌, IfErr, IfOk, OnOk, Some, map};
ghost use Rattle.std.specs.Str.{bytes_eq};
ghost use Rattle.cel_syntax.specs.Reading.{tree_of};
ghost use Rattle.cel_syntax.specs.Names.{names_of};
ghost use Rattle.cel_syntax.specs.Term.{term};
ghost use Rattle.kube_cel_analysis.specs.Scopes.{AreScopeRemarks, AreScopeWarnings, is_available, name_remarks, names_remarks, scope_name, scope_remark, valid_variables};
ghost use Rattle.kube_cel_analysis.specs.Warnings.{remark_view, warning_view};

use crate::warning::{AnalysisWarning, Remark, WarningKind, warnings_of};
use cel_syntax::{Expr, References, parse};
use kube_types::Refused;
use std::alloc::{AllocError, Global};

/// Where a rule runs.
#[derive(Clone, Copy, Debug, PartialEq, Eq)]
pub enum ScopeContext {
    /// In the schema of a custom resource.
    CrdValidation,
    /// In a ValidatingAdmissionPolicy.
    AdmissionPolicy,
}

/// The names available to rules in schemas.
const CRD_VARIABLES: [&str; 5] = ["self", "oldSelf", "apiVersion", "apiGroup", "kind"];

/// The names available to expressions in policies.
const POLICY_VARIABLES: [&str; 9] = [
    "self",
    "oldSelf",
    "object",
    "oldObject",
    "request",
    "params",
    "namespaceObject",
    "authorizer",
    "variables",
];

impl ScopeContext {
    /// The name of the scope.
    fn name(self) -> &'static str
        ensures { result.now ≡ scope_name self }
    {
        match self {
            ScopeContext::CrdValidation => "CrdValidation",
            ScopeContext::AdmissionPolicy => "AdmissionPolicy",
        }
    }

    /// The names that are available, in the form in which a warning lists them.
    fn valid_variables(self) -> &'static str
        ensures { result.now ≡ valid_variables self }
    {
        match self {
            ScopeContext::CrdValidation => {
                "[\"self\", \"oldSelf\", \"apiVersion\", \"apiGroup\", \"kind\"]"
            }
            ScopeContext::AdmissionPolicy => {
                "[\"self\", \"oldSelf\", \"object\", \"oldObject\", \"request\", \"params\", \"namespaceObject\", \"authorizer\", \"variables\"]"
            }
        }
    }

    /// Reports whether a name is available.
    #[tactic(auto, unfolding(crate::specs::Scopes::is_available))]
    fn has(self, name: &str) -> bool
        ensures { result ≡ is_available self name.now }
    {
        match self {
            ScopeContext::CrdValidation => is_one_of(name, &CRD_VARIABLES),
            ScopeContext::AdmissionPolicy => is_one_of(name, &POLICY_VARIABLES),
        }
    }
}

/// Reports whether the name is one of these.
pub(crate) fn is_one_of(name: &str, names: &[&str]) -> bool
    ensures { result ≡ list_any (bytes_eq name.now) (map (λ n. n.now) names.now) }
{
    for other in names {
        if name == *other {
            return true;
        }
    }
    false
}

/// Returns the remark that a name isn't available.
fn scope_remark(alloc: Global, name: &str, scope: ScopeContext) -> Result<Remark, AllocError>
    ensures { IfOk result (λ r. remark_view r ≡ scope_remark scope name.now) }
{
    let context = scope.name();
    let names = scope.valid_variables();
    Ok(Remark {
        message: format!(in alloc;
            "variable '{name}' is not available in {context} context; valid variables: {names}"
        )?,
        kind: WarningKind::WrongScope,
    })
}

/// Adds a remark if the name isn't available.
fn add_name(
    alloc: Global,
    name: &str,
    scope: ScopeContext,
    remarks: &mut Vec<Remark>,
) -> Result<(), AllocError>
    ensures { OnOk result (map remark_view remarks.new.items
        ≡ map remark_view remarks.old.items ++ name_remarks scope name.now) }
{
    if scope.has(name) {
        return Ok(());
    }
    remarks.push(scope_remark(alloc, name, scope)?)?;
    Ok(())
}

/// Adds the remarks on names, in order.
fn add_names(
    alloc: Global,
    names: &[String],
    scope: ScopeContext,
    remarks: &mut Vec<Remark>,
) -> Result<(), AllocError>
    ensures { OnOk result (map remark_view remarks.new.items
        ≡ map remark_view remarks.old.items ++ names_remarks scope (names_of names.now)) }
{
    for name in names {
        add_name(alloc, name.as_str(), scope, remarks)?;
    }
    Ok(())
}

/// Returns a remark on each free name of an expression that isn't
/// available where the rule runs, in the order of names.
pub(crate) fn scope_remarks(
    alloc: Global,
    expression: &Expr,
    scope: ScopeContext,
) -> Result<Vec<Remark>, Refused>
    ensures remarks { IfOk result
        (λ v. AreScopeRemarks scope (term expression.now) (map remark_view v.items)) }
    ensures memory { IfErr result (λ e. e ≡ Refused.Memory) }
{
    let references = References::of(alloc, expression)?;
    let mut remarks = Vec::new(alloc);
    add_names(alloc, references.variables(), scope, &mut remarks)?;
    Ok(remarks)
}

/// Warns of each free name of an expression that isn't available where the
/// rule runs, in the order of names. Each warning has the text of the rule.
///
/// # Errors
///
/// [`Refused`] if memory is refused.
pub fn check_expression_scope(
    alloc: Global,
    rule: &str,
    expression: &Expr,
    scope: ScopeContext,
) -> Result<Vec<AnalysisWarning>, Refused>
    ensures warnings { IfOk result
        (λ v. AreScopeWarnings scope rule.now (Some (term expression.now)) (map warning_view v.items)) }
    ensures memory { IfErr result (λ e. e ≡ Refused.Memory) }
{
    let remarks = scope_remarks(alloc, expression, scope)?;
    let warnings = warnings_of(alloc, rule, remarks)?;
    Ok(warnings)
}

/// Warns of each free name of a rule that isn't available where the rule
/// runs, in the order of names. A text that doesn't parse gives no warnings.
///
/// # Errors
///
/// [`Refused`] if memory is refused.
pub fn check_rule_scope(
    alloc: Global,
    rule: &str,
    scope: ScopeContext,
) -> Result<Vec<AnalysisWarning>, Refused>
    ensures warnings { IfOk result
        (λ v. AreScopeWarnings scope rule.now (tree_of rule.now) (map warning_view v.items)) }
    ensures memory { IfErr result (λ e. e ≡ Refused.Memory) }
{
    match parse(alloc, rule)? {
        Err(_) => Ok(Vec::new(alloc)),
        Ok(expression) => {
            let warnings = check_expression_scope(alloc, rule, &expression, scope);
            drop(expression);
            warnings
        }
    }
}
