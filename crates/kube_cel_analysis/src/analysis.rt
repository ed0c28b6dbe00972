//! The analysis of a rule at a schema: the warnings of its names, its cost and its bounds.
ghost use Rattle.std.specs.Prelude.{◌≡◌, ◌++◌, IfErr, IfOk, OnOk, Some, map};
ghost use Rattle.cel_syntax.specs.Reading.{tree_of};
ghost use Rattle.cel_syntax.specs.Term.{term};
ghost use Rattle.kube_cel_analysis.specs.Cost.{cost};
ghost use Rattle.kube_cel_analysis.specs.Warnings.{remark_view, warning, warning_view};
ghost use Rattle.kube_cel_analysis.specs.Bounds.{sizes_of};
ghost use Rattle.kube_cel_analysis.specs.Estimates.{AreRemarks, AreWarnings, bounds_remark, bounds_remarks, cost_remark, cost_remarks, estimates, is_macro, text_estimates};
ghost use Rattle.kube_schema.specs.Shown.{node_tree, whole};

use crate::cost::estimated_cost;
use crate::scope::{ScopeContext, scope_remarks};
use crate::sizes::{has_unbounded, sizes_of};
use crate::warning::{AnalysisWarning, Remark, WarningKind, warnings_of};
use cel_syntax::{Expr, parse};
use kube_schema::{CompiledSchema, SchemaNode};
use kube_types::Refused;
use std::alloc::{AllocError, Global};

/// The greatest cost of a rule that gives no warning.
const BUDGET: u64 = 1_000_000;

/// Returns the remark on a cost above the budget.
fn cost_remark(alloc: Global, cost: u64) -> Result<Remark, AllocError>
    ensures { IfOk result (λ r. remark_view r ≡ cost_remark cost) }
{
    Ok(Remark {
        message: format!(in alloc;
            "estimated cost {cost} exceeds K8s budget 1000000; consider adding maxItems/maxLength to schema bounds"
        )?,
        kind: WarningKind::CostExceeded,
    })
}

/// Returns the remark on an unbounded list.
fn bounds_remark(alloc: Global) -> Result<Remark, AllocError>
    ensures { IfOk result (λ r. remark_view r ≡ bounds_remark) }
{
    Ok(Remark {
        message: String::from_str(
            alloc,
            "list field has no maxItems bound; cost estimate uses worst-case default",
        )?,
        kind: WarningKind::MissingBounds,
    })
}

/// Reports whether the expression as a whole is a macro over a list.
fn is_macro(expression: &Expr) -> bool
    ensures { result ≡ is_macro (term expression.now) }
{
    matches!(expression, Expr::Macro { .. })
}

/// Adds a remark if the cost is above the budget.
fn add_cost(alloc: Global, cost: u64, remarks: &mut Vec<Remark>) -> Result<(), AllocError>
    ensures { OnOk result (map remark_view remarks.new.items
        ≡ map remark_view remarks.old.items ++ cost_remarks cost) }
{
    if cost > BUDGET {
        remarks.push(cost_remark(alloc, cost)?)?;
    }
    Ok(())
}

/// Adds a remark if the expression is a macro over a
/// list and a property of the node is an unbounded list.
fn add_bounds(
    alloc: Global,
    expression: &Expr,
    node: &SchemaNode<'_>,
    remarks: &mut Vec<Remark>,
) -> Result<(), AllocError>
    ensures { OnOk result (map remark_view remarks.new.items ≡ map remark_view remarks.old.items
        ++ bounds_remarks (node_tree node.now) (term expression.now)) }
{
    if is_macro(expression) && has_unbounded(node) {
        remarks.push(bounds_remark(alloc)?)?;
    }
    Ok(())
}

/// Adds the remarks on cost, then those on bounds.
#[tactic(auto, unfolding(crate::specs::Estimates::estimates))]
fn add_estimates(
    alloc: Global,
    expression: &Expr,
    node: &SchemaNode<'_>,
    remarks: &mut Vec<Remark>,
) -> Result<(), AllocError>
    ensures { OnOk result (map remark_view remarks.new.items ≡ map remark_view remarks.old.items
        ++ estimates (node_tree node.now) (term expression.now)) }
{
    let cost = estimated_cost(expression, sizes_of(node));
    add_cost(alloc, cost, remarks)?;
    add_bounds(alloc, expression, node, remarks)?;
    Ok(())
}

/// Returns the warnings of cost, then those of bounds.
fn estimated(
    alloc: Global,
    rule: &str,
    expression: &Expr,
    node: &SchemaNode<'_>,
) -> Result<Vec<AnalysisWarning>, AllocError>
    ensures { IfOk result (λ v. map warning_view v.items
        ≡ map (warning rule.now) (estimates (node_tree node.now) (term expression.now))) }
{
    let mut remarks = Vec::new(alloc);
    add_estimates(alloc, expression, node, &mut remarks)?;
    warnings_of(alloc, rule, remarks)
}

/// Returns all remarks on an expression at a node of a schema:
/// on its names, then on its cost, then on its bounds.
pub(crate) fn remarks_of(
    alloc: Global,
    expression: &Expr,
    node: &SchemaNode<'_>,
    scope: ScopeContext,
) -> Result<Vec<Remark>, Refused>
    ensures remarks { IfOk result (λ v. AreRemarks scope (node_tree node.now)
        (term expression.now) (map remark_view v.items)) }
    ensures memory { IfErr result (λ e. e ≡ Refused.Memory) }
{
    let mut remarks = scope_remarks(alloc, expression, scope)?;
    add_estimates(alloc, expression, node, &mut remarks)?;
    Ok(remarks)
}

/// Estimates the cost of a rule at the root of a schema. Warns if the cost
/// is above a million, then if the rule as a whole is a macro and a property
/// is an unbounded list. A text that doesn't parse gives no warnings.
///
/// # Errors
///
/// [`Refused`] if memory is refused.
pub fn estimate_rule_cost(
    alloc: Global,
    rule: &str,
    schema: &CompiledSchema,
) -> Result<Vec<AnalysisWarning>, Refused>
    ensures warnings { IfOk result (λ v. map warning_view v.items
        ≡ text_estimates rule.now (whole schema.now) (tree_of rule.now)) }
    ensures memory { IfErr result (λ e. e ≡ Refused.Memory) }
{
    match parse(alloc, rule)? {
        Err(_) => Ok(Vec::new(alloc)),
        Ok(expression) => {
            let warnings = estimated(alloc, rule, &expression, &schema.root());
            drop(expression);
            Ok(warnings?)
        }
    }
}

/// Returns all warnings of an expression at a node of a schema: of its names,
/// then of its cost, then of its bounds. Each warning has the text of the rule.
///
/// # Errors
///
/// [`Refused`] if memory is refused.
pub fn analyze_expression(
    alloc: Global,
    rule: &str,
    expression: &Expr,
    node: &SchemaNode<'_>,
    scope: ScopeContext,
) -> Result<Vec<AnalysisWarning>, Refused>
    ensures warnings { IfOk result
        (λ v. AreWarnings scope rule.now (node_tree node.now)
        (Some (term expression.now)) (map warning_view v.items)) }
    ensures memory { IfErr result (λ e. e ≡ Refused.Memory) }
{
    let remarks = remarks_of(alloc, expression, node, scope)?;
    let warnings = warnings_of(alloc, rule, remarks)?;
    Ok(warnings)
}

/// Returns all warnings of a rule at the root of a schema: of its names, then of
/// its cost, then of its bounds. A text that doesn't parse gives no warnings.
///
/// # Errors
///
/// [`Refused`] if memory is refused.
pub fn analyze_rule(
    alloc: Global,
    rule: &str,
    schema: &CompiledSchema,
    scope: ScopeContext,
) -> Result<Vec<AnalysisWarning>, Refused>
    ensures warnings { IfOk result
        (λ v. AreWarnings scope rule.now (whole schema.now) (tree_of rule.now) (map warning_view v.items)) }
    ensures memory { IfErr result (λ e. e ≡ Refused.Memory) }
{
    match parse(alloc, rule)? {
        Err(_) => Ok(Vec::new(alloc)),
        Ok(expression) => {
            let warnings = analyze_expression(alloc, rule, &expression, &schema.root(), scope);
            drop(expression);
            warnings
        }
    }
}
