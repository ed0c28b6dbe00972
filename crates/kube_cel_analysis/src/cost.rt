//! The estimated cost of an expression.
ghost use Rattle.std.specs.Prelude.{◌≡◌, map};
ghost use Rattle.cel_syntax.specs.Term.{term, terms_of};
ghost use Rattle.kube_cel_analysis.specs.Cost.{call_cost, cost, cost_of_all, product, reads_text, step_cost, sum};
ghost use Rattle.kube_cel_analysis.specs.Sizes.{sizes_view};

use crate::scope::is_one_of;
use cel_syntax::{Expr, MacroKind};
use std::cmp::max;

/// The greatest sizes that a schema allows.
#[derive(Clone, Copy, Debug, PartialEq, Eq)]
pub struct Sizes {
    /// The greatest number of items of a list.
    pub items: u64,
    /// The greatest number of characters of a string.
    pub length: u64,
}

/// The functions whose cost grows with the length of a string.
const TEXT_FUNCTIONS: [&str; 11] = [
    "contains",
    "startsWith",
    "endsWith",
    "matches",
    "find",
    "findAll",
    "replace",
    "split",
    "indexOf",
    "lastIndexOf",
    "sets.contains",
];

/// Reports whether the cost of the function of this name grows with the length of a string.
#[tactic(auto, unfolding(crate::specs::Cost::reads_text))]
fn reads_text(name: &str) -> bool
    ensures { result ≡ reads_text name.now }
{
    is_one_of(name, &TEXT_FUNCTIONS)
}

/// Returns the cost of a call without its operands.
fn call_cost(name: &str, sizes: Sizes) -> u64
    ensures { result ≡ call_cost (sizes_view sizes) name.now }
{
    if reads_text(name) {
        1 + sizes.length / 10
    } else {
        1
    }
}

/// Returns the cost per item that a macro adds to that of its filter and body.
fn step_cost(kind: MacroKind, has_filter: bool) -> u64
    ensures { result ≡ step_cost kind has_filter }
{
    match kind {
        MacroKind::All => 2,
        MacroKind::Exists => 2,
        MacroKind::ExistsOne => 5,
        MacroKind::Filter => 5,
        MacroKind::Map => { if has_filter { 4 } else { 2 } }
    }
}

/// Adds with saturation at `u64::MAX`.
fn sum(left: u64, right: u64) -> u64
    ensures { result ≡ sum left right }
{
    left.saturating_add(right)
}

/// Multiplies with saturation at `u64::MAX`.
fn product(left: u64, right: u64) -> u64
    ensures { result ≡ product left right }
{
    left.saturating_mul(right)
}

/// Estimates the cost of an expression for values of these sizes. Saturates at `u64::MAX`.
#[cycle(cost)]
pub fn estimated_cost(expr: &Expr, sizes: Sizes) -> u64
    ensures { result ≡ cost (sizes_view sizes) (term expr.now) }
{
    match expr {
        Expr::Literal(_) => 1,
        Expr::Ident(_) => 1,
        Expr::Map(_) => 1,
        Expr::Select(operand, _) => sum(1, estimated_cost(operand, sizes)),
        Expr::Has(operand, _) => sum(1, estimated_cost(operand, sizes)),
        Expr::Unary(_, operand) => sum(1, estimated_cost(operand, sizes)),
        Expr::Index(operand, index) => sum(
            1,
            sum(estimated_cost(operand, sizes), estimated_cost(index, sizes)),
        ),
        Expr::Binary(_, left, right) => sum(
            1,
            sum(estimated_cost(left, sizes), estimated_cost(right, sizes)),
        ),
        Expr::Cond(test, yes, no) => {
            let branches = sum(estimated_cost(yes, sizes), estimated_cost(no, sizes));
            sum(1, sum(estimated_cost(test, sizes), branches))
        }
        Expr::List(items) => max(1, cost_of_all(items, sizes)),
        Expr::Call {
            target: Some(target),
            name,
            args,
        } => {
            let target = sum(estimated_cost(target, sizes), 0);
            sum(
                call_cost(name.as_str(), sizes),
                sum(target, cost_of_all(args, sizes)),
            )
        }
        Expr::Call {
            target: None,
            name,
            args,
        } => sum(
            call_cost(name.as_str(), sizes),
            sum(0, cost_of_all(args, sizes)),
        ),
        Expr::Qualified { name, args } => {
            let parts = sum(1, cost_of_all(args, sizes));
            sum(call_cost(name.as_str(), sizes), parts)
        }
        Expr::Macro {
            kind,
            range: _,
            variable: _,
            filter: Some(filter),
            body,
        } => {
            let filter = sum(estimated_cost(filter, sizes), 0);
            let parts = sum(filter, estimated_cost(body, sizes));
            product(sizes.items, sum(step_cost(*kind, true), parts))
        }
        Expr::Macro {
            kind,
            range: _,
            variable: _,
            filter: None,
            body,
        } => {
            let parts = sum(0, estimated_cost(body, sizes));
            product(sizes.items, sum(step_cost(*kind, false), parts))
        }
    }
}

/// Returns the sum of the costs of expressions.
#[cycle(cost)]
fn cost_of_all(items: &Vec<Expr>, sizes: Sizes) -> u64
    ensures { result ≡ cost_of_all (sizes_view sizes) (terms_of (map term items.now.items)) }
{
    let mut all = 0;
    for item in items {
        all = sum(all, estimated_cost(item, sizes));
    }
    all
}
