//! The names of the functions that an expression calls.
ghost use Rattle.std.specs.Prelude.{◌≡◌, ◌||◌, ℕ, List, OnOk};
ghost use Rattle.std.specs.BTreeSet.{contains_text};
ghost use Rattle.cel_syntax_ast.specs.Term.{term};
ghost use Rattle.cel_syntax.specs.CallNames.{calls, is_called};

use crate::names::add;
use cel_syntax_ast::Expr;
use std::alloc::{AllocError, Global};
use std::collections::BTreeSet;

/// Adds the name of the function that a node calls, if it is a call.
fn add_call(alloc: Global, node: &Expr, names: &mut BTreeSet<String>) -> Result<(), AllocError>
    ensures added { OnOk result ((x : List ℕ)
        → contains_text names.new x ≡ (contains_text names.old x || calls x (term node.now))) }
{
    match node {
        Expr::Call { name, .. } => add(alloc, name.as_str(), names),
        Expr::Qualified { name, .. } => add(alloc, name.as_str(), names),
        _ => Ok(()),
    }
}

/// Adds the names of the functions that an expression calls.
pub(crate) fn add_calls(
    alloc: Global,
    expr: &Expr,
    names: &mut BTreeSet<String>,
) -> Result<(), AllocError>
    ensures added { OnOk result ((x : List ℕ)
        → contains_text names.new x ≡ (contains_text names.old x || is_called x (term expr.now))) }
{
    let nodes = expr.nodes(alloc)?;
    for node in &nodes {
        add_call(alloc, *node, names)?;
    }
    Ok(())
}
