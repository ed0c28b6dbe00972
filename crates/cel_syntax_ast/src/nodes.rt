//! The nodes of an expression.
ghost use Rattle.std.specs.Prelude.{◌≡◌, IfOk, OnOk, map};
ghost use Rattle.cel_syntax_ast.specs.Nodes.{AddsNodes, nodes_of, nodes_of_all, nodes_of_pairs};
ghost use Rattle.cel_syntax_ast.specs.Term.{pairs_of, term, terms_of};

use crate::expr::Expr;
use std::alloc::{AllocError, Global};

impl Expr {
    /// Returns the nodes of the expression: the expression itself, then the nodes of its
    /// parts, in the order in which a text has them.
    ///
    /// # Errors
    /// [`AllocError`] if memory is refused.
    pub fn nodes(&self, alloc: Global) -> Result<Vec<&Expr>, AllocError>
        ensures { IfOk result (λ v. map (λ n. term n.now) v.items ≡ nodes_of (term self.now)) }
    {
        let mut nodes = Vec::new(alloc);
        add_nodes(self, &mut nodes)?;
        Ok(nodes)
    }
}

/// Adds the nodes of an expression.
#[cycle(nodes)]
fn add_nodes<'a>(expr: &'a Expr, nodes: &mut Vec<&'a Expr>) -> Result<(), AllocError>
    ensures { OnOk result (AddsNodes nodes.old.items nodes.new.items (nodes_of (term expr.now))) }
{
    nodes.push(expr)?;
    match expr {
        Expr::Literal(_) => Ok(()),
        Expr::Ident(_) => Ok(()),
        Expr::Select(operand, _) => add_nodes(operand, nodes),
        Expr::Has(operand, _) => add_nodes(operand, nodes),
        Expr::Unary(_, operand) => add_nodes(operand, nodes),
        Expr::Index(operand, index) => {
            add_nodes(operand, nodes)?;
            add_nodes(index, nodes)
        }
        Expr::Binary(_, left, right) => {
            add_nodes(left, nodes)?;
            add_nodes(right, nodes)
        }
        Expr::Cond(test, yes, no) => {
            add_nodes(test, nodes)?;
            add_nodes(yes, nodes)?;
            add_nodes(no, nodes)
        }
        Expr::List(items) => add_from_all(items, nodes),
        Expr::Map(pairs) => add_from_pairs(pairs, nodes),
        Expr::Call {
            target,
            name: _,
            args,
        } => {
            if let Some(target) = target {
                add_nodes(target, nodes)?;
            }
            add_from_all(args, nodes)
        }
        Expr::Qualified { name: _, args } => add_from_all(args, nodes),
        Expr::Macro {
            kind: _,
            range,
            variable: _,
            filter,
            body,
        } => {
            add_nodes(range, nodes)?;
            if let Some(filter) = filter {
                add_nodes(filter, nodes)?;
            }
            add_nodes(body, nodes)
        }
    }
}

/// Adds the nodes of all items.
#[cycle(nodes)]
fn add_from_all<'a>(items: &'a Vec<Expr>, nodes: &mut Vec<&'a Expr>) -> Result<(), AllocError>
    ensures { OnOk result (AddsNodes nodes.old.items nodes.new.items
        (nodes_of_all (terms_of (map term items.now.items)))) }
{
    for item in items {
        add_nodes(item, nodes)?;
    }
    Ok(())
}

/// Adds the nodes of all keys and values.
#[cycle(nodes)]
fn add_from_pairs<'a>(
    pairs: &'a Vec<(Expr, Expr)>,
    nodes: &mut Vec<&'a Expr>,
) -> Result<(), AllocError>
    ensures { OnOk result (AddsNodes nodes.old.items nodes.new.items
        (nodes_of_pairs (pairs_of (map (λ p. (term p.0, term p.1)) pairs.now.items)))) }
{
    for pair in pairs {
        add_nodes(&pair.0, nodes)?;
        add_nodes(&pair.1, nodes)?;
    }
    Ok(())
}
