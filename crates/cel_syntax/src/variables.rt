//! The free names of an expression.
ghost use Rattle.std.specs.Prelude.{◌≡◌, ◌||◌, ℕ, List, OnOk, map};
ghost use Rattle.std.specs.BTreeSet.{contains_text};
ghost use Rattle.cel_syntax_ast.specs.Term.{ident, term, terms_of, pairs_of};
ghost use Rattle.cel_syntax.specs.Bound.{bound_names};
ghost use Rattle.cel_syntax.specs.Outside.{is_read, is_read_in_any, is_read_in_pairs};

use crate::bound::Bound;
use crate::names::add;
use cel_syntax_ast::Expr;
use std::alloc::{AllocError, Global};
use std::collections::BTreeSet;

/// Adds a name, unless an enclosing macro binds it.
fn add_unbound(
    alloc: Global,
    name: &str,
    bound: &Bound<'_>,
    names: &mut BTreeSet<String>,
) -> Result<(), AllocError>
    ensures added { OnOk result ((x : List ℕ) → contains_text names.new x
        ≡ (contains_text names.old x || is_read x (bound_names bound.now) (ident name.now))) }
{
    if bound.has(name) {
        return Ok(());
    }
    add(alloc, name, names)
}

/// Adds the free names of an expression, except those that enclosing macros bind.
#[cycle(variables)]
pub(crate) fn add_variables(
    alloc: Global,
    expr: &Expr,
    bound: &Bound<'_>,
    names: &mut BTreeSet<String>,
) -> Result<(), AllocError>
    ensures added { OnOk result ((x : List ℕ) → contains_text names.new x
        ≡ (contains_text names.old x || is_read x (bound_names bound.now) (term expr.now))) }
{
    match expr {
        Expr::Literal(_) => Ok(()),
        Expr::Ident(name) => add_unbound(alloc, name.as_str(), bound, names),
        Expr::Select(operand, _) => add_variables(alloc, operand, bound, names),
        Expr::Has(operand, _) => add_variables(alloc, operand, bound, names),
        Expr::Unary(_, operand) => add_variables(alloc, operand, bound, names),
        Expr::Index(operand, index) => {
            add_variables(alloc, operand, bound, names)?;
            add_variables(alloc, index, bound, names)
        }
        Expr::Binary(_, left, right) => {
            add_variables(alloc, left, bound, names)?;
            add_variables(alloc, right, bound, names)
        }
        Expr::Cond(test, yes, no) => {
            add_variables(alloc, test, bound, names)?;
            add_variables(alloc, yes, bound, names)?;
            add_variables(alloc, no, bound, names)
        }
        Expr::List(items) => add_from_all(alloc, items, bound, names),
        Expr::Map(pairs) => add_from_pairs(alloc, pairs, bound, names),
        Expr::Call {
            target,
            name: _,
            args,
        } => {
            if let Some(target) = target {
                add_variables(alloc, target, bound, names)?;
            }
            add_from_all(alloc, args, bound, names)
        }
        Expr::Qualified { name: _, args } => add_from_all(alloc, args, bound, names),
        Expr::Macro {
            kind: _,
            range,
            variable,
            filter,
            body,
        } => {
            add_variables(alloc, range, bound, names)?;
            let inside = Bound::Variable(variable.as_str(), &*bound);
            if let Some(filter) = filter {
                add_variables(alloc, filter, &inside, names)?;
            }
            add_variables(alloc, body, &inside, names)
        }
    }
}

/// Adds the free names of the expressions.
#[cycle(variables)]
fn add_from_all(
    alloc: Global,
    items: &Vec<Expr>,
    bound: &Bound<'_>,
    names: &mut BTreeSet<String>,
) -> Result<(), AllocError>
    ensures added { OnOk result ((x : List ℕ) → contains_text names.new x
        ≡ (contains_text names.old x
        || is_read_in_any x (bound_names bound.now) (terms_of (map term items.now.items)))) }
{
    for item in items {
        add_variables(alloc, item, bound, names)?;
    }
    Ok(())
}

/// Adds the free names of the keys and values.
#[cycle(variables)]
fn add_from_pairs(
    alloc: Global,
    pairs: &Vec<(Expr, Expr)>,
    bound: &Bound<'_>,
    names: &mut BTreeSet<String>,
) -> Result<(), AllocError>
    ensures added { OnOk result ((x : List ℕ) → contains_text names.new x
        ≡ (contains_text names.old x || is_read_in_pairs x (bound_names bound.now)
        (pairs_of (map (λ p. (term p.0, term p.1)) pairs.now.items)))) }
{
    for pair in pairs {
        add_variables(alloc, &pair.0, bound, names)?;
        add_variables(alloc, &pair.1, bound, names)?;
    }
    Ok(())
}
