//! Builds nodes from their parts.

ghost use Rattle.std.specs.Prelude.{◌≡◌, IfOk};
ghost use Rattle.cel_syntax_ast.specs.Term as tree;
ghost use Rattle.cel_syntax_ast.specs.Term.{term};

use crate::expr::{BinaryOperator, Expr, UnaryOperator};
use crate::owned::{both, boxed, in_box};
use cel_value::Text;
use std::alloc::{AllocError, Global};

/// Builds an identifier.
pub fn ident(alloc: Global, name: &str) -> Result<Expr, AllocError>
    ensures { IfOk result (λ e. term e ≡ tree.ident name.now) }
{
    Ok(Expr::Ident(Text::of_str(alloc, name)?))
}

/// Builds the selection of a field.
pub fn select(alloc: Global, operand: Expr, name: &str) -> Result<Expr, AllocError>
    ensures { IfOk result (λ e. term e ≡ tree.select (term operand) name.now) }
{
    let (operand, name) = both(in_box(alloc, operand), Text::of_str(alloc, name))?;
    Ok(Expr::Select(operand, name))
}

/// Builds an index expression.
pub fn index(alloc: Global, target: Expr, index: Expr) -> Result<Expr, AllocError>
    ensures { IfOk result (λ e. term e ≡ tree.index (term target) (term index)) }
{
    let (target, index) = boxed(alloc, target, index)?;
    Ok(Expr::Index(target, index))
}

/// Builds a unary expression.
pub fn unary(alloc: Global, operator: UnaryOperator, operand: Expr) -> Result<Expr, AllocError>
    ensures { IfOk result (λ e. term e ≡ tree.unary operator (term operand)) }
{
    Ok(Expr::Unary(operator, Box::new(alloc, operand)?))
}

/// Builds a binary expression.
pub fn binary(
    alloc: Global,
    operator: BinaryOperator,
    left: Expr,
    right: Expr,
) -> Result<Expr, AllocError>
    ensures { IfOk result (λ e. term e ≡ tree.binary operator (term left) (term right)) }
{
    let (left, right) = boxed(alloc, left, right)?;
    Ok(Expr::Binary(operator, left, right))
}

/// Builds a conditional expression.
pub fn conditional(alloc: Global, test: Expr, yes: Expr, no: Expr) -> Result<Expr, AllocError>
    ensures { IfOk result (λ e. term e ≡ tree.conditional (term test) (term yes) (term no)) }
{
    let (test, (yes, no)) = both(in_box(alloc, test), boxed(alloc, yes, no))?;
    Ok(Expr::Cond(test, yes, no))
}
