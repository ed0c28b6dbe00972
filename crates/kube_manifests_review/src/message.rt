//! Recognizes expressions that obviously aren't strings.
ghost use Rattle.std.specs.Prelude.{◌≡◌};
ghost use Rattle.cel_syntax.specs.Term.{term};
ghost use Rattle.kube_manifests_review.specs.Messages.{is_no_string, may_join};

use cel_syntax::{BinaryOperator, Expr};

/// Reports whether the operator can yield a string.
fn may_join(operator: BinaryOperator) -> bool
    ensures { result ≡ may_join operator }
{
    match operator {
        BinaryOperator::Or => false,
        BinaryOperator::And => false,
        BinaryOperator::Less => false,
        BinaryOperator::LessOrEqual => false,
        BinaryOperator::Greater => false,
        BinaryOperator::GreaterOrEqual => false,
        BinaryOperator::Equal => false,
        BinaryOperator::NotEqual => false,
        BinaryOperator::In => false,
        BinaryOperator::Add => true,
        BinaryOperator::Subtract => false,
        BinaryOperator::Multiply => false,
        BinaryOperator::Divide => false,
        BinaryOperator::Remainder => false,
    }
}

/// Reports whether the expression obviously doesn't evaluate to a string.
pub(crate) fn is_no_string(expr: &Expr) -> bool
    ensures { result ≡ is_no_string (term expr.now) }
{
    match expr {
        Expr::Literal(value) => !value.as_str().is_some(),
        Expr::Binary(operator, left, right) => {
            !may_join(*operator) || is_no_string(left) || is_no_string(right)
        }
        Expr::Cond(_, yes, no) => is_no_string(yes) || is_no_string(no),
        Expr::Has(_, _) | Expr::Unary(_, _) | Expr::List(_) | Expr::Map(_) | Expr::Macro { .. } =>
            true,
        _ => false,
    }
}
