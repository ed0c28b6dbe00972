//! The free names of an expression.
ghost use Rattle.std.specs.Prelude.{◌≡◌, map};
ghost use Rattle.cel_syntax_ast.specs.FreeNames.{is_free, is_free_in_any, is_free_in_pairs};
ghost use Rattle.cel_syntax_ast.specs.Term.{term, terms_of, pairs_of};

use crate::expr::Expr;

impl Expr {
    /// Reports whether the name is free in the expression: it occurs
    /// as an identifier that no enclosing macro binds.
    #[cycle(free)]
    pub fn has_free_name(&self, name: &str) -> bool
        ensures { result ≡ is_free name.now (term self.now) }
    {
        match self {
            Expr::Literal(_) => false,
            Expr::Ident(found) => name == found.as_str(),
            Expr::Select(operand, _) => operand.has_free_name(name),
            Expr::Has(operand, _) => operand.has_free_name(name),
            Expr::Index(operand, index) => {
                operand.has_free_name(name) || index.has_free_name(name)
            }
            Expr::Unary(_, operand) => operand.has_free_name(name),
            Expr::Binary(_, left, right) => left.has_free_name(name) || right.has_free_name(name),
            Expr::Cond(test, yes, no) => {
                test.has_free_name(name) || yes.has_free_name(name) || no.has_free_name(name)
            }
            Expr::List(items) => any_has_free_name(items, name),
            Expr::Map(pairs) => pairs_have_free_name(pairs, name),
            Expr::Call {
                target,
                name: _,
                args,
            } => {
                (match target {
                    Some(target) => target.has_free_name(name),
                    None => false,
                }) || any_has_free_name(args, name)
            }
            Expr::Qualified { name: _, args } => any_has_free_name(args, name),
            Expr::Macro {
                kind: _,
                range,
                variable,
                filter,
                body,
            } => {
                range.has_free_name(name)
                    || name != variable.as_str()
                        && (match filter {
                            Some(filter) => filter.has_free_name(name),
                            None => false,
                        } || body.has_free_name(name))
            }
        }
    }
}

/// Reports whether the name is free in one of the expressions.
#[cycle(free)]
fn any_has_free_name(items: &Vec<Expr>, name: &str) -> bool
    ensures { result ≡ is_free_in_any name.now (terms_of (map term items.now.items)) }
{
    for item in items {
        if item.has_free_name(name) {
            return true;
        }
    }
    false
}

/// Reports whether the name is free in one of the keys and values.
#[cycle(free)]
fn pairs_have_free_name(pairs: &Vec<(Expr, Expr)>, name: &str) -> bool
    ensures { result
        ≡ is_free_in_pairs name.now (pairs_of (map (λ p. (term p.0, term p.1)) pairs.now.items)) }
{
    for pair in pairs {
        if pair.0.has_free_name(name) || pair.1.has_free_name(name) {
            return true;
        }
    }
    false
}
