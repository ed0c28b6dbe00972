//! Finds out whether expressions read a member of a name.
ghost use Rattle.cel_syntax_ast.specs.Term.{pairs_of, term, terms_of};
ghost use Rattle.kube_manifests_names.specs.Uses.{asks, asks_in_any, asks_in_pairs, is_name};
ghost use Rattle.std.specs.Prelude.{◌≡◌, map};

use cel_syntax_ast::Expr;

/// Reports whether an expression is just this name.
fn is_name(expr: &Expr, name: &str) -> bool
    ensures { result ≡ is_name name.now (term expr.now) }
{
    match expr {
        Expr::Ident(found) => name == found.as_str(),
        Expr::Literal(_) => false,
        Expr::Select(_, _) => false,
        Expr::Has(_, _) => false,
        Expr::Index(_, _) => false,
        Expr::Unary(_, _) => false,
        Expr::Binary(_, _, _) => false,
        Expr::Cond(_, _, _) => false,
        Expr::List(_) => false,
        Expr::Map(_) => false,
        Expr::Call {
            target: _,
            name: _,
            args: _,
        } => false,
        Expr::Qualified { name: _, args: _ } => false,
        Expr::Macro {
            kind: _,
            range: _,
            variable: _,
            filter: _,
            body: _,
        } => false,
    }
}

/// Reports whether an expression reads a member of a free name: by `has`, by using the name as a
/// whole or, if `selects` is true, by selecting that member.
#[cycle(uses)]
pub fn asks(expr: &Expr, name: &str, member: &str, selects: bool) -> bool
    ensures { result ≡ asks name.now member.now selects (term expr.now) }
{
    match expr {
        Expr::Literal(_) => false,
        Expr::Ident(found) => name == found.as_str(),
        Expr::Select(operand, found) => {
            if is_name(operand, name) {
                selects && member == found.as_str()
            } else {
                asks(operand, name, member, selects)
            }
        }
        Expr::Has(operand, found) => {
            if is_name(operand, name) {
                member == found.as_str()
            } else {
                asks(operand, name, member, selects)
            }
        }
        Expr::Index(operand, index) => {
            asks(operand, name, member, selects) || asks(index, name, member, selects)
        }
        Expr::Unary(_, operand) => asks(operand, name, member, selects),
        Expr::Binary(_, left, right) => {
            asks(left, name, member, selects) || asks(right, name, member, selects)
        }
        Expr::Cond(test, yes, no) => {
            asks(test, name, member, selects)
                || asks(yes, name, member, selects)
                || asks(no, name, member, selects)
        }
        Expr::List(items) => any_asks(items, name, member, selects),
        Expr::Map(pairs) => pairs_ask(pairs, name, member, selects),
        Expr::Call {
            target,
            name: _,
            args,
        } => {
            (match target {
                Some(target) => asks(target, name, member, selects),
                None => false,
            }) || any_asks(args, name, member, selects)
        }
        Expr::Qualified { name: _, args } => any_asks(args, name, member, selects),
        Expr::Macro {
            kind: _,
            range,
            variable,
            filter,
            body,
        } => {
            asks(range, name, member, selects)
                || name != variable.as_str()
                    && (match filter {
                        Some(filter) => asks(filter, name, member, selects),
                        None => false,
                    } || asks(body, name, member, selects))
        }
    }
}

/// Reports whether any of these expressions reads the member.
#[cycle(uses)]
fn any_asks(items: &Vec<Expr>, name: &str, member: &str, selects: bool) -> bool
    ensures { result ≡ asks_in_any name.now member.now selects (terms_of (map term items.now.items)) }
{
    for item in items {
        if asks(item, name, member, selects) {
            return true;
        }
    }
    false
}

/// Reports whether any of these keys and values reads the member.
#[cycle(uses)]
fn pairs_ask(pairs: &Vec<(Expr, Expr)>, name: &str, member: &str, selects: bool) -> bool
    ensures { result ≡ asks_in_pairs name.now member.now selects
        (pairs_of (map (λ p. (term p.0, term p.1)) pairs.now.items)) }
{
    for pair in pairs {
        if asks(&pair.0, name, member, selects) || asks(&pair.1, name, member, selects) {
            return true;
        }
    }
    false
}
