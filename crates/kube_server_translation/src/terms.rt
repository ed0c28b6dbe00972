//! Builds nodes from their parts. Parts are held by generic functions, so that the proofs see
//! nothing of trees over an exit.

ghost use Rattle.std.specs.Prelude.{◌≡◌, ◌∷◌, [], IfOk, map};
ghost use Rattle.cel_value.specs.Data.{bool as bool_data, int, null, text};
ghost use Rattle.cel_syntax_ast.specs.Term as tree;
ghost use Rattle.cel_syntax_ast.specs.Term.{term, terms_of};
ghost use Rattle.kube_server_translation.specs.Forms as form;

use cel_syntax_ast::{Expr, MacroKind, both, index};
use cel_value::{Text, Value};
use std::alloc::{AllocError, Global};

/// A vector of one item.
pub fn one<A: Drop>(alloc: Global, first: A) -> Result<Vec<A>, AllocError>
    ensures { IfOk result (λ v. v.items ≡ first ∷ []) }
{
    let mut items = Vec::new(alloc);
    items.push(first)?;
    Ok(items)
}

/// A vector of two items.
pub fn two<A: Drop>(alloc: Global, first: A, second: A) -> Result<Vec<A>, AllocError>
    ensures { IfOk result (λ v. v.items ≡ first ∷ second ∷ []) }
{
    let mut items = Vec::new(alloc);
    items.push(first)?;
    items.push(second)?;
    Ok(items)
}

fn in_box<A: Drop>(alloc: Global, value: A) -> Result<Box<A>, AllocError>
    ensures { IfOk result (λ b. b.value ≡ value) }
{
    Ok(Box::new(alloc, value)?)
}

fn boxed<A: Drop, B: Drop>(
    alloc: Global,
    first: A,
    second: B,
) -> Result<(Box<A>, Box<B>), AllocError>
    ensures { IfOk result (λ pair. (pair.0.value ≡ first) × (pair.1.value ≡ second)) }
{
    both(in_box(alloc, first), in_box(alloc, second))
}

// ---- literals

pub fn null() -> Expr
    ensures { term result ≡ tree.literal null }
{
    Expr::Literal(Value::Null)
}

pub fn truth(value: bool) -> Expr
    ensures { term result ≡ tree.literal (bool_data value) }
{
    Expr::Literal(Value::Bool(value))
}

pub fn string(alloc: Global, value: &str) -> Result<Expr, AllocError>
    ensures { IfOk result (λ e. term e ≡ tree.literal (text value.now)) }
{
    Ok(Expr::Literal(Value::String(Text::of_str(alloc, value)?)))
}

// ---- nodes

pub fn has(alloc: Global, operand: Expr, name: &str) -> Result<Expr, AllocError>
    ensures { IfOk result (λ e. term e ≡ tree.has (term operand) name.now) }
{
    let (operand, name) = both(in_box(alloc, operand), Text::of_str(alloc, name))?;
    Ok(Expr::Has(operand, name))
}

/// A call of a function.
pub fn call(alloc: Global, name: &str, args: Vec<Expr>) -> Result<Expr, AllocError>
    ensures { IfOk result (λ e. term e ≡ tree.call tree.no_terms name.now (terms_of (map term args.items))) }
{
    let (name, args) = both(Text::of_str(alloc, name), Ok(args))?;
    Ok(Expr::Call {
        target: None,
        name,
        args,
    })
}

/// A call of a function whose name has a dot.
pub fn qualified(alloc: Global, name: &str, args: Vec<Expr>) -> Result<Expr, AllocError>
    ensures { IfOk result (λ e. term e ≡ tree.qualified name.now (terms_of (map term args.items))) }
{
    let (name, args) = both(Text::of_str(alloc, name), Ok(args))?;
    Ok(Expr::Qualified { name, args })
}

fn call_on(target: Box<Expr>, name: Text, args: Vec<Expr>) -> Expr
    ensures { term result ≡ tree.call (form.one (term target.value)) name (terms_of (map term args.items)) }
{
    Expr::Call {
        target: Some(target),
        name,
        args,
    }
}

/// A call on a target.
pub fn method(alloc: Global, target: Expr, name: &str, args: Vec<Expr>) -> Result<Expr, AllocError>
    ensures { IfOk result (λ e. term e
        ≡ tree.call (form.one (term target)) name.now (terms_of (map term args.items))) }
{
    let target = in_box(alloc, target);
    let (name, (target, args)) = both(Text::of_str(alloc, name), both(target, Ok(args)))?;
    Ok(call_on(target, name, args))
}

fn macro_over(kind: MacroKind, range: Box<Expr>, variable: Text, body: Box<Expr>) -> Expr
    ensures { term result
        ≡ tree.macro kind (term range.value) variable tree.no_terms (term body.value) }
{
    Expr::Macro {
        kind,
        range,
        variable,
        filter: None,
        body,
    }
}

fn macro_with(
    kind: MacroKind,
    range: Box<Expr>,
    variable: Text,
    filter: Box<Expr>,
    body: Box<Expr>,
) -> Expr
    ensures { term result
        ≡ tree.macro kind (term range.value) variable (form.one (term filter.value)) (term body.value) }
{
    Expr::Macro {
        kind,
        range,
        variable,
        filter: Some(filter),
        body,
    }
}

/// A macro without a filter.
pub fn over(
    alloc: Global,
    kind: MacroKind,
    range: Expr,
    variable: &str,
    body: Expr,
) -> Result<Expr, AllocError>
    ensures { IfOk result (λ e. term e ≡ tree.macro kind (term range) variable.now tree.no_terms (term body)) }
{
    let (variable, (range, body)) = both(Text::of_str(alloc, variable), boxed(alloc, range, body))?;
    Ok(macro_over(kind, range, variable, body))
}

/// A macro with a filter.
pub fn filtered(
    alloc: Global,
    kind: MacroKind,
    range: Expr,
    variable: &str,
    filter: Expr,
    body: Expr,
) -> Result<Expr, AllocError>
    ensures { IfOk result (λ e. term e
        ≡ tree.macro kind (term range) variable.now (form.one (term filter)) (term body)) }
{
    let filter = both(Text::of_str(alloc, variable), in_box(alloc, filter));
    let ((variable, filter), (range, body)) = both(filter, boxed(alloc, range, body))?;
    Ok(macro_with(kind, range, variable, filter, body))
}

/// A list of no items.
pub fn empty(alloc: Global) -> Expr
    ensures { term result ≡ tree.list_of tree.no_terms }
{
    Expr::List(Vec::new(alloc))
}

/// A list of one item.
pub fn alone(alloc: Global, item: Expr) -> Result<Expr, AllocError>
    ensures { IfOk result (λ e. term e ≡ tree.list_of (form.one (term item))) }
{
    Ok(Expr::List(one(alloc, item)?))
}

/// The first item of a list.
pub fn first(alloc: Global, list: Expr) -> Result<Expr, AllocError>
    ensures { IfOk result (λ e. term e ≡ form.item (term list) 0) }
{
    index(alloc, list, Expr::Literal(Value::Int(0)))
}

/// The second item of a list.
pub fn second(alloc: Global, list: Expr) -> Result<Expr, AllocError>
    ensures { IfOk result (λ e. term e ≡ form.item (term list) 1) }
{
    index(alloc, list, Expr::Literal(Value::Int(1)))
}
