//! The kinds of calls: macros, functions whose names contain a dot, and ordinary calls.

ghost use Rattle.std.specs.Prelude.{◌≡◌, map, option_map, IfOk};
ghost use Rattle.cel_syntax_ast.specs.Term as tree;
ghost use Rattle.cel_syntax_ast.specs.Term.{term, terms_of};
ghost use Rattle.cel_syntax_ast.specs.Calls as spec;

use crate::expr::Expr;
use crate::macros::{has, kind_of, macro_of, one};
use crate::owned::{both, in_box};
use crate::qualified::qualified_name;
use crate::words::is_word;
use cel_value::Text;
use std::alloc::{AllocError, Global};

fn call_on(target: Box<Expr>, name: Text, args: Vec<Expr>) -> Expr
    ensures { term result ≡ tree.call (tree.term_and (term target.value) tree.no_terms)
        name (terms_of (map term args.items)) }
{
    Expr::Call {
        target: Some(target),
        name,
        args,
    }
}

fn method_call(alloc: Global, target: Expr, name: &str, args: Vec<Expr>) -> Result<Expr, AllocError>
    ensures { IfOk result (λ e. term e ≡ tree.call (tree.term_and (term target) tree.no_terms)
        name.now (terms_of (map term args.items))) }
{
    let target = in_box(alloc, target);
    let (name, (target, args)) = both(Text::of_str(alloc, name), both(target, Ok(args)))?;
    Ok(call_on(target, name, args))
}

#[tactic(auto, unfolding(crate::specs::Calls::plain_method))]
fn plain_method(
    alloc: Global,
    target: Expr,
    name: &str,
    args: Vec<Expr>,
) -> Result<Expr, AllocError>
    ensures { IfOk result (λ e. term e
        ≡ spec.plain_method (term target) name.now (map term args.items)) }
{
    let found = qualified_name(alloc, &target, name);
    let (found, (target, args)) = both(found, Ok((target, args)))?;
    match found {
        Some(name) => {
            drop(target);
            Ok(Expr::Qualified { name, args })
        }
        None => method_call(alloc, target, name, args),
    }
}

/// Returns the node of a method call on a target, or `None` if it is a malformed macro.
#[tactic(auto, using(crate::proofs::Arguments::length_terms), unfolding(crate::specs::Calls::method_of))]
pub fn method(
    alloc: Global,
    target: Expr,
    name: &str,
    args: Vec<Expr>,
) -> Result<Option<Expr>, AllocError>
    ensures { IfOk result (λ answer. option_map term answer
        ≡ spec.method_of (term target) name.now (map term args.items)) }
{
    match kind_of(name.as_bytes(), args.len()) {
        Some(kind) => macro_of(alloc, kind, target, args),
        None => Ok(Some(plain_method(alloc, target, name, args)?)),
    }
}

/// Returns the node of a global function call, or `None` if it is a malformed macro.
#[tactic(auto, using(crate::proofs::Arguments::length_terms), unfolding(crate::specs::Calls::call_of))]
pub fn call(alloc: Global, name: &str, args: Vec<Expr>) -> Result<Option<Expr>, AllocError>
    ensures { IfOk result (λ answer. option_map term answer
        ≡ spec.call_of name.now (map term args.items)) }
{
    if is_word(name.as_bytes(), b"has") && args.len() == 1 {
        return Ok(has(one(args)));
    }
    let (name, args) = both(Text::of_str(alloc, name), Ok(args))?;
    Ok(Some(Expr::Call {
        target: None,
        name,
        args,
    }))
}

/// Returns the highest level of a node's parts, given that of its arguments.
pub fn parts_level(tree: &Expr, level: usize) -> usize
    ensures { result ≡ spec.parts_level (term tree.now) level }
{
    match tree {
        Expr::Has(_, _) => level.saturating_sub(1),
        _ => level,
    }
}
