//! Macros, recognized by their names and numbers of arguments.

ghost use Rattle.std.specs.Prelude.{◌≡◌, ◌∷◌, [], map, vec_len, option_map, MatchOption, Some, None, IfOk};
ghost use Rattle.cel_syntax_ast.specs.Term as tree;
ghost use Rattle.cel_syntax_ast.specs.Term.{term};
ghost use Rattle.cel_syntax_ast.specs.Calls as spec;

use crate::expr::{Expr, MacroKind};
use crate::owned::{both, boxed, in_box};
use crate::words::is_word;
use cel_value::Text;
use std::alloc::{AllocError, Global};

#[tactic(auto, unfolding(crate::specs::Calls::kind_of_two))]
fn kind_of_two(name: &[u8]) -> Option<MacroKind>
    ensures { result ≡ spec.kind_of_two name.now }
{
    if is_word(name, b"all") {
        Some(MacroKind::All)
    } else if is_word(name, b"exists") {
        Some(MacroKind::Exists)
    } else if is_word(name, b"exists_one") {
        Some(MacroKind::ExistsOne)
    } else if is_word(name, b"map") {
        Some(MacroKind::Map)
    } else if is_word(name, b"filter") {
        Some(MacroKind::Filter)
    } else {
        None
    }
}

#[tactic(auto, unfolding(crate::specs::Calls::kind_of_three))]
fn kind_of_three(name: &[u8]) -> Option<MacroKind>
    ensures { result ≡ spec.kind_of_three name.now }
{
    if is_word(name, b"map") {
        Some(MacroKind::Map)
    } else {
        None
    }
}

/// The macro with this name and this number of arguments, if any.
#[tactic(auto, unfolding(crate::specs::Calls::kind_of))]
pub(crate) fn kind_of(name: &[u8], count: usize) -> Option<MacroKind>
    ensures { result ≡ spec.kind_of name.now count }
{
    if count == 2 {
        kind_of_two(name)
    } else if count == 3 {
        kind_of_three(name)
    } else {
        None
    }
}

#[tactic(auto, using(crate::proofs::Arguments::two_terms))]
fn two(mut args: Vec<Expr>) -> (Expr, Expr)
    requires { vec_len args ≡ 2 }
    ensures { map term args.items ≡ term result.0 ∷ term result.1 ∷ [] }
{
    let second = args.remove(1);
    let first = args.remove(0);
    (first, second)
}

#[tactic(auto, using(crate::proofs::Arguments::three_terms))]
fn three(mut args: Vec<Expr>) -> (Expr, Expr, Expr)
    requires { vec_len args ≡ 3 }
    ensures { map term args.items ≡ term result.0 ∷ term result.1 ∷ term result.2 ∷ [] }
{
    let third = args.remove(2);
    let second = args.remove(1);
    let first = args.remove(0);
    (first, second, third)
}

/// Returns the name of a macro's variable, or None if the tree isn't a plain identifier.
fn variable_of(tree: Expr) -> Option<Text>
    ensures { MatchOption result (spec.identifier_of (term tree) ≡ None)
        (λ name. spec.identifier_of (term tree) ≡ Some name) }
{
    match tree {
        Expr::Ident(name) => Some(name),
        other => {
            drop(other);
            None
        }
    }
}

fn unfiltered(kind: MacroKind, range: Box<Expr>, variable: Text, body: Box<Expr>) -> Expr
    ensures { term result
        ≡ tree.macro kind (term range.value) variable tree.no_terms (term body.value) }
{
    Expr::Macro {
        kind,
        range,
        variable,
        filter: None,
        body,
    }
}

fn filtered(
    kind: MacroKind,
    range: Box<Expr>,
    variable: Text,
    filter: Box<Expr>,
    body: Box<Expr>,
) -> Expr
    ensures { term result ≡ tree.macro kind (term range.value) variable
        (tree.term_and (term filter.value) tree.no_terms) (term body.value) }
{
    Expr::Macro {
        kind,
        range,
        variable,
        filter: Some(filter),
        body,
    }
}

fn macro_of_two(
    alloc: Global,
    kind: MacroKind,
    range: Expr,
    variable: Text,
    body: Expr,
) -> Result<Expr, AllocError>
    ensures { IfOk result (λ e. term e ≡ tree.macro kind (term range)
        variable tree.no_terms (term body)) }
{
    let (range, body) = boxed(alloc, range, body)?;
    Ok(unfiltered(kind, range, variable, body))
}

fn macro_of_three(
    alloc: Global,
    kind: MacroKind,
    range: Expr,
    variable: Text,
    filter: Expr,
    body: Expr,
) -> Result<Expr, AllocError>
    ensures { IfOk result
        (λ e. term e ≡ tree.macro kind (term range) variable
        (tree.term_and (term filter) tree.no_terms) (term body)) }
{
    let (range, (filter, body)) = both(in_box(alloc, range), boxed(alloc, filter, body))?;
    Ok(filtered(kind, range, variable, filter, body))
}

fn with_body(
    alloc: Global,
    kind: MacroKind,
    range: Expr,
    args: (Expr, Expr),
) -> Result<Option<Expr>, AllocError>
    ensures { IfOk result
        (λ answer. option_map term answer
        ≡ spec.macro_with kind (term range) (spec.identifier_of (term args.0)) tree.no_terms (term args.1)) }
{
    let (name, body) = args;
    match variable_of(name) {
        Some(variable) => Ok(Some(macro_of_two(alloc, kind, range, variable, body)?)),
        None => {
            drop((range, body));
            Ok(None)
        }
    }
}

fn with_filter(
    alloc: Global,
    kind: MacroKind,
    range: Expr,
    args: (Expr, Expr, Expr),
) -> Result<Option<Expr>, AllocError>
    ensures { IfOk result
        (λ answer. option_map term answer
        ≡ spec.macro_with kind (term range) (spec.identifier_of (term args.0))
        (tree.term_and (term args.1) tree.no_terms) (term args.2)) }
{
    let (name, filter, body) = args;
    match variable_of(name) {
        Some(variable) => Ok(Some(macro_of_three(alloc, kind, range, variable, filter, body)?)),
        None => {
            drop((range, filter, body));
            Ok(None)
        }
    }
}

#[tactic(auto, using(crate::proofs::Arguments::macro_of_others))]
pub(crate) fn macro_of(
    alloc: Global,
    kind: MacroKind,
    range: Expr,
    args: Vec<Expr>,
) -> Result<Option<Expr>, AllocError>
    ensures { IfOk result (λ answer. option_map term answer
        ≡ spec.macro_of kind (term range) (map term args.items)) }
{
    match args.len() {
        2 => with_body(alloc, kind, range, two(args)),
        3 => with_filter(alloc, kind, range, three(args)),
        _ => {
            drop((range, args));
            Ok(None)
        }
    }
}

pub(crate) fn has(argument: Expr) -> Option<Expr>
    ensures { option_map term result ≡ spec.has_of (term argument ∷ []) }
{
    match argument {
        Expr::Select(operand, name) => Some(Expr::Has(operand, name)),
        other => {
            drop(other);
            None
        }
    }
}

#[tactic(auto, using(crate::proofs::Arguments::one_term))]
pub(crate) fn one(mut args: Vec<Expr>) -> Expr
    requires { vec_len args ≡ 1 }
    ensures { map term args.items ≡ term result ∷ [] }
{
    args.remove(0)
}
