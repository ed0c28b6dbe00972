//! Builds the forms that CEL-Go's syntax stands for.

ghost use Rattle.std.specs.Prelude.{◌≡◌, ◌∷◌, [], IfOk, map};
ghost use Rattle.cel_syntax_ast.specs.Term as tree;
ghost use Rattle.cel_syntax_ast.specs.Term.{term, terms_of};
ghost use Rattle.kube_server_translation.specs.Forms as form;

use crate::terms::{
    alone, call, empty, filtered, first, has, method, null, one, over, qualified, second, string,
    truth, two,
};
use cel_syntax_ast::{BinaryOperator, Expr, MacroKind, binary, both, conditional, ident, select};
use std::alloc::{AllocError, Global};

/// The value of `@value`.
pub fn its_value(alloc: Global) -> Result<Expr, AllocError>
    ensures { IfOk result (λ e. term e ≡ form.its_value) }
{
    ident(alloc, "@value")
}

/// A body in which a name has a value.
pub fn bound(alloc: Global, name: &str, value: Expr, body: Expr) -> Result<Expr, AllocError>
    ensures { IfOk result (λ e. term e ≡ form.bound name.now (term value) (term body)) }
{
    let (list, body) = both(alone(alloc, value), Ok(body))?;
    let list = over(alloc, MacroKind::Map, list, name, body)?;
    first(alloc, list)
}

/// Each item of a list as a body makes it of `@value`.
pub fn each(alloc: Global, list: Expr, body: Expr) -> Result<Expr, AllocError>
    ensures { IfOk result (λ e. term e ≡ form.each (term list) (term body)) }
{
    over(alloc, MacroKind::Map, list, "@value", body)
}

// ---- lists of at most one item

pub fn is_held(alloc: Global, list: Expr) -> Result<Expr, AllocError>
    ensures { IfOk result (λ e. term e ≡ form.is_held (term list)) }
{
    over(alloc, MacroKind::Exists, list, "@value", truth(true))
}

fn its_list(alloc: Global) -> Result<Expr, AllocError>
    ensures { IfOk result (λ e. term e ≡ form.its_list) }
{
    ident(alloc, "@held")
}

fn list_is_held(alloc: Global) -> Result<Expr, AllocError>
    ensures { IfOk result (λ e. term e ≡ form.is_held form.its_list) }
{
    is_held(alloc, its_list(alloc)?)
}

fn list_item(alloc: Global) -> Result<Expr, AllocError>
    ensures { IfOk result (λ e. term e ≡ form.item form.its_list 0) }
{
    first(alloc, its_list(alloc)?)
}

/// The item of `@held`, or else another expression.
fn its_item_or(alloc: Global, other: Expr) -> Result<Expr, AllocError>
    ensures { IfOk result (λ e. term e
        ≡ tree.conditional (form.is_held form.its_list) (form.item form.its_list 0) (term other)) }
{
    let (test, (item, other)) = both(list_is_held(alloc), both(list_item(alloc), Ok(other)))?;
    conditional(alloc, test, item, other)
}

pub fn item_or(alloc: Global, list: Expr, other: Expr) -> Result<Expr, AllocError>
    ensures { IfOk result (λ e. term e ≡ form.item_or (term list) (term other)) }
{
    let (body, list) = both(its_item_or(alloc, other), Ok(list))?;
    bound(alloc, "@held", list, body)
}

// ---- optionals

pub fn none(alloc: Global) -> Result<Expr, AllocError>
    ensures { IfOk result (λ e. term e ≡ form.none) }
{
    qualified(alloc, "optional.none", Vec::new(alloc))
}

pub fn some(alloc: Global, value: Expr) -> Result<Expr, AllocError>
    ensures { IfOk result (λ e. term e ≡ form.some (term value)) }
{
    qualified(alloc, "optional.of", one(alloc, value)?)
}

pub fn has_value(alloc: Global, optional: Expr) -> Result<Expr, AllocError>
    ensures { IfOk result (λ e. term e ≡ form.has_value (term optional)) }
{
    method(alloc, optional, "hasValue", Vec::new(alloc))
}

pub fn held_value(alloc: Global, optional: Expr) -> Result<Expr, AllocError>
    ensures { IfOk result (λ e. term e ≡ form.held_value (term optional)) }
{
    method(alloc, optional, "value", Vec::new(alloc))
}

pub fn its_has_value(alloc: Global) -> Result<Expr, AllocError>
    ensures { IfOk result (λ e. term e ≡ form.has_value form.its_value) }
{
    has_value(alloc, its_value(alloc)?)
}

fn its_held_value(alloc: Global) -> Result<Expr, AllocError>
    ensures { IfOk result (λ e. term e ≡ form.held_value form.its_value) }
{
    held_value(alloc, its_value(alloc)?)
}

pub fn list_in(alloc: Global, optional: Expr) -> Result<Expr, AllocError>
    ensures { IfOk result (λ e. term e ≡ form.list_in (term optional)) }
{
    let list = alone(alloc, optional);
    let (list, (test, value)) = both(list, both(its_has_value(alloc), its_held_value(alloc)))?;
    filtered(alloc, MacroKind::Map, list, "@value", test, value)
}

fn some_value(alloc: Global) -> Result<Expr, AllocError>
    ensures { IfOk result (λ e. term e ≡ form.some form.its_value) }
{
    some(alloc, its_value(alloc)?)
}

pub fn optional_in(alloc: Global, list: Expr) -> Result<Expr, AllocError>
    ensures { IfOk result (λ e. term e ≡ form.optional_in (term list)) }
{
    let (body, list) = both(some_value(alloc), Ok(list))?;
    let (list, none) = both(each(alloc, list, body), none(alloc))?;
    item_or(alloc, list, none)
}

// ---- members that may be absent

fn no_members(alloc: Global) -> Result<Expr, AllocError>
    ensures { IfOk result (λ e. term e ≡ form.no_members) }
{
    let name = string(alloc, "")?;
    call(alloc, "_?._", two(alloc, null(), name)?)
}

/// Whether a value, which is given twice, has a member.
fn has_or_limit(alloc: Global, value: Expr, again: Expr, name: &str) -> Result<Expr, AllocError>
    ensures { IfOk result (λ e. term e ≡ form.has_or_limit (term value) (term again) name.now) }
{
    let value = has(alloc, value, name);
    let (limit, (value, again)) = both(no_members(alloc), both(value, has(alloc, again, name)))?;
    let (value, again) = both(binary(alloc, BinaryOperator::And, limit, value), Ok(again))?;
    binary(alloc, BinaryOperator::Or, value, again)
}

fn value_is_set(alloc: Global, name: &str) -> Result<Expr, AllocError>
    ensures { IfOk result (λ e. term e ≡ form.is_set form.its_value name.now) }
{
    let (value, again) = both(its_value(alloc), its_value(alloc))?;
    has_or_limit(alloc, value, again, name)
}

fn value_member(alloc: Global, name: &str) -> Result<Expr, AllocError>
    ensures { IfOk result (λ e. term e ≡ tree.select form.its_value name.now) }
{
    select(alloc, its_value(alloc)?, name)
}

pub fn members_in(alloc: Global, list: Expr, name: &str) -> Result<Expr, AllocError>
    ensures { IfOk result (λ e. term e ≡ form.members_in (term list) name.now) }
{
    let test = value_is_set(alloc, name);
    let (list, (test, member)) = both(Ok(list), both(test, value_member(alloc, name)))?;
    filtered(alloc, MacroKind::Map, list, "@value", test, member)
}

// ---- the member of a path

/// Reports whether the tree is a path.
pub fn is_path(tree: &Expr) -> bool
    ensures { result ≡ form.is_path (term tree.now) }
{
    match tree {
        Expr::Ident(_) => true,
        Expr::Select(operand, _) => is_path(operand),
        _ => false,
    }
}

/// A copy of a path; what isn't one is null.
pub fn copied(alloc: Global, path: &Expr) -> Result<Expr, AllocError>
    ensures { IfOk result (λ e. term e ≡ form.copied (term path.now)) }
{
    match path {
        Expr::Ident(name) => ident(alloc, name.as_str()),
        Expr::Select(operand, name) => select(alloc, copied(alloc, operand)?, name.as_str()),
        _ => Ok(null()),
    }
}

fn path_is_set(alloc: Global, path: &Expr, name: &str) -> Result<Expr, AllocError>
    ensures { IfOk result (λ e. term e ≡ form.is_set (form.copied (term path.now)) name.now) }
{
    let (value, again) = both(copied(alloc, path), copied(alloc, path))?;
    has_or_limit(alloc, value, again, name)
}

fn if_set_in(
    alloc: Global,
    path: &Expr,
    name: &str,
    present: Expr,
    absent: Expr,
) -> Result<Expr, AllocError>
    ensures { IfOk result (λ e. term e ≡ tree.conditional (form.is_set (form.copied (term path.now)) name.now)
        (term present) (term absent)) }
{
    let (test, (present, absent)) = both(path_is_set(alloc, path, name), Ok((present, absent)))?;
    conditional(alloc, test, present, absent)
}

fn has_again(alloc: Global, operand: &Expr, name: &str) -> Result<Expr, AllocError>
    ensures { IfOk result (λ e. term e ≡ tree.has (form.copied (term operand.now)) name.now) }
{
    has(alloc, copied(alloc, operand)?, name)
}

/// What is given for a path that has the member, or what is given for one that hasn't.
pub fn if_set(
    alloc: Global,
    path: &Expr,
    name: &str,
    present: Expr,
    absent: Expr,
) -> Result<Expr, AllocError>
    ensures { IfOk result (λ e. term e
        ≡ form.if_set (form.copied (term path.now)) name.now (term present) (term absent)) }
{
    let inner = if_set_in(alloc, path, name, present, absent)?;
    match path {
        Expr::Select(operand, field) => {
            let test = has_again(alloc, operand, field.as_str());
            let (inner, (test, error)) = both(Ok(inner), both(test, copied(alloc, path)))?;
            conditional(alloc, test, inner, error)
        }
        _ => Ok(inner),
    }
}

/// The selection of a member of a path.
pub fn path_member(alloc: Global, path: &Expr, name: &str) -> Result<Expr, AllocError>
    ensures { IfOk result (λ e. term e ≡ tree.select (form.copied (term path.now)) name.now) }
{
    select(alloc, copied(alloc, path)?, name)
}

// ---- lists and maps with optional parts

pub fn joined(alloc: Global, lists: Vec<Expr>) -> Result<Expr, AllocError>
    ensures { IfOk result (λ e. term e ≡ form.joined (terms_of (map term lists.items))) }
{
    method(alloc, Expr::List(lists), "flatten", Vec::new(alloc))
}

/// A map of one entry.
pub fn map_of_one(alloc: Global, key: Expr, value: Expr) -> Result<Expr, AllocError>
    ensures { IfOk result (λ e. term e
        ≡ tree.map_with (tree.pair_and (term key) (term value) tree.no_pairs)) }
{
    Ok(Expr::Map(one(alloc, (key, value))?))
}

fn its_entry(alloc: Global) -> Result<Expr, AllocError>
    ensures { IfOk result (λ e. term e
        ≡ tree.map_with (tree.pair_and (form.its_key) form.its_value tree.no_pairs)) }
{
    let (key, value) = both(ident(alloc, "@key"), its_value(alloc))?;
    map_of_one(alloc, key, value)
}

pub fn maps_with(alloc: Global, key: Expr, list: Expr) -> Result<Expr, AllocError>
    ensures { IfOk result (λ e. term e ≡ form.maps_with (term key) (term list)) }
{
    let (entry, (key, list)) = both(its_entry(alloc), Ok((key, list)))?;
    let (body, key) = both(each(alloc, list, entry), Ok(key))?;
    bound(alloc, "@key", key, body)
}

// ---- two variables

pub fn pairs_of(alloc: Global, range: Expr) -> Result<Expr, AllocError>
    ensures { IfOk result (λ e. term e ≡ form.pairs_of (term range)) }
{
    call(alloc, "@pairs", one(alloc, range)?)
}

pub fn its_first(alloc: Global) -> Result<Expr, AllocError>
    ensures { IfOk result (λ e. term e ≡ form.item form.its_pair 0) }
{
    first(alloc, ident(alloc, "@pair")?)
}

fn its_second(alloc: Global) -> Result<Expr, AllocError>
    ensures { IfOk result (λ e. term e ≡ form.item form.its_pair 1) }
{
    second(alloc, ident(alloc, "@pair")?)
}

pub fn with_both(
    alloc: Global,
    first_name: &str,
    second_name: &str,
    body: Expr,
) -> Result<Expr, AllocError>
    ensures { IfOk result (λ e. term e ≡ form.with_both first_name.now second_name.now (term body)) }
{
    let (value, body) = both(its_second(alloc), Ok(body))?;
    let inner = bound(alloc, second_name, value, body);
    let (value, inner) = both(its_first(alloc), inner)?;
    bound(alloc, first_name, value, inner)
}

/// The list of the first of the pair, and a value.
pub fn keyed(alloc: Global, value: Expr) -> Result<Expr, AllocError>
    ensures { IfOk result (λ e. term e ≡ tree.list_of (form.two (form.item form.its_pair 0) (term value))) }
{
    let (key, value) = both(its_first(alloc), Ok(value))?;
    Ok(Expr::List(two(alloc, key, value)?))
}

pub fn map_of_pairs(alloc: Global, list: Expr) -> Result<Expr, AllocError>
    ensures { IfOk result (λ e. term e ≡ form.map_of_pairs (term list)) }
{
    call(alloc, "@map_of_pairs", one(alloc, list)?)
}

pub fn map_of_maps(alloc: Global, list: Expr) -> Result<Expr, AllocError>
    ensures { IfOk result (λ e. term e ≡ form.map_of_maps (term list)) }
{
    call(alloc, "@map_of_maps", one(alloc, list)?)
}

// ---- types

pub fn type_of(alloc: Global, value: Expr) -> Result<Expr, AllocError>
    ensures { IfOk result (λ e. term e ≡ form.type_of (term value)) }
{
    call(alloc, "type", one(alloc, value)?)
}

pub fn type_name(alloc: Global, value: Expr) -> Result<Expr, AllocError>
    ensures { IfOk result (λ e. term e ≡ form.type_name (term value)) }
{
    call(alloc, "@type_name", one(alloc, value)?)
}
