//! Functions whose names contain a dot, between the name of a library and that of the function.

ghost use Rattle.std.specs.Prelude.{◌≡◌, ◌∷◌, ◌++◌, IfOk, MatchOption, Some, None, map};
ghost use Rattle.cel_syntax_ast.specs.Term.{term};
ghost use Rattle.cel_syntax_ast.specs.Calls as spec;

use crate::expr::Expr;
use crate::words::{is_one_of, is_word};
use cel_value::Text;
use std::alloc::{AllocError, Global};

const OF_LISTS: [&[u8]; 1] = [b"range"];

const OF_SETS: [&[u8]; 3] = [b"contains", b"equivalent", b"intersects"];

const OF_STRINGS: [&[u8]; 1] = [b"quote"];

const OF_MATH: [&[u8]; 10] = [
    b"abs",
    b"sign",
    b"greatest",
    b"least",
    b"bitAnd",
    b"bitOr",
    b"bitXor",
    b"bitNot",
    b"bitShiftLeft",
    b"bitShiftRight",
];

const OF_BASE64: [&[u8]; 2] = [b"encode", b"decode"];

const OF_JSONPATCH: [&[u8]; 1] = [b"escapeKey"];

const OF_IP: [&[u8]; 1] = [b"isCanonical"];

const OF_FORMAT: [&[u8]; 14] = [
    b"named",
    b"dns1123Label",
    b"dns1123Subdomain",
    b"dns1035Label",
    b"dns1123LabelPrefix",
    b"dns1123SubdomainPrefix",
    b"dns1035LabelPrefix",
    b"qualifiedName",
    b"labelValue",
    b"uri",
    b"uuid",
    b"byte",
    b"date",
    b"datetime",
];

/// The names of a library's functions, without the library's name and the dot.
#[tactic(auto, unfolding(crate::specs::Calls::functions_of))]
fn functions_of(library: &[u8]) -> &'static [&'static [u8]]
    ensures { map (λ w. w.now) result.now ≡ spec.functions_of library.now }
{
    if is_word(library, b"lists") {
        &OF_LISTS
    } else if is_word(library, b"sets") {
        &OF_SETS
    } else if is_word(library, b"strings") {
        &OF_STRINGS
    } else if is_word(library, b"math") {
        &OF_MATH
    } else if is_word(library, b"base64") {
        &OF_BASE64
    } else if is_word(library, b"jsonpatch") {
        &OF_JSONPATCH
    } else if is_word(library, b"ip") {
        &OF_IP
    } else if is_word(library, b"format") {
        &OF_FORMAT
    } else {
        &[]
    }
}

#[tactic(auto, unfolding(crate::specs::Calls::is_qualified))]
fn is_qualified(library: &[u8], function: &[u8]) -> bool
    ensures { result ≡ spec.is_qualified library.now function.now }
{
    is_one_of(function, functions_of(library))
}

/// Joins the two names with a dot.
fn dotted(alloc: Global, library: &str, function: &str) -> Result<Text, AllocError>
    ensures { IfOk result (λ name. name ≡ library.now ++ (46 ∷ function.now)) }
{
    let mut name = String::from_str(alloc, library)?;
    name.push('.')?;
    name.push_str(function)?;
    Text::of(alloc, name)
}

/// The name, if the tree is a plain identifier.
fn identifier_of(tree: &Expr) -> Option<&Text>
    ensures { MatchOption result (spec.identifier_of (term tree.now) ≡ None)
        (λ name. spec.identifier_of (term tree.now) ≡ Some name.now) }
{
    match tree {
        Expr::Ident(name) => Some(name),
        _ => None,
    }
}

/// Returns the full name of a function whose name contains
/// a dot, if the call is one of such a function.
pub(crate) fn qualified_name(
    alloc: Global,
    target: &Expr,
    name: &str,
) -> Result<Option<Text>, AllocError>
    ensures { IfOk result
        (λ answer. MatchOption answer (spec.dotted_by (spec.identifier_of (term target.now)) name.now ≡ None)
        (λ whole. spec.dotted_by (spec.identifier_of (term target.now)) name.now
        ≡ Some whole)) }
{
    match identifier_of(target) {
        Some(library) if is_qualified(library.as_str().as_bytes(), name.as_bytes()) => {
            Ok(Some(dotted(alloc, library.as_str(), name)?))
        }
        _ => Ok(None),
    }
}
