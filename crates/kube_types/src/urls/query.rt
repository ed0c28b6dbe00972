//! The query of a URL: splitting it, and the map from names to values.
ghost use Rattle.form_urlencoded.specs.Form.{decode};
ghost use Rattle.std.specs.BTreeMap.{get_by_text};
ghost use Rattle.std.specs.List.{slice_split};
ghost use Rattle.std.specs.Option.{option_map};
ghost use Rattle.std.specs.Prelude.{◌≡◌, ◌==◌, ◌++◌, ◌∷◌, [], ℕ, List, map, IfOk, OnOk, Some, string_bytes, if◌then◌else◌};
ghost use Rattle.std.specs.Str.{bytes_eq};
ghost use Rattle.kube_types.specs.Url.Query.{decoded_text, name_of, value_of, pairs_of, values_of, values_or_none};
ghost use Rattle.kube_types.specs.Url.Shown.{pair_texts, texts};

use std::alloc::{AllocError, Global};
use std::collections::BTreeMap;

/// Decodes a name or a value to UTF-8.
fn decoded_text(alloc: Global, text: &str) -> Result<String, AllocError>
    ensures { IfOk result (λ plain. string_bytes plain ≡ decoded_text text.now) }
{
    form_urlencoded::decode(alloc, text.as_bytes())?.into_owned(alloc)
}

/// The pieces of a query, separated by `&`.
fn pieces<'a>(alloc: Global, query: &'a str) -> Result<Vec<&'a str>, AllocError>
    ensures { IfOk result
        (λ pieces. map (λ piece. piece.now) pieces.items ≡ slice_split (λ b. b == 38) query.now) }
{
    query.split('&').collect(alloc)
}

/// The name and the value of a piece, as written.
fn name_and_value(piece: &str) -> (&str, &str)
    ensures name { result.0.now ≡ name_of piece.now }
    ensures value { result.1.now ≡ value_of piece.now }
{
    match piece.split_once('=') {
        Some((name, value)) => (name, value),
        None => (piece, ""),
    }
}

/// The name and the value of a piece, decoded.
fn pair(alloc: Global, piece: &str) -> Result<(String, String), AllocError>
    ensures { IfOk result (λ pair. pair_texts pair
        ≡ (decoded_text (name_of piece.now), decoded_text (value_of piece.now))) }
{
    let (name, value) = name_and_value(piece);
    let name = decoded_text(alloc, name)?;
    Ok((name, decoded_text(alloc, value)?))
}

/// The names and values of a query, decoded and in order.
pub(crate) fn pairs(alloc: Global, query: &str) -> Result<Vec<(String, String)>, AllocError>
    ensures answer { IfOk result (λ pairs. map pair_texts pairs.items ≡ pairs_of query.now) }
{
    let pieces = pieces(alloc, query)?;
    let mut pairs = Vec::new(alloc);
    for piece in &pieces {
        if !piece.is_empty() {
            pairs.push(pair(alloc, piece)?)?;
        }
    }
    Ok(pairs)
}

/// Adds a value after the others of its name.
fn add_value(
    query: &mut BTreeMap<String, Vec<String>>,
    alloc: Global,
    name: String,
    value: String,
) -> Result<(), AllocError>
    ensures answer { OnOk result ((other : List ℕ) → option_map texts (get_by_text query.new other)
        ≡ (if bytes_eq other (string_bytes name)
        then Some (values_or_none (option_map texts (get_by_text query.old other)) ++ string_bytes value ∷ [])
        else option_map texts (get_by_text query.old other))) }
{
    query.entry(name)?.or_insert(Vec::new(alloc)).push(value)?;
    Ok(())
}

/// Groups the values by name, in order.
pub(crate) fn grouped(
    alloc: Global,
    pairs: Vec<(String, String)>,
) -> Result<BTreeMap<String, Vec<String>>, AllocError>
    ensures answer { IfOk result (λ query. (name : List ℕ)
        → option_map texts (get_by_text query name) ≡ values_of (map pair_texts pairs.items) name) }
{
    let mut query = BTreeMap::new(alloc);
    for (name, value) in pairs {
        add_value(&mut query, alloc, name, value)?;
    }
    Ok(query)
}
