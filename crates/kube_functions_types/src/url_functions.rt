//! Functions on URLs.
ghost use Rattle.std.specs.Prelude.{◌≡◌, ℕ, List, Ok, codes, is_some, option_map, string_bytes, OnOk, IfOk};
ghost use Rattle.std.specs.BTreeMap.{get_by_text};
ghost use Rattle.cel_value.specs.Data as plain;
ghost use Rattle.cel_value.specs.Keys.{put};
ghost use Rattle.cel_value.specs.View.{view, entries_view};
ghost use Rattle.cel_semantics.specs.Outcome.{outcome_view};
ghost use Rattle.kube_types.specs.Url.Query.{values_of};
ghost use Rattle.kube_types.specs.Url.Reading.{url_of};
ghost use Rattle.kube_types.specs.Url.Shown.{url_view, texts};
ghost use Rattle.kube_functions_types.specs.Answers.{refusal, value_or};
ghost use Rattle.kube_functions_types.specs.Lists.{text_list};
ghost use Rattle.kube_functions_types.specs.Url as spec;

use crate::answers::{refusal, text_answer, text_values, wrong_kind};
use cel_semantics::Answer;
use cel_value::{Entries, Key, Refused, Text, Value};
use kube_types::KubeUrl;
use std::alloc::Global;
use std::collections::BTreeMap;
use std::rc::Rc;

fn url_or(alloc: Global, url: Option<KubeUrl>) -> Result<Answer, Refused>
    ensures value { IfOk result (λ r. outcome_view r
        ≡ value_or (refusal (codes "url") (codes "invalid URL")) plain.url (option_map url_view url)) }
{
    match url {
        Some(url) => Ok(Ok(Value::Url(Rc::new(alloc, url)?))),
        None => refusal(alloc, "url", "invalid URL"),
    }
}

/// `url`: parses a string as a URL or an absolute path. A string that is neither is an error.
///
/// # Errors
/// [`Refused::Memory`] if memory is refused. [`Refused::TooLarge`]
/// if the URL is too large, as [`KubeUrl::read`] reports it.
pub fn url(alloc: Global, value: &Value) -> Result<Answer, Refused>
    ensures value { IfOk result (λ r. outcome_view r ≡ spec.url_from (view value.now)) }
{
    match value {
        Value::String(text) => {
            let url = KubeUrl::read(alloc, text.as_str())?;
            url_or(alloc, url)
        }
        _ => wrong_kind(alloc, "url"),
    }
}

/// `isURL`: reports whether a string parses as a URL or an absolute path.
///
/// # Errors
/// [`Refused::Memory`] if memory is refused. [`Refused::TooLarge`]
/// if the URL is too large, as [`KubeUrl::read`] reports it.
pub fn is_url(alloc: Global, value: &Value) -> Result<Answer, Refused>
    ensures value { IfOk result (λ r. outcome_view r ≡ spec.is_url (view value.now)) }
{
    match value {
        Value::String(text) => {
            let url = KubeUrl::read(alloc, text.as_str())?;
            Ok(Ok(Value::Bool(url.is_some())))
        }
        _ => wrong_kind(alloc, "isURL"),
    }
}

// A part borrowed from the URL's text, copied into an answer.
fn lent_answer(alloc: Global, part: &str) -> Result<Answer, Refused>
    ensures value { IfOk result (λ r. outcome_view r ≡ Ok (plain.text part.now)) }
{
    text_answer(alloc, String::from_str(alloc, part)?)
}

/// `getScheme`: returns the scheme of a URL, which is empty for a path.
///
/// # Errors
/// [`Refused::Memory`] if memory is refused.
pub fn scheme(alloc: Global, value: &Value) -> Result<Answer, Refused>
    ensures value { IfOk result (λ r. outcome_view r ≡ spec.get_scheme (view value.now)) }
{
    match value {
        Value::Url(url) => lent_answer(alloc, url.as_ref().scheme_str()),
        _ => wrong_kind(alloc, "getScheme"),
    }
}

/// `getHost`: returns the host of a URL, with its port
/// unless that is absent or the default of the scheme.
///
/// # Errors
/// [`Refused::Memory`] if memory is refused.
pub fn host(alloc: Global, value: &Value) -> Result<Answer, Refused>
    ensures value { IfOk result (λ r. outcome_view r ≡ spec.get_host (view value.now)) }
{
    match value {
        Value::Url(url) => text_answer(alloc, url.as_ref().host(alloc)?),
        _ => wrong_kind(alloc, "getHost"),
    }
}

/// `getHostname`: returns the host of a URL, without port and brackets.
///
/// # Errors
/// [`Refused::Memory`] if memory is refused.
pub fn hostname(alloc: Global, value: &Value) -> Result<Answer, Refused>
    ensures value { IfOk result (λ r. outcome_view r ≡ spec.get_hostname (view value.now)) }
{
    match value {
        Value::Url(url) => lent_answer(alloc, url.as_ref().hostname_str()),
        _ => wrong_kind(alloc, "getHostname"),
    }
}

/// `getPort`: returns the port of a URL in decimal, or an
/// empty string if it is absent or the default of the scheme.
///
/// # Errors
/// [`Refused::Memory`] if memory is refused.
pub fn port(alloc: Global, value: &Value) -> Result<Answer, Refused>
    ensures value { IfOk result (λ r. outcome_view r ≡ spec.get_port (view value.now)) }
{
    match value {
        Value::Url(url) => text_answer(alloc, url.as_ref().port(alloc)?),
        _ => wrong_kind(alloc, "getPort"),
    }
}

/// `getEscapedPath`: returns the path of a URL, percent-encoded.
///
/// # Errors
/// [`Refused::Memory`] if memory is refused.
pub fn escaped_path(alloc: Global, value: &Value) -> Result<Answer, Refused>
    ensures value { IfOk result (λ r. outcome_view r ≡ spec.get_escaped_path (view value.now)) }
{
    match value {
        Value::Url(url) => lent_answer(alloc, url.as_ref().escaped_path_str()),
        _ => wrong_kind(alloc, "getEscapedPath"),
    }
}

// Adds a name with the list of its values.
fn add_values(
    entries: &mut Entries,
    alloc: Global,
    name: String,
    values: Vec<String>,
) -> Result<(), Refused>
    ensures written { OnOk result (entries_view entries.new.entries
        ≡ put (plain.text_key (string_bytes name))
        (text_list (texts values)) (entries_view entries.old.entries)) }
{
    let name = Text::of(alloc, name)?;
    let items = text_values(alloc, values)?;
    let list = Value::from_items(alloc, items)?;
    entries.insert(Key::String(name), list)?;
    Ok(())
}

// Converts the map to one of values.
fn map_of(alloc: Global, query: BTreeMap<String, Vec<String>>) -> Result<Entries, Refused>
    ensures value { IfOk result (λ m. (pairs : List (List ℕ × List ℕ))
        → ((name : List ℕ) → option_map texts (get_by_text query name) ≡ values_of pairs name)
        → entries_view m.entries ≡ spec.entries_among pairs pairs) }
{
    let mut entries = Entries::new(alloc);
    for (name, values) in query {
        add_values(&mut entries, alloc, name, values)?;
    }
    Ok(entries)
}

fn query_map(alloc: Global, url: &KubeUrl) -> Result<Entries, Refused>
    ensures value { IfOk result (λ m. entries_view m.entries
        ≡ spec.entries_among (spec.query_pairs (url_view url.now)) (spec.query_pairs (url_view url.now))) }
{
    let query = url.query(alloc)?;
    let entries = map_of(alloc, query)?;
    Ok(entries)
}

/// `getQuery`: returns a map from each name in a URL's query to the list of its values, in order.
///
/// # Errors
/// [`Refused::Memory`] if memory is refused.
pub fn query(alloc: Global, value: &Value) -> Result<Answer, Refused>
    ensures value { IfOk result (λ r. outcome_view r ≡ spec.get_query (view value.now)) }
{
    match value {
        Value::Url(url) => {
            let entries = query_map(alloc, url.as_ref())?;
            Ok(Ok(Value::from_entries(alloc, entries)?))
        }
        _ => wrong_kind(alloc, "getQuery"),
    }
}
