//! Says why an object isn't judged.
ghost use Rattle.kube_manifests.specs.Explanations.{explanation, is_missing, is_of_near_kind, is_of_near_version, kind_explanation, listed, meant, names_of, no_kind_text, no_text, no_version_text, not_served_text, or_none, served_explanation, sought_explanation, version_explanation};
ghost use Rattle.kube_manifests.specs.Lists.{version_view};
ghost use Rattle.kube_manifests.specs.Versions.{is_of_kind};
ghost use Rattle.kube_manifests_documents.specs.Defined.{type_meta_view};
ghost use Rattle.serde_json.specs.Find.{get};
ghost use Rattle.serde_json.specs.View.{view};
ghost use Rattle.std.specs.List.{find};
ghost use Rattle.std.specs.Prelude.{◌≡◌, IfOk, map, option_map, string_bytes};
ghost use Rattle.std.specs.Str.{chars};

use crate::judgement::NotJudged;
use crate::version::CrdVersion;
use kube_manifests_documents::{TypeMeta, type_meta_of};
use kube_manifests_texts::{joined, letters_of};
use serde_json::Value;
use std::alloc::{AllocError, Global};

/// The version of the group of this apiVersion whose kind is near this one, which has these
/// characters, if any.
fn of_near_kind<'s>(
    versions: &'s [CrdVersion],
    api_version: &str,
    kind: &str,
    letters: &[char],
) -> Option<&'s CrdVersion>
    requires { letters.now ≡ chars kind.now }
    ensures { option_map (λ v. version_view v.now) result
        ≡ find (is_of_near_kind api_version.now kind.now) (map version_view versions.now) }
{
    for version in versions {
        if version.is_of_near_kind(api_version, kind, letters) {
            return Some(version);
        }
    }
    None
}

/// The version of this kind whose apiVersion is near this one, if any.
fn of_near_version<'s>(
    alloc: Global,
    versions: &'s [CrdVersion],
    api_version: &str,
    kind: &str,
) -> Result<Option<&'s CrdVersion>, AllocError>
    ensures { IfOk result (λ o. option_map (λ v. version_view v.now) o
        ≡ find (is_of_near_version api_version.now kind.now) (map version_view versions.now)) }
{
    for version in versions {
        if version.is_of_near_version(alloc, api_version, kind)? {
            return Ok(Some(version));
        }
    }
    Ok(None)
}

/// The kind or the apiVersion that was probably meant, if one is near.
fn meant<'s>(
    alloc: Global,
    versions: &'s [CrdVersion],
    api_version: &str,
    kind: &str,
) -> Result<Option<&'s str>, AllocError>
    ensures { IfOk result (λ o. option_map (λ s. s.now) o
        ≡ meant (map version_view versions.now) api_version.now kind.now) }
{
    let letters = letters_of(alloc, kind)?;
    if let Some(version) = of_near_kind(versions, api_version, kind, letters.as_slice()) {
        return Ok(Some(version.root.kind.as_str()));
    }
    match of_near_version(alloc, versions, api_version, kind)? {
        Some(version) => Ok(Some(version.root.api_version.as_str())),
        None => Ok(None),
    }
}

/// Returns the text, or `none` if it is empty.
fn or_none(alloc: Global, text: String) -> Result<String, AllocError>
    ensures { IfOk result (λ s. string_bytes s ≡ or_none (string_bytes text)) }
{
    if text.is_empty() {
        String::from_str(alloc, "none")
    } else {
        Ok(text)
    }
}

/// The names of the versions of the group and kind of this one, or only of those that are served,
/// with a comma between each two.
fn names(
    alloc: Global,
    versions: &[CrdVersion],
    of: &CrdVersion,
    all: bool,
) -> Result<String, AllocError>
    ensures { IfOk result (λ s. string_bytes s ≡ listed (names_of all
        (version_view of.now).group (version_view of.now).kind (map version_view versions.now))) }
{
    let names = names_of(alloc, versions, of, all)?;
    or_none(alloc, joined(alloc, names.as_slice())?)
}

/// The names of the versions of the group and kind of this one, or only of those that are served.
fn names_of<'s>(
    alloc: Global,
    versions: &'s [CrdVersion],
    of: &CrdVersion,
    all: bool,
) -> Result<Vec<&'s str>, AllocError>
    ensures { IfOk result (λ v. map (λ s. s.now) v.items ≡ names_of all
        (version_view of.now).group (version_view of.now).kind (map version_view versions.now)) }
{
    let group = of.root.api_group.as_str();
    let kind = of.root.kind.as_str();
    let mut names = Vec::new(alloc);
    for version in versions {
        if version.is_defined(group, kind) && (all || version.served) {
            names.push(version.name.as_str())?;
        }
    }
    Ok(names)
}

/// The first version of the kind and of the group of this apiVersion, if any.
fn of_kind<'s>(versions: &'s [CrdVersion], api_version: &str, kind: &str) -> Option<&'s CrdVersion>
    ensures { option_map (λ v. version_view v.now) result
        ≡ find (is_of_kind api_version.now kind.now) (map version_view versions.now) }
{
    for version in versions {
        if version.is_of_kind(api_version, kind) {
            return Some(version);
        }
    }
    None
}

/// Says that no definition has the group and kind, and which name was probably meant.
fn no_kind_text(
    alloc: Global,
    api_version: &str,
    kind: &str,
    meant: Option<&str>,
) -> Result<String, AllocError>
    ensures { IfOk result (λ s. string_bytes s
        ≡ no_kind_text api_version.now kind.now (option_map (λ m. m.now) meant.entry)) }
{
    match meant {
        None => format!(in alloc; "no CustomResourceDefinition for {kind} of {api_version}"),
        Some(name) => {
            format!(in alloc;
                "no CustomResourceDefinition for {kind} of {api_version} (did you mean {name}?)"
            )
        }
    }
}

/// Says that no definition has the group and kind.
fn kind_text(
    alloc: Global,
    versions: &[CrdVersion],
    api_version: &str,
    kind: &str,
) -> Result<String, AllocError>
    ensures { IfOk result (λ s. string_bytes s
        ≡ kind_explanation (map version_view versions.now) api_version.now kind.now) }
{
    let name = meant(alloc, versions, api_version, kind)?;
    no_kind_text(alloc, api_version, kind, name)
}

/// Says that a definition has no such version, and which it has.
fn no_version_text(
    alloc: Global,
    api_version: &str,
    kind: &str,
    names: &str,
) -> Result<String, AllocError>
    ensures { IfOk result (λ s. string_bytes s ≡ no_version_text api_version.now kind.now names.now) }
{
    format!(in alloc; "{api_version} isn't a version of {kind} (its versions: {names})")
}

/// Says that a version isn't served, and which are.
fn not_served_text(
    alloc: Global,
    api_version: &str,
    kind: &str,
    names: &str,
) -> Result<String, AllocError>
    ensures { IfOk result (λ s. string_bytes s ≡ not_served_text api_version.now kind.now names.now) }
{
    format!(in alloc; "{api_version} of {kind} isn't served (served: {names})")
}

/// Says that the definition has no such version.
fn version_text(
    alloc: Global,
    versions: &[CrdVersion],
    api_version: &str,
    kind: &str,
) -> Result<String, AllocError>
    ensures { IfOk result (λ s. string_bytes s ≡ version_explanation (map version_view versions.now)
        api_version.now kind.now (find (is_of_kind api_version.now kind.now) (map version_view versions.now))) }
{
    match of_kind(versions, api_version, kind) {
        None => NotJudged::NoSuchVersion.to_string(alloc),
        Some(version) => {
            let names = names(alloc, versions, version, true)?;
            no_version_text(alloc, api_version, kind, names.as_str())
        }
    }
}

/// Says that the version isn't served.
fn served_text(
    alloc: Global,
    versions: &[CrdVersion],
    api_version: &str,
    kind: &str,
) -> Result<String, AllocError>
    ensures { IfOk result (λ s. string_bytes s ≡ served_explanation (map version_view versions.now)
        api_version.now kind.now (find (is_of_kind api_version.now kind.now) (map version_view versions.now))) }
{
    match of_kind(versions, api_version, kind) {
        None => NotJudged::NotServed.to_string(alloc),
        Some(version) => {
            let names = names(alloc, versions, version, false)?;
            not_served_text(alloc, api_version, kind, names.as_str())
        }
    }
}

/// Reports whether a member isn't there, is null, or is an empty string.
fn is_missing(member: Option<&Value>) -> bool
    ensures { result ≡ is_missing (option_map (λ v. view v.now) member.entry) }
{
    match member {
        None | Some(Value::Null) => true,
        Some(Value::String(text)) => text.as_str() == "",
        Some(_) => false,
    }
}

/// Says that a member isn't there, or isn't a string.
fn no_text(alloc: Global, object: &Value, key: &str) -> Result<String, AllocError>
    ensures { IfOk result (λ s. string_bytes s ≡ no_text key.now (get key.now (view object.now))) }
{
    if is_missing(object.get(key)) {
        format!(in alloc; "no {key}")
    } else {
        format!(in alloc; "{key} isn't a string")
    }
}

/// Says why an object isn't judged for which this was looked for.
fn sought_text(
    alloc: Global,
    versions: &[CrdVersion],
    sought: Option<TypeMeta<'_>>,
    reason: NotJudged,
) -> Result<String, AllocError>
    ensures { IfOk result (λ s. string_bytes s ≡ sought_explanation (map version_view versions.now)
        (option_map type_meta_view sought.entry) reason) }
{
    let Some(sought) = sought else {
        return reason.to_string(alloc);
    };
    let (api_version, kind) = (sought.api_version, sought.kind);
    match reason {
        NotJudged::NoSuchKind => kind_text(alloc, versions, api_version, kind),
        NotJudged::NoSuchVersion => version_text(alloc, versions, api_version, kind),
        NotJudged::NotServed => served_text(alloc, versions, api_version, kind),
        NotJudged::NotAnObject | NotJudged::NoApiVersion | NotJudged::NoKind => {
            reason.to_string(alloc)
        }
    }
}

/// Says why an object isn't judged by these versions, for this reason.
#[tactic(auto, unfolding(crate::specs::Explanations::explanation))]
pub(crate) fn explained(
    alloc: Global,
    versions: &[CrdVersion],
    object: &Value,
    reason: NotJudged,
) -> Result<String, AllocError>
    ensures { IfOk result (λ s. string_bytes s
        ≡ explanation (map version_view versions.now) (view object.now) reason) }
{
    match reason {
        NotJudged::NotAnObject => reason.to_string(alloc),
        NotJudged::NoApiVersion => no_text(alloc, object, "apiVersion"),
        NotJudged::NoKind => no_text(alloc, object, "kind"),
        NotJudged::NoSuchKind | NotJudged::NoSuchVersion | NotJudged::NotServed => {
            sought_text(alloc, versions, type_meta_of(object), reason)
        }
    }
}
