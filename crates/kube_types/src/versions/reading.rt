//! Reads the text of a version, part by part.
ghost use Rattle.semver.specs.Identifiers.{parts_of};
ghost use Rattle.semver.specs.Order.{parts as parts_between_dots};
ghost use Rattle.std.specs.List.{list_all};
ghost use Rattle.std.specs.Option.{option_map};
ghost use Rattle.std.specs.Prelude.{◌≡◌, length, map, Some, IfOk, IsOk, string_bytes};
ghost use Rattle.kube_types.specs.Version.Reading.{core_of, tail_of, without_v, is_number, number_text, full_text, normal_text, strictly, IsPlain};
ghost use Rattle.kube_types.specs.Version.Shown.{parts};

use crate::versions::version::KubeSemver;
use semver::Version;
use std::alloc::{AllocError, Global};

/// A copy of a text. To copy an empty one takes no memory.
#[tactic(auto, using(std::proofs::lemmas::List::nil_from_length))]
fn copied(alloc: Global, text: &str) -> Result<String, AllocError>
    ensures text { IfOk result (λ copy. string_bytes copy ≡ text.now) }
    ensures empty { length text.now ≡ 0 → IsOk result }
{
    if text.is_empty() {
        Ok(String::new(alloc))
    } else {
        String::from_str(alloc, text)
    }
}

/// The version with these parts.
fn of_version(alloc: Global, version: &Version) -> Result<KubeSemver, AllocError>
    ensures parts { IfOk result (λ same. parts same ≡ parts_of version.now) }
    ensures plain { IsPlain (Some (parts_of version.now)) → IsOk result }
{
    Ok(KubeSemver {
        major: version.major,
        minor: version.minor,
        patch: version.patch,
        pre: copied(alloc, version.pre.as_str())?,
        build: copied(alloc, version.build.as_str())?,
    })
}

/// Parses a version by SemVer 2.0, or returns None if the text isn't one.
#[tactic(auto, unfolding(crate::specs::Version::Reading::strictly), using(crate::proofs::Version::Texts::plain_read))]
pub(crate) fn strict_version(alloc: Global, text: &str) -> Result<Option<KubeSemver>, AllocError>
    ensures answer { IfOk result (λ version. option_map parts version ≡ strictly text.now) }
    ensures plain { IsPlain (strictly text.now) → IsOk result }
{
    match Version::parse(alloc, text) {
        Ok(version) => Ok(Some(of_version(alloc, &version)?)),
        Err(error) => {
            if error == semver::Error::from(AllocError) {
                Err(AllocError)
            } else {
                Ok(None)
            }
        }
    }
}

/// The text without one leading `v` or `V`.
pub(crate) fn without_v(text: &str) -> &str
    ensures { result.now ≡ without_v text.now }
{
    if let Some(rest) = text.strip_prefix('v') {
        return rest;
    }
    if let Some(rest) = text.strip_prefix('V') {
        return rest;
    }
    text
}

/// The text before the first hyphen, and the rest from the hyphen on.
fn split_at_hyphen(text: &str) -> (&str, &str)
    ensures core { result.0.now ≡ core_of text.now }
    ensures tail { result.1.now ≡ tail_of text.now }
{
    match text.find('-') {
        Some(offset) => text.split_at(offset),
        None => (text, ""),
    }
}

/// Reports whether the part is one or more digits and nothing else.
fn is_number(part: &str) -> bool
    ensures { result ≡ is_number part.now }
{
    !part.is_empty() && part.as_bytes().iter().all(|byte| byte.is_ascii_digit())
}

/// Reports whether each part is one or more digits and nothing else.
fn are_numbers(parts: &[&str]) -> bool
    ensures { result ≡ list_all (λ part. is_number part.now) parts.now }
{
    parts.iter().all(|part| is_number(part))
}

/// The number without its leading zeros.
fn number_text(digits: &str) -> &str
    ensures { result.now ≡ number_text digits.now }
{
    let number = digits.trim_start_matches('0');
    if number.is_empty() { "0" } else { number }
}

/// The parts of a text between its dots.
fn parts_of<'a>(alloc: Global, text: &'a str) -> Result<Vec<&'a str>, AllocError>
    ensures { IfOk result (λ parts. map (λ part. part.now) parts.items ≡ parts_between_dots text.now) }
{
    text.split('.').collect(alloc)
}

/// Three numbers in full, followed by the tail. None if
/// there is no part, or if there are more than three.
fn full_text(alloc: Global, parts: &[&str], tail: &str) -> Result<Option<String>, AllocError>
    ensures { IfOk result
        (λ text. option_map string_bytes text ≡ full_text (map (λ part. part.now) parts.now) tail.now) }
{
    match parts {
        [major] => {
            let major = number_text(major);
            Ok(Some(format!(in alloc; "{major}.0.0{tail}")?))
        }
        [major, minor] => {
            let major = number_text(major);
            let minor = number_text(minor);
            Ok(Some(format!(in alloc; "{major}.{minor}.0{tail}")?))
        }
        [major, minor, patch] => {
            let major = number_text(major);
            let minor = number_text(minor);
            let patch = number_text(patch);
            Ok(Some(format!(in alloc; "{major}.{minor}.{patch}{tail}")?))
        }
        [] => Ok(None),
        [_, _, _, _, ..] => Ok(None),
    }
}

/// The text with three numbers in full if the part before its first
/// hyphen is numbers separated by dots, or else the text itself. None
/// if there are more than three numbers. The text has no leading `v`.
pub(crate) fn normal_text(alloc: Global, text: &str) -> Result<Option<String>, AllocError>
    ensures answer { IfOk result (λ full. option_map string_bytes full ≡ normal_text text.now) }
{
    let (core, tail) = split_at_hyphen(text);
    let parts = parts_of(alloc, core)?;
    if are_numbers(parts.as_slice()) {
        let full = full_text(alloc, parts.as_slice(), tail)?;
        Ok(full)
    } else {
        let same = String::from_str(alloc, text)?;
        Ok(Some(same))
    }
}
