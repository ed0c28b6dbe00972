//! The byte spans of matches.
ghost use Rattle.std.specs.Prelude.{◌≡◌, ◌↔◌, All, IfOk, IsTrue, map};
ghost use Rattle.regex.specs.Patterns.{find_all_str, span};
ghost use Rattle.regex.specs.Strings.{matcher_pattern, matches_haystack, spans_left};
ghost use Rattle.cel_patterns.specs.Book.{first_of, IsSpanIn};

use regex::{Matcher, Matches};
use std::alloc::{AllocError, Global};

/// Reports whether the count has reached the limit.
fn is_full(limit: Option<usize>, count: usize) -> bool
    ensures { IsTrue result ↔ (limit ≡ Some count) }
{
    match limit {
        Some(most) => most == count,
        None => false,
    }
}

/// Returns the byte spans of the remaining matches: the first `limit` of them, or all.
fn spans_of(
    alloc: Global,
    found: Matches<'_, '_, '_>,
    limit: Option<usize>,
) -> Result<Vec<(usize, usize)>, AllocError>
    ensures value { IfOk result (λ v. v.items ≡ first_of limit (spans_left found.entry)) }
    ensures within { IfOk result (λ v. All (IsSpanIn (matches_haystack found.entry)) v.items) }
{
    let mut spans = Vec::new(alloc);
    for m in found {
        if is_full(limit, spans.as_slice().len()) {
            return Ok(spans);
        }
        spans.push((m.start(), m.end()))?;
    }
    Ok(spans)
}

/// Returns the byte spans where the matcher's pattern matches: the first `limit` of them, or all.
pub(crate) fn spans_in(
    alloc: Global,
    matcher: &mut Matcher<'_>,
    text: &str,
    limit: Option<usize>,
) -> Result<Vec<(usize, usize)>, AllocError>
    ensures value { IfOk result
        (λ v. v.items ≡ first_of limit (map span (find_all_str (matcher_pattern matcher.old) text.now))) }
    ensures within { IfOk result (λ v. All (IsSpanIn text.now) v.items) }
{
    spans_of(alloc, matcher.find_iter(text), limit)
}
