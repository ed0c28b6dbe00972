//! A built pattern, with the tables that its searches fill.
ghost use Rattle.std.specs.Prelude.{◌≡◌, All, IfOk, IfSome, IsSome, string_bytes};
ghost use Rattle.regex_compile.specs.Implements.{Implements};
ghost use Rattle.regex_dfa.specs.Search.{IsForwardFor};
ghost use Rattle.regex_hir.specs.Meaning.{meaning};
ghost use Rattle.std.specs.Option.{ForSome};
ghost use Rattle.cel_patterns.specs.Book.{IsSpanIn};
ghost use Rattle.cel_patterns.specs.Built.{FindsAll, IsDfaOf, IsRegexOf, IsMatchAnswer};

use crate::spans::spans_in;
use regex::Regex;
use regex_dfa::{Dfa, End, Forward};
use regex_hir::Hir;
use regex_nfa::BuildError;
use regex_syntax::{Config, ErrorKind};
use std::alloc::{AllocError, Global};

/// The number of bytes that the tables of a pattern may take, as for `Regex::new`.
const MOST_BYTES: usize = 10 << 20;

/// The number of bytes that the searches of a pattern may store.
const STORED_BYTES: usize = 1 << 18;

/// Returns the states that search for what the tree means, or `None` if they would be too large.
fn states_of(alloc: Global, tree: &Hir, groups: usize) -> Result<Option<Dfa>, AllocError>
    ensures states { IfOk result (λ found. IfSome found (λ dfa. Implements dfa.nfa (meaning tree.now))) }
{
    let Ok(groups) = u32::try_from(groups) else {
        return Ok(None);
    };
    let nfa = match regex_compile::compile(alloc, tree, groups, MOST_BYTES) {
        Ok(nfa) => nfa,
        Err(regex_compile::Error::OutOfMemory) => return Err(AllocError),
        Err(_) => return Ok(None),
    };
    match Dfa::new(alloc, nfa) {
        Ok(dfa) => Ok(Some(dfa)),
        Err(BuildError::OutOfMemory) => Err(AllocError),
        Err(_) => Ok(None),
    }
}

/// Returns the states of a pattern text, or `None` if the
/// text is refused for another reason than memory.
fn dfa_of(alloc: Global, text: &str) -> Result<Option<Dfa>, AllocError>
    ensures built { IfOk result (λ found. IfSome found (IsDfaOf text.now)) }
{
    match regex_syntax::parse(alloc, text, &Config::default()) {
        Ok(parsed) => states_of(alloc, &parsed.hir, parsed.names.len()),
        Err(error) => match error.kind {
            ErrorKind::OutOfMemory => Err(AllocError),
            _ => Ok(None),
        },
    }
}

/// Returns the regex of a text that was built before. It can only fail for lack of memory.
fn regex_of(alloc: Global, text: &str) -> Result<Regex, AllocError>
    ensures built { IfOk result (IsRegexOf text.now) }
{
    match Regex::new(alloc, text) {
        Ok(regex) => Ok(regex),
        Err(_) => Err(AllocError),
    }
}

/// A pattern text with the states that search for it, and its regex if one was needed.
///
/// The states remember transitions from earlier searches, so
/// that a later one reads one table cell per byte.
pub(crate) struct Pattern {
    pub(crate) text: String,
    dfa: Dfa,
    table: Forward,
    regex: Option<Regex>,
    pub(crate) ghost states: { IsDfaOf (string_bytes text) dfa },
    ghost own: { IsForwardFor table dfa },
    ghost same: { ForSome regex (IsRegexOf (string_bytes text)) },
}

// By hand, so that a proof about code that owns one doesn't go through its parts.
impl Drop for Pattern {
    fn drop(self) {
        let Pattern {
            text: _,
            dfa: _,
            table: _,
            regex: _,
        } = self;
    }
}

impl Pattern {
    /// Builds the pattern of a text, or returns `None` if the
    /// text is refused for another reason than memory.
    pub(crate) fn new(alloc: Global, text: &str) -> Result<Option<Pattern>, AllocError>
        ensures text { IfOk result (λ found. IfSome found (λ p. string_bytes p.text ≡ text.now)) }
    {
        let Some(dfa) = dfa_of(alloc, text)? else {
            return Ok(None);
        };
        let table = Forward::with_budget(alloc, &dfa, false, STORED_BYTES)?;
        Ok(Some(Pattern {
            text: String::from_str(alloc, text)?,
            dfa,
            table,
            regex: None,
        }))
    }

    /// The approximate number of bytes that the pattern may
    /// take, with its regex and what its searches store.
    pub(crate) fn weight(&self) -> usize {
        let parts = self.dfa.nfa.states.len() + self.dfa.nfa.transitions.len();
        STORED_BYTES.saturating_add(parts.saturating_mul(64))
    }

    /// Reports whether the pattern matches anywhere in an ASCII text, using its states only.
    /// Returns `None` if they give up, or the text isn't ASCII.
    fn tabled(&mut self, text: &str) -> Option<bool>
        ensures found { IfSome result (IsMatchAnswer (string_bytes self.old.text) text.now) }
        ensures text { self.new.text ≡ self.old.text }
    {
        if !text.is_ascii() {
            return None;
        }
        let bytes = text.as_bytes();
        match self
            .table
            .find_end(&self.dfa, bytes, 0, bytes.len(), false, true)
        {
            End::At(_) => Some(true),
            End::NoMatch => Some(false),
            End::Idle(_) => None,
            End::GaveUp => None,
        }
    }

    /// Makes the regex if there is none yet.
    fn prepare(&mut self, alloc: Global) -> Result<(), AllocError>
        ensures ready { IfOk result (λ _. IsSome self.new.regex) }
        ensures text { self.new.text ≡ self.old.text }
    {
        if self.regex.is_none() {
            self.regex = Some(regex_of(alloc, self.text.as_str())?);
        }
        Ok(())
    }

    /// Reports whether the pattern matches anywhere in the text, using its regex.
    // Not inlined, since a matcher is large and a
    // function pays at entry for the size of its locals.
    #[inline(never)]
    fn searched(&mut self, alloc: Global, text: &str) -> Result<bool, AllocError>
        ensures found { IfOk result (IsMatchAnswer (string_bytes self.old.text) text.now) }
    {
        self.prepare(alloc)?;
        match &self.regex {
            Some(regex) => {
                let mut matcher = regex.matcher(alloc)?;
                Ok(matcher.is_match(text))
            }
            None => unreachable!(),
        }
    }

    /// Reports whether the pattern matches anywhere in the text.
    pub(crate) fn is_match(&mut self, alloc: Global, text: &str) -> Result<bool, AllocError>
        ensures found { IfOk result (IsMatchAnswer (string_bytes self.old.text) text.now) }
    {
        match self.tabled(text) {
            Some(found) => Ok(found),
            None => self.searched(alloc, text),
        }
    }

    /// Returns the byte spans where the pattern matches: the first `limit` of them, or all.
    pub(crate) fn find_all(
        &mut self,
        alloc: Global,
        text: &str,
        limit: Option<usize>,
    ) -> Result<Vec<(usize, usize)>, AllocError>
        ensures found { IfOk result (λ v. FindsAll (string_bytes self.old.text) text.now limit v.items) }
        ensures within { IfOk result (λ v. All (IsSpanIn text.now) v.items) }
    {
        self.prepare(alloc)?;
        match &self.regex {
            Some(regex) => {
                let mut matcher = regex.matcher(alloc)?;
                let spans = spans_in(alloc, &mut matcher, text, limit)?;
                Ok(spans)
            }
            None => unreachable!(),
        }
    }
}
