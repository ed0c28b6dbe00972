//! A book of patterns. It builds each pattern once, keeps at most 256 built patterns, and
//! remembers for each text whether it was accepted.
ghost use Rattle.std.specs.Prelude.{◌≡◌, ◌≢◌, ◌↔◌, ◌<◌, ◌≤◌, ℕ, is_some, string_bytes, All, IfErr, IfOk, IfSome, IsSome, IsTrue, List, None, Ok, Some, false, true, if◌then◌else◌, option_map, vec_len};
ghost use Rattle.cel_patterns.specs.Book.{Extends, found_by, IsBook, IsPlain, IsRefused, IsSpanIn, matched_by, pattern_of_text};
ghost use Rattle.cel_patterns.specs.Built.{FindsAll, IsFaithful, IsMatchAnswer};
ghost use Rattle.cel_patterns.specs.Stored.{IsStoredAt};
ghost use Rattle.cel_patterns.specs.Extensions.{HoldsForExtensions};

use crate::pattern::Pattern;
use kube_types_refused::Refused;
use std::alloc::{AllocError, Global};
use std::collections::BTreeMap;

/// The largest number of patterns that a book keeps.
const MOST_PATTERNS: usize = 256;

/// The approximate number of bytes that the kept patterns may take together.
const MOST_BYTES: usize = 64 << 20;

/// Remembers which pattern texts were built and which were refused. An answer
/// stays the same even if memory runs short later.
///
/// Built patterns are large, so only some are kept at a time. A pattern that
/// was dropped is built again when it is needed.
///
/// Contracts see it as a book, `entries_of`: true for each text
/// that was built, false for each that was refused.
pub struct PatternBook {
    alloc: Global,
    /// The slot of each text's pattern, or `None` if the text was refused.
    answers: BTreeMap<String, Option<usize>>,
    patterns: Vec<Pattern>,
    /// The approximate number of bytes that the kept patterns take.
    weight: usize,
    ghost faithful: { IsFaithful answers },
    ghost few: { vec_len patterns ≤ 256 },
}

// By hand, so that a proof about code that owns one doesn't go through its parts.
impl Drop for PatternBook {
    fn drop(self) {
        let PatternBook {
            alloc: _,
            answers: _,
            patterns: _,
            weight: _,
        } = self;
    }
}

impl PatternBook {
    ghost use Rattle.cel_patterns.specs.Entries.{entries_of};

    /// Returns a book without entries, which is plain. It allocates from `alloc`.
    pub fn new(alloc: Global) -> PatternBook
        ensures empty { (text : List ℕ) → entries_of result text ≡ None }
        ensures book { IsBook (entries_of result) }
        ensures plain { IsPlain (entries_of result) }
    {
        PatternBook {
            alloc,
            answers: BTreeMap::new(alloc),
            patterns: Vec::new(alloc),
            weight: 0,
        }
    }

    /// Reports whether the slot holds the pattern of this text.
    fn has(&self, slot: usize, pattern: &str) -> bool
        ensures { IsTrue result → IsStoredAt self.now.patterns.items slot pattern.now }
    {
        match self.patterns.get(slot) {
            Some(kept) => kept.text.as_str() == pattern,
            None => false,
        }
    }

    /// Stores a pattern and returns its slot. If there are too many already, or they would be
    /// too large together, it drops the others first.
    fn keep(&mut self, pattern: Pattern) -> Result<usize, AllocError>
        ensures slot { IfOk result (λ slot.
            IsStoredAt self.new.patterns.items slot (string_bytes pattern.text)) }
        ensures same { self.new.answers ≡ self.old.answers }
    {
        let weight = pattern.weight();
        if self.patterns.len() >= MOST_PATTERNS || self.weight.saturating_add(weight) > MOST_BYTES {
            self.patterns.clear();
            self.weight = 0;
        }
        let slot = self.patterns.len();
        self.patterns.push(pattern)?;
        self.weight = self.weight.saturating_add(weight);
        Ok(slot)
    }

    /// Builds the pattern of a text and returns its slot, or `None` if the text is refused.
    ///
    /// `again` says that the text was built before. A refusal is then reported as a lack of memory.
    fn slot_of(&mut self, pattern: &str, again: bool) -> Result<Option<usize>, AllocError>
        ensures slot { IfOk result (λ found.
            IfSome found (λ slot. IsStoredAt self.new.patterns.items slot pattern.now)) }
        ensures reads { IfOk result (λ found. IsSome found → IsSome (pattern_of_text pattern.now)) }
        ensures again { IfOk result (λ found. IsTrue again → IsSome found) }
        ensures same { self.new.answers ≡ self.old.answers }
    {
        match Pattern::new(self.alloc, pattern)? {
            Some(built) => Ok(Some(self.keep(built)?)),
            None => { if again { Err(AllocError) } else { Ok(None) } }
        }
    }

    /// Builds the pattern of a text that has none here, and records the answer.
    // Not inlined, since a pattern is large and a
    // function pays at entry for the size of its locals.
    #[inline(never)]
    fn build(&mut self, pattern: &str, again: bool) -> Result<Option<usize>, AllocError>
        requires { entries_of self.old pattern.now ≡ (if again then Some true else None) }
        ensures kept { Extends (entries_of self.new) (entries_of self.old) }
        ensures others { (text : List ℕ) → text ≢ pattern.now
            → entries_of self.new text ≡ entries_of self.old text }
        ensures answer { IfOk result (λ found. entries_of self.new pattern.now ≡ Some (is_some found)) }
        ensures slot { IfOk result (λ found.
            IfSome found (λ slot. IsStoredAt self.new.patterns.items slot pattern.now)) }
    {
        let slot = self.slot_of(pattern, again)?;
        let key = String::from_str(self.alloc, pattern)?;
        self.answers.insert(key, slot)?;
        Ok(slot)
    }

    /// Returns the slot of the pattern of a text, or `None` if the text is refused.
    fn ask(&mut self, pattern: &str) -> Result<Option<usize>, AllocError>
        ensures kept { Extends (entries_of self.new) (entries_of self.old) }
        ensures others { (text : List ℕ) → text ≢ pattern.now
            → entries_of self.new text ≡ entries_of self.old text }
        ensures answer { IfOk result (λ found. entries_of self.new pattern.now ≡ Some (is_some found)) }
        ensures slot { IfOk result (λ found.
            IfSome found (λ slot. IsStoredAt self.new.patterns.items slot pattern.now)) }
        ensures once { entries_of self.old pattern.now ≡ Some false → result ≡ Ok None }
    {
        match self.answers.get(pattern) {
            Some(None) => Ok(None),
            Some(Some(slot)) => {
                let slot = *slot;
                if self.has(slot, pattern) {
                    Ok(Some(slot))
                } else {
                    self.build(pattern, true)
                }
            }
            None => self.build(pattern, false),
        }
    }

    /// Reports whether the pattern in the slot matches anywhere in the text.
    fn is_match_at(&mut self, slot: usize, text: &str) -> Result<bool, AllocError>
        requires { slot < vec_len self.old.patterns }
        ensures found { IfOk result (λ found. (pattern : List ℕ)
            → IsStoredAt self.old.patterns.items slot pattern → IsMatchAnswer pattern text.now found) }
        ensures same { self.new.answers ≡ self.old.answers }
    {
        self.patterns[slot].is_match(self.alloc, text)
    }

    /// Returns the byte spans where the pattern in the
    /// slot matches: the first `limit` of them, or all.
    fn find_all_at(
        &mut self,
        slot: usize,
        text: &str,
        limit: Option<usize>,
    ) -> Result<Vec<(usize, usize)>, AllocError>
        requires { slot < vec_len self.old.patterns }
        ensures found { IfOk result (λ v. (pattern : List ℕ)
            → IsStoredAt self.old.patterns.items slot pattern → FindsAll pattern text.now limit v.items) }
        ensures within { IfOk result (λ v. All (IsSpanIn text.now) v.items) }
        ensures same { self.new.answers ≡ self.old.answers }
    {
        self.patterns[slot].find_all(self.alloc, text, limit)
    }

    /// Reports whether the pattern matches anywhere in the
    /// text. Returns `None` if the pattern is refused.
    ///
    /// A pattern that was refused before isn't built again, and is refused without taking memory.
    ///
    /// # Errors
    /// Only [`Refused::Memory`], if memory is refused. The book keeps its entries even then.
    pub fn matches(&mut self, pattern: &str, text: &str) -> Result<Option<bool>, Refused>
        ensures kept { Extends (entries_of self.new) (entries_of self.old) }
        ensures others { (other : List ℕ) → other ≢ pattern.now
            → entries_of self.new other ≡ entries_of self.old other }
        ensures held { IfOk result (λ _. IsSome (entries_of self.new pattern.now)) }
        ensures book { IsBook (entries_of self.new) }
        ensures answer { IfOk result (λ found. HoldsForExtensions (entries_of self.new) found
            (λ book. matched_by book pattern.now text.now)) }
        ensures refused { IfOk result
            (λ found. (found ≡ None) ↔ IsRefused (entries_of self.new) pattern.now) }
        ensures once { entries_of self.old pattern.now ≡ Some false → result ≡ Ok None }
        ensures memory { IfErr result (λ e. e ≡ Refused.Memory) }
    {
        match self.ask(pattern)? {
            Some(slot) => Ok(Some(self.is_match_at(slot, text)?)),
            None => Ok(None),
        }
    }

    /// Returns the byte spans where the pattern matches: the first `limit` of them, or
    /// all. Returns `None` if the pattern is refused.
    ///
    /// The spans are in order and don't overlap. A pattern that was refused
    /// before isn't built again, and is refused without taking memory.
    ///
    /// # Errors
    /// Only [`Refused::Memory`], if memory is refused. The book keeps its entries even then.
    pub fn find_all(
        &mut self,
        pattern: &str,
        text: &str,
        limit: Option<usize>,
    ) -> Result<Option<Vec<(usize, usize)>>, Refused>
        ensures kept { Extends (entries_of self.new) (entries_of self.old) }
        ensures others { (other : List ℕ) → other ≢ pattern.now
            → entries_of self.new other ≡ entries_of self.old other }
        ensures held { IfOk result (λ _. IsSome (entries_of self.new pattern.now)) }
        ensures book { IsBook (entries_of self.new) }
        ensures answer { IfOk result (λ found. HoldsForExtensions (entries_of self.new)
            (option_map (λ v. v.items) found) (λ book. found_by book pattern.now text.now limit)) }
        ensures refused { IfOk result
            (λ found. (found ≡ None) ↔ IsRefused (entries_of self.new) pattern.now) }
        ensures within { IfOk result (λ found. IfSome found (λ v. All (IsSpanIn text.now) v.items)) }
        ensures once { entries_of self.old pattern.now ≡ Some false → result ≡ Ok None }
        ensures memory { IfErr result (λ e. e ≡ Refused.Memory) }
    {
        match self.ask(pattern)? {
            Some(slot) => Ok(Some(self.find_all_at(slot, text, limit)?)),
            None => Ok(None),
        }
    }
}
