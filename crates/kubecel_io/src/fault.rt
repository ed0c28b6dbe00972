//! Locates the place where a text isn't JSON or has a key twice.
ghost use Rattle.kubecel_io.specs.Documents.{IsFirstRefused};
ghost use Rattle.kubecel_io.specs.Faults.{IsFault, IsKindOf, column_behind, fault_text, fault_words, is_deep, is_repeated_key, is_too_deep, line_behind};
ghost use Rattle.std.specs.Prelude.{◌≡◌, ◌≤◌, ◌+◌, ℕ, IfOk, IfSome, List, Some, false, is_some, length};

use crate::cut::{Mode, is_space};
use serde_json::{Error, Value};
use std::alloc::{AllocError, Global};
use std::fmt;

/// The number of levels that a document may have.
const MOST_LEVELS: usize = 127;

/// What is wrong with a document.
#[derive(Clone, Copy, Drop)]
pub enum FaultKind {
    /// It isn't JSON.
    NotJson,
    /// It isn't JSON, because the text ends before the document does.
    CutShort,
    /// It isn't JSON, because a comma stands before a closing bracket.
    CommaBeforeEnd,
    /// It isn't JSON, because a string has a control character, an escape that JSON doesn't have, or
    /// half of a surrogate pair.
    BadString,
    /// It has a number that no double holds.
    NumberOutOfRange,
    /// It nests deeper than 127 levels.
    TooDeep,
    /// It is JSON, but an object in it has a key twice.
    RepeatedKey,
}

/// What is wrong with a text, and the place: within its first document that isn't JSON or has a key
/// twice, or right after that document.
#[derive(Clone, Copy, Drop)]
pub struct Fault {
    /// The line, counted from 1.
    pub line: usize,
    /// The byte in the line, counted from 1.
    pub column: usize,
    pub kind: FaultKind,
}

/// What is wrong with a document, and the offset of the place in it.
#[derive(Clone, Copy, Drop)]
pub(crate) struct Flaw {
    pub(crate) kind: FaultKind,
    pub(crate) offset: usize,
}

/// Returns the place of the byte that follows a text: its line, and its position in bytes in that
/// line, both counted from 1.
fn place_behind(text: &[u8]) -> (usize, usize)
    ensures line { result.0 ≡ line_behind text.now }
    ensures column { result.1 ≡ column_behind text.now }
{
    let mut line = 1usize;
    let mut column = 1usize;
    for byte in text {
        if *byte == b'\n' {
            line += 1;
            column = 1;
        } else {
            column += 1;
        }
    }
    (line, column)
}

/// Returns the offset of a line and column in a text, or the end of the text if it has no such
/// place.
fn offset_of(text: &[u8], line: usize, column: usize) -> usize
    ensures { result ≤ length text.now }
{
    let mut current = 1usize;
    let mut begin = 0usize;
    for (i, byte) in text.iter().enumerate() {
        if current < line && *byte == b'\n' {
            current = current.saturating_add(1);
            begin = i.saturating_add(1);
        }
    }
    begin
        .saturating_add(column.saturating_sub(1))
        .min(text.len())
}

/// Returns the offset of the first bracket in a document that is open together with more than 127
/// others, if there is one.
fn too_deep_at(document: &[u8]) -> Option<usize>
    ensures { is_some result ≡ is_deep document.now }
{
    let mut mode = Mode::Outside;
    let mut depth = 0usize;
    for (offset, byte) in document.iter().enumerate() {
        depth = mode.level_after(depth, *byte);
        if depth > MOST_LEVELS {
            return Some(offset);
        }
        mode = mode.after(*byte);
    }
    None
}

/// Returns what is wrong with a document that isn't read, given the parser's error.
pub(crate) fn flaw_of(alloc: Global, document: &[u8], error: &Error) -> Result<Flaw, AllocError>
    ensures { IfOk result (λ flaw. (is_repeated_key flaw.kind ≡ false)
        × (is_too_deep flaw.kind ≡ is_deep document.now)) }
{
    if let Some(offset) = too_deep_at(document) {
        let kind = FaultKind::TooDeep;
        return Ok(Flaw { kind, offset });
    }
    let offset = offset_of(document, error.line(), error.column());
    let kind = kind_of(alloc, document, offset, error)?;
    let offset = if let FaultKind::NumberOutOfRange = kind {
        begin_of_number(document, offset)
    } else {
        offset
    };
    Ok(Flaw { kind, offset })
}

/// Reports whether a byte may stand in a number.
fn is_in_number(byte: u8) -> bool {
    matches!(byte, b'0'..=b'9' | b'+' | b'-' | b'.' | b'e' | b'E')
}

/// Returns the offset in a document where the number begins that ends at this one.
fn begin_of_number(document: &[u8], end: usize) -> usize {
    let mut begin = end.min(document.len());
    for byte in document[..begin].iter().rev() {
        if !is_in_number(*byte) {
            return begin;
        }
        begin = begin.saturating_sub(1);
    }
    begin
}

/// Returns the kind of a fault at an offset of a document, given the parser's error, unless the
/// document nests too deep.
fn kind_of(
    alloc: Global,
    document: &[u8],
    offset: usize,
    error: &Error,
) -> Result<FaultKind, AllocError>
    ensures { IfOk result (λ kind. (is_repeated_key kind ≡ false) × (is_too_deep kind ≡ false)) }
{
    if error.is_eof() {
        return Ok(FaultKind::CutShort);
    }
    let words = format!(in alloc; "{error}")?;
    if words.as_str().starts_with("number out of range") {
        return Ok(FaultKind::NumberOutOfRange);
    }
    kind_at(alloc, document, offset)
}

/// Returns the kind of a fault by what stands at its offset.
fn kind_at(alloc: Global, document: &[u8], offset: usize) -> Result<FaultKind, AllocError>
    ensures { IfOk result (λ kind. (is_repeated_key kind ≡ false) × (is_too_deep kind ≡ false)) }
{
    match document.get(offset) {
        Some(b'"') => kind_of_string(alloc, string_at(document, offset)),
        Some(b'}' | b']') if follows_comma(document, offset) => Ok(FaultKind::CommaBeforeEnd),
        Some(_) | None => Ok(FaultKind::NotJson),
    }
}

/// Returns the kind of a fault at a string: the string may be no JSON, or stand where none may.
fn kind_of_string(alloc: Global, string: &[u8]) -> Result<FaultKind, AllocError>
    ensures { IfOk result (λ kind. (is_repeated_key kind ≡ false) × (is_too_deep kind ≡ false)) }
{
    match Value::from_slice(alloc, string) {
        Ok(_) => Ok(FaultKind::NotJson),
        Err(error) if error.is_memory() => Err(AllocError),
        Err(_) => Ok(FaultKind::BadString),
    }
}

/// Returns the string that begins at an offset of a document.
fn string_at(document: &[u8], offset: usize) -> &[u8] {
    let rest = &document[offset.min(document.len())..];
    let mut mode = Mode::Outside;
    for (end, byte) in rest.iter().enumerate() {
        mode = mode.after(*byte);
        if mode == Mode::Outside {
            return &rest[..=end];
        }
    }
    rest
}

/// Reports whether the last byte before an offset that isn't white space is a comma.
fn follows_comma(document: &[u8], offset: usize) -> bool {
    let before = &document[..offset.min(document.len())];
    for byte in before.iter().rev() {
        if !is_space(*byte) {
            return *byte == b',';
        }
    }
    false
}

/// Returns what is wrong with a text, given what is wrong with its first refused document, which
/// ends at the offset `end` of the text.
pub(crate) fn fault_in(text: &[u8], document: &[u8], end: usize, flaw: Flaw) -> Fault
    ensures { (before behind : List ℕ) → IsFirstRefused text.now before document.now behind
        → IsKindOf document.now flaw.kind
        → length before + length document.now ≡ end → IsFault text.now result }
{
    let begin = end.saturating_sub(document.len());
    let within = flaw.offset.min(document.len());
    let offset = begin.saturating_add(within).min(text.len());
    let (line, column) = place_behind(&text[..offset]);
    let kind = flaw.kind;
    Fault { line, column, kind }
}

/// Returns a description of a kind of fault.
fn fault_words(kind: FaultKind) -> &'static str
    ensures { result.now ≡ fault_words kind }
{
    match kind {
        FaultKind::NotJson => "invalid JSON",
        FaultKind::CutShort => "unexpected end of JSON",
        FaultKind::CommaBeforeEnd => "invalid JSON: a comma before a closing bracket",
        FaultKind::BadString => {
            "invalid JSON: a string with a character or an escape that JSON doesn't have"
        }
        FaultKind::NumberOutOfRange => "a number out of the range of a double",
        FaultKind::TooDeep => "more than 127 levels of lists and objects",
        FaultKind::RepeatedKey => "repeated key",
    }
}

impl fmt::Display for Fault {
    ghost output = { λ f. Some (fault_text f) };

    fn fmt<W: fmt::Write>(&self, f: &mut fmt::Formatter<W>) -> fmt::Result {
        let what = fault_words(self.kind);
        write!(f, "{}:{}: {what}", self.line, self.column)
    }
}
