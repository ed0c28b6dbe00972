//! Answers what a book of patterns answers, both for a pattern that is new to it and for one that
//! it holds.

use cel::PatternBook;
use conformance_rows::given::number;
use conformance_rows::{Field, Found};

/// The pattern and the text that a row gives.
fn asked_given<'g>(given: &'g [Field], found: &mut Found) -> (&'g str, &'g str) {
    let pattern = found.required(given, "pattern");
    (pattern, found.required(given, "text"))
}

/// Finds whether a pattern matches in a text, for one call.
fn find_match(
    book: &mut PatternBook,
    (pattern, text): (&str, &str),
    call: &'static str,
    found: &mut Found,
) {
    match found.take(book.matches(pattern, text)) {
        Some(Some(holds)) => found.other.show(&holds),
        Some(None) => found.other.push("refused"),
        None => {}
    }
    found.end(call);
}

/// Answers whether a pattern matches in a text. The book is asked twice.
pub(crate) fn matches(book: &mut PatternBook, given: &[Field], found: &mut Found) {
    let asked = asked_given(given, found);
    find_match(book, asked, "matches", found);
    find_match(book, asked, "matches again", found);
}

/// Finds the spans of the first matches, in bytes, for one call.
fn find_spans(
    book: &mut PatternBook,
    (pattern, text): (&str, &str),
    limit: Option<usize>,
    call: &'static str,
    found: &mut Found,
) {
    match found.take(book.find_all(pattern, text, limit)) {
        Some(Some(spans)) => found.other.debug(&spans),
        Some(None) => found.other.push("refused"),
        None => {}
    }
    found.end(call);
}

/// The number of matches that a row asks for. All if it gives none.
fn limit_given(given: &[Field], found: &mut Found) -> Option<usize> {
    match number(given, "limit", &mut found.other) {
        Some(limit) => Some(limit as usize),
        None => None,
    }
}

/// Answers with the spans of the first matches, in bytes. The book is asked twice.
pub(crate) fn spans(book: &mut PatternBook, given: &[Field], found: &mut Found) {
    let asked = asked_given(given, found);
    let most = limit_given(given, found);
    find_spans(book, asked, most, "find_all", found);
    find_spans(book, asked, most, "find_all again", found);
}
