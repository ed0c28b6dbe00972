//! Makes texts from other values.

use std::alloc::{AllocError, Global};

/// Splits a text into its lines. An empty text has none.
pub fn words_of(alloc: Global, text: &str) -> Result<Vec<String>, AllocError> {
    let mut words = Vec::new(alloc);
    if text.is_empty() {
        return Ok(words);
    }
    for word in text.split('\n') {
        words.push(String::from_str(alloc, word)?)?;
    }
    Ok(words)
}

/// Returns `yes` or `no`.
pub fn yes_or_no(holds: bool) -> &'static str {
    if holds { "yes" } else { "no" }
}

/// Returns bytes as a text, or `no UTF-8`.
pub fn text_of(bytes: &[u8]) -> &str {
    match str::from_utf8(bytes) {
        Ok(text) => text,
        Err(_) => "no UTF-8",
    }
}
