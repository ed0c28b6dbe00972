//! Texts that are looked up: words that are near a text, positions by two texts, sets of texts.
#![tactic(auto)]

mod index;
pub mod laws;
mod set;
mod spelling;

pub use index::Index;
pub use set::insert_text;
pub use spelling::{is_near, is_near_spelled, is_word, joined, letters_of, near};
