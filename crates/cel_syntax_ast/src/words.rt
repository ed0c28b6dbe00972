//! The words that are names.

ghost use Rattle.std.specs.Prelude.{◌≡◌, MatchOption, true, false, map};
ghost use Rattle.std.specs.List.{list_any};
ghost use Rattle.std.specs.Str.{bytes_eq};
ghost use Rattle.cel_syntax_ast.specs.Words as spec;

/// The words that denote values, and `in`, the operator that is a word.
const LITERALS: [&[u8]; 4] = [b"true", b"false", b"null", b"in"];

/// The reserved words.
const RESERVED: [&[u8]; 17] = [
    b"break",
    b"continue",
    b"for",
    b"loop",
    b"while",
    b"else",
    b"function",
    b"if",
    b"return",
    b"const",
    b"let",
    b"var",
    b"void",
    b"as",
    b"import",
    b"namespace",
    b"package",
];

/// Reports whether the word is this name.
pub(crate) fn is_word(word: &[u8], name: &[u8]) -> bool
    ensures { result ≡ bytes_eq word.now name.now }
{
    word == name
}

/// Reports whether the word is one of these.
pub(crate) fn is_one_of(word: &[u8], words: &[&[u8]]) -> bool
    ensures { result ≡ list_any (bytes_eq word.now) (map (λ w. w.now) words.now) }
{
    for other in words {
        if is_word(word, other) {
            return true;
        }
    }
    false
}

#[tactic(auto, unfolding(crate::specs::Words::is_literal))]
fn is_literal(word: &[u8]) -> bool
    ensures { result ≡ spec.is_literal word.now }
{
    is_one_of(word, &LITERALS)
}

#[tactic(auto, unfolding(crate::specs::Words::is_reserved))]
fn is_reserved(word: &[u8]) -> bool
    ensures { result ≡ spec.is_reserved word.now }
{
    is_one_of(word, &RESERVED)
}

/// The word, if it may be the name of a selected field.
#[tactic(auto, using(crate::proofs::Names::selects, crate::proofs::Names::selects_none), unfolding(crate::specs::Words::is_selector))]
pub fn selector(word: &[u8]) -> Option<&str>
    ensures { MatchOption result (spec.is_selector word.now ≡ false)
        (λ name. (name.now ≡ word.now) × (spec.is_selector word.now ≡ true)) }
{
    if is_literal(word) {
        return None;
    }
    match str::from_utf8(word) {
        Ok(name) => Some(name),
        Err(_) => None,
    }
}

/// The word, if it may be an identifier.
#[tactic(auto, unfolding(crate::specs::Words::is_identifier))]
pub fn identifier(word: &[u8]) -> Option<&str>
    ensures { MatchOption result (spec.is_identifier word.now ≡ false)
        (λ name. (name.now ≡ word.now) × (spec.is_identifier word.now ≡ true)) }
{
    if is_reserved(word) {
        return None;
    }
    selector(word)
}
