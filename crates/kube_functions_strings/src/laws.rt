//! Theorems about the definitions alone.
ghost use Rattle.std.specs.List.{range_with_len};
ghost use Rattle.std.specs.Prelude.{◌≡◌, ℕ, suc, List, [], ◌∷◌, length, map};
ghost use Rattle.kube_functions_strings.specs.Encoders.{DecodesEncodings};
ghost use Rattle.kube_functions_strings.specs.Escapes.{KeysDiffer};
ghost use Rattle.kube_functions_strings.specs.Pieces.{separators};
ghost use Rattle.kube_functions_strings.specs.Separators.{AreFromLeft};

/// `escapeKey` is injective: different strings have different escaped keys.
pub fn escaped_keys_differ()
    ensures { KeysDiffer }
{}

/// Decoding returns exactly the bytes whose encoding the text is.
pub fn decoding_undoes_encoding()
    ensures { DecodesEncodings }
{}

/// `split` and `replace` cut at the separators as found from the left, each the first that begins
/// at or after the end of the one before it, and at no others. An empty separator matches once at
/// each offset: before the first character, between any two, and after the last.
pub fn separators_stand_from_the_left()
    ensures from_left { (text part : List ℕ) (c : ℕ)
        → AreFromLeft text (c ∷ part) 0 (separators text (c ∷ part)) }
    ensures no_others { (text part : List ℕ) (c : ℕ) (spans : List (ℕ × ℕ))
        → AreFromLeft text (c ∷ part) 0 spans
        → spans ≡ separators text (c ∷ part) }
    ensures empty { (text : List ℕ)
        → separators text [] ≡ map (λ k. (k, k)) (range_with_len 0 (suc (length text))) }
{}
