//! Laws of near words. Each is the contract of a function with an empty body.
ghost use Rattle.kube_manifests_texts.specs.Edits.{IsOneEdit, IsOneSwap};
ghost use Rattle.kube_manifests_texts.specs.Spelling.{one_letter_off, two_letters_swapped};
ghost use Rattle.std.specs.Prelude.{◌≡◌, ℕ, List, true};

/// A text is one letter off another exactly if a single edit turns one into the other.
pub fn one_letter_off_is_one_edit()
    ensures edit { (text word : List ℕ) → one_letter_off text word ≡ true → IsOneEdit text word }
    ensures off { (text word : List ℕ) → IsOneEdit text word → one_letter_off text word ≡ true }
{}

/// Two letters of a text are swapped exactly if a swap of two different neighbours turns one text
/// into the other.
pub fn two_letters_swapped_is_one_swap()
    ensures swap { (text word : List ℕ) → two_letters_swapped text word ≡ true → IsOneSwap text word }
    ensures swapped { (text word : List ℕ) → IsOneSwap text word → two_letters_swapped text word ≡ true }
{}
