//! Laws of what patterns match.

ghost use Rattle.std.specs.Prelude.{ℕ, List, IsUtf8};
ghost use Rattle.std.specs.List.{flat_map};
ghost use Rattle.std.specs.Str.{chars};
ghost use Rattle.regex_hir.specs.Re.{literal};
ghost use Rattle.kube_server_patterns.specs.Pieces.{character_text};
ghost use Rattle.kube_server_patterns_laws.specs.Meanings.{AreSets, AreTrees, IsReadAs, by_letter, by_name, in_brackets, of_characters, of_dots, of_places};

/// Classes, members of brackets and dots match the characters that RE2 gives them.
pub fn classes()
    ensures by_name { AreSets by_name }
    ensures by_letter { AreSets by_letter }
    ensures in_brackets { AreSets in_brackets }
    ensures of_dots { AreSets of_dots }
{}

/// Places are those of RE2, and what stands for a character is that character.
pub fn places()
    ensures of_places { AreTrees of_places }
    ensures of_characters { AreTrees of_characters }
{}

/// What is written for the characters of a text, one after another, matches that text.
pub fn characters()
    ensures { (text : List ℕ) → IsUtf8 text
        → IsReadAs (flat_map character_text (chars text)) (literal text) }
{}
