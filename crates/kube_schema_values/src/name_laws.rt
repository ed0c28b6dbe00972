//! Laws of field names, each stated as the contract of a function with an empty body.
ghost use Rattle.std.specs.Prelude.{◌≡◌, ℕ, List, Some, option_map};
ghost use Rattle.serde_json.specs.Data.{Members};
ghost use Rattle.serde_json.specs.Find.{get_member};
ghost use Rattle.cel_value.specs.Data.{text_key};
ghost use Rattle.cel_value.specs.Find.{find};
ghost use Rattle.kube_schema_values.specs.Escape.{escape};
ghost use Rattle.kube_schema_values.specs.Plain.{plain, plain_entries};
ghost use Rattle.kube_schema_values.specs.Unescape.{unescape};

/// Different names have different escapes.
pub fn escape_is_injective()
    ensures { (a b : List ℕ) → escape a ≡ escape b → a ≡ b }
{}

/// Unescaping an escaped name returns the name.
pub fn unescape_undoes_escape()
    ensures { (name : List ℕ) → unescape (escape name) ≡ Some name }
{}

/// At the escaped name of each member of an object stands that
/// member, bound, and at any other escaped name stands nothing.
pub fn members_are_found()
    ensures { (name : List ℕ) (members : Members)
        → find (text_key (escape name)) (plain_entries members) ≡ option_map plain (get_member name members) }
{}
