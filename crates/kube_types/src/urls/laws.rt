//! Laws of URLs, about the definitions alone. Each
//! is the contract of a function with an empty body.
ghost use Rattle.std.specs.Cmp.{IsEquivalence};
ghost use Rattle.std.specs.Prelude.{◌≡◌, ℕ, List, ◌++◌, ◌∷◌, [], true, false, Some, if◌then◌else◌};
ghost use Rattle.std.specs.Str.{bytes_eq};
ghost use Rattle.url.specs.Parts.{Parts, IsValid, kind_of, serialize};
ghost use Rattle.url.specs.declared.scheme.SchemeType.TheVariants.{SpecialNotFile};
ghost use Rattle.kube_types.specs.Url.Equality.{same_url};
ghost use Rattle.kube_types.specs.Url.Query.{values_of, values_or_none};
ghost use Rattle.kube_types.specs.Url.Parts.{shown_of};
ghost use Rattle.kube_types.specs.Url.Reading.{url_of};
ghost use Rattle.kube_types.specs.Url.Shown.{Shown};

/// Equality of URLs is reflexive, symmetric and transitive.
pub fn equality_is_an_equivalence()
    ensures { IsEquivalence same_url }
{}

/// A path never equals a URL, even if both have the same text.
pub fn paths_differ_from_urls()
    ensures { (path url : Shown) → path.is_path ≡ true → url.is_path ≡ false → same_url path url ≡ false }
{}

/// One more pair adds its value after those of its name,
/// and leaves the values of all other names unchanged.
pub fn a_pair_adds_one_value()
    ensures { (pairs : List (List ℕ × List ℕ)) (name value other : List ℕ)
        → values_of (pairs ++ (name, value) ∷ []) other
        ≡ (if bytes_eq other name
        then Some (values_or_none (values_of pairs other) ++ value ∷ [])
        else values_of pairs other) }
{}

/// The text of an `http`, `https`, `ws`, `wss` or `ftp`
/// URL parses to that URL, and not to a path.
pub fn web_urls_read_back()
    ensures { (url : Parts) → IsValid url → kind_of url ≡ SpecialNotFile
        → url_of (serialize url) ≡ Some (shown_of url false) }
{}
