//! Laws of versions, about the definitions alone. Each
//! is the contract of a function with an empty body.
ghost use Rattle.std.specs.Cmp.{IsTotalOrder};
ghost use Rattle.std.specs.Prelude.{◌≡◌, ◌↔◌, ℕ, List, ◌∷◌, true, false, Some};
ghost use Rattle.std.specs.declared.cmp.Ordering.TheVariants.{Equal};
ghost use Rattle.kube_types.specs.Version.LenientTexts.{IsVersionText, IsLenientText};
ghost use Rattle.kube_types.specs.Version.Order.{parts_cmp, same_parts};
ghost use Rattle.kube_types.specs.Version.Reading.{version_of, without_v};
ghost use Rattle.kube_types.specs.Version.Shown.{Parts};

/// The order of versions is total.
pub fn order_is_total()
    ensures { IsTotalOrder parts_cmp }
{}

/// Two versions compare as equal exactly if they are equal in every part, including build metadata.
pub fn order_ties_equals()
    ensures { (p q : Parts) → (parts_cmp p q ≡ Equal) ↔ (p ≡ q) }
{}

/// The test for equality is true exactly if the versions are equal in every part.
pub fn equality_is_that_of_parts()
    ensures { (p q : Parts) → (same_parts p q ≡ true) ↔ (p ≡ q) }
{}

/// A text that parses strictly parses leniently to the same version.
pub fn lenient_keeps_versions()
    ensures { (text : List ℕ) (p : Parts) → version_of false text ≡ Some p → version_of true text ≡ Some p }
{}

/// A lenient reading ignores one leading `v` (118) or `V`
/// (86) of a text, unless the rest starts with one as well.
pub fn lenient_drops_one_v()
    ensures small { (text : List ℕ) → without_v text ≡ text
        → version_of true (118 ∷ text) ≡ version_of true text }
    ensures capital { (text : List ℕ) → without_v text ≡ text
        → version_of true (86 ∷ text) ≡ version_of true text }
{}

/// A text parses strictly to a version exactly if it spells that version by SemVer 2.0. It parses
/// leniently to a version exactly if it spells that version apart from one leading `v`, leading
/// zeros of its numbers, and missing numbers.
pub fn texts_mean_their_version()
    ensures strict { (text : List ℕ) (p : Parts) → (version_of false text ≡ Some p) ↔ IsVersionText text p }
    ensures lenient { (text : List ℕ) (p : Parts) → (version_of true text ≡ Some p) ↔ IsLenientText text p }
{}
