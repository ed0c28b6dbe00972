//! Laws of lists and sets. Each is the contract of a function with an empty body.
ghost use Rattle.std.specs.Prelude.{◌≡◌, ◌↔◌, List, [], ◌∷◌, ◌++◌, true, filter, if◌then◌else◌, Ok};
ghost use Rattle.std.specs.List.{find, IsDistinct};
ghost use Rattle.std.specs.List.Sorted.{IsSortedBy, IsStableBy};
ghost use Rattle.cel_value.specs.Data.{Data, bool};
ghost use Rattle.cel_value.specs.Same.{same};
ghost use Rattle.kube_functions_lists.specs.Lists.{distinct_items};
ghost use Rattle.kube_functions_lists.specs.Orders.{ascending, goes_before, have_order, order_of};
ghost use Rattle.kube_functions_lists.specs.Sets.{is_in, have_same};

/// `distinct` keeps the first occurrence of each value, in the
/// order of the list, and no two items that it keeps are equal.
pub fn distinct_keeps_first_occurrences()
    ensures first { (v : Data) (ds : List Data) → find (same v) (distinct_items ds) ≡ find (same v) ds }
    ensures once { (ds : List Data) → IsDistinct same (distinct_items ds) }
    ensures next { (ds : List Data) (d : Data)
        → distinct_items (ds ++ d ∷ [])
        ≡ (if is_in ds d then distinct_items ds else distinct_items ds ++ d ∷ []) }
{}

/// If any two items of a list have an order, the list has one ascending order in which equal items
/// keep their places among themselves, and `sort` returns it.
pub fn sort_gives_the_one_stable_order()
    ensures ascends { (ds : List Data) → have_order ds ≡ true → IsSortedBy goes_before (ascending ds) }
    ensures stable { (ds : List Data) → have_order ds ≡ true → IsStableBy goes_before ds (ascending ds) }
    ensures one { (ds es : List Data) → have_order ds ≡ true
        → IsSortedBy goes_before es → IsStableBy goes_before ds es → es ≡ ascending ds }
{}

/// What `sort` returns is in order as `isSorted` defines it, by comparing neighbours, and equal
/// values keep their order among themselves.
pub fn sorted_lists_are_in_order()
    ensures in_order { (ds : List Data) → have_order ds ≡ true → order_of (ascending ds) ≡ Ok (bool true) }
    ensures equals_stay { (ds : List Data) (v : Data) → have_order ds ≡ true
        → filter (same v) (ascending ds) ≡ filter (same v) ds }
{}

/// `sets.equivalent` is true exactly if both lists contain the same values.
pub fn equivalent_lists_have_the_same_members()
    ensures { (ds es : List Data) → (have_same ds es ≡ true) ↔ ((v : Data) → is_in ds v ≡ is_in es v) }
{}
