//! Laws of *Server meaning*, in the words of the documentation of CEL-Go.
ghost use Rattle.cel_patterns.specs.Book.{Book};
ghost use Rattle.cel_semantics.specs.Bindings.{Bindings};
ghost use Rattle.cel_semantics.specs.Decisions.{decision};
ghost use Rattle.cel_semantics.specs.Outcome.{Outcome, all_values, and_then};
ghost use Rattle.cel_value.specs.Data.{Data, Entries, Items, bool, item, list, map_of, no_items, optional, text, text_key};
ghost use Rattle.cel_value.specs.Faults.{Fault};
ghost use Rattle.cel_value.specs.Find.{find, option_items};
ghost use Rattle.cel_value.specs.Same.{has_double, items_have_double, same};
ghost use Rattle.cel_value.specs.View.{items_of, kind_of};
ghost use Rattle.cel_syntax_ast.specs.Term.{Term};
ghost use Rattle.kube_server_laws.specs.Port.{NoOptionals, port_tree};
ghost use Rattle.kube_server_laws.specs.Premises.{Holds, Means, MeansIn, Plain, Translates, begins_at, held_value, is_map, is_range, map_of_all, parts_of};
ghost use Rattle.kube_server_syntax.specs.Tree.{Tree, binary, call, ident, index, item_and, list_of, no_items as no_tree_items, no_trees, select, tree_and};
ghost use Rattle.kube_server_syntax.specs.declared.node.Place.{Place};
ghost use Rattle.cel_syntax_ast.specs.declared.expr.BinaryOperator.TheVariants.{Equal};
ghost use Rattle.kube_server_translation.specs.Made.{Names, type_names};
ghost use Rattle.kube_server_translation.specs.Translation.{made, translated};
ghost use Rattle.kube_server_values.specs.Limits.{member_limit};
ghost use Rattle.kube_server_values.specs.Optionals.{none_of_all};
ghost use Rattle.kube_server_values.specs.Pairs.{pair};
ghost use Rattle.kube_server_values.specs.Selections.{index_optional};
ghost use Rattle.kube_server_values.specs.Types.{type_name};
ghost use Rattle.std.specs.List.{list_any};
ghost use Rattle.std.specs.Map.{lookup};
ghost use Rattle.std.specs.Option.{option_map_or};
ghost use Rattle.std.specs.Str.{bytes_eq};
ghost use Rattle.std.specs.Prelude.{is_some, map, ◌∷◌, ◌≡◌, Bool, Err, List, None, Ok, Option, Some, [], codes, false, true, ℕ};

/// `a.?x` is an optional of the member `x` of the map `a`, and holds nothing if the map has none. Of
/// a value that isn't a map it is an error that isn't judged.
pub fn optional_field()
    ensures of_map { (book : Book) (names : Names) (p : Place) (a : Tree) (x : List ℕ) (env : Bindings) (es : Entries)
        → Plain book names a env (Ok (map_of es))
        → Holds book names (select p a true x) env (Ok (find (text_key x) es)) }
    ensures of_other { (book : Book) (names : Names) (p : Place) (a : Tree) (x : List ℕ) (env : Bindings) (v : Data)
        → is_map v ≡ false → Plain book names a env (Ok v)
        → Holds book names (select p a true x) env (Err member_limit) }
{}

/// A selection on an optional, `o.x` or `o.?x`, goes through it: it holds nothing if `o` doesn't,
/// else the member of the map that `o` holds, if there is one.
pub fn selection_goes_through()
    ensures of_none { (book : Book) (names : Names) (p : Place) (o : Tree) (q : Bool) (x : List ℕ) (env : Bindings)
        → Holds book names o env (Ok None) → Holds book names (select p o q x) env (Ok None) }
    ensures of_map { (book : Book) (names : Names) (p : Place) (o : Tree) (q : Bool) (x : List ℕ) (env : Bindings)
        (es : Entries) → Holds book names o env (Ok (Some (map_of es)))
        → Holds book names (select p o q x) env (Ok (find (text_key x) es)) }
    ensures of_error { (book : Book) (names : Names) (p : Place) (o : Tree) (q : Bool) (x : List ℕ) (env : Bindings)
        (e : Fault) → Holds book names o env (Err e) → Holds book names (select p o q x) env (Err e) }
{}

/// `o.orValue(c)` is what `o` holds, or else what `c` means. An error of `c` counts only if `o` holds
/// nothing.
pub fn or_value()
    ensures { (book : Book) (names : Names) (p : Place) (o c : Tree) (env : Bindings) (w : Option Data) (r : Outcome)
        → Holds book names o env (Ok w) → MeansIn book names c [] env r
        → Means book names (call p (tree_and o no_trees) (codes "orValue") (tree_and c no_trees)) env
        (option_map_or Ok w r) }
{}

/// `o.optMap(x, b)` holds what `b` means where `x` is what `o` holds, or is the error of `b`. It
/// holds nothing if `o` doesn't, whatever `b` means.
pub fn opt_map()
    ensures of_none { (book : Book) (names : Names) (p q : Place) (o b : Tree) (x : List ℕ) (env : Bindings)
        → Holds book names o env (Ok None) → Translates ((x, false) ∷ names) b
        → Holds book names (call p (tree_and o no_trees) (codes "optMap")
        (tree_and (ident q x) (tree_and b no_trees))) env (Ok None) }
    ensures of_some { (book : Book) (names : Names) (p q : Place) (o b : Tree) (x : List ℕ) (env : Bindings)
        (v d : Data) → Holds book names o env (Ok (Some v))
        → Means book ((x, false) ∷ names) b ((x, v) ∷ env) (Ok d)
        → Holds book names (call p (tree_and o no_trees) (codes "optMap")
        (tree_and (ident q x) (tree_and b no_trees))) env (Ok (Some d)) }
    ensures of_error { (book : Book) (names : Names) (p q : Place) (o b : Tree) (x : List ℕ) (env : Bindings)
        (v : Data) (e : Fault) → Holds book names o env (Ok (Some v))
        → Means book ((x, false) ∷ names) b ((x, v) ∷ env) (Err e)
        → Holds book names (call p (tree_and o no_trees) (codes "optMap")
        (tree_and (ident q x) (tree_and b no_trees))) env (Err e) }
{}

/// `cel.bind(x, e, b)` means what `b` means where `x` is the value of `e`. It is the error of `e`,
/// if `e` is one, whatever `b` means.
pub fn bind()
    ensures of_value { (book : Book) (names : Names) (p q s : Place) (x : List ℕ) (e b : Tree) (env : Bindings)
        (v : Data) (r : Outcome) → Means book names e env (Ok v)
        → Means book ((x, false) ∷ names) b ((x, v) ∷ env) r
        → Means book names (call p (tree_and (ident q (codes "cel")) no_trees) (codes "bind")
        (tree_and (ident s x) (tree_and e (tree_and b no_trees)))) env r }
    ensures of_error { (book : Book) (names : Names) (p q s : Place) (x : List ℕ) (e b : Tree) (env : Bindings)
        (f : Fault) → Means book names e env (Err f) → Translates ((x, false) ∷ names) b
        → Means book names (call p (tree_and (ident q (codes "cel")) no_trees) (codes "bind")
        (tree_and (ident s x) (tree_and e (tree_and b no_trees)))) env (Err f) }
{}

/// `r.all(i, v, p)` is whether `p` is true of all items of a list with their indices, or of all keys of
/// a map with their values.
pub fn all_of_pairs()
    ensures { (book : Book) (names : Names) (p q s : Place) (r b : Tree) (x y : List ℕ) (env : Bindings) (v : Data)
        (f : Data → Data → Outcome) → begins_at x ≡ false → bytes_eq x y ≡ false
        → is_range v ≡ true → has_double v ≡ false → Means book names r env (Ok v)
        → ((i d : Data) → MeansIn book ((y, false) ∷ (x, false) ∷ names) b ((y, d) ∷ (x, i) ∷ []) env (f i d))
        → Means book names (call p (tree_and r no_trees) (codes "all")
        (tree_and (ident q x) (tree_and (ident s y) (tree_and b no_trees)))) env
        (decision false (codes "all") (map (λ e. f e.0 e.1) (parts_of v))) }
{}

/// `r.exists(i, v, p)` is whether `p` is true of an item of a list with its index, or of a key of a map
/// with its value.
pub fn exists_of_pairs()
    ensures { (book : Book) (names : Names) (p q s : Place) (r b : Tree) (x y : List ℕ) (env : Bindings) (v : Data)
        (f : Data → Data → Outcome) → begins_at x ≡ false → bytes_eq x y ≡ false
        → is_range v ≡ true → has_double v ≡ false → Means book names r env (Ok v)
        → ((i d : Data) → MeansIn book ((y, false) ∷ (x, false) ∷ names) b ((y, d) ∷ (x, i) ∷ []) env (f i d))
        → Means book names (call p (tree_and r no_trees) (codes "exists")
        (tree_and (ident q x) (tree_and (ident s y) (tree_and b no_trees)))) env
        (decision true (codes "exists") (map (λ e. f e.0 e.1) (parts_of v))) }
{}

/// `r.transformList(i, v, b)` is the list of what `b` means for each item of a list with its index, or
/// for each key of a map with its value, or the first error.
pub fn transform_list()
    ensures { (book : Book) (names : Names) (p q s : Place) (r b : Tree) (x y : List ℕ) (env : Bindings) (v : Data)
        (f : Data → Data → Outcome) → begins_at x ≡ false → bytes_eq x y ≡ false
        → is_range v ≡ true → has_double v ≡ false → Means book names r env (Ok v)
        → ((i d : Data) → MeansIn book ((y, false) ∷ (x, false) ∷ names) b ((y, d) ∷ (x, i) ∷ []) env (f i d))
        → Means book names (call p (tree_and r no_trees) (codes "transformList")
        (tree_and (ident q x) (tree_and (ident s y) (tree_and b no_trees)))) env
        (and_then (all_values (map (λ e. f e.0 e.1) (parts_of v))) (λ vs. Ok (list (items_of vs)))) }
{}

/// `o.hasValue()` is whether `o` holds something.
pub fn has_value()
    ensures { (book : Book) (names : Names) (p : Place) (o : Tree) (env : Bindings) (w : Option Data)
        → Holds book names o env (Ok w)
        → Means book names (call p (tree_and o no_trees) (codes "hasValue") no_trees) env (Ok (bool (is_some w))) }
{}

/// `o.or(p)` is `o` if it holds something, whatever `p` means, or else `p`. An optional that holds a
/// double is an error that isn't judged.
pub fn or()
    ensures of_some { (book : Book) (names : Names) (q : Place) (o p : Tree) (env : Bindings) (v : Data) (ds : Items)
        (r : Outcome) → items_have_double (item v ds) ≡ false
        → Means book names o env (Ok (optional (item v ds))) → Means book names p env r
        → Means book names (call q (tree_and o no_trees) (codes "or") (tree_and p no_trees)) env
        (Ok (optional (item v ds))) }
    ensures of_none { (book : Book) (names : Names) (q : Place) (o p : Tree) (env : Bindings) (es : Items)
        → items_have_double es ≡ false → Means book names o env (Ok (optional no_items))
        → MeansIn book names p [] env (Ok (optional es))
        → Means book names (call q (tree_and o no_trees) (codes "or") (tree_and p no_trees)) env (Ok (optional es)) }
{}

/// A selection that is an optional, as a value: an optional of what it holds, or one without a value.
/// One of a value that holds a double is an error that isn't judged.
pub fn selection_as_a_value()
    ensures { (book : Book) (names : Names) (p : Place) (o : Tree) (q : Bool) (x : List ℕ) (env : Bindings)
        (w : Option Data) → Holds book names (select p o q x) env (Ok w)
        → Means book names (select p o q x) env (held_value w) }
{}

/// `a[?i]` is an optional of the item of the list `a` at `i`, or of the member of the map `a` at `i`,
/// or one without a value if there is none.
pub fn optional_index()
    ensures { (book : Book) (names : Names) (p : Place) (a i : Tree) (env : Bindings) (v k : Data)
        → has_double v ≡ false → has_double k ≡ false
        → Plain book names a env (Ok v) → Means book names i env (Ok k)
        → Means book names (index p a true i) env (index_optional v k) }
{}

/// `o.optFlatMap(x, b)` holds what the optional `b` holds where `x` is what `o` holds. It holds nothing
/// if `o` doesn't, whatever `b` means.
pub fn opt_flat_map()
    ensures of_none { (book : Book) (names : Names) (p q : Place) (o b : Tree) (x : List ℕ) (env : Bindings)
        → Holds book names o env (Ok None) → Translates ((x, false) ∷ names) b
        → Holds book names (call p (tree_and o no_trees) (codes "optFlatMap")
        (tree_and (ident q x) (tree_and b no_trees))) env (Ok None) }
    ensures of_some { (book : Book) (names : Names) (p q : Place) (o b : Tree) (x : List ℕ) (env : Bindings)
        (v : Data) (w : Option Data) → Holds book names o env (Ok (Some v))
        → Holds book ((x, false) ∷ names) b ((x, v) ∷ env) (Ok w)
        → Holds book names (call p (tree_and o no_trees) (codes "optFlatMap")
        (tree_and (ident q x) (tree_and b no_trees))) env (Ok w) }
{}

/// `dyn(v)` is `v`.
pub fn dynamic()
    ensures { (names : Names) (p : Place) (t : Tree)
        → made names (call p no_trees (codes "dyn") (tree_and t no_trees)) ≡ made names t }
{}

/// A tree without any of these forms is translated to the port's tree of the same text.
pub fn the_port_is_kept()
    ensures { (names : Names) (t : Tree) (u : Term) → NoOptionals names → port_tree t ≡ Some u
        → translated names t ≡ Ok u }
{}

/// `optional.of(v)` is an optional of `v`, and `optional.none()` one without a value. An optional of a
/// value that holds a double is an error that isn't judged.
pub fn optionals()
    ensures of { (book : Book) (names : Names) (p q : Place) (t : Tree) (env : Bindings) (v : Data)
        → Means book names t env (Ok v)
        → Means book names (call p (tree_and (ident q (codes "optional")) no_trees) (codes "of")
        (tree_and t no_trees)) env (held_value (Some v)) }
    ensures none { (book : Book) (names : Names) (p q : Place) (env : Bindings)
        → Means book names (call p (tree_and (ident q (codes "optional")) no_trees) (codes "none") no_trees) env
        (Ok none_of_all) }
{}

/// `[?o]` is the list of what `o` holds.
pub fn optional_item()
    ensures { (book : Book) (names : Names) (p : Place) (o : Tree) (env : Bindings) (w : Option Data)
        → items_have_double (option_items w) ≡ false → Holds book names o env (Ok w)
        → Means book names (list_of p (item_and true o no_tree_items)) env (Ok (list (option_items w))) }
{}

/// `type(v) == n` is whether the type of `v` has the name `n`, if that is the name of a type and no
/// variable has it.
pub fn types()
    ensures { (book : Book) (names : Names) (p q s : Place) (t : Tree) (n : List ℕ) (env : Bindings) (v : Data)
        → lookup (bytes_eq n) names ≡ None → list_any (bytes_eq n) type_names ≡ true
        → has_double v ≡ false → Means book names t env (Ok v)
        → Means book names (binary p Equal (call q no_trees (codes "type") (tree_and t no_trees)) (ident s n)) env
        (Ok (bool (same (text (type_name (kind_of v))) (text n)))) }
{}

/// `r.transformMap(i, v, b)` is the map of each index with what `b` means for its item, or of each key
/// with what `b` means for its value, or the first error.
pub fn transform_map()
    ensures { (book : Book) (names : Names) (p q s : Place) (r b : Tree) (x y : List ℕ) (env : Bindings) (v : Data)
        (f : Data → Data → Outcome) → begins_at x ≡ false → bytes_eq x y ≡ false
        → is_range v ≡ true → has_double v ≡ false → Means book names r env (Ok v)
        → ((i d : Data) → MeansIn book ((y, false) ∷ (x, false) ∷ names) b ((y, d) ∷ (x, i) ∷ []) env (f i d))
        → Means book names (call p (tree_and r no_trees) (codes "transformMap")
        (tree_and (ident q x) (tree_and (ident s y) (tree_and b no_trees)))) env
        (and_then (all_values (map (λ e. and_then (f e.0 e.1) (λ w. Ok (pair e.0 w))) (parts_of v))) map_of_all) }
{}
