//! Laws of validation and of places, each stated as the contract of a function with an empty body.
ghost use Rattle.cel.specs.Book.{Book, Extends, IsBook, IsPlain, IsRefused};
ghost use Rattle.cel.specs.Entries.{entries_of};
ghost use Rattle.cel.specs.PatternBook.{PatternBook};
ghost use Rattle.kube_cel.specs.Added.{NodeStep, with_rules};
ghost use Rattle.kube_cel.specs.AddedVerdicts.{AddsAlone};
ghost use Rattle.kube_cel.specs.Answers.{report_of};
ghost use Rattle.kube_cel.specs.Compiled.{compiled_accessors};
ghost use Rattle.kube_cel.specs.CompiledSteps.{compiled_steps};
ghost use Rattle.kube_cel.specs.Parts.{is_branch, part_along};
ghost use Rattle.kube_cel.specs.Raw.{raw_accessors};
ghost use Rattle.kube_cel.specs.Starts.{defaulted_start, tree_start};
ghost use Rattle.kube_cel.specs.Visits.{with_node_of};
ghost use Rattle.kube_functions.specs.Kube.{all_library};
ghost use Rattle.kube_schema.specs.CompiledConversion.{tree_accessors};
ghost use Rattle.kube_schema.specs.Conversion.{raw};
ghost use Rattle.kube_schema.specs.RulesRaw.{raw_steps};
ghost use Rattle.kube_schema.specs.Step.{Step};
ghost use Rattle.kube_schema.specs.Visit.{Visit, candidates, goes, Root, root_visit};
ghost use Rattle.kube_schema.specs.Walk.{answers, leads, places};
ghost use Rattle.kube_cel_walk.specs.Answers.{answer, bound_at};
ghost use Rattle.kube_cel_walk.specs.Errors.{ErrorData};
ghost use Rattle.kube_cel_walk.specs.WalkAccessors.{WalkAccessors};
ghost use Rattle.kube_schema.specs.Tree.{Node};
ghost use Rattle.kube_schema.specs.View.{view_of};
ghost use Rattle.serde_json.specs.Data.{Data, Items};
ghost use Rattle.std.specs.List.{list_any};
ghost use Rattle.std.specs.Prelude.{◌≡◌, ◌+◌, ℕ, List, length, option_map, ◌≤◌, ◌↔◌, Option, Result, Some, false};

/// A schema has the same places as its tree, in the same order, and the same steps lead to
/// the same visits. The node of a visit in the tree is the tree of the schema's node there.
pub fn the_tree_has_the_same_places()
    ensures places { (n : ℕ) (s : Visit Data) → places (goes raw_steps) (candidates raw_steps) n s
        ≡ places (goes compiled_steps) (candidates compiled_steps) n (with_node_of (view_of n) s) }
    ensures visits { (n : ℕ) (s : Visit Data) (p : List Step)
        → option_map (with_node_of (view_of n)) (leads (goes raw_steps) p s)
        ≡ leads (goes compiled_steps) p (with_node_of (view_of (n + length p)) s) }
{}

/// If a schema and its tree have the same findings at each visit,
/// then they have the same findings at all places together.
pub fn the_tree_is_answered_alike<E>()
    ensures { (found : Visit Data → List E) (found_in_tree : Visit Node → List E) (levels : ℕ)
        → ((n : ℕ) (s : Visit Data) → s.depth + n ≡ levels → found s
        ≡ found_in_tree (with_node_of (view_of n) s))
        → (n : ℕ) (s : Visit Data) → s.depth + n ≡ levels
        → answers (goes raw_steps) (candidates raw_steps) found n s
        ≡ answers (goes compiled_steps) (candidates compiled_steps) found_in_tree n
        (with_node_of (view_of n) s) }
{}

/// Under one book, a schema and its tree, which is the form it has when compiled,
/// have the same answer. This includes depth 65, and holds both for values that
/// each form has filled with its defaults and for values as they are.
pub fn a_compiled_schema_answers_alike()
    ensures filled { (b : Book) (schema value : Data) (old : Option Data) (root : Option Root)
        → answer raw_accessors b 65 (defaulted_start schema value old root)
        ≡ answer compiled_accessors b 65 (tree_start (view_of 65 schema) value old root) }
    ensures plain { (b : Book) (schema value : Data) (old : Option Data) (root : Option Root)
        → answer raw_accessors b 65 (root_visit schema value old root)
        ≡ answer compiled_accessors b 65 (root_visit (view_of 65 schema) value old root) }
{}

/// Under one book, appending rules to the list of a node leaves all other errors
/// as they were: at each place the same errors stand in the same order, followed,
/// at the places of that node alone, by the verdicts of the added rules.
pub fn added_rules_leave_all_other_errors()
    ensures { (b : Book) (schema value : Data) (old : Option Data)
        (root : Option Root) (more : Items) (node : List NodeStep)
        → AddsAlone b more node (defaulted_start schema value old root)
        (answer raw_accessors b 65 (defaulted_start schema value old root))
        (answer raw_accessors b 65 (defaulted_start (with_rules more node schema) value old root)) }
{}

/// An answer depends on a book only through the set of texts that the book
/// refuses, in each form of a schema whose rules may call these functions. So all plain books give one list.
pub fn books_that_refuse_alike_give_one_list<S>()
    ensures alike { (a b : Book) → ((text : List ℕ) → IsRefused a text ↔ IsRefused b text)
        → (form : WalkAccessors S) → form.library ≡ all_library
        → (root : Visit S) → answer form a 65 root ≡ answer form b 65 root }
    ensures plain { (a b : Book) → IsBook a → IsBook b → IsPlain a → IsPlain b
        → (form : WalkAccessors S) → form.library ≡ all_library
        → (root : Visit S) → answer form a 65 root ≡ answer form b 65 root }
{}

/// If one book is lent to two calls, one by the schema and one by its tree, in either
/// order, both give one list. The first answer holds under each book that extends the
/// lent one as it is between the calls, and the lent book at the end is such a book.
pub fn one_lent_book_gives_one_list()
    ensures tree_second { (between after : Book) (schema value : Data)
        (old : Option Data) (root : Option Root)
        (first second : Result (Unit {0}) (List ErrorData)) → Extends after between
        → ((b : Book) → Extends b between
        → first ≡ report_of (answer raw_accessors b 65 (defaulted_start schema value old root)))
        → ((b : Book) → Extends b after
        → second ≡ report_of (answer compiled_accessors b 65 (tree_start (view_of 65 schema) value old root)))
        → first ≡ second }
    ensures tree_first { (between after : Book) (schema value : Data) (old : Option Data) (root : Option Root)
        (first second : Result (Unit {0}) (List ErrorData)) → Extends after between
        → ((b : Book) → Extends b between
        → first ≡ report_of (answer compiled_accessors b 65 (tree_start (view_of 65 schema) value old root)))
        → ((b : Book) → Extends b after
        → second ≡ report_of (answer raw_accessors b 65 (defaulted_start schema value old root)))
        → first ≡ second }
{}

/// If a lent book, as it is after the call, refuses only texts that don't read
/// as patterns, the call has returned the answer that every plain book gives.
pub fn a_plain_lent_book_gives_the_plain_list<S>()
    ensures { (lent : PatternBook) (plain : Book) → IsPlain (entries_of lent) → IsBook plain → IsPlain plain
        → (form : WalkAccessors S) → form.library ≡ all_library
        → (root : Visit S) (answered : Result (Unit {0}) (List ErrorData))
        → ((b : Book) → Extends b (entries_of lent) → answered ≡ report_of (answer form b 65 root))
        → answered ≡ report_of (answer form plain 65 root) }
{}

/// The value of `self` at a place is the part of the root's `self` that CEL finds along the
/// steps: at each step the member at the property's name (escaped, except in a map node),
/// or the item at the index. Paths with steps to branches are left out, because a branch
/// binds the same value anew by its own node. The same holds of `oldSelf`, if there is one.
/// So a value that was bound at the root need not be bound again at the places within it.
pub fn self_is_the_part_of_the_roots()
    ensures schema { (root place : Visit Data) (steps : List Step)
        → root.depth + length steps ≤ 65 → list_any is_branch steps ≡ false
        → leads (goes raw_accessors.steps) steps root ≡ Some place
        → part_along raw_accessors raw steps root (bound_at raw_accessors root root.value)
        ≡ Some (bound_at raw_accessors place place.value) }
    ensures schema_old { (root place : Visit Data) (steps : List Step) (old part : Data)
        → root.depth + length steps ≤ 65
        → list_any is_branch steps ≡ false → leads (goes raw_accessors.steps) steps root ≡ Some place
        → root.old ≡ Some old → place.old ≡ Some part
        → part_along raw_accessors raw steps root (bound_at raw_accessors root old)
        ≡ Some (bound_at raw_accessors place part) }
    ensures tree { (root place : Visit Node) (steps : List Step)
        → root.depth + length steps ≤ 65 → list_any is_branch steps ≡ false
        → leads (goes compiled_accessors.steps) steps root ≡ Some place
        → part_along compiled_accessors tree_accessors steps root (bound_at compiled_accessors root root.value)
        ≡ Some (bound_at compiled_accessors place place.value) }
    ensures tree_old { (root place : Visit Node) (steps : List Step) (old part : Data)
        → root.depth + length steps ≤ 65
        → list_any is_branch steps ≡ false → leads (goes compiled_accessors.steps) steps root ≡ Some place
        → root.old ≡ Some old → place.old ≡ Some part
        → part_along compiled_accessors tree_accessors steps root (bound_at compiled_accessors root old)
        ≡ Some (bound_at compiled_accessors place part) }
{}
