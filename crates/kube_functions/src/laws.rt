//! Laws of the sets of functions. Each is the contract of a function with an empty body.
ghost use Rattle.std.specs.Prelude.{◌≡◌, ◌↔◌, ℕ, Bool, true, false, List, [], ◌∷◌, ◌++◌, length, codes, is_some, Option, Some, None};
ghost use Rattle.cel_patterns.specs.Book.{Book, IsBook, IsPlain, IsRefused, found_by, matched_by, pattern_of_text};
ghost use Rattle.cel_semantics.specs.Bindings.{Bindings};
ghost use Rattle.cel_semantics.specs.Meaning.{meaning};
ghost use Rattle.cel_semantics.specs.declared.functions.Form.TheVariants.{Known, Unknown};
ghost use Rattle.cel_stdlib.specs.Standard.{standard_library};
ghost use Rattle.cel_syntax_ast.specs.Term.{Term};
ghost use Rattle.cel_syntax_ast.specs.Calls.{is_qualified};
ghost use Rattle.cel_value.specs.Data.{Data};
ghost use Rattle.kube_functions.specs.Kube.{all_library, kube_library};
ghost use Rattle.kube_functions.specs.Overloads.{address_operand, is_address};
ghost use Rattle.kube_functions.specs.Table.{function_named};
ghost use Rattle.kube_functions.specs.declared.sets.KubeFunctions.{KubeFunctions};
ghost use Rattle.kube_functions.specs.declared.sets.KubeFunctions.TheVariants.{Standard};
ghost use Rattle.kube_functions_types.specs.Strings.{string_of};

/// The set of functions with which a context begins is that of the CEL standard.
pub fn the_first_set_is_the_standard_one()
    ensures { kube_library Standard ≡ standard_library }
{}

/// Every call that the standard knows is known to the set of all functions, and
/// has the same answer there unless it is `string` of an IP address or a CIDR.
pub fn standard_calls_are_kept()
    ensures known { (name : List ℕ) (receiver : Bool) (count : ℕ)
        → standard_library.form_of name receiver count ≡ Known
        → all_library.form_of name receiver count ≡ Known }
    ensures answers { (name : List ℕ) (receiver : Option Data) (args : List Data) (book : Book)
        → standard_library.form_of name (is_some receiver) (length args) ≡ Known
        → address_operand name receiver args ≡ None
        → all_library.answer_of name receiver args book ≡ standard_library.answer_of name receiver args book }
{}

/// `string` of an IP address or a CIDR returns its text,
/// called with it as the receiver or as the argument.
pub fn addresses_have_strings()
    ensures method { (v : Data) (book : Book) → is_address v ≡ true
        → all_library.answer_of (codes "string") (Some v) [] book ≡ string_of v }
    ensures global { (v : Data) (book : Book) → is_address v ≡ true
        → all_library.answer_of (codes "string") None (v ∷ []) book ≡ string_of v }
{}

/// Whether a name is unknown depends only on the name: if it is unknown in one form (with
/// or without a receiver, with some number of arguments), it is unknown in every form.
pub fn names_alone_are_unknown()
    ensures { (functions : KubeFunctions) (name : List ℕ) (receiver other : Bool) (count number : ℕ)
        → (kube_library functions).form_of name receiver count ≡ Unknown
        → (kube_library functions).form_of name other number ≡ Unknown }
{}

/// The parser takes two names with a dot between them, such as `math.abs`, as one
/// name exactly if Kubernetes adds a function with that name that is called without
/// a receiver. No function that Kubernetes adds on a receiver has a dot in its name.
pub fn dotted_names_are_those_of_the_table()
    ensures globals { (library function : List ℕ)
        → is_qualified library function ≡ is_some (function_named (library ++ (46 ∷ function)) false) }
    ensures methods { (library function : List ℕ)
        → function_named (library ++ (46 ∷ function)) true ≡ None }
{}

/// What a pattern finds depends on a book only in whether the book refuses the pattern.
pub fn books_that_refuse_alike_find_the_same()
    ensures matches { (a b : Book) (pattern text : List ℕ) → (IsRefused a pattern ↔ IsRefused b pattern)
        → matched_by a pattern text ≡ matched_by b pattern text }
    ensures spans { (a b : Book) (pattern text : List ℕ) (limit : Option ℕ)
        → (IsRefused a pattern ↔ IsRefused b pattern)
        → found_by a pattern text limit ≡ found_by b pattern text limit }
{}

/// A plain book refuses exactly the texts that don't parse
/// as a pattern. So all plain books refuse the same texts.
pub fn plain_books_refuse_what_is_no_pattern()
    ensures refused { (book : Book) → IsBook book → IsPlain book → (text : List ℕ)
        → IsRefused book text ↔ (pattern_of_text text ≡ None) }
    ensures alike { (a b : Book) → IsBook a → IsBook b → IsPlain a → IsPlain b → (text : List ℕ)
        → IsRefused a text ↔ IsRefused b text }
{}

/// What a tree means depends on a book only in which texts the book refuses. So a tree means the
/// same under all plain books, which refuse exactly the texts that don't parse as a pattern.
pub fn books_that_refuse_alike_mean_the_same()
    ensures alike { (functions : KubeFunctions) (a b : Book)
        → ((text : List ℕ) → IsRefused a text ↔ IsRefused b text)
        → (t : Term) (e : Bindings)
        → meaning (kube_library functions) a t e ≡ meaning (kube_library functions) b t e }
    ensures plain { (functions : KubeFunctions) (a b : Book) → IsBook a → IsBook b → IsPlain a → IsPlain b
        → (t : Term) (e : Bindings)
        → meaning (kube_library functions) a t e ≡ meaning (kube_library functions) b t e }
{}
