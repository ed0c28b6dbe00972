//! Laws of passes. Each is the contract of a function with an empty body.
//!
//! A call without a lent book promises its result under some book. These laws say that a value or a
//! pass needs no particular book: what is had under one is had under every book that refuses no
//! more patterns, and so under every plain book.
ghost use Rattle.cel.specs.Book.{Book, IsBook, IsPlain};
ghost use Rattle.cel.specs.Bindings.{Bindings};
ghost use Rattle.cel.specs.Meaning.{meaning};
ghost use Rattle.cel_syntax.specs.Term.{Term};
ghost use Rattle.cel_value.specs.Data.{Data};
ghost use Rattle.kube_cel.specs.Answers.{IsReportOf};
ghost use Rattle.kube_cel_laws.specs.Books.{RefusesNoMore};
ghost use Rattle.kube_cel.specs.WalkAnswers.{answer};
ghost use Rattle.kube_cel.specs.WalkAccessors.{WalkAccessors};
ghost use Rattle.kube_functions.specs.Kube.{all_library, kube_library};
ghost use Rattle.kube_functions.specs.declared.sets.KubeFunctions.{KubeFunctions};
ghost use Rattle.kube_manifests.specs.Sets.{IsJudgement, IsJudgementUnder};
ghost use Rattle.kube_manifests.specs.DocumentsVersions.{Version};
ghost use Rattle.kube_manifests.specs.declared.judgement.Judgement.TheVariants.{Judged};
ghost use Rattle.kube_schema.specs.Visit.{Visit};
ghost use Rattle.serde_json.specs.Data.{Data as Json};
ghost use Rattle.std.specs.Prelude.{◌≡◌, ◌↔◌, List, [], Ok, Option};

/// A plain book refuses no more than any other book.
pub fn a_plain_book_refuses_least()
    ensures { (plain book : Book) → IsPlain plain → IsBook book → RefusesNoMore plain book }
{}

/// If a tree means a value under one book, it means the same value under every book that refuses
/// no more. All that a book can do is turn a value into an error, by refusing a pattern.
pub fn a_value_needs_no_book()
    ensures no_more { (functions : KubeFunctions) (strict lenient : Book) → RefusesNoMore lenient strict
        → (t : Term) (e : Bindings) (v : Data)
        → meaning (kube_library functions) strict t e ≡ Ok v
        → meaning (kube_library functions) lenient t e ≡ Ok v }
    ensures plain { (functions : KubeFunctions) (book plain : Book) → IsBook book → IsPlain plain
        → (t : Term) (e : Bindings) (v : Data)
        → meaning (kube_library functions) book t e ≡ Ok v
        → meaning (kube_library functions) plain t e ≡ Ok v }
{}

/// If a schema, in any form whose rules may call these functions, finds no error under one book, it finds
/// none under every book that refuses no more. So a call with a book of its own returns `Ok` only if every
/// plain book gives no error.
pub fn a_pass_needs_no_book<S>()
    ensures no_more { (strict lenient : Book) → RefusesNoMore lenient strict
        → (form : WalkAccessors S) → form.library ≡ all_library → (root : Visit S)
        → answer form strict 65 root ≡ [] → answer form lenient 65 root ≡ [] }
    ensures plain { (plain : Book) → IsPlain plain
        → (form : WalkAccessors S) → form.library ≡ all_library → (root : Visit S)
        → IsReportOf form root (Ok tt) → answer form plain 65 root ≡ [] }
{}

/// If an object is judged without errors under one book, it is so under every book that refuses no
/// more. It is judged without errors under some book exactly if it is so under a plain one.
pub fn a_judgement_without_errors_needs_no_book()
    ensures no_more { (strict lenient : Book) → RefusesNoMore lenient strict
        → (versions : List (Version Json)) (object : Json) (old : Option Json)
        → IsJudgementUnder strict versions object old (Judged (Ok tt))
        → IsJudgementUnder lenient versions object old (Judged (Ok tt)) }
    ensures plain { (plain : Book) → IsBook plain → IsPlain plain
        → (versions : List (Version Json)) (object : Json) (old : Option Json)
        → IsJudgement versions object old (Judged (Ok tt))
        ↔ IsJudgementUnder plain versions object old (Judged (Ok tt)) }
{}
