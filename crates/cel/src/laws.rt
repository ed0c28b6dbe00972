//! Laws about code and meanings. Each is the contract of a function whose body is empty.
ghost use Rattle.std.specs.Prelude.{◌≡◌, ◌≤◌, ◌+◌, ◌*◌, ℕ, List, true, length};
ghost use Rattle.cel_patterns.specs.Book.{Book};
ghost use Rattle.cel_semantics.specs.Bindings.{Bindings, binding};
ghost use Rattle.cel_semantics.specs.Library.{Library};
ghost use Rattle.cel_semantics.specs.Meaning.{meaning};
ghost use Rattle.cel_syntax.specs.FreeNames.{is_free};
ghost use Rattle.cel_syntax.specs.Term.{Term};
ghost use Rattle.cel_vm_code.specs.Code.{code_of};
ghost use Rattle.cel_vm_code.specs.Size.{nodes};

/// The code of a tree has fewer than five instructions per node.
#[tactic(auto, using(cel_vm_code::proofs::Sizes::code_is_short))]
pub fn code_is_short()
    ensures { (t : Term) → length (code_of t) + 2 ≤ 5 * nodes t }
{}

/// The meaning of a tree depends only on what its free names are bound to. So a variable that it
/// doesn't read need not be bound.
pub fn unread_names_change_nothing()
    ensures { (library : Library) (book : Book) (t : Term) (e f : Bindings)
        → ((x : List ℕ) → is_free x t ≡ true → binding x e ≡ binding x f)
        → meaning library book t e ≡ meaning library book t f }
{}
