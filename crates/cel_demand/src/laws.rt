//! Laws of what expressions read, each stated as the contract of a function with an empty body.
ghost use Rattle.std.specs.Prelude.{◌≡◌, Option};
ghost use Rattle.cel_patterns.specs.Book.{Book};
ghost use Rattle.cel_semantics.specs.Bindings.{Bindings};
ghost use Rattle.cel_semantics.specs.Library.{Library};
ghost use Rattle.cel_semantics.specs.Meaning.{meaning};
ghost use Rattle.cel_syntax_ast.specs.Term.{Term};
ghost use Rattle.cel_value.specs.Data.{Data};
ghost use Rattle.cel_demand.specs.Alike.{NamesAlike, ReadAlike};
ghost use Rattle.cel_demand.specs.Part.{Part, both_read, part_read};
ghost use Rattle.cel_demand.specs.Reads.{reads_of};

/// The meaning of an expression depends only on what it reads. So a name needs to be
/// bound only to the part that is read, and a name that isn't read needn't be bound.
pub fn meaning_depends_on_what_is_read()
    ensures { (library : Library) (book : Book) (t : Term) (e f : Bindings)
        → NamesAlike (λ x. part_read x (reads_of t)) e f
        → meaning library book t e ≡ meaning library book t f }
{}

/// Values that are alike in the union of two parts are alike in each of them.
pub fn both_reads_are_each()
    ensures { (p q : Option Part) (o r : Option Data)
        → ReadAlike (both_read p q) o r → ReadAlike p o r × ReadAlike q o r }
{}
