//! Laws of errors and of verdicts, each stated as the contract of a function.
ghost use Rattle.cel.specs.Alike.{NamesAlike};
ghost use Rattle.cel.specs.Book.{Book};
ghost use Rattle.cel.specs.Bindings.{Bindings};
ghost use Rattle.kube_cel_walk.specs.Errors.{error_view, SameFields};
ghost use Rattle.kube_cel_walk.specs.ErrorLists.{SameErrors, errors_in};
ghost use Rattle.kube_cel_walk.specs.Verdicts.{verdict};
ghost use Rattle.kube_cel_walk.specs.WalkAccessors.{WalkAccessors};
ghost use Rattle.kube_schema_rules.specs.Compilation.{Compiled, Malformed};
ghost use Rattle.kube_schema_rules.specs.Demands.{rule_read};
ghost use Rattle.kube_schema_rules.specs.Visit.{Visit};
ghost use Rattle.std.specs.Prelude.{◌↔◌, IsTrue, ◌≡◌, Result, map};

use crate::error::{ErrorKind, ValidationError, ValidationErrors};

/// Two errors are equal exactly if their five public fields are equal; the cause isn't compared.
pub fn equal_by_five_fields(a: &ValidationError, b: &ValidationError) -> bool
    ensures { IsTrue result ↔ SameFields (error_view a.now) (error_view b.now) }
{
    a == b
}

/// The verdict of a rule depends only on what the rule and
/// its messageExpression read of the values at a place.
pub fn verdict_depends_on_what_is_read<S>()
    ensures { (form : WalkAccessors S) (b : Book) (e f : Bindings) (s : Visit S)
        (rule : Result Compiled Malformed)
        → NamesAlike (λ x. rule_read x rule) e f
        → verdict form b e s rule ≡ verdict form b f s rule }
{}

/// The errors of two validations are equal exactly if there
/// are equally many, and those at each index are equal.
pub fn equal_lists(a: &ValidationErrors, b: &ValidationErrors) -> bool
    ensures { IsTrue result ↔ SameErrors (map error_view (errors_in a.now))
        (map error_view (errors_in b.now)) }
{
    a == b
}

/// Two kinds of errors are equal exactly if they are the same variant.
pub fn equal_kinds(a: ErrorKind, b: ErrorKind) -> bool
    ensures { IsTrue result ↔ (a ≡ b) }
{
    a == b
}
