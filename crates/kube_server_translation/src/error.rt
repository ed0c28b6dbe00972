//! Why a tree has no translation.

ghost use Rattle.std.specs.Prelude.{◌≡◌, Some};
ghost use Rattle.kube_server_translation.specs.Texts.{text_of};

use kube_server_syntax::node::Place;
use std::fmt;

/// What is wrong with a macro.
#[derive(Clone, Copy, Debug, PartialEq, Eq)]
pub enum Malformed {
    /// A variable isn't a name.
    Variable,
    /// Both variables have the same name.
    SameVariables,
    /// The argument of `has` isn't a selection.
    Selection,
}

impl Malformed {
    /// What is wrong, for users.
    pub fn text(self) -> &'static str
        ensures { result.now ≡ text_of self }
    {
        match self {
            Malformed::Variable => "the variable of a macro must be a name",
            Malformed::SameVariables => "the two variables of a macro must have different names",
            Malformed::Selection => "has() takes the selection of a field, as in has(a.b)",
        }
    }
}

/// A macro that isn't well formed, and where in the text.
#[derive(Clone, Copy, Debug, PartialEq, Eq)]
pub struct TranslationError {
    /// The argument that is wrong.
    pub place: Place,
    pub malformed: Malformed,
}

impl fmt::Display for TranslationError {
    ghost output = { λ e. Some (text_of e.malformed) };

    fn fmt<W: fmt::Write>(&self, f: &mut fmt::Formatter<W>) -> fmt::Result {
        f.write_str(self.malformed.text())
    }
}
