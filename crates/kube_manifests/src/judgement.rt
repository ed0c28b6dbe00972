//! The result of judging an object.
use kube_cel::ValidationErrors;
use std::fmt;

/// The result of judging an object by a set of definitions.
#[derive(Debug, Drop)]
pub enum Judgement {
    /// The answer of the schema that judges the object: `Ok` if all its rules admit the object,
    /// else all errors.
    Judged(Result<(), ValidationErrors>),
    /// No rule was applied, for this reason.
    NotJudged(NotJudged),
}

/// Why no schema judges an object. The reasons are checked in this order.
#[derive(Clone, Copy, Debug, PartialEq, Eq)]
pub enum NotJudged {
    /// The value is not a JSON object.
    NotAnObject,
    /// The object has no `apiVersion` that is a string.
    NoApiVersion,
    /// The object has no `kind` that is a string.
    NoKind,
    /// No definition has the object's group and kind.
    NoSuchKind,
    /// The definition of the object's group and kind has no version of the name in the object's
    /// apiVersion.
    NoSuchVersion,
    /// The definition doesn't serve that version.
    NotServed,
}

impl fmt::Display for NotJudged {
    ghost use Rattle.std.specs.Prelude.{Some};
    ghost use Rattle.kube_manifests.specs.Texts.{reason_text};

    ghost output = { λ r. Some (reason_text r) };

    fn fmt<W: fmt::Write>(&self, f: &mut fmt::Formatter<W>) -> fmt::Result {
        match self {
            NotJudged::NotAnObject => write!(f, "not an object"),
            NotJudged::NoApiVersion => write!(f, "no apiVersion"),
            NotJudged::NoKind => write!(f, "no kind"),
            NotJudged::NoSuchKind => {
                write!(f, "no CustomResourceDefinition for this group and kind")
            }
            NotJudged::NoSuchVersion => {
                write!(
                    f,
                    "its CustomResourceDefinition doesn't define this version"
                )
            }
            NotJudged::NotServed => write!(f, "this version isn't served"),
        }
    }
}
