//! The findings of a review.

use crate::word::word_of;
use kube_cel_analysis::LintKind;
use std::fmt;
use std::rc::Rc;

/// The kind of a finding. It prints as one word.
#[derive(Clone, Copy, Debug, PartialEq, Eq)]
pub enum ReviewKind {
    /// A finding of the linter.
    Lint(LintKind),
    /// The document has no versions, or a version has no schema.
    Document,
    /// A function is called in a form that it doesn't have, or a messageExpression calls an unknown
    /// function.
    Call,
    /// A literal pattern is refused.
    Pattern,
    /// A call with one string literal always fails.
    Literal,
    /// A part of CEL that Kubernetes has and this project lacks: it is no mistake of the definition.
    Unsupported,
    /// A messageExpression obviously doesn't evaluate to a string.
    Message,
    /// A key is no field of schemas, or no field of rules, or what stands where a schema does is none.
    Keyword,
    /// `x-kubernetes-validations` is not a list, or is in a schema that no object is judged by.
    Rules,
    /// No schema that objects are judged by has a rule.
    NoRules,
}

impl fmt::Display for ReviewKind {
    ghost use Rattle.std.specs.Prelude.{Some};
    ghost use Rattle.kube_manifests_review.specs.Candidates.{kind_text};

    ghost output = { λ k. Some (kind_text k) };

    fn fmt<W: fmt::Write>(&self, f: &mut fmt::Formatter<W>) -> fmt::Result {
        f.write_str(word_of(*self))
    }
}

/// Something that a person should look at, at one pointer in a document.
#[derive(Debug, Drop, PartialEq)]
pub struct ReviewFinding {
    /// The JSON Pointer (RFC 6901) into the document.
    pub pointer: String,
    /// The source of the rule, which findings about it share. Empty if the finding isn't about a
    /// rule.
    pub rule: Rc<String>,
    /// The finding for programs.
    pub kind: ReviewKind,
    /// The finding in words.
    pub message: String,
}
