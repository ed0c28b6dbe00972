//! The expressions of a rule, and adding their candidate findings.
ghost use Rattle.std.specs.Prelude.{[], ◌∷◌, OnOk, string_bytes};
ghost use Rattle.kube_manifests_review.specs.Calls.{text_candidate, text_view};
ghost use Rattle.kube_manifests_review.specs.Candidates.{AddsCandidates, unconditional, when_view};

use crate::candidate::{Candidate, Condition};
use crate::finding::{ReviewFinding, ReviewKind};
use std::alloc::{AllocError, Global};
use std::rc::Rc;

/// An expression of a rule: its own or its messageExpression.
#[derive(Clone, Copy)]
pub(crate) struct Text<'a> {
    /// The expression's JSON Pointer into the document.
    pub(crate) pointer: &'a str,
    /// The source of the rule itself.
    pub(crate) rule: &'a Rc<String>,
    /// Whether the expression is the messageExpression.
    pub(crate) is_message: bool,
}

/// Adds a candidate finding of an expression.
pub(crate) fn add_candidate(
    alloc: Global,
    text: Text<'_>,
    kind: ReviewKind,
    message: String,
    condition: Condition,
    candidates: &mut Vec<Candidate>,
) -> Result<(), AllocError>
    ensures { OnOk result (AddsCandidates candidates.old.items candidates.new.items
        (text_candidate (text_view text.entry) kind (string_bytes message) (when_view condition) ∷ [])) }
{
    candidates.push(Candidate {
        finding: ReviewFinding {
            pointer: String::from_str(alloc, text.pointer)?,
            rule: text.rule.clone()?,
            kind,
            message,
        },
        condition,
    })?;
    Ok(())
}

/// Adds a finding that is always reported and isn't about a rule.
pub(crate) fn add_unconditional(
    alloc: Global,
    pointer: &str,
    kind: ReviewKind,
    message: &str,
    candidates: &mut Vec<Candidate>,
) -> Result<(), AllocError>
    ensures { OnOk result (AddsCandidates candidates.old.items candidates.new.items
        (unconditional pointer.now kind message.now ∷ [])) }
{
    let rule = Rc::new(alloc, String::new(alloc))?;
    let text = Text {
        pointer,
        rule: &rule,
        is_message: false,
    };
    let message = String::from_str(alloc, message)?;
    add_candidate(alloc, text, kind, message, Condition::Always, candidates)
}
