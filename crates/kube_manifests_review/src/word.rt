//! Prints kinds of findings as words.
ghost use Rattle.std.specs.Prelude.{◌≡◌};
ghost use Rattle.kube_manifests_review.specs.Candidates.{kind_text, lint_text};

use crate::finding::ReviewKind;
use kube_cel_analysis::LintKind;

/// The word for a kind of the linter.
fn lint_word(kind: LintKind) -> &'static str
    ensures { result.now ≡ lint_text kind }
{
    match kind {
        LintKind::Compile => "compile",
        LintKind::Function => "function",
        LintKind::Scope => "scope",
        LintKind::Cost => "cost",
        LintKind::Bounds => "bounds",
        LintKind::Depth => "depth",
    }
}

/// The word for a kind.
pub(crate) fn word_of(kind: ReviewKind) -> &'static str
    ensures { result.now ≡ kind_text kind }
{
    match kind {
        ReviewKind::Lint(kind) => lint_word(kind),
        ReviewKind::Document => "document",
        ReviewKind::Call => "call",
        ReviewKind::Pattern => "pattern",
        ReviewKind::Literal => "literal",
        ReviewKind::Unsupported => "unsupported",
        ReviewKind::Message => "message",
        ReviewKind::Keyword => "keyword",
        ReviewKind::Rules => "rules",
        ReviewKind::NoRules => "no-rules",
    }
}
