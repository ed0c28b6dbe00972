//! The findings that a review may report, each with its condition.

use crate::finding::ReviewFinding;

/// The condition under which a finding is reported.
#[derive(Drop)]
pub(crate) enum Condition {
    /// It is always reported.
    Always,
    /// It is reported if this pattern is refused.
    Refused(String),
    /// It is reported if calling the function with just this string gives an error.
    Fails {
        /// The name of the function.
        name: String,
        /// The only argument.
        text: String,
    },
}

/// A finding, with the condition under which it is reported.
#[derive(Drop)]
pub(crate) struct Candidate {
    pub(crate) finding: ReviewFinding,
    pub(crate) condition: Condition,
}
