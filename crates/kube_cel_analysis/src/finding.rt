//! The findings of the linter.

use std::rc::Rc;

/// The kind of a finding: what is wrong with a rule, or with the schema in its place.
#[derive(Clone, Copy, Debug, PartialEq, Eq)]
pub enum LintKind {
    /// The rule is malformed, or one of its texts doesn't parse.
    Compile,
    /// The rule calls an unknown function.
    Function,
    /// The rule uses a name that isn't available where it runs.
    Scope,
    /// The estimated cost of the rule is above the budget of a million.
    Cost,
    /// The rule is a macro, and a property of its node is a list without `maxItems`.
    Bounds,
    /// The schema goes on past the maximum depth.
    Depth,
}

/// A finding at one node of a schema.
#[derive(Debug, Drop, PartialEq)]
pub struct LintFinding {
    /// The JSON Pointer of the node in the schema (RFC 6901).
    pub pointer: String,
    /// The text of the rule, which all findings about it share; empty if there is none.
    pub rule: Rc<String>,
    /// The kind of the finding.
    pub kind: LintKind,
    /// The message of the finding.
    pub message: String,
}
