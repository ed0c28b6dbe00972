//! Analysis of rules without an object: the names that a rule may not use, and its estimated
//! cost for the sizes that a schema allows; and a linter for the rules of a compiled schema.
#![tactic(auto)]

pub mod analysis;
pub mod cost;
pub mod finding;
pub mod laws;
mod pointer;
mod rule;
pub mod scope;
pub mod sizes;
pub mod walk;
pub mod warning;

pub use analysis::{analyze_expression, analyze_rule, estimate_rule_cost};
pub use cost::{Sizes, estimated_cost};
pub use finding::{LintFinding, LintKind};
pub use scope::{ScopeContext, check_expression_scope, check_rule_scope};
pub use sizes::sizes_of;
pub use walk::lint_schema;
pub use warning::{AnalysisWarning, WarningKind};
