//! The rules of a schema's node, parsed from JSON and compiled; and the places that
//! a schema and a value share: definitions and lemmas for every walk over them.
#![tactic(auto)]

pub mod branches;
pub mod compilation;
pub mod compiler;
pub mod demands;
pub mod laws;
pub mod node_rules;
pub mod result;
pub mod rule;

pub use branches::BranchKind;
pub use compilation::{
    CompilationError, compile_rule, compile_rule_by, compile_texts, rules_by, rules_of,
};
pub use compiler::RuleCompiler;
pub use demands::{Demands, no_demands, with_rule};
pub use kube_types::Refused;
pub use node_rules::{CompiledRules, NodeRules, compile_rules};
pub use result::CompilationResult;
pub use rule::{Rule, RuleFault, rule_values};
