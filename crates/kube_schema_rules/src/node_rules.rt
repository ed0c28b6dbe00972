//! The rules of a node, together with what they read.
ghost use Rattle.std.specs.Prelude.{◌≡◌, ◌∷◌, [], codes, Err, IfErr, IfOk, map, option_map};
ghost use Rattle.cel_demand.proofs.Sets.{same_read-prop};
ghost use Rattle.cel.specs.Demand.{part_of};
ghost use Rattle.kube_schema_rules.specs.Compilation.{compiled_rules, compiled_rules_by, compiled_seen, past_depth};
ghost use Rattle.kube_schema_rules.specs.Demands.{rules_read};
ghost use Rattle.kube_schema_rules.specs.Rules.{rule_items};
ghost use Rattle.serde_json.specs.View.{view};

use crate::compilation::{CompilationError, rules_by};
use crate::compiler::RuleCompiler;
use crate::demands::{Demands, no_demands, rules_demands};
use crate::result::CompilationResult;
use cel::Untyped;
use kube_types::Refused;
use serde_json::Value;
use std::alloc::Global;

/// The rules of a node, in order, and how much of the values at a place they read.
#[derive(Debug)]
pub struct NodeRules {
    /// The rules, each either compiled or with the reason why it isn't.
    pub rules: Vec<Result<CompilationResult, CompilationError>>,
    /// What at least one of the rules reads.
    pub demands: Demands,
    ghost value_read: { option_map part_of demands.value
        ≡ rules_read (codes "self") (map compiled_seen rules.items) } by { same_read-prop _ _ },
    ghost old_read: { option_map part_of demands.old
        ≡ rules_read (codes "oldSelf") (map compiled_seen rules.items) } by { same_read-prop _ _ },
}

// By hand, so that a proof about code that owns one doesn't go through its parts.
impl Drop for NodeRules {
    fn drop(self) {
        let NodeRules {
            rules: _,
            demands: _,
        } = self;
    }
}

impl NodeRules {
    /// Compiles the rules of a schema's node.
    ///
    /// # Errors
    ///
    /// [`Refused`] if memory is refused.
    pub fn of_schema(alloc: Global, schema: &Value) -> Result<NodeRules, Refused>
        ensures rules { IfOk result (λ r. map compiled_seen r.rules.items
            ≡ compiled_rules (rule_items (view schema.now))) }
        ensures memory { IfErr result (λ e. e ≡ Refused.Memory) }
    {
        compile_rules(alloc, &Untyped, schema)
    }

    /// Returns an empty list of rules. Allocates nothing.
    pub fn none(alloc: Global) -> NodeRules
        ensures { result.rules.items ≡ [] }
    {
        NodeRules {
            rules: Vec::new(alloc),
            demands: no_demands(),
        }
    }

    /// Returns these rules, with their demands.
    ///
    /// # Errors
    ///
    /// [`Refused`] if memory is refused.
    pub fn of(
        alloc: Global,
        rules: Vec<Result<CompilationResult, CompilationError>>,
    ) -> Result<NodeRules, Refused>
        ensures rules { IfOk result (λ r. r.rules ≡ rules) }
        ensures memory { IfErr result (λ e. e ≡ Refused.Memory) }
    {
        let demands = rules_demands(alloc, rules.as_slice())?;
        Ok(NodeRules { rules, demands })
    }

    /// Returns the one error of a node at this depth, past the maximum, in place of its rules.
    ///
    /// # Errors
    ///
    /// [`Refused`] if memory is refused.
    pub fn too_deep(alloc: Global, depth: usize) -> Result<NodeRules, Refused>
        ensures rules { IfOk result (λ r. map compiled_seen r.rules.items ≡ Err (past_depth depth) ∷ []) }
        ensures memory { IfErr result (λ e. e ≡ Refused.Memory) }
    {
        let mut rules = Vec::with_capacity(alloc, 1)?;
        rules.push(Err(CompilationError::SchemaTooDeep { depth }))?;
        let made = NodeRules::of(alloc, rules)?;
        Ok(made)
    }
}

/// Compiles the rules of a schema's node by this compiler.
///
/// # Errors
///
/// [`Refused`] if memory is refused.
pub fn compile_rules<C: RuleCompiler>(
    alloc: Global,
    compiler: &C,
    schema: &Value,
) -> Result<NodeRules, Refused>
    ensures rules { IfOk result (λ r. map compiled_seen r.rules.items
        ≡ compiled_rules_by (C.compiled compiler.now) (rule_items (view schema.now))) }
    ensures memory { IfErr result (λ e. e ≡ Refused.Memory) }
{
    let rules = rules_by(alloc, compiler, schema)?;
    let made = NodeRules::of(alloc, rules)?;
    Ok(made)
}

/// The compiled rules of a node: lent by what stores them, or made for one use.
#[derive(Drop)]
pub enum CompiledRules<'a> {
    /// Lent.
    Lent(&'a NodeRules),
    /// Made.
    Made(NodeRules),
}
