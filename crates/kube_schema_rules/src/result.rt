//! A compiled rule.
ghost use Rattle.std.specs.Prelude.{◌≡◌, codes, option_map};
ghost use Rattle.cel.specs.Program.{program_term};
ghost use Rattle.cel_demand.proofs.Sets.{same_read-prop};
ghost use Rattle.cel.specs.Demand.{part_of};
ghost use Rattle.kube_schema_rules.specs.Reads.{texts_read};

use crate::demands::Demands;
use crate::rule::Rule;
use cel::Program;

/// A rule with the programs of its texts.
#[derive(Debug, Drop)]
pub struct CompilationResult {
    /// The program of the rule's text.
    pub program: Program,
    /// The rule.
    pub rule: Rule,
    /// Whether this is a transition rule: `oldSelf` is a free name of its text.
    pub is_transition_rule: bool,
    /// The program of the rule's messageExpression, if it has one.
    pub message_program: Option<Program>,
    /// How much of the values at a place its texts read.
    pub demands: Demands,
    ghost value_read: { option_map part_of demands.value
        ≡ texts_read (codes "self") (program_term program)
        (option_map program_term message_program) } by { same_read-prop _ _ },
    ghost old_read: { option_map part_of demands.old
        ≡ texts_read (codes "oldSelf") (program_term program)
        (option_map program_term message_program) } by { same_read-prop _ _ },
}
