//! How much of the values at a place the rules read.
ghost use Rattle.std.specs.Prelude.{◌≡◌, codes, IfErr, IfOk, map, None, option_map};
ghost use Rattle.cel_syntax.specs.Term.{term};
ghost use Rattle.cel.specs.Demand.{part_of};
ghost use Rattle.cel.specs.Part.{both_read, part_read};
ghost use Rattle.cel.specs.Reads.{reads_of};
ghost use Rattle.kube_schema_rules.specs.Compilation.{compiled_seen};
ghost use Rattle.kube_schema_rules.specs.Demands.{AreDemands, rule_read, rules_read};
ghost use Rattle.kube_schema_rules.specs.Reads.{texts_read};

use crate::compilation::CompilationError;
use crate::result::CompilationResult;
use cel::Expr;
use cel_demand::{Demand, both_demands, demand_on, demands_of};
use kube_types::Refused;
use std::alloc::{AllocError, Global};

/// How much rules read of `self` and of `oldSelf`; None for a name that they don't read.
#[derive(Debug)]
pub struct Demands {
    /// The demand on `self`, the value.
    pub value: Option<Demand>,
    /// The demand on `oldSelf`, the old value.
    pub old: Option<Demand>,
}

// By hand, so that a proof about code that owns one doesn't go through its parts.
impl Drop for Demands {
    fn drop(self) {
        let Demands { value: _, old: _ } = self;
    }
}

/// Returns the demands of rules that read nothing.
pub fn no_demands() -> Demands
    ensures { AreDemands result (λ x. None) }
{
    Demands {
        value: None,
        old: None,
    }
}

/// Returns what an expression reads.
fn expression_demands(alloc: Global, expression: &Expr) -> Result<Demands, AllocError>
    ensures demands { IfOk result (λ d. AreDemands d (λ x. part_read x (reads_of (term expression.now)))) }
{
    let names = demands_of(alloc, expression)?;
    let value = demand_on(alloc, "self", &names)?;
    let old = demand_on(alloc, "oldSelf", &names)?;
    Ok(Demands { value, old })
}

/// Returns what at least one of two demands reads.
fn joined(alloc: Global, first: &Demands, second: &Demands) -> Result<Demands, AllocError>
    ensures value { IfOk result (λ d. option_map part_of d.value
        ≡ both_read (option_map part_of first.now.value) (option_map part_of second.now.value)) }
    ensures old { IfOk result (λ d. option_map part_of d.old
        ≡ both_read (option_map part_of first.now.old) (option_map part_of second.now.old)) }
{
    let value = both_demands(alloc, &first.value, &second.value)?;
    let old = both_demands(alloc, &first.old, &second.old)?;
    Ok(Demands { value, old })
}

/// Returns what a rule with this text and this messageExpression reads.
pub(crate) fn text_demands(
    alloc: Global,
    text: &Expr,
    message: Option<&Expr>,
) -> Result<Demands, AllocError>
    ensures demands { IfOk result (λ d. AreDemands d
        (λ x. texts_read x (term text.now) (option_map (λ e. term e.now) message.entry))) }
{
    let of_text = expression_demands(alloc, text)?;
    let Some(message) = message else {
        return Ok(of_text);
    };
    let of_message = expression_demands(alloc, message)?;
    let demands = joined(alloc, &of_text, &of_message)?;
    Ok(demands)
}

/// Adds what a rule reads to these demands. A malformed rule reads nothing.
///
/// # Errors
///
/// [`Refused`] if memory is refused.
pub fn with_rule(
    alloc: Global,
    rule: &Result<CompilationResult, CompilationError>,
    demands: Demands,
) -> Result<Demands, Refused>
    ensures value { IfOk result (λ d. option_map part_of d.value
        ≡ both_read (rule_read (codes "self") (compiled_seen rule.now)) (option_map part_of demands.value)) }
    ensures old { IfOk result (λ d. option_map part_of d.old
        ≡ both_read (rule_read (codes "oldSelf") (compiled_seen rule.now)) (option_map part_of demands.old)) }
    ensures memory { IfErr result (λ e. e ≡ Refused.Memory) }
{
    match rule {
        Err(_error) => Ok(demands),
        Ok(rule) => {
            let more = joined(alloc, &rule.demands, &demands)?;
            Ok(more)
        }
    }
}

/// Returns what at least one of these rules reads.
///
/// # Errors
///
/// [`Refused`] if memory is refused.
pub fn rules_demands(
    alloc: Global,
    rules: &[Result<CompilationResult, CompilationError>],
) -> Result<Demands, Refused>
    ensures demands { IfOk result (λ d. AreDemands d (λ x. rules_read x (map compiled_seen rules.now))) }
    ensures memory { IfErr result (λ e. e ≡ Refused.Memory) }
{
    let mut demands = no_demands();
    let mut left = rules.len();
    while left > 0 {
        left -= 1;
        demands = with_rule(alloc, &rules[left], demands)?;
    }
    Ok(demands)
}
