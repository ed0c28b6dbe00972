//! Adds the candidate findings of the nodes of a rule's AST.
ghost use Rattle.std.specs.Prelude.{OnOk, map, option_map};
ghost use Rattle.cel_syntax.specs.Term.{term};
ghost use Rattle.cel_value.specs.View.{view};
ghost use Rattle.kube_manifests_review.specs.Calls.{call_candidates, literal_candidates, node_candidates, text_view};
ghost use Rattle.kube_manifests_review.specs.Candidates.{AddsCandidates};
ghost use Rattle.kube_manifests_review.specs.Rules.{tree_candidates};

use crate::call::add_call;
use crate::candidate::{Candidate, Condition};
use crate::finding::ReviewKind;
use crate::text::{Text, add_candidate};
use cel_syntax::Expr;
use cel_value::Value;
use std::alloc::{AllocError, Global};

/// Adds a candidate if a literal is a double.
fn add_literal(
    alloc: Global,
    text: Text<'_>,
    value: &Value,
    candidates: &mut Vec<Candidate>,
) -> Result<(), AllocError>
    ensures { OnOk result (AddsCandidates candidates.old.items candidates.new.items
        (literal_candidates (text_view text.entry) (view value.now))) }
{
    if !value.holds_double() {
        return Ok(());
    }
    let message = String::from_str(alloc, "numbers of kind double aren't supported")?;
    add_candidate(
        alloc,
        text,
        ReviewKind::Unsupported,
        message,
        Condition::Always,
        candidates,
    )?;
    Ok(())
}

/// Adds the candidates of a call, with or without a receiver.
fn add_method(
    alloc: Global,
    text: Text<'_>,
    receiver: &Option<Box<Expr>>,
    name: &str,
    args: &[Expr],
    candidates: &mut Vec<Candidate>,
) -> Result<(), AllocError>
    ensures { OnOk result (AddsCandidates candidates.old.items candidates.new.items
        (call_candidates (text_view text.entry) (option_map (λ r. term r.value) receiver.now) name.now
        (map term args.now))) }
{
    match receiver {
        Some(receiver) => add_call(alloc, text, Some(&**receiver), name, args, candidates),
        None => add_call(alloc, text, None, name, args, candidates),
    }
}

/// Adds the candidates of one node.
fn add_node(
    alloc: Global,
    text: Text<'_>,
    node: &Expr,
    candidates: &mut Vec<Candidate>,
) -> Result<(), AllocError>
    ensures { OnOk result (AddsCandidates candidates.old.items candidates.new.items
        (node_candidates (text_view text.entry) (term node.now))) }
{
    match node {
        Expr::Literal(value) => add_literal(alloc, text, value, candidates)?,
        Expr::Call { target, name, args } => {
            add_method(
                alloc,
                text,
                target,
                name.as_str(),
                args.as_slice(),
                candidates,
            )?;
        }
        Expr::Qualified { name, args } => {
            add_call(
                alloc,
                text,
                None,
                name.as_str(),
                args.as_slice(),
                candidates,
            )?;
        }
        _ => {}
    }
    Ok(())
}

/// Adds the candidates of all nodes of an AST, in order.
pub(crate) fn add_tree(
    alloc: Global,
    text: Text<'_>,
    tree: &Expr,
    candidates: &mut Vec<Candidate>,
) -> Result<(), AllocError>
    ensures { OnOk result (AddsCandidates candidates.old.items candidates.new.items
        (tree_candidates (text_view text.entry) (term tree.now))) }
{
    let nodes = tree.nodes(alloc)?;
    for node in &nodes {
        add_node(alloc, text, *node, candidates)?;
    }
    Ok(())
}
