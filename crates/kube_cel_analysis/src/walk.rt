//! The walk over the nodes of a schema.
ghost use Rattle.std.specs.Prelude.{◌≡◌, ◌++◌, [], IfErr, IfOk, OnOk, map, option_map};
ghost use Rattle.kube_cel_analysis.specs.Findings.{Naming, finding_view};
ghost use Rattle.kube_cel_analysis.specs.Lint.{branch_findings, findings, named_findings, findings_at};
ghost use Rattle.kube_cel_analysis.specs.Nodes.{AreFoundAtNodes};
ghost use Rattle.kube_cel_analysis.specs.Pointers.{additional_pointer, items_pointer};
ghost use Rattle.kube_schema.specs.Shown.{node_tree, whole};
ghost use Rattle.kube_schema.specs.Tree.{branches_of, additional_of, items_of, named_of, nodes_length, nth_node};

use crate::finding::LintFinding;
use crate::pointer::{additional_pointer, branch_pointer, items_pointer, property_pointer};
use crate::rule::add_rules;
use kube_schema::{BranchKind, CompiledSchema, SchemaNode};
use kube_types::Refused;
use std::alloc::Global;

/// Returns the findings of all rules of a schema, node by node. A node comes
/// before the nodes within it, and these in the order of properties by name,
/// `items`, `additionalProperties`, and the branches of `allOf`, `oneOf` and
/// `anyOf`. Each rule is analyzed with its node as the root of a schema.
///
/// # Errors
///
/// [`Refused`] if memory is refused.
pub fn lint_schema(alloc: Global, schema: &CompiledSchema) -> Result<Vec<LintFinding>, Refused>
    ensures nodes { IfOk result (λ v. (names : Naming)
        × AreFoundAtNodes names (whole schema.now) (map finding_view v.items)) }
    ensures findings { IfOk result (λ v. (names : Naming)
        → map finding_view v.items ≡ findings names [] (whole schema.now)) }
    ensures memory { IfErr result (λ e. e ≡ Refused.Memory) }
{
    let mut found = Vec::new(alloc);
    lint_node(alloc, "", &schema.root(), &mut found)?;
    Ok(found)
}

/// Adds the findings of a node and of the nodes within it.
#[cycle(walk)]
fn lint_node(
    alloc: Global,
    pointer: &str,
    node: &SchemaNode<'_>,
    found: &mut Vec<LintFinding>,
) -> Result<(), Refused>
    ensures found { OnOk result ((names : Naming)
        → map finding_view found.new.items
        ≡ map finding_view found.old.items ++ findings names pointer.now (node_tree node.now)) }
    ensures memory { IfErr result (λ e. e ≡ Refused.Memory) }
{
    add_rules(alloc, pointer, node, found)?;
    lint_properties(alloc, pointer, node, found)?;
    lint_items(alloc, pointer, node, found)?;
    lint_additional(alloc, pointer, node, found)?;
    lint_branches(alloc, BranchKind::AllOf, pointer, node, found)?;
    lint_branches(alloc, BranchKind::OneOf, pointer, node, found)?;
    lint_branches(alloc, BranchKind::AnyOf, pointer, node, found)?;
    Ok(())
}

/// Adds the findings within the properties of a node, in the order of their names.
#[cycle(walk)]
fn lint_properties(
    alloc: Global,
    pointer: &str,
    node: &SchemaNode<'_>,
    found: &mut Vec<LintFinding>,
) -> Result<(), Refused>
    ensures found { OnOk result ((names : Naming)
        → map finding_view found.new.items
        ≡ map finding_view found.old.items
        ++ named_findings names pointer.now (named_of (node_tree node.now))) }
    ensures memory { IfErr result (λ e. e ≡ Refused.Memory) }
{
    for index in 0..node.property_count() {
        let Some((name, property)) = node.property(index) else {
            return Ok(());
        };
        let inner = property_pointer(alloc, pointer, name)?;
        lint_node(alloc, inner.as_str(), &property, found)?;
    }
    Ok(())
}

/// Adds the findings within the node of list items.
#[cycle(walk)]
fn lint_items(
    alloc: Global,
    pointer: &str,
    node: &SchemaNode<'_>,
    found: &mut Vec<LintFinding>,
) -> Result<(), Refused>
    ensures found { OnOk result ((names : Naming)
        → map finding_view found.new.items
        ≡ map finding_view found.old.items
        ++ findings_at names (items_pointer pointer.now) (items_of (node_tree node.now))) }
    ensures memory { IfErr result (λ e. e ≡ Refused.Memory) }
{
    let Some(items) = node.items() else {
        return Ok(());
    };
    let inner = items_pointer(alloc, pointer)?;
    lint_node(alloc, inner.as_str(), &items, found)?;
    Ok(())
}

/// Adds the findings within the node of undeclared keys.
#[cycle(walk)]
fn lint_additional(
    alloc: Global,
    pointer: &str,
    node: &SchemaNode<'_>,
    found: &mut Vec<LintFinding>,
) -> Result<(), Refused>
    ensures found { OnOk result ((names : Naming)
        → map finding_view found.new.items ≡ map finding_view found.old.items
        ++ findings_at names (additional_pointer pointer.now) (additional_of (node_tree node.now))) }
    ensures memory { IfErr result (λ e. e ≡ Refused.Memory) }
{
    let Some(additional) = node.additional_properties() else {
        return Ok(());
    };
    let inner = additional_pointer(alloc, pointer)?;
    lint_node(alloc, inner.as_str(), &additional, found)?;
    Ok(())
}

/// Adds the findings within the branches under one keyword, in order.
#[cycle(walk)]
fn lint_branches(
    alloc: Global,
    kind: BranchKind,
    pointer: &str,
    node: &SchemaNode<'_>,
    found: &mut Vec<LintFinding>,
) -> Result<(), Refused>
    ensures found { OnOk result ((names : Naming)
        → map finding_view found.new.items
        ≡ map finding_view found.old.items
        ++ branch_findings names kind pointer.now 0 (branches_of kind (node_tree node.now))) }
    ensures memory { IfErr result (λ e. e ≡ Refused.Memory) }
{
    for index in 0..node.branch_count(kind) {
        let Some(branch) = node.branch(kind, index) else {
            return Ok(());
        };
        let inner = branch_pointer(alloc, kind, pointer, index)?;
        lint_node(alloc, inner.as_str(), &branch, found)?;
    }
    Ok(())
}
