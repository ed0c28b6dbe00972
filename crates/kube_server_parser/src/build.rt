//! Builds parts.

ghost use Rattle.std.specs.Prelude.{◌≡◌};
ghost use Rattle.cel_value.specs.View.{view};
ghost use Rattle.kube_server_syntax.specs.Machine as machine;
ghost use Rattle.kube_server_syntax.specs.Placed as placed;
ghost use Rattle.kube_server_syntax.specs.Tree as spec;
ghost use Rattle.kube_server_syntax.specs.Tree.{tree, place_of};
ghost use Rattle.kube_server_parser.specs.Results.{Builds};

use crate::level::{above, across, in_box};
use crate::part::Part;
use crate::stop::Stop;
use cel_syntax_ast::{BinaryOperator, UnaryOperator, both};
use cel_value::{Text, Value};
use kube_server_syntax::node::{Node, Place};
use std::alloc::Global;

/// Builds a literal.
pub(crate) fn literal_part(place: Place, value: Value) -> Part
    ensures { tree result.node ≡ spec.literal place (view value) }
{
    Part {
        node: Node::Literal { place, value },
        level: 0,
    }
}

/// Builds an identifier.
pub(crate) fn ident(place: Place, name: Text) -> Part
    ensures { tree result.node ≡ spec.ident place name }
{
    Part {
        node: Node::Ident { place, name },
        level: 0,
    }
}

/// Builds the selection of a field, whose name is at the place.
pub(crate) fn select(
    alloc: Global,
    operand: Part,
    is_optional: bool,
    place: Place,
    name: Text,
) -> Result<Part, Stop>
    ensures { Builds (machine.selected (tree operand.node) is_optional place name) result }
{
    let place = across(operand.node.place(), place);
    let (level, operand) = both(above(operand.level), in_box(alloc, operand.node))?;
    Ok(Part {
        node: Node::Select {
            place,
            operand,
            is_optional,
            field: name,
        },
        level,
    })
}

/// Builds an index expression, which ends at the place.
pub(crate) fn index(
    alloc: Global,
    operand: Part,
    is_optional: bool,
    index: Part,
    end: Place,
) -> Result<Part, Stop>
    ensures { Builds (spec.index (placed.across (place_of (tree operand.node)) end) (tree operand.node) is_optional
        (tree index.node)) result }
{
    let place = across(operand.node.place(), end);
    let level = above(operand.level.max(index.level));
    let nodes = both(in_box(alloc, operand.node), in_box(alloc, index.node));
    let (level, (operand, index)) = both(level, nodes)?;
    Ok(Part {
        node: Node::Index {
            place,
            operand,
            is_optional,
            index,
        },
        level,
    })
}

/// Builds an expression in round brackets.
pub(crate) fn round(alloc: Global, begin: Place, inner: Part, end: Place) -> Result<Part, Stop>
    ensures { Builds (spec.round (placed.across begin end) (tree inner.node)) result }
{
    let (level, inner) = both(above(inner.level), in_box(alloc, inner.node))?;
    let place = across(begin, end);
    Ok(Part {
        node: Node::Round { place, inner },
        level,
    })
}

/// Builds a unary expression.
pub(crate) fn signed(
    alloc: Global,
    operator: UnaryOperator,
    place: Place,
    operand: Part,
) -> Result<Part, Stop>
    ensures { Builds (machine.signed operator place (tree operand.node)) result }
{
    let place = across(place, operand.node.place());
    let (level, operand) = both(above(operand.level), in_box(alloc, operand.node))?;
    Ok(Part {
        node: Node::Unary {
            place,
            operator,
            operand,
        },
        level,
    })
}

/// Builds a binary expression.
pub(crate) fn operated(
    alloc: Global,
    left: Part,
    operator: BinaryOperator,
    right: Part,
) -> Result<Part, Stop>
    ensures { Builds (machine.operated (tree left.node) operator (tree right.node)) result }
{
    let place = across(left.node.place(), right.node.place());
    let level = above(left.level.max(right.level));
    let nodes = both(in_box(alloc, left.node), in_box(alloc, right.node));
    let (level, (left, right)) = both(level, nodes)?;
    Ok(Part {
        node: Node::Binary {
            place,
            operator,
            left,
            right,
        },
        level,
    })
}

/// Builds a conditional expression.
pub(crate) fn chosen(alloc: Global, test: Part, yes: Part, no: Part) -> Result<Part, Stop>
    ensures { Builds (machine.chosen (tree test.node) (tree yes.node) (tree no.node)) result }
{
    let place = across(test.node.place(), no.node.place());
    let level = above(test.level.max(yes.level.max(no.level)));
    let branches = both(in_box(alloc, yes.node), in_box(alloc, no.node));
    let nodes = both(in_box(alloc, test.node), branches);
    let (level, (test, (yes, no))) = both(level, nodes)?;
    Ok(Part {
        node: Node::Conditional {
            place,
            test,
            yes,
            no,
        },
        level,
    })
}
