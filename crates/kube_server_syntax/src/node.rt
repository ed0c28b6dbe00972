//! The tree of an expression as an API server reads it.

ghost use Rattle.std.specs.Prelude.{◌≡◌};
ghost use Rattle.kube_server_syntax.specs.Tree.{place_of, tree};

use cel_syntax::{BinaryOperator, UnaryOperator};
use cel_value::{Text, Value};

/// Where something stands in a text, as offsets of bytes.
#[derive(Clone, Copy, Debug, PartialEq, Eq)]
pub struct Place {
    /// That of the first byte.
    pub begin: usize,
    /// That of the first byte after it.
    pub end: usize,
}

/// An expression, with the place of each part. Macros are calls. Where a part may be written with a
/// question mark, `is_optional` says whether it is.
#[derive(Debug)]
pub enum Node {
    /// A literal.
    Literal {
        place: Place,
        value: Value,
    },
    /// An identifier.
    Ident {
        place: Place,
        name: Text,
    },
    /// A selection: `a.b`, or `a.?b`.
    Select {
        place: Place,
        operand: Box<Node>,
        is_optional: bool,
        field: Text,
    },
    /// An index expression: `a[i]`, or `a[?i]`.
    Index {
        place: Place,
        operand: Box<Node>,
        is_optional: bool,
        index: Box<Node>,
    },
    /// A unary operator with its operand.
    Unary {
        place: Place,
        operator: UnaryOperator,
        operand: Box<Node>,
    },
    /// A binary operator with its operands.
    Binary {
        place: Place,
        operator: BinaryOperator,
        left: Box<Node>,
        right: Box<Node>,
    },
    /// A condition, then the branch if it is true and the branch if it is false.
    Conditional {
        place: Place,
        test: Box<Node>,
        yes: Box<Node>,
        no: Box<Node>,
    },
    /// An expression in round brackets.
    Round {
        place: Place,
        inner: Box<Node>,
    },
    /// A list of these items, each with whether it is optional.
    List {
        place: Place,
        items: Vec<(bool, Node)>,
    },
    /// A map of these entries, each with whether it is optional, its key and its value.
    Map {
        place: Place,
        entries: Vec<(bool, Node, Node)>,
    },
    /// A call, on a target if there is one.
    Call {
        place: Place,
        target: Option<Box<Node>>,
        name: Text,
        arguments: Vec<Node>,
    },
}

impl Node {
    /// Where the expression stands in the text.
    pub fn place(&self) -> Place
        ensures { result ≡ place_of (tree self.now) }
    {
        match self {
            Node::Literal { place, .. }
            | Node::Ident { place, .. }
            | Node::Select { place, .. }
            | Node::Index { place, .. }
            | Node::Unary { place, .. }
            | Node::Binary { place, .. }
            | Node::Conditional { place, .. }
            | Node::Round { place, .. }
            | Node::List { place, .. }
            | Node::Map { place, .. }
            | Node::Call { place, .. } => *place,
        }
    }
}

impl Drop for Node {
    fn drop(self) {
        match self {
            Node::Literal { place: _, value: _ } => {}
            Node::Ident { place: _, name: _ } => {}
            Node::Select {
                place: _,
                operand: _,
                is_optional: _,
                field: _,
            } => {}
            Node::Index {
                place: _,
                operand: _,
                is_optional: _,
                index: _,
            } => {}
            Node::Unary {
                place: _,
                operator: _,
                operand: _,
            } => {}
            Node::Binary {
                place: _,
                operator: _,
                left: _,
                right: _,
            } => {}
            Node::Conditional {
                place: _,
                test: _,
                yes: _,
                no: _,
            } => {}
            Node::Round { place: _, inner: _ } => {}
            Node::List { place: _, items: _ } => {}
            Node::Map {
                place: _,
                entries: _,
            } => {}
            Node::Call {
                place: _,
                target: _,
                name: _,
                arguments: _,
            } => {}
        }
    }
}
