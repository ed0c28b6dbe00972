//! What the machine has read so far.

use crate::part::{Call, Entries, Items, Part};
use cel_syntax_ast::{BinaryOperator, UnaryOperator};
use kube_server_syntax::node::Place;

/// What waits for an operand within its bracket.
#[derive(Drop)]
pub(crate) enum Waiting {
    /// A sign.
    Sign(UnaryOperator, Place),
    /// A left operand, its operator, and the operator's level.
    Operator(Part, BinaryOperator, u8),
    /// A condition, and its branch if it is true.
    Colon(Part, Part),
}

/// What is open.
#[derive(Drop)]
pub(crate) enum Frame {
    /// `(`
    Round(Place),
    /// A list, and whether the next item has a question mark.
    List(Items, bool),
    /// A map, and whether the next entry has a question mark.
    Key(Entries, bool),
    /// The same behind a colon, with the key.
    Value(Entries, bool, Part),
    /// A call.
    Arguments(Call),
    /// What is indexed, and whether there is a question mark.
    Index(Part, bool),
    /// A condition.
    Question(Part),
    Waiting(Waiting),
}
