//! What comes next.

use crate::part::Part;
use cel_value::Text;
use kube_server_syntax::node::Place;

#[derive(Drop)]
pub(crate) enum Mode {
    /// An operand.
    Needs,
    /// The first part of what the innermost bracket holds, or its end.
    Opened,
    /// Another part, after a comma; in a list or a map, its end, too.
    More,
    /// The end of a list or a map, after a comma that is all that it holds.
    Ended,
    /// An operand, after a minus.
    Minus(Place),
    /// What follows an identifier.
    Named(Place, Text),
    /// What follows a member.
    Has(Part),
    /// What follows a dot.
    Dotted(Part),
    /// What follows a dot with a question mark.
    DotMarked(Part),
    /// What follows the name of a field.
    Fielded(Part, Place, Text),
    /// What follows the bracket of an index.
    Indexed(Part),
}
