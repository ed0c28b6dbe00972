//! The functions of an API server beyond those of `kube_functions`.
use kube_server_authorizer::AuthorizerFunction;
use kube_server_times::Field;

/// A function of the table.
#[derive(Clone, Copy)]
pub(crate) enum Function {
    OptionalOf,
    OptionalOfNonZeroValue,
    OptionalNone,
    Or,
    OrValue,
    /// The optional field of a map.
    OptionalField,
    /// The optional item of a list or member of a map.
    OptionalIndex,
    Bool,
    Dynamic,
    /// The pairs over which a macro with two variables iterates.
    Pairs,
    MapOfPairs,
    MapOfMaps,
    TypeName,
    /// A getter of timestamps and durations.
    Getter(Field),
    /// A function of an authorizer, of a check or of a decision.
    Authorizer(AuthorizerFunction),
}

/// A function, and the numbers of arguments with which it may be called.
#[derive(Clone, Copy)]
pub(crate) struct Declaration {
    /// The least number of arguments.
    pub(crate) least: usize,
    /// The greatest number of arguments.
    pub(crate) greatest: usize,
    /// The function.
    pub(crate) function: Function,
}
