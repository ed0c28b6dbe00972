//! The tree of an expression.

use cel_value::{Text, Value};

/// A unary operator.
#[derive(Clone, Copy, Debug, PartialEq, Eq)]
pub enum UnaryOperator {
    /// `!`
    Not,
    /// `-`
    Negate,
}

/// A binary operator.
#[derive(Clone, Copy, Debug, PartialEq, Eq)]
pub enum BinaryOperator {
    /// `||`
    Or,
    /// `&&`
    And,
    /// `<`
    Less,
    /// `<=`
    LessOrEqual,
    /// `>`
    Greater,
    /// `>=`
    GreaterOrEqual,
    /// `==`
    Equal,
    /// `!=`
    NotEqual,
    /// `in`
    In,
    /// `+`
    Add,
    /// `-`
    Subtract,
    /// `*`
    Multiply,
    /// `/`
    Divide,
    /// `%`
    Remainder,
}

/// A macro over a range.
#[derive(Clone, Copy, Debug, PartialEq, Eq)]
pub enum MacroKind {
    /// Whether the predicate holds for every item.
    All,
    /// Whether the predicate holds for some item.
    Exists,
    /// Whether the predicate holds for exactly one item.
    ExistsOne,
    /// The values of the body at the items, or at those that the filter keeps if there is one.
    Map,
    /// The items for which the predicate holds.
    Filter,
}

/// An expression. Its names are shared, so that code compiled from it needn't copy them.
#[derive(Debug, Drop)]
pub enum Expr {
    /// A literal.
    Literal(Value),
    /// An identifier.
    Ident(Text),
    /// The selection of a member of a map.
    Select(Box<Expr>, Text),
    /// The macro `has`: whether a map has a member.
    Has(Box<Expr>, Text),
    /// An index expression: the operand, then the index or key.
    Index(Box<Expr>, Box<Expr>),
    /// A unary operator with its operand.
    Unary(UnaryOperator, Box<Expr>),
    /// A binary operator with its operands.
    Binary(BinaryOperator, Box<Expr>, Box<Expr>),
    /// A condition, then the branch if it is true and the branch if it is false.
    Cond(Box<Expr>, Box<Expr>, Box<Expr>),
    /// A list of these items.
    List(Vec<Expr>),
    /// A map of these entries, each a key with its value.
    Map(Vec<(Expr, Expr)>),
    /// A call, on a target if there is one.
    Call {
        target: Option<Box<Expr>>,
        name: Text,
        args: Vec<Expr>,
    },
    /// A call of a function whose name contains a dot.
    Qualified {
        name: Text,
        args: Vec<Expr>,
    },
    /// A macro. It binds its variable in the filter and the body. Only `map(x, p, f)` has a filter.
    Macro {
        kind: MacroKind,
        range: Box<Expr>,
        variable: Text,
        filter: Option<Box<Expr>>,
        body: Box<Expr>,
    },
}
