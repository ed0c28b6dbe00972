//! What a text may go on with.

ghost use Rattle.std.specs.Prelude.{◌≡◌, Some};
ghost use Rattle.kube_server_parser.specs.Words as spec;

use std::fmt;

/// What ends the part that an operand belongs to.
#[derive(Clone, Copy, Debug, PartialEq, Eq)]
pub enum Closing {
    /// The end of the text.
    Text,
    /// `)`, the end of an expression in brackets.
    Round,
    /// `,` or `)`, the end of an argument.
    Argument,
    /// `]`, the end of an index.
    Index,
    /// `,` or `]`, the end of an item of a list.
    Item,
    /// `:`, the end of a key.
    Key,
    /// `,` or `}`, the end of a value of a map.
    Value,
    /// `:`, the end of the branch of a condition.
    Branch,
}

/// What a text may go on with. An operand is a literal, an identifier, `(`, `[`, `{`, `-`, or, unless it follows a
/// minus, `!`.
#[derive(Clone, Copy, Debug, PartialEq, Eq)]
pub enum Expected {
    /// An operand.
    Operand,
    /// An int or a double, after `!-`.
    Number,
    /// The first item of a list, with or without `?`, or a comma, or the end of the list.
    FirstItem,
    /// Another item of a list, or its end.
    NextItem,
    /// The end of a list.
    EndOfList,
    /// The first key of a map, with or without `?`, or a comma, or the end of the map.
    FirstKey,
    /// Another key of a map, or its end.
    NextKey,
    /// The end of a map.
    EndOfMap,
    /// The first argument of a call, or the end of the call.
    FirstArgument,
    /// An index, with or without `?`.
    Index,
    /// The name of a field, with or without `?`.
    Member,
    /// The name of a field.
    Field,
    /// What follows an operand: an operator, among which are `.`, `[`, `?` and behind a name `(`, or what ends the
    /// part.
    After(Closing),
}

impl Expected {
    /// The same in words.
    pub fn words(self) -> &'static str
        ensures { result.now ≡ spec.words self }
    {
        match self {
            Expected::Operand => "an operand",
            Expected::Number => "an int or a double",
            Expected::FirstItem => "an operand, '?', ',' or ']'",
            Expected::NextItem => "an operand, '?' or ']'",
            Expected::EndOfList => "']'",
            Expected::FirstKey => "an operand, '?', ',' or '}'",
            Expected::NextKey => "an operand, '?' or '}'",
            Expected::EndOfMap => "'}'",
            Expected::FirstArgument => "an operand or ')'",
            Expected::Index => "an operand or '?'",
            Expected::Member => "a field name or '?'",
            Expected::Field => "a field name",
            Expected::After(Closing::Text) => "an operator or the end of the text",
            Expected::After(Closing::Round) => "an operator or ')'",
            Expected::After(Closing::Argument) => "an operator, ',' or ')'",
            Expected::After(Closing::Index) => "an operator or ']'",
            Expected::After(Closing::Item) => "an operator, ',' or ']'",
            Expected::After(Closing::Value) => "an operator, ',' or '}'",
            Expected::After(Closing::Key | Closing::Branch) => "an operator or ':'",
        }
    }
}

impl fmt::Display for Expected {
    ghost output = { λ e. Some (spec.words e) };

    fn fmt<W: fmt::Write>(&self, f: &mut fmt::Formatter<W>) -> fmt::Result {
        f.write_str(self.words())
    }
}
