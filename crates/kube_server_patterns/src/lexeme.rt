//! The lexemes of a pattern.

use crate::named::Named;

/// The flags that hold at a place in a pattern.
#[derive(Clone, Copy)]
pub(crate) struct Flags {
    /// `i`: case is ignored.
    pub(crate) folds: bool,
    /// `m`: `^` and `$` match at each line.
    pub(crate) lines: bool,
    /// `s`: `.` matches a line feed.
    pub(crate) dots: bool,
    /// `U`: repetitions are lazy, and greedy with a question mark.
    pub(crate) lazy: bool,
}

/// How the next characters are read.
#[derive(Clone, Copy)]
pub(crate) enum Mode {
    Plain,
    /// Between `\Q` and `\E`.
    Quoted,
    /// In brackets, before the first member.
    Bracket,
    /// In brackets.
    Members,
}

/// How often something may repeat.
#[derive(Clone, Copy)]
pub(crate) struct Repetition {
    pub(crate) least: u32,
    pub(crate) most: Option<u32>,
    pub(crate) greedy: bool,
}

/// What a place of a pattern says.
#[derive(Clone, Copy)]
pub(crate) enum Lexeme {
    Character(char),
    /// A class by its name, and whether it is negated.
    Class(Named, bool),
    Dot,
    /// `^`
    Begin,
    /// `$`
    End,
    /// `\A`
    TextBegin,
    /// `\z`
    TextEnd,
    /// `\b`
    WordBoundary,
    /// `\Q`
    Quote,
    /// `\E`
    Unquote,
    /// The beginning of a group, and the flags that hold in it.
    Open(Flags),
    Close,
    /// Flags that hold up to the end of the group.
    Set(Flags),
    /// `|`
    Or,
    Repeat(Repetition),
    /// `[` or `[^`
    OpenBracket(bool),
    /// A range in brackets.
    Range(char, char),
    /// A class in brackets, and whether it is negated.
    Member(Named, bool),
    CloseBracket,
}
