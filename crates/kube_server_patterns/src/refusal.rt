//! Why a pattern isn't translated.

/// What this crate doesn't translate.
#[derive(Clone, Copy, Debug)]
pub enum Limit {
    /// A class of Unicode, as `\p{Greek}`.
    UnicodeClass,
    /// `\B`.
    NotWordBoundary,
    /// A surrogate, as `\x{D800}`.
    Surrogate,
    /// A character beyond ASCII where case is ignored.
    FoldedCharacter,
    /// A class by its name, as `\W` or `[:alpha:]`, where case is ignored and its letters matter.
    FoldedClass,
    /// In brackets, `[:` that doesn't begin the name of a class.
    ColonInBrackets,
    /// An operator of repetition after another one and a change of flags, as `a*(?i)*`.
    RepeatedRepetition,
    /// More than 50 groups inside one another.
    DeepGroups,
}

/// Why a pattern isn't translated.
#[derive(Clone, Copy, Debug)]
pub enum Refusal {
    /// The text isn't a pattern in the syntax of RE2.
    Invalid,
    /// It may be one, and this crate doesn't translate it.
    Unsupported(Limit),
}
