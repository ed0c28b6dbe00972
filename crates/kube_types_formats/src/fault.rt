//! Faults of a text.
ghost use Rattle.std.specs.Prelude.{Some};

use std::fmt;

/// A fault of a text. It prints as the message of its format.
#[derive(Clone, Copy, Debug, PartialEq, Eq)]
pub(crate) enum Fault {
    /// The text is empty.
    Empty,
    /// The text has more bytes than the limit.
    TooLong { limit: usize, len: usize },
    /// A byte is neither a lower case letter nor a digit nor a hyphen.
    NotLabel,
    /// The first byte isn't a lower case letter.
    FirstNotLetter,
    /// The first byte of a name is neither a letter nor a digit, or that of a label is a hyphen.
    FirstNotAlphanumeric,
    /// The last byte of a name is neither a letter nor a digit, or that of a label is a hyphen.
    LastNotAlphanumeric,
    /// The first or the last byte is a hyphen.
    EndNotAlphanumeric,
    /// A byte is neither a letter nor a digit nor one of `-`, `_` and `.`.
    NotName,
    /// The part before the slash of a qualified name is empty.
    EmptyPrefix,
    /// There is no colon to end a scheme.
    NoScheme,
    /// The text before the colon isn't a scheme.
    InvalidScheme,
    /// The text isn't a UUID.
    NotUuid,
    /// The text isn't Base64.
    NotBase64,
    /// The text doesn't have the form of a date.
    NotDate,
    /// The calendar has no such day.
    NoSuchDay,
    /// The text isn't a date and time.
    NotDateTime,
    /// No time zone follows the time.
    NoTimeZone,
}

#[tactic(auto, unfolding(crate::specs::Faults::fault_text))]
impl fmt::Display for Fault {
    ghost use Rattle.kube_types_formats.specs.Faults.{fault_text};

    ghost output = { λ fault. Some (fault_text fault) };

    fn fmt<W: fmt::Write>(&self, f: &mut fmt::Formatter<W>) -> fmt::Result {
        match self {
            Fault::Empty => f.write_str("must be non-empty"),
            Fault::TooLong { limit, len } => {
                write!(f, "must be no more than {limit} characters (is {len})")
            }
            Fault::NotLabel => {
                f.write_str("must consist of lower case alphanumeric characters or '-'")
            }
            Fault::FirstNotLetter => {
                f.write_str("must start with a lowercase alphabetic character")
            }
            Fault::FirstNotAlphanumeric => {
                f.write_str("must start with an alphanumeric character")
            }
            Fault::LastNotAlphanumeric => f.write_str("must end with an alphanumeric character"),
            Fault::EndNotAlphanumeric => {
                f.write_str("must start and end with an alphanumeric character")
            }
            Fault::NotName => {
                f.write_str("must consist of alphanumeric characters, '-', '_', or '.'")
            }
            Fault::EmptyPrefix => f.write_str("prefix must be non-empty"),
            Fault::NoScheme => f.write_str("must have a scheme (e.g., 'https:')"),
            Fault::InvalidScheme => f.write_str("invalid scheme"),
            Fault::NotUuid => f.write_str(
                "must be in the form 8-4-4-4-12 (e.g., xxxxxxxx-xxxx-xxxx-xxxx-xxxxxxxxxxxx)",
            ),
            Fault::NotBase64 => f.write_str("must be a valid base64 encoded string"),
            Fault::NotDate => f.write_str("must be a date in YYYY-MM-DD format"),
            Fault::NoSuchDay => f.write_str("must be a valid date"),
            Fault::NotDateTime => f.write_str("must be a valid RFC 3339 date-time"),
            Fault::NoTimeZone => f.write_str("must have a timezone"),
        }
    }
}
