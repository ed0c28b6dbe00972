//! The two kinds of quoted literals.

/// The kind of value that a quoted literal denotes.
#[derive(Clone, Copy)]
pub(crate) enum Content {
    /// A string of code points.
    Text,
    /// Bytes, denoted by the prefix `b` or `B`.
    Bytes,
}
