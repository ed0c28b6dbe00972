//! What is known of a condition.

/// What is known of a condition.
#[derive(Clone, Copy, Drop)]
pub enum Truth {
    /// It holds.
    Yes,
    /// It doesn't hold.
    No,
    /// What is given doesn't say whether it holds.
    Unknown,
}
