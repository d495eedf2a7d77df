//! What is done to kinds.

/// What is done at a place of the kinds.
#[derive(Clone, Copy, Debug, PartialEq, Eq)]
pub enum Change {
    /// The kind of this token rule is put in.
    PutIn(usize),
    /// The next kind is left out.
    LeaveOut,
    /// The next kind stays.
    Keep,
}
