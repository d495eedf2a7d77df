//! What a goal leads to in a list.

use crate::Measured;

/// A place in a list, and what stands there.
#[derive(Drop)]
pub struct Found<'a, T: Measured> {
    /// How many items stand before it.
    pub place: usize,
    /// Their sum.
    pub before: T::Sum,
    /// The item there. At the end of the list there is none.
    pub item: Option<&'a T>,
}
