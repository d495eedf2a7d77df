//! Which kinds of a mended copy stand for which tokens of its document.

use mending::Mending;
use std::alloc::{AllocError, Global};

/// For each kind of a mended copy the number of its significant token; none for one that is put
/// in.
#[derive(Drop)]
pub struct Numbers {
    numbers: Vec<Option<usize>>,
}

impl Numbers {
    /// Those of a copy.
    pub fn of(alloc: Global, mending: &Mending) -> Result<Numbers, AllocError> {
        Ok(Numbers {
            numbers: mending.origins(alloc)?,
        })
    }

    /// The number of the significant token that the kind at this place of the copy stands for.
    pub fn number(&self, place: usize) -> Option<usize> {
        self.numbers.get(place).copied().flatten()
    }

    /// The place in the copy of the significant token of this number; none where it is left out.
    pub fn place(&self, number: usize) -> Option<usize> {
        self.numbers.iter().position(|held| *held == Some(number))
    }

    /// The place of the last kind that stands for a token of this number or one before it; none
    /// where none does.
    pub fn last_up_to(&self, number: usize) -> Option<usize> {
        let is_up_to = |held: &Option<usize>| held.is_some_and(|held| held <= number);
        self.numbers.iter().rposition(is_up_to)
    }

    /// The place of the first kind that stands for a token of this number or one behind it; none
    /// where none does.
    pub fn first_from(&self, number: usize) -> Option<usize> {
        let is_from = |held: &Option<usize>| held.is_some_and(|held| held >= number);
        self.numbers.iter().position(is_from)
    }
}
