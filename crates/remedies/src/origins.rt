//! Which kinds of a copy stand for which kinds of what is mended.

use crate::change::Change;
use std::alloc::{AllocError, Global};

/// The numbers of kinds, in the order of the copy.
#[derive(Drop)]
pub struct Origins {
    numbers: Vec<Option<usize>>,
    /// The number of the next kind that isn't passed.
    next: usize,
}

impl Origins {
    /// Before the first kind.
    pub fn new(alloc: Global) -> Origins {
        Origins {
            numbers: Vec::new(alloc),
            next: 0,
        }
    }

    /// Passes the kinds up to this number, which stay.
    pub fn pass(&mut self, to: usize) -> Result<(), AllocError> {
        for number in self.next..to {
            self.numbers.push(Some(number))?;
        }
        self.next = self.next.max(to);
        Ok(())
    }

    /// Passes what changes pass.
    pub fn change(&mut self, changes: &[Change]) -> Result<(), AllocError> {
        for change in changes {
            match change {
                Change::PutIn(_) => self.numbers.push(None)?,
                Change::LeaveOut => self.next = self.next.saturating_add(1),
                Change::Keep => self.pass(self.next.saturating_add(1))?,
            }
        }
        Ok(())
    }

    /// The numbers of a copy of so many kinds, whose last ones stay.
    pub fn fill(mut self, count: usize) -> Result<Vec<Option<usize>>, AllocError> {
        let (next, left) = (self.next, count.saturating_sub(self.numbers.len()));
        self.pass(next.saturating_add(left))?;
        Ok(self.numbers)
    }
}
