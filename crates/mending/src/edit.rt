//! Where two lists of kinds differ.

use definitions::Kind;

/// From one number on, the kinds up to another one give way to others.
#[derive(Clone, Copy)]
pub(crate) struct Edit {
    pub(crate) from: usize,
    /// The number of the first old kind behind it.
    pub(crate) old: usize,
    /// The number of the same kind among the new ones.
    pub(crate) new: usize,
}

/// How many kinds both lists begin with.
fn common_front(one: &[Kind], other: &[Kind]) -> usize {
    let mut count = 0usize;
    for (a, b) in one.iter().zip(other) {
        if a != b {
            break;
        }
        count = count.saturating_add(1);
    }
    count
}

/// How many kinds both lists end with.
fn common_back(one: &[Kind], other: &[Kind]) -> usize {
    let mut count = 0usize;
    for (a, b) in one.iter().rev().zip(other.iter().rev()) {
        if a != b {
            break;
        }
        count = count.saturating_add(1);
    }
    count
}

impl Edit {
    /// The shortest edit that makes new kinds of old ones.
    pub(crate) fn between(old: &[Kind], new: &[Kind]) -> Edit {
        let from = common_front(old, new);
        let behind = match (old.get(from..), new.get(from..)) {
            (Some(old), Some(new)) => common_back(old, new),
            _ => 0,
        };
        Edit {
            from,
            old: old.len().saturating_sub(behind),
            new: new.len().saturating_sub(behind),
        }
    }

    /// The number that a kind behind the edit has among the new ones.
    pub(crate) fn shifted(self, number: usize) -> usize {
        number.saturating_sub(self.old).saturating_add(self.new)
    }

    /// The number that a kind behind the edit has among the old ones.
    pub(crate) fn before(self, number: usize) -> usize {
        number.saturating_sub(self.new).saturating_add(self.old)
    }
}
