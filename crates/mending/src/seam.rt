//! Places up to which a copy and what is mended belong together.

use crate::repair::Repair;
use remedies::Change;

/// A place between two kinds, in a copy and in what is mended.
#[derive(Clone, Copy)]
pub(crate) struct Seam {
    /// How many kinds of the copy are before it.
    pub(crate) copy: usize,
    /// How many of the kinds that are mended are.
    pub(crate) kind: usize,
}

impl Seam {
    /// Where a repair begins.
    pub(crate) fn before(repair: &Repair) -> Seam {
        Seam {
            copy: repair.at,
            kind: repair.from,
        }
    }

    /// Where the copy goes on behind a repair.
    fn behind(repair: &Repair) -> Seam {
        let mut seam = Seam::before(repair);
        for change in &repair.changes {
            seam = match change {
                Change::PutIn(_) => seam.ahead(1, 0),
                Change::LeaveOut => seam.ahead(0, 1),
                Change::Keep => seam.ahead(1, 1),
            };
        }
        seam
    }

    /// Where it goes on behind the last of these repairs.
    pub(crate) fn behind_all(repairs: &[Repair]) -> Seam {
        match repairs.last() {
            Some(last) => Seam::behind(last),
            None => Seam { copy: 0, kind: 0 },
        }
    }

    /// So many kinds on.
    fn ahead(self, copy: usize, kind: usize) -> Seam {
        Seam {
            copy: self.copy.saturating_add(copy),
            kind: self.kind.saturating_add(kind),
        }
    }

    /// At a kind of those that are mended, up to which all stay.
    pub(crate) fn up_to(self, kind: usize) -> Seam {
        let count = kind.saturating_sub(self.kind);
        self.ahead(count, count)
    }
}
