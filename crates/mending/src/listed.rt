//! Kinds in a slice, as a parser reads them.

use definitions::Kind;
use trees::Kinds;

/// These kinds.
#[derive(Clone, Copy)]
pub struct Listed<'a> {
    pub kinds: &'a [Kind],
}

impl<'a> Kinds for Listed<'a> {
    ghost use Rattle.std.specs.Prelude.{⊤};

    type Ahead = ();

    ghost kinds = { λ s. s.kinds.now };

    ghost is_before = { λ s k ahead. ⊤ };

    fn len(&self) -> usize {
        self.kinds.len()
    }

    fn kind(&self, k: usize) -> Option<Kind> {
        self.kinds.get(k).copied()
    }

    fn ahead(&self, _k: usize) {}

    fn next(&self, _ahead: &mut (), k: usize) -> Option<Kind> {
        self.kind(k)
    }
}
