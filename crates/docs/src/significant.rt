//! The kinds of the significant tokens of a text, as a parser reads them.

ghost use Rattle.std.specs.Prelude.{◌≡◌, drop};

use definitions::Kind;
use lexer::{KindsAhead, Tokens};
use trees::Kinds;

/// The kinds of the tokens that aren't skipped, in order, as they stand among the tokens.
#[derive(Clone, Copy)]
pub struct Significant<'a>(pub &'a Tokens);

impl<'a> Kinds for Significant<'a> {
    ghost use Rattle.lexer.specs.Rescans.{significant_kinds};

    type Ahead = KindsAhead<'a>;

    ghost kinds = { λ s. significant_kinds s.0.now.items };

    ghost is_before = { λ s k ahead. ahead ≡ drop k (significant_kinds s.0.now.items) };

    fn len(&self) -> usize {
        self.0.significant()
    }

    fn kind(&self, k: usize) -> Option<Kind> {
        self.0.kind(k)
    }

    fn ahead(&self, k: usize) -> KindsAhead<'a> {
        self.0.kinds_from(k)
    }

    fn next(&self, ahead: &mut KindsAhead<'a>, k: usize) -> Option<Kind> {
        self.0.next_kind(ahead, k)
    }
}
