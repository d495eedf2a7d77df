//! Lookaheads in order: the end, then the token rules. The number of a lookahead in this order is
//! its column.
ghost use Rattle.std.specs.Prelude.{◌≡◌};
ghost use Rattle.productions.specs.Lookaheads.{lookahead_at};

/// The lookahead of a column.
pub fn lookahead_at(column: usize) -> Option<usize>
    ensures { result ≡ lookahead_at column }
{
    if column == 0 { None } else { Some(column - 1) }
}
