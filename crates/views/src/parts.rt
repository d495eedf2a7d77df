//! The significant tokens of a text.

ghost use Rattle.std.specs.Prelude.{◌≡◌, ◌<◌, Bool, List, All, IsSomeAnd, count_by, map, slice_get};
ghost use Rattle.definitions.specs.Answers.{end_of};
ghost use Rattle.definitions.specs.Tokens.{is_skipped, placed, significant};
ghost use Rattle.lexer.specs.Tokens.{kind_in, is_significant, plain};

use lexer::{Kind, Tokens};

/// A significant token, with the offsets between which it lies, in characters.
#[derive(Clone, Copy)]
pub struct Part {
    /// The offset of its first character.
    pub start: usize,
    /// The offset after its last character.
    pub end: usize,
    /// The rule that it matches, or that it matches none.
    pub kind: Kind,
}

/// Significant token number `k`, counted from 0.
pub fn span_of(tokens: &Tokens, k: usize) -> Part
    requires { k < count_by is_significant tokens.now.items }
    ensures { (skips : List Bool)
        → All (λ x. x.skipped ≡ is_skipped skips (kind_in x)) tokens.now.items
        → IsSomeAnd (slice_get (significant skips (placed 0 (map plain tokens.now.items))) k)
        (λ x. (result.start ≡ x.start) × (result.end ≡ end_of x) × (result.kind ≡ x.token.kind)) }
{
    let place = tokens.place(k);
    let start = tokens.start_of(place);
    let Some(token) = tokens.token(place) else {
        unreachable!();
    };
    Part {
        start,
        end: start + token.length as usize,
        kind: token.kind(),
    }
}
