//! The kinds of the significant tokens of a text, one after another.

ghost use Rattle.std.specs.Prelude.{◌≡◌};
ghost use Rattle.std.specs.Iterator.{YieldsFirst, item_count};
ghost use Rattle.lexer.specs.Rescans.{significant_kinds};

use crate::packed::PackedToken;
use definitions::Kind;
use runs::Iter;
use std::marker::Model;

/// The kinds of the significant tokens from one of them on, in order. It takes no memory.
#[derive(Drop)]
pub struct KindsAhead<'a> {
    /// All tokens that are still ahead.
    tokens: Iter<'a, PackedToken>,
}

impl<'a> Model for KindsAhead<'a> {
    ghost use Rattle.std.specs.Prelude.{List};
    ghost use Rattle.definitions.specs.declared.Kind.{Kind};
    ghost use Rattle.lexer.specs.Rescans.{significant_kinds};

    ghost Value = { List Kind };

    ghost view = { λ k. significant_kinds k.tokens };
}

impl<'a> KindsAhead<'a> {
    /// The kinds of the significant ones of these tokens.
    pub(crate) fn new(tokens: Iter<'a, PackedToken>) -> KindsAhead<'a>
        ensures { result ≡ significant_kinds tokens.entry }
    {
        KindsAhead { tokens }
    }
}

impl<'a> Iterator for KindsAhead<'a> {
    type Item = Kind;

    ghost next_gives = { YieldsFirst (λ s. s) };

    ghost remaining = { item_count (λ s. s) };

    fn next(&mut self) -> Option<Kind> {
        'skipped: while let Some(token) = self.tokens.next() {
            if !token.is_skipped() {
                return Some(token.kind());
            }
        }
        None
    }
}
