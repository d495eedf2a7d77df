//! A walk over the tokens of a text, from one of them on.

ghost use Rattle.std.specs.Prelude.{◌≡◌, ◌≢◌, ◌⊎◌, ℕ, ◌<◌, ◌≤◌, length, take, MatchOption};
ghost use Rattle.lexer.specs.Tokens.{characters, Fits};
ghost use Rattle.lexer.specs.Walks.{Spot, IsPassed};

use crate::packed::PackedToken;
use runs::{Iter, Runs};
use std::marker::Model;

/// A place among tokens. A walk goes over each of them once, so that places of rising offsets are
/// found without a search for each.
#[derive(Drop)]
pub struct Walk<'a> {
    items: &'a Runs<PackedToken>,
    /// The tokens from the place on.
    ahead: Iter<'a, PackedToken>,
    place: usize,
    /// The offset at which the token at the place starts.
    start: usize,
}

impl<'a> Model for Walk<'a> {
    ghost use Rattle.lexer.specs.Walks.{Spot, IsWalk};

    ghost Value = { Spot };

    ghost view = { λ w. record { items = w.items.now; place = w.place } };

    ghost invariant = { λ w. IsWalk w.items.now w.ahead w.place w.start };
}

impl<'a> Walk<'a> {
    /// The walk that begins at a place. The token there starts at the offset `start`.
    pub fn new(items: &'a Runs<PackedToken>, place: usize, start: usize) -> Walk<'a>
        requires fits { Fits items.now }
        requires within { place ≤ length items.now }
        requires start { start ≡ characters (take place items.now) }
        ensures { result ≡ record { items = items.now; place = place } }
    {
        Walk {
            items,
            ahead: items.iter_from(place),
            place,
            start,
        }
    }

    /// The offset at which the token at the place starts.
    pub fn start(&self) -> usize
        ensures is { result ≡ characters (take self.now.place self.now.items) }
        ensures fits { Fits self.now.items }
        ensures within { self.now.place ≤ length self.now.items }
    {
        self.start
    }

    /// How many tokens there are in all.
    pub fn end(&self) -> usize
        ensures { result ≡ length self.now.items }
    {
        self.items.len()
    }

    /// The place of the token that starts at this offset, or the count of all at the end of the
    /// text. The walk goes on to the first token that doesn't start before the offset.
    pub fn place_of(&mut self, offset: usize) -> Option<usize>
        ensures items { self.new.items ≡ self.old.items }
        ensures passed { IsPassed offset self.old → IsPassed offset self.new }
        ensures is { IsPassed offset self.old → MatchOption result
            ((j : ℕ) → j ≤ length self.old.items → characters (take j self.old.items) ≢ offset)
            (λ j. (j ≤ length self.old.items) × (characters (take j self.old.items) ≡ offset)) }
    {
        self.go_to(offset);
        if self.start == offset {
            Some(self.place)
        } else {
            None
        }
    }

    /// Goes on to the first token that doesn't start before the offset, or to the end.
    fn go_to(&mut self, offset: usize)
        ensures items { self.new.items ≡ self.old.items }
        ensures passed { IsPassed offset self.old → IsPassed offset self.new }
        ensures reached { (offset ≤ characters (take self.new.place self.old.items))
            ⊎ (self.new.place ≡ length self.old.items) }
    {
        while self.start < offset {
            let Some(token) = self.ahead.next() else {
                return;
            };
            self.start += token.length() as usize;
            self.place += 1;
        }
    }
}
