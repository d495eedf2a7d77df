//! Sums of items that are counted too, and what such a sum may reach.

use seqtree::{Goal, Monoid};
use std::alloc::AllocError;

/// How many items there are, and their sum.
#[derive(Drop)]
pub struct Counted<S> {
    pub items: usize,
    pub sum: S,
}

impl<S: Monoid> Monoid for Counted<S> {
    ghost use Rattle.runs.specs.Counted.{nothing, join_three};
    ghost use Rattle.runs.specs.Laws.{counted_laws};

    ghost empty = { nothing S.empty };

    ghost op = { join_three S.op };

    ghost laws = { counted_laws S.empty S.op S.laws };

    fn zero() -> Self {
        Counted {
            items: 0,
            sum: S::zero(),
        }
    }

    fn join(&self, other: &Self) -> Self {
        Counted {
            items: self.items.saturating_add(other.items),
            sum: self.sum.join(&other.sum),
        }
    }
}

/// More than `offset` items.
#[derive(Clone, Copy)]
pub struct AfterItem {
    pub offset: usize,
}

impl<S: Monoid> Goal<Counted<S>> for AfterItem {
    ghost use Rattle.std.specs.Prelude.{nat_lt};
    ghost use Rattle.runs.specs.Laws.{after_item_stays};

    ghost reaches = { λ g s. nat_lt g.offset s.items };

    ghost stays = { λ g s r h. after_item_stays S.op g.offset s r h };

    fn reached(&self, sum: &Counted<S>) -> bool {
        self.offset < sum.items
    }
}

/// A goal of the sum alone.
pub struct OfSum<'a, G> {
    pub goal: &'a G,
}

impl<'a, G> Clone for OfSum<'a, G> {
    ghost use Rattle.std.specs.Prelude.{⊤, ◌≡◌};

    ghost is_clone = { λ goal copy. copy ≡ goal };

    ghost is_infallible = { λ _. ⊤ };

    fn clone(&self) -> Result<Self, AllocError> {
        Ok(*self)
    }
}

impl<'a, G> Copy for OfSum<'a, G> {}

impl<'a, S: Monoid, G: Goal<S>> Goal<Counted<S>> for OfSum<'a, G> {
    ghost reaches = { λ g s. G.reaches g.goal.now s.sum };

    ghost stays = { λ g s r h. G.stays g.goal.now s.sum r.sum h };

    fn reached(&self, sum: &Counted<S>) -> bool {
        self.goal.reached(&sum.sum)
    }
}
