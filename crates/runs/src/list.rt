//! A list whose items lie in runs.

ghost use Rattle.std.specs.Prelude.{◌≡◌, ℕ, IsTrue, false, ◌+◌, ◌-◌, ◌*◌, ◌^◌, ◌<◌, ◌≤◌, ◌++◌, [], length, take, drop, slice_get, option_copied, OnOk, OnErr};
ghost use Rattle.seqtree.specs.Monoid.{total};
ghost use Rattle.seqtree.specs.Goal.{IsLeast};
ghost use Rattle.runs.specs.Runs.{flattened};

use crate::counted::{Counted, OfSum};
use crate::cuts::{cut_at, cut_with_sum};
use crate::items::Iter;
use crate::run::{Run, join_three, sum_of};
use seqtree::{Chunks, Goal, Measured, Monoid, Seq};
use std::alloc::{AllocError, Global};
use std::marker::Model;

/// A list of items, which returns the sum of any prefix of it. The items lie in runs, so that a
/// change costs the runs that it touches, the new items, and the logarithm of the length.
#[derive(Drop)]
pub struct Runs<T: Measured + Copy> {
    runs: Chunks<Run<T>>,
}

impl<T: Measured + Copy> Model for Runs<T> {
    ghost use Rattle.std.specs.Prelude.{List, ◌<◌, ◌^◌, length};
    ghost use Rattle.runs.specs.Runs.{flattened};

    ghost Value = { List T };

    ghost view = { λ r. flattened r.runs };

    ghost invariant = { λ r. length (flattened r.runs) < 2 ^ 64 };
}

impl<T: Measured + Copy> Runs<T> {
    /// The list with no item. Takes no memory.
    pub fn new() -> Self
        ensures { result ≡ [] }
    {
        Runs {
            runs: Chunks::new(),
        }
    }

    /// The runs, in which the items lie: few, but enough to hold them.
    pub fn seq(&self) -> &Seq<Run<T>>
        ensures items { flattened result.now ≡ self.now }
        ensures counted { length self.now < 2 ^ 64 }
        ensures few { 32 * length result.now ≤ length self.now + 32 }
        ensures enough { length self.now ≤ 64 * length result.now }
    {
        self.runs.seq()
    }

    /// How many items there are.
    pub fn len(&self) -> usize
        ensures { result ≡ length self.now }
    {
        self.seq().total().items
    }

    /// The sum of all items.
    pub fn total(&self) -> T::Sum
        ensures { result ≡ total T.Sum.empty T.Sum.op T.measure self.now }
    {
        let Counted { items: _, sum } = self.seq().total();
        sum
    }

    /// The sum of the items before the place `i`, and of all where it is past the end.
    pub fn total_before(&self, i: usize) -> T::Sum
        ensures { result ≡ total T.Sum.empty T.Sum.op T.measure (take i self.now) }
    {
        let (cut, sum) = cut_with_sum(self.seq(), i);
        sum.join(&sum_of(cut.prefix))
    }

    /// The item at the place `i`, if there is one.
    pub fn get(&self, i: usize) -> Option<&T>
        ensures { option_copied result ≡ slice_get self.now i }
    {
        cut_at(self.seq(), i).back.first()
    }

    /// The items from the place `i` on.
    pub fn iter_from(&self, i: usize) -> Iter<'_, T>
        ensures { result ≡ drop i self.now }
    {
        let runs = self.seq();
        let cut = cut_at(runs, i);
        Iter::new(cut.back, runs.iter_from(cut.run + 1))
    }

    /// The least `i` such that the sum of the first `i + 1` items reaches the goal, and the sum of
    /// the items before it. Where no such sum does, `i` is the length.
    pub fn locate<G: Goal<T::Sum>>(&self, goal: &G) -> (usize, T::Sum)
        ensures within { result.0 ≤ length self.now }
        ensures before { result.1 ≡ total T.Sum.empty T.Sum.op T.measure (take result.0 self.now) }
        ensures not_before { (k : ℕ) → k < result.0 →
            G.reaches goal.now (total T.Sum.empty T.Sum.op T.measure (take (k + 1) self.now))
            ≡ false }
        ensures reached { result.0 < length self.now →
            IsTrue (G.reaches goal.now (total T.Sum.empty T.Sum.op T.measure
            (take (result.0 + 1) self.now))) }
    {
        let runs = self.seq();
        let found = runs.find(&OfSum { goal });
        let Counted { items, sum } = found.before;
        let Some(run) = found.item else {
            return (items, sum);
        };
        let (within, sum) = locate_in(run.items(), sum, goal);
        (items + within, sum)
    }

    /// Puts the given items in the place of `from..to`. Takes all memory before it changes
    /// anything, and refuses for memory alone; after a refusal the list is as before.
    pub fn replace(
        &mut self,
        alloc: Global,
        from: usize,
        to: usize,
        items: &[T],
    ) -> Result<(), AllocError>
        requires ordered { from ≤ to }
        requires in_range { to ≤ length self.old }
        requires fits { length self.old - (to - from) + length items.now < 2 ^ 64 }
        ensures list { OnOk result (self.new
            ≡ take from self.old ++ items.now ++ drop to self.old) }
        ensures unchanged { OnErr result (self.new ≡ self.old) }
    {
        let runs = self.runs.seq();
        let start = cut_at(runs, from);
        let end = cut_at(runs, to);
        let items = join_three(alloc, start.prefix, items, end.back)?;
        let (from, to) = (start.run, end.run + 1);
        self.runs.replace(alloc, from, to, items)?;
        Ok(())
    }
}

/// How many of these items go before the one at which the sum, begun with `before`, reaches the
/// goal, and that sum.
fn locate_in<T: Measured, G: Goal<T::Sum>>(items: &[T], before: T::Sum, goal: &G) -> (usize, T::Sum)
    ensures { IsLeast T.Sum.empty T.Sum.op T.measure
        (G.reaches goal.now) before items.now result.0 result.1 }
{
    let mut sum = before;
    let mut at = 0;
    for item in items {
        let past = sum.join(&item.sum());
        if goal.reached(&past) {
            return (at, sum);
        }
        sum = past;
        at += 1;
    }
    (at, sum)
}
