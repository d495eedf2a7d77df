//! A list of measured items, and the parts that go into one.
ghost use Rattle.std.specs.Prelude.{◌≡◌, ℕ, IsTrue, false, ◌+◌, ◌-◌, ◌*◌, ◌^◌, ◌<◌, ◌≤◌, ◌++◌, [], length, take, drop, slice_get, option_copied, IfOk};
ghost use Rattle.seqtree.specs.Monoid.{total};
ghost use Rattle.seqtree.specs.Tree.{digits};

use crate::tree::{self, Node, Tree};
use crate::{Found, Goal, Iter, Measured};
use std::alloc::{AllocError, Global};
use std::marker::Model;

/// A list of items, which returns the sum of any prefix of it.
#[derive(Drop)]
pub struct Seq<T: Measured> {
    root: Tree<T>,
}

impl<T: Measured> Model for Seq<T> {
    ghost use Rattle.std.specs.Prelude.{List};
    ghost use Rattle.seqtree.specs.Tree.{items_of};

    ghost Value = { List T };

    ghost view = { λ a. items_of a.root };
}

/// Items in the memory that a list needs for them.
#[derive(Drop)]
pub struct Slots<T: Measured> {
    root: Tree<T>,
}

impl<T: Measured> Model for Slots<T> {
    ghost use Rattle.std.specs.Prelude.{List};
    ghost use Rattle.seqtree.specs.Tree.{items_of};

    ghost Value = { List T };

    ghost view = { λ a. items_of a.root };
}

impl<T: Measured> Seq<T> {
    /// The list with no item. Takes no memory.
    pub fn new() -> Self
        ensures { result ≡ [] }
    {
        Seq { root: None }
    }

    /// How many items there are.
    pub fn len(&self) -> usize
        ensures { result ≡ length self.now }
    {
        tree::count(&self.root)
    }

    /// The sum of all items.
    pub fn total(&self) -> T::Sum
        ensures { result ≡ total T.Sum.empty T.Sum.op T.measure self.now }
    {
        tree::sum_of(&self.root)
    }

    /// The height of the tree that the list lies in. A caller sees no tree, so the contract says
    /// what that means for a list: at most twice as much as its length has binary digits, and
    /// enough for a tree to hold its items.
    pub fn height(&self) -> u8
        ensures low { result ≤ 2 * digits (length self.now) }
        ensures high { length self.now < 2 ^ result }
    {
        tree::height(&self.root)
    }

    /// The item at the place `i`, if there is one.
    pub fn get(&self, i: usize) -> Option<&T>
        ensures { option_copied result ≡ slice_get self.now i }
    {
        tree::get(&self.root, i)
    }

    /// The items from the place `i` on.
    pub fn iter_from(&self, i: usize) -> Iter<'_, T>
        ensures { result ≡ drop i self.now }
    {
        Iter::new(&self.root, i)
    }

    /// The least `i` such that the sum of the first `i + 1` items reaches the goal, and the sum of
    /// the items before it. Where no such sum does, `i` is the length.
    pub fn locate<G: Goal<T::Sum>>(&self, goal: &G) -> (usize, T::Sum)
        ensures within { result.0 ≤ length self.now }
        ensures before { result.1 ≡ total T.Sum.empty T.Sum.op T.measure (take result.0 self.now) }
        ensures not_before { (k : ℕ) → k < result.0 →
            G.reaches goal.now (total T.Sum.empty T.Sum.op T.measure (take (k + 1) self.now))
            ≡ false }
        ensures reached { result.0 < length self.now →
            IsTrue (G.reaches goal.now (total T.Sum.empty T.Sum.op T.measure
            (take (result.0 + 1) self.now))) }
    {
        let found = self.find(goal);
        (found.place, found.before)
    }

    /// What `locate` gives, with the item at this place, if there is one: one way down for both.
    pub fn find<G: Goal<T::Sum>>(&self, goal: &G) -> Found<'_, T>
        ensures within { result.place ≤ length self.now }
        ensures before { result.before
            ≡ total T.Sum.empty T.Sum.op T.measure (take result.place self.now) }
        ensures not_before { (k : ℕ) → k < result.place →
            G.reaches goal.now (total T.Sum.empty T.Sum.op T.measure (take (k + 1) self.now))
            ≡ false }
        ensures reached { result.place < length self.now →
            IsTrue (G.reaches goal.now (total T.Sum.empty T.Sum.op T.measure
            (take (result.place + 1) self.now))) }
        ensures item { option_copied result.item ≡ slice_get self.now result.place }
    {
        tree::find(&self.root, goal)
    }

    /// Puts the given items in the place of `from..to`, and returns the removed ones. Takes no
    /// memory.
    pub fn replace(&mut self, from: usize, to: usize, items: Slots<T>) -> Slots<T>
        requires ordered { from ≤ to }
        requires in_range { to ≤ length self.old }
        requires fits { length self.old - (to - from) + length items < 2 ^ 64 }
        ensures list { self.new ≡ take from self.old ++ items ++ drop to self.old }
        ensures removed { result ≡ drop from (take to self.old) }
    {
        let (rest, back) = tree::split(self.root.take(), to);
        let (prefix, middle) = tree::split(rest, from);
        self.root = tree::append(tree::append(prefix, items.root), back);
        Slots { root: middle }
    }
}

impl<T: Measured> Slots<T> {
    /// Takes the memory that the items need in a list. Refuses for memory alone.
    pub fn make(alloc: Global, mut items: Vec<T>) -> Result<Slots<T>, AllocError>
        ensures { IfOk result (λ s. s ≡ items.items) }
    {
        let count = items.len();
        let root = tree::last(alloc, &mut items, count)?;
        Ok(Slots { root })
    }

    /// How many items there are.
    pub fn len(&self) -> usize
        ensures { result ≡ length self.now }
    {
        tree::count(&self.root)
    }
}
