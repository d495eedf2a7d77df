//! Runs of items, and items cut into runs.

ghost use Rattle.std.specs.Prelude.{◌≡◌, ◌≤◌, ◌++◌, length, IfOk};
ghost use Rattle.seqtree.specs.Monoid.{total};

use crate::counted::Counted;
use seqtree::{Chunk, Measured, Monoid};
use std::alloc::{AllocError, Global};
use std::marker::Model;

/// The most items that a run may have.
pub const LONGEST_RUN: usize = 64;

/// The fewest items that a run has where items are cut into several.
pub const SHORTEST_OF_SEVERAL: usize = 32;

/// Some items of a list, at least one and at most [`LONGEST_RUN`], and their sum.
#[derive(Drop)]
pub struct Run<T: Measured> {
    items: Vec<T>,
    sum: T::Sum,
}

impl<T: Measured> Model for Run<T> {
    ghost use Rattle.std.specs.Prelude.{List};
    ghost use Rattle.runs.specs.Runs.{IsRun};

    ghost Value = { List T };

    ghost view = { λ r. r.items.items };

    ghost invariant = { λ r. IsRun T.Sum.empty T.Sum.op T.measure r.items.items r.sum };
}

impl<T: Measured> Run<T> {
    /// The items, in order.
    pub fn items(&self) -> &[T]
        ensures same { result.now ≡ self.now }
        ensures some { 1 ≤ length result.now }
        ensures few { length result.now ≤ LONGEST_RUN }
    {
        &self.items
    }
}

impl<T: Measured> Measured for Run<T> {
    ghost use Rattle.runs.specs.Counted.{counted};

    type Sum = Counted<T::Sum>;

    ghost measure = { counted T.Sum.empty T.Sum.op T.measure };

    fn sum(&self) -> Counted<T::Sum> {
        Counted {
            items: self.items.len(),
            sum: T::Sum::zero().join(&self.sum),
        }
    }
}

impl<T: Measured + Copy> Chunk for Run<T> {
    ghost use Rattle.std.specs.Prelude.{length};
    ghost use Rattle.runs.specs.Laws.{length_measures};
    ghost use Rattle.runs.specs.declared.run.TheConstants.{LONGEST_RUN, SHORTEST_OF_SEVERAL};

    type Item = T;

    type Items = Vec<T>;

    const SHORTEST: usize = SHORTEST_OF_SEVERAL;

    const LONGEST: usize = LONGEST_RUN;

    ghost SHORTEST = { SHORTEST_OF_SEVERAL };

    ghost LONGEST = { LONGEST_RUN };

    ghost items = { λ run. run };

    ghost list = { λ whole. whole.items };

    ghost size = { length };

    ghost laws = { length_measures };

    fn size(whole: &Vec<T>) -> usize {
        whole.len()
    }

    fn before(&self, alloc: Global, back: Vec<T>) -> Result<Vec<T>, AllocError> {
        join_three(alloc, &self.items, &back, &[])
    }

    fn after(&self, alloc: Global, prefix: Vec<T>) -> Result<Vec<T>, AllocError> {
        join_three(alloc, &prefix, &self.items, &[])
    }

    fn cut_off(whole: &mut Vec<T>, most: usize) -> Result<Run<T>, AllocError> {
        let items = whole.split_off(whole.len() - most)?;
        let sum = sum_of(&items);
        Ok(Run { items, sum })
    }
}

/// Three lists, one after another.
pub fn join_three<T: Copy>(
    alloc: Global,
    prefix: &[T],
    middle: &[T],
    back: &[T],
) -> Result<Vec<T>, AllocError>
    ensures { IfOk result (λ items. items.items ≡ prefix.now ++ middle.now ++ back.now) }
{
    let mut items = Vec::from_slice(alloc, prefix)?;
    items.extend_from_slice(middle)?;
    items.extend_from_slice(back)?;
    Ok(items)
}

/// The sum of items.
pub fn sum_of<T: Measured>(items: &[T]) -> T::Sum
    ensures { result ≡ total T.Sum.empty T.Sum.op T.measure items.now }
{
    let mut sum = T::Sum::zero();
    for item in items {
        sum = sum.join(&item.sum());
    }
    sum
}
