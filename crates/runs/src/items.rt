//! The items of a list, one after another.

ghost use Rattle.std.specs.Prelude.{◌≡◌, ◌++◌, length};
ghost use Rattle.std.specs.Iterator.{YieldsFirstRef, at_most};
ghost use Rattle.runs.specs.Runs.{flattened};

use crate::run::Run;
use seqtree::Measured;
use std::marker::Model;

/// The items of a list from one place on.
#[derive(Drop)]
pub struct Iter<'a, T: Measured> {
    /// What is left of the present run, empty only where nothing is left at all.
    present: &'a [T],
    /// The runs after it.
    runs: seqtree::Iter<'a, Run<T>>,
}

impl<'a, T: Measured> Model for Iter<'a, T> {
    ghost use Rattle.std.specs.Prelude.{◌≡◌, List, ◌++◌, length};
    ghost use Rattle.runs.specs.Runs.{flattened};

    ghost Value = { List T };

    ghost view = { λ i. i.present.now ++ flattened i.runs };

    ghost invariant = { λ i. length i.present.now ≡ 0 → length i.runs ≡ 0 };
}

impl<'a, T: Measured> Iter<'a, T> {
    /// The items of `present` and then those of the runs.
    pub fn new(present: &'a [T], mut runs: seqtree::Iter<'a, Run<T>>) -> Iter<'a, T>
        ensures { result ≡ present.now ++ flattened runs.entry }
    {
        let present = refill(present, &mut runs);
        Iter { present, runs }
    }
}

impl<'a, T: Measured> Iterator for Iter<'a, T> {
    type Item = &'a T;

    ghost next_gives = { YieldsFirstRef (λ s. s) };

    ghost remaining = { λ s. at_most (length s) };

    fn next(&mut self) -> Option<&'a T> {
        let (first, rest) = self.present.split_first()?;
        self.present = refill(rest, &mut self.runs);
        Some(first)
    }
}

/// What is left of the present run, or the next run where nothing is.
fn refill<'a, T: Measured>(present: &'a [T], runs: &mut seqtree::Iter<'a, Run<T>>) -> &'a [T]
    ensures same { result.now ++ flattened runs.new ≡ present.now ++ flattened runs.old }
    ensures filled { length result.now ≡ 0 → length runs.new ≡ 0 }
{
    if present.len() > 0 {
        return present;
    }
    match runs.next() {
        Some(run) => run.items(),
        None => present,
    }
}
