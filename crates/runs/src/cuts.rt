//! Where a list in runs is cut in two.

ghost use Rattle.std.specs.Prelude.{◌≡◌, ◌^◌, ◌<◌, length, take};
ghost use Rattle.seqtree.specs.Monoid.{total};
ghost use Rattle.seqtree.specs.Chunks.{IsCut};
ghost use Rattle.runs.specs.Runs.{flattened};

use crate::counted::{AfterItem, Counted};
use crate::run::Run;
use seqtree::{Measured, Seq};

/// A list in runs, cut in two.
#[derive(Drop)]
pub struct Cut<'a, T> {
    /// How many runs lie whole before the cut.
    pub run: usize,
    /// What lies before the cut of the run that comes next, or nothing where none does.
    pub prefix: &'a [T],
    /// What lies after the cut of that run. It has at least one item.
    pub back: &'a [T],
}

/// Cuts a list in two at an offset, and at its end where the offset is past it. The steps are a
/// logarithm.
pub fn cut_at<T: Measured>(runs: &Seq<Run<T>>, offset: usize) -> Cut<'_, T>
    requires counted { length (flattened runs.now) < 2 ^ 64 }
    ensures { IsCut (λ run. run) runs.now offset result.run result.prefix.now result.back.now }
{
    let (cut, _sum) = cut_with_sum(runs, offset);
    cut
}

/// The same cut, and the sum of the runs that lie whole before it.
pub fn cut_with_sum<T: Measured>(runs: &Seq<Run<T>>, offset: usize) -> (Cut<'_, T>, T::Sum)
    requires counted { length (flattened runs.now) < 2 ^ 64 }
    ensures cut { IsCut (λ run. run) runs.now offset
        result.0.run result.0.prefix.now result.0.back.now }
    ensures sum { result.1
        ≡ total T.Sum.empty T.Sum.op T.measure (flattened (take result.0.run runs.now)) }
{
    let found = runs.find(&AfterItem { offset });
    let Counted { items, sum } = found.before;
    let Some(run) = found.item else {
        let cut = Cut {
            run: found.place,
            prefix: &[],
            back: &[],
        };
        return (cut, sum);
    };
    let (prefix, back) = run.items().split_at(offset - items);
    let cut = Cut {
        run: found.place,
        prefix,
        back,
    };
    (cut, sum)
}
