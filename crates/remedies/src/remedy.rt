//! What mends a fault.

ghost use Rattle.std.specs.Prelude.{◌≡◌, ◌≤◌, ◌+◌, ◌∷◌, List, IfOk, IfSome};
ghost use Rattle.remedies.specs.Changes.{passed};
ghost use Rattle.remedies.specs.declared.change.Change.{Change as PlainChange};

use crate::ahead::{Ahead, ENOUGH};
use crate::change::Change;
use crate::guide::Guide;
use crate::resume::{Gap, bases, least_gap, stack_of};
use crate::search::Search;
use definitions::Kind;
use states::Pile;
use std::alloc::{AllocError, Global};

/// How many kinds before a fault a change may begin: fewer than have to go on behind it, so that
/// the fault is among these.
pub const LEAD: usize = ENOUGH - 1;

/// A fault, and how it is mended.
#[derive(Clone, Copy)]
pub struct Fault<'a> {
    /// The stack of the machine that has read the kinds before it.
    pub pile: &'a Pile<'a>,
    /// The stack before the last `lead` of these, where changes may begin.
    pub early: &'a Pile<'a>,
    /// At most `LEAD`.
    pub lead: usize,
    /// The kind before that place.
    pub last: Option<Kind>,
    /// The kinds from there on.
    pub kinds: &'a [Kind],
    /// How many kinds right before the fault may be left out in a gap.
    pub most: usize,
    /// How many moves are tried, and then again for a gap.
    pub moves: usize,
}

/// What mends a fault.
#[derive(Debug, Drop)]
pub struct Remedy {
    /// How many kinds before the fault they begin.
    pub before: usize,
    pub changes: Vec<Change>,
    /// What would mend it as cheaply, from the same kind on.
    pub others: Vec<Vec<Change>>,
}

/// Changes that leave so many kinds out.
fn left_out(alloc: Global, count: usize) -> Result<Vec<Change>, AllocError>
    ensures { IfOk result (λ changes. passed changes.items ≡ count) }
{
    let mut changes = Vec::new(alloc);
    for _ in 0..count {
        changes.push(Change::LeaveOut)?;
    }
    Ok(changes)
}

/// How many kinds a change passes.
fn passed_by_one(change: Change) -> usize
    ensures few { result ≤ 1 }
    ensures is { (rest : List PlainChange) → result + passed rest ≡ passed (change ∷ rest) }
{
    match change {
        Change::PutIn(_) => 0,
        Change::LeaveOut | Change::Keep => 1,
    }
}

/// How many kinds changes pass, if these are no more than `most`, or `most`.
fn passed_of(changes: &[Change], most: usize) -> usize
    ensures { result ≤ passed changes.now }
{
    let mut count = 0usize;
    for change in changes {
        let one = passed_by_one(*change);
        if count < most {
            count += one;
        }
    }
    count
}

/// These changes, and behind them as many kinds stay as it takes to pass so many.
fn up_to(changes: Vec<Change>, count: usize) -> Result<Vec<Change>, AllocError>
    ensures { IfOk result (λ all. count ≤ passed all.items) }
{
    let mut all = changes;
    for _ in passed_of(&all, count)..count {
        all.push(Change::Keep)?;
    }
    Ok(all)
}

/// How many of the first changes let a kind stay, or `most` where there are more.
fn first_kept(changes: &[Change], most: usize) -> usize {
    let mut count = 0usize;
    for change in changes {
        if most <= count || *change != Change::Keep {
            break;
        }
        count = count.saturating_add(1);
    }
    count
}

/// The changes behind the first so many.
fn behind(changes: Vec<Change>, count: usize) -> Result<Vec<Change>, AllocError> {
    let mut changes = changes;
    changes.split_off(count.min(changes.len()))
}

/// What makes the first of these changes, which begin so many kinds before the fault; the others
/// mend it as cheaply. Kinds that stay in all of them aren't told.
fn few_changes(
    alloc: Global,
    lead: usize,
    repairs: Vec<Vec<Change>>,
) -> Result<Option<Remedy>, AllocError>
    ensures { IfOk result (λ found. IfSome found (λ remedy.
        remedy.before ≤ passed remedy.changes.items)) }
{
    let mut kept = lead;
    for changes in &repairs {
        kept = first_kept(changes, kept);
    }
    let mut repairs = repairs.into_iter();
    let Some(changes) = repairs.next() else {
        return Ok(None);
    };
    let mut others = Vec::new(alloc);
    for other in repairs {
        others.push(behind(other, kept)?)?;
    }
    let before = lead.saturating_sub(kept);
    Ok(Some(Remedy {
        before,
        changes: up_to(behind(changes, kept)?, before)?,
        others,
    }))
}

/// What leaves a gap; nothing where it has no kinds.
fn gap_remedy(alloc: Global, gap: Gap) -> Result<Option<Remedy>, AllocError>
    ensures { IfOk result (λ found. IfSome found (λ remedy.
        remedy.before ≤ passed remedy.changes.items)) }
{
    let count = gap.before.saturating_add(gap.behind);
    if count == 0 {
        return Ok(None);
    }
    Ok(Some(Remedy {
        before: gap.before,
        changes: left_out(alloc, count)?,
        others: Vec::new(alloc),
    }))
}

impl Fault<'_> {
    /// What few changes mend it, if some do.
    fn few(self, alloc: Global, guide: Guide<'_>) -> Result<Option<Remedy>, AllocError>
        ensures { IfOk result (λ found. IfSome found (λ remedy.
            remedy.before ≤ passed remedy.changes.items)) }
    {
        let mut ahead = Ahead::new(alloc, self.early.tables(), self.kinds)?;
        let mut trees = Vec::new(alloc);
        let stack = stack_of(&mut ahead.stacks, self.early, &mut trees)?;
        ahead.stacks.allow(self.moves);
        let mut search = Search::new(alloc, ahead, guide, self.lead, stack, self.last)?;
        match search.run()? {
            Some(repairs) => few_changes(alloc, self.lead, repairs),
            None => Ok(None),
        }
    }

    /// The gap around it, if there is something that can be left out.
    fn gap(self, alloc: Global) -> Result<Option<Remedy>, AllocError>
        ensures { IfOk result (λ found. IfSome found (λ remedy.
            remedy.before ≤ passed remedy.changes.items)) }
    {
        let kinds = self.kinds.get(self.lead..).unwrap_or(&[]);
        let mut ahead = Ahead::new(alloc, self.pile.tables(), kinds)?;
        let mut trees = Vec::new(alloc);
        let stack = stack_of(&mut ahead.stacks, self.pile, &mut trees)?;
        ahead.stacks.allow(self.moves);
        let bases = bases(alloc, stack, &trees, self.most)?;
        let gap = least_gap(&mut ahead, &bases)?;
        gap_remedy(alloc, gap)
    }

    /// What mends it; what begins before it passes up to it. None where nothing is left that could
    /// be left out. Of what mends it as cheaply and lets as many kinds go on, what has the lowest
    /// sum of ranks is taken; a rule without one is put in last. Refuses for memory alone.
    pub fn remedy(self, alloc: Global, guide: Guide<'_>) -> Result<Option<Remedy>, AllocError>
        ensures { IfOk result (λ found. IfSome found (λ remedy.
            remedy.before ≤ passed remedy.changes.items)) }
    {
        match self.few(alloc, guide)? {
            Some(remedy) => Ok(Some(remedy)),
            None => self.gap(alloc),
        }
    }
}
