//! The machine on its way through kinds, which it mends as it goes on.

ghost use Rattle.std.specs.Prelude.{◌≡◌, IfOk};

use crate::balances::changed_by;
use crate::repair::Repair;
use crate::seam::Seam;
use definitions::Kind;
use remedies::{Balance, Change, Fault, Guide, LEAD, Remedy};
use states::Pile;
use std::alloc::{AllocError, Global};
use tables::{Expected, Tables};

/// How many faults are mended at most.
pub const MOST_FAULTS: usize = 256;

/// How many of them are mended with care.
pub(crate) const CAREFUL: usize = 16;

/// How many moves are tried at each of these, and then again for a gap.
const MANY_MOVES: usize = 32768;

/// How many moves are tried at each of the others.
const FEW_MOVES: usize = 2048;

/// How many moves are tried at a fault before which so many are mended.
pub(crate) fn moves_at(repairs: usize) -> usize {
    if repairs < CAREFUL {
        MANY_MOVES
    } else {
        FEW_MOVES
    }
}

/// What may follow, as a list.
pub(crate) fn listed(
    alloc: Global,
    expected: Expected<'_>,
) -> Result<Vec<Option<usize>>, AllocError>
    ensures { IfOk result (λ looks. looks.items ≡ expected.entry) }
{
    let mut looks = Vec::new(alloc);
    for look in expected {
        looks.push(look)?;
    }
    Ok(looks)
}

/// What is done on the way.
#[derive(Clone, Copy, PartialEq, Eq)]
pub(crate) enum Step {
    /// A kind is read.
    Read,
    /// A fault is mended.
    Mended,
    /// All kinds are read, and are a sentence.
    Ended,
    /// There is a fault that nothing mends.
    Stuck,
}

/// Where a way begins.
#[derive(Clone, Copy)]
pub(crate) struct Start {
    pub(crate) place: Seam,
    /// The end of the last repair before it.
    pub(crate) done: Seam,
    /// How many repairs are made before it.
    pub(crate) repairs: usize,
    /// The balance of the copy up to there and the kinds from there on.
    pub(crate) balance: Balance,
    /// The kind of the copy before it.
    pub(crate) last: Option<Kind>,
}

/// What the kinds and the copy have on the way.
#[derive(Drop)]
pub(crate) struct Walk<'a> {
    alloc: Global,
    /// Its balance is that of the copy so far and the kinds from there on.
    pub(crate) guide: Guide<'a>,
    /// The kinds that are mended.
    kinds: &'a [Kind],
    /// The stack where the way begins.
    base: Pile<'a>,
    /// The number in the copy of the kind there.
    at: usize,
    /// The kind of the copy before it.
    last: Option<Kind>,
    /// A stack on the way.
    early: Pile<'a>,
    /// How many kinds of the copy from where the way begins on lead to it.
    read: usize,
    /// The stack now.
    pub(crate) pile: Pile<'a>,
    /// The kinds of the copy from there on.
    pub(crate) made: Vec<Kind>,
    /// The number of the next kind that is mended.
    pub(crate) next: usize,
    /// The end of the last repair.
    pub(crate) done: Seam,
    /// How many repairs are made before.
    before: usize,
    pub(crate) repairs: Vec<Repair>,
}

impl<'a> Walk<'a> {
    /// The way from a place on, where there is this stack.
    pub(crate) fn new(
        alloc: Global,
        guide: Guide<'a>,
        kinds: &'a [Kind],
        base: Pile<'a>,
        start: Start,
    ) -> Result<Walk<'a>, AllocError> {
        Ok(Walk {
            alloc,
            guide: Guide {
                balance: start.balance,
                ..guide
            },
            kinds,
            pile: base.copy(alloc)?,
            early: base.copy(alloc)?,
            base,
            at: start.place.copy,
            last: start.last,
            read: 0,
            made: Vec::new(alloc),
            next: start.place.kind,
            done: start.done,
            before: start.repairs,
            repairs: Vec::new(alloc),
        })
    }

    /// More steps than there can be.
    pub(crate) fn most_steps(&self) -> usize {
        let places = self.kinds.len().saturating_add(1);
        places.saturating_mul(MOST_FAULTS)
    }

    /// How many repairs there are up to here.
    pub(crate) fn number(&self) -> usize {
        self.before.saturating_add(self.repairs.len())
    }

    /// Reads a kind, and puts it into the copy. Whether some sentence goes on with it.
    fn read(&mut self, kind: Kind) -> Result<bool, AllocError> {
        if !self.pile.read(kind)? {
            return Ok(false);
        }
        self.made.push(kind)?;
        Ok(true)
    }

    /// Makes `early` the stack behind so many kinds of the copy from where the way begins on.
    /// Whether these go on.
    fn read_up_to(&mut self, count: usize) -> Result<bool, AllocError> {
        if count < self.read {
            self.early = self.base.copy(self.alloc)?;
            self.read = 0;
        }
        for kind in self.made.get(self.read..count).unwrap_or(&[]) {
            if !self.early.read(*kind)? {
                return Ok(false);
            }
        }
        self.read = count;
        Ok(true)
    }

    /// Goes back before so many kinds, which aren't mended. Whether there are as many.
    fn go_back(&mut self, count: usize) -> Result<bool, AllocError> {
        if count == 0 {
            return Ok(true);
        }
        let (Some(left), Some(next)) = (
            self.made.len().checked_sub(count),
            self.next.checked_sub(count),
        ) else {
            return Ok(false);
        };
        let goes_on = self.read_up_to(left)?;
        self.pile = self.early.copy(self.alloc)?;
        self.made.truncate(left);
        self.next = next;
        Ok(goes_on)
    }

    /// Makes a change. Whether some sentence goes on with it.
    fn change(&mut self, change: Change) -> Result<bool, AllocError> {
        match change {
            Change::PutIn(rule) => self.read(Kind::Rule(rule)),
            Change::LeaveOut => {
                self.next = self.next.saturating_add(1);
                Ok(true)
            }
            Change::Keep => {
                let Some(kind) = self.kinds.get(self.next).copied() else {
                    return Ok(false);
                };
                self.next = self.next.saturating_add(1);
                self.read(kind)
            }
        }
    }

    /// Makes changes. Whether some sentence goes on with them.
    fn make(&mut self, changes: &[Change]) -> Result<bool, AllocError> {
        for change in changes {
            if !self.change(*change)? {
                return Ok(false);
            }
        }
        Ok(true)
    }

    /// How many kinds before here changes may begin.
    fn lead(&self) -> usize {
        let unchanged = self.next.saturating_sub(self.done.kind);
        LEAD.min(unchanged).min(self.made.len())
    }

    /// What mends the fault that is here, which has this number in the copy. Its changes may begin
    /// so many kinds before it, where `early` is the stack.
    fn remedy(&self, fault: usize, lead: usize) -> Result<Option<Remedy>, AllocError> {
        let left = self.made.len().saturating_sub(lead);
        let first = self.next.saturating_sub(lead);
        Fault {
            pile: &self.pile,
            early: &self.early,
            lead,
            last: self.last_of(left),
            kinds: self.kinds.get(first..).unwrap_or(&[]),
            most: fault.saturating_sub(self.done.copy),
            moves: moves_at(self.number()),
        }
        .remedy(self.alloc, self.guide)
    }

    /// The kind of the copy before number `count` from where the way begins on.
    fn last_of(&self, count: usize) -> Option<Kind> {
        match count.checked_sub(1) {
            Some(number) => self.made.get(number).copied(),
            None => self.last,
        }
    }

    /// Mends the fault that is here.
    fn mend(&mut self) -> Result<Step, AllocError> {
        if MOST_FAULTS <= self.number() {
            return Ok(Step::Stuck);
        }
        let (lead, made) = (self.lead(), self.made.len());
        if !self.read_up_to(made.saturating_sub(lead))? {
            return Ok(Step::Stuck);
        }
        let fault = self.at.saturating_add(made);
        match self.remedy(fault, lead)? {
            Some(remedy) => self.apply(fault, remedy),
            None => Ok(Step::Stuck),
        }
    }

    /// Makes what mends the fault at this number of the copy.
    fn apply(&mut self, fault: usize, remedy: Remedy) -> Result<Step, AllocError> {
        let expected = listed(self.alloc, self.pile.expected())?;
        if !self.go_back(remedy.before)? {
            return Ok(Step::Stuck);
        }
        let (at, from) = (self.at.saturating_add(self.made.len()), self.next);
        if !self.make(&remedy.changes)? {
            return Ok(Step::Stuck);
        }
        let changed = changed_by(self.guide.ranks, self.kinds, from, &remedy.changes);
        self.guide.balance = self.guide.balance.with(changed);
        self.done = Seam {
            copy: self.at.saturating_add(self.made.len()),
            kind: self.next,
        };
        self.repairs.push(Repair {
            fault,
            expected,
            at,
            from,
            changes: remedy.changes,
            others: remedy.others,
        })?;
        Ok(Step::Mended)
    }

    /// Goes on by a kind, or by a repair.
    pub(crate) fn step(&mut self) -> Result<Step, AllocError> {
        match self.kinds.get(self.next).copied() {
            Some(kind) => {
                if !self.read(kind)? {
                    return self.mend();
                }
                self.next = self.next.saturating_add(1);
                Ok(Step::Read)
            }
            None => {
                let looks = listed(self.alloc, self.pile.expected())?;
                if looks.contains(&None) {
                    return Ok(Step::Ended);
                }
                self.mend()
            }
        }
    }
}

/// What mends kinds, and the copy that it makes.
#[derive(Drop)]
pub(crate) struct Mended {
    pub(crate) copy: Vec<Kind>,
    pub(crate) repairs: Vec<Repair>,
}

/// What mends kinds, from the first one on; the copy has those that are left behind the last fault
/// that is mended.
pub(crate) fn mend_all(
    alloc: Global,
    tables: &Tables,
    guide: Guide<'_>,
    kinds: &[Kind],
) -> Result<Mended, AllocError> {
    let begin = Seam { copy: 0, kind: 0 };
    let start = Start {
        place: begin,
        done: begin,
        repairs: 0,
        balance: guide.balance,
        last: None,
    };
    let base = Pile::new(alloc, tables)?;
    let mut walk = Walk::new(alloc, guide, kinds, base, start)?;
    for _ in 0..walk.most_steps() {
        match walk.step()? {
            Step::Ended | Step::Stuck => break,
            Step::Read | Step::Mended => {}
        }
    }
    let Walk {
        made: mut copy,
        repairs,
        next,
        ..
    } = walk;
    copy.extend_from_slice(kinds.get(next..).unwrap_or(&[]))?;
    Ok(Mended { copy, repairs })
}
