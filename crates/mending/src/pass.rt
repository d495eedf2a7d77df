//! The way through what an edit changes of a mended copy.

ghost use Rattle.std.specs.Prelude.{◌≡◌};
ghost use Rattle.mending.specs.Mendings.{HasParse};

use crate::balances::balances;
use crate::edit::Edit;
use crate::mending::Mending;
use crate::repair::Repair;
use crate::seam::Seam;
use crate::walk::{CAREFUL, MOST_FAULTS, Start, Step, Walk};
use definitions::Kind;
use remedies::{Balance, Change, Guide, LEAD, LOOK, Rank};
use states::Pile;
use std::alloc::{AllocError, Global};
use tables::Tables;

/// How many kinds go on behind what has changed before the rest is taken to be as it was.
const ENOUGH: usize = LOOK;

/// Which repairs may stay after an edit.
#[derive(Clone, Copy)]
pub(crate) struct Plan {
    pub(crate) edit: Edit,
    /// How many of the first repairs stay.
    pub(crate) kept: usize,
    /// Where something may change first.
    pub(crate) start: Seam,
    /// The number of the first repair behind the edit.
    behind: usize,
}

/// What was found on the way.
#[derive(Drop)]
pub(crate) struct Passed {
    /// The kinds of the copy from where something may change on.
    pub(crate) made: Vec<Kind>,
    pub(crate) repairs: Vec<Repair>,
    /// The number of the next kind that is mended.
    pub(crate) next: usize,
    /// The number of the first old repair that stays behind.
    pub(crate) behind: usize,
    /// Whether it is known that it does.
    pub(crate) is_sure: bool,
}

/// The number of the kind at which a repair's fault is, among those that are mended.
fn fault_of(repair: &Repair) -> usize {
    let before = repair.fault.saturating_sub(repair.at);
    repair.from.saturating_add(before)
}

/// Whether a repair leaves kinds out up to where something begins anew: then it depends on the
/// trees before its fault too.
fn is_gap(repair: &Repair) -> bool {
    let leaves_out = |change: &Change| *change == Change::LeaveOut;
    repair.others.is_empty() && repair.changes.iter().all(leaves_out)
}

/// Whether as much is tried for so many repairs, whether the first has one number or another one.
fn are_alike(one: usize, other: usize, count: usize) -> bool {
    let last = one.max(other).saturating_add(count);
    last <= MOST_FAULTS && (one == other || last <= CAREFUL || CAREFUL <= one.min(other))
}

impl Mending {
    /// The first of its repairs.
    fn first(&self, count: usize) -> &[Repair] {
        self.repairs.get(..count).unwrap_or(&[])
    }

    /// How many of the first repairs rest on kinds before an edit alone, which leaves so many.
    fn kept(&self, edit: Edit, count: usize) -> usize {
        let least = self.origin.len().min(count);
        for (number, repair) in self.repairs.iter().enumerate() {
            let seen = fault_of(repair).saturating_add(LOOK);
            if edit.from < seen || least <= seen {
                return number;
            }
        }
        self.repairs.len()
    }

    /// The number of the first repair from number `from` on that lies behind an edit.
    fn first_behind(&self, edit: Edit, from: usize) -> usize {
        for number in from..self.repairs.len() {
            if let Some(repair) = self.repairs.get(number)
                && edit.old <= repair.from
            {
                return number;
            }
        }
        self.repairs.len()
    }

    /// What may stay after an edit that leaves so many kinds.
    pub(crate) fn plan(&self, edit: Edit, count: usize) -> Plan {
        let kept = self.kept(edit, count);
        let last = Seam::behind_all(self.first(kept));
        let from = match self.repairs.get(kept) {
            Some(repair) => edit
                .from
                .min(fault_of(repair))
                .min(repair.from.saturating_add(LEAD)),
            None => edit.from,
        };
        Plan {
            edit,
            kept,
            start: last.up_to(from.saturating_sub(LEAD).max(last.kind)),
            behind: self.first_behind(edit, kept),
        }
    }

    /// How many kinds of the copy stand before a kind that stays, before which there are so many
    /// repairs.
    pub(crate) fn place(&self, repairs: usize, kind: usize) -> usize {
        Seam::behind_all(self.first(repairs)).up_to(kind).copy
    }

    /// The states of the stack at the beginning of a repair; none where there is none.
    pub(crate) fn states_at(
        &self,
        alloc: Global,
        tables: &Tables,
        repair: Option<&Repair>,
    ) -> Result<Option<Vec<usize>>, AllocError>
        requires { HasParse tables.now self.now }
    {
        let Some(repair) = repair else {
            return Ok(None);
        };
        match Pile::at(alloc, tables, &self.store, &self.parse, repair.at)? {
            Some(pile) => Ok(Some(Vec::from_slice(alloc, pile.states())?)),
            None => Ok(None),
        }
    }

    /// Where the way through an edit begins that makes these kinds of those that are mended, with
    /// these balances before; none where the first repairs might be other ones now.
    fn start(
        &self,
        alloc: Global,
        ranks: &[Rank],
        kinds: &[Kind],
        plan: Plan,
        before: &[Balance],
    ) -> Result<Option<Start>, AllocError> {
        let kept = self.first(plan.kept);
        let now = balances(alloc, ranks, kinds, kept)?;
        let is_even = before.first() == now.first();
        let (Some(balance), true) = (now.last(), kept.is_empty() || is_even) else {
            return Ok(None);
        };
        Ok(Some(Start {
            place: plan.start,
            done: Seam::behind_all(kept),
            repairs: plan.kept,
            balance: *balance,
            last: self.kind_before(plan.start.copy),
        }))
    }

    /// The kind of the copy before a number; none at the beginning.
    fn kind_before(&self, number: usize) -> Option<Kind> {
        match number.checked_sub(1) {
            Some(before) => self.copy.get(before).copied(),
            None => None,
        }
    }

    /// Passes through what an edit changes that leaves the pairs as they are. None where that
    /// can't be told.
    pub(crate) fn pass<'a>(
        &'a self,
        alloc: Global,
        tables: &'a Tables,
        ranks: &'a [Rank],
        kinds: &'a [Kind],
        plan: Plan,
    ) -> Result<Option<Passed>, AllocError>
        requires { HasParse tables.now self.now }
    {
        let at = plan.start.copy;
        let Some(base) = Pile::at(alloc, tables, &self.store, &self.parse, at)? else {
            return Ok(None);
        };
        let balances = balances(alloc, ranks, &self.origin, &self.repairs)?;
        let Some(start) = self.start(alloc, ranks, kinds, plan, &balances)? else {
            return Ok(None);
        };
        let guide = Guide {
            ranks,
            pairs: &self.pairs,
            balance: start.balance,
        };
        let mut pass = Pass {
            alloc,
            tables,
            before: self,
            balances,
            walk: Walk::new(alloc, guide, kinds, base, start)?,
            plan,
            behind: plan.behind,
            is_sure: false,
        };
        if !pass.run()? {
            return Ok(None);
        }
        let Pass {
            walk,
            behind,
            is_sure,
            ..
        } = pass;
        let Walk {
            made,
            repairs,
            next,
            ..
        } = walk;
        Ok(Some(Passed {
            made,
            repairs,
            next,
            behind,
            is_sure,
        }))
    }
}

/// The way through what an edit changes, up to where the copy goes on as it was.
#[derive(Drop)]
struct Pass<'a> {
    alloc: Global,
    tables: &'a Tables,
    before: &'a Mending,
    /// The balance of the old kinds before any old repair, and after each of them.
    balances: Vec<Balance>,
    walk: Walk<'a>,
    plan: Plan,
    /// The number of the first old repair that stays behind.
    behind: usize,
    /// Whether it is known that it does.
    is_sure: bool,
}

impl Pass<'_> {
    /// Whether the old repairs from here on are as they would be looked for now.
    fn are_alike(&self) -> bool {
        let count = self.before.repairs.len().saturating_sub(self.behind);
        let is_even = match self.balances.get(self.behind) {
            Some(balance) => *balance == self.walk.guide.balance,
            None => false,
        };
        is_even && are_alike(self.behind, self.walk.number(), count)
    }

    /// The number of the first kind behind all that has changed.
    fn changed(&self) -> usize {
        let edit = self.plan.edit;
        let given_up = edit.shifted(Seam::behind_all(self.before.first(self.behind)).kind);
        edit.new.max(given_up).max(self.walk.done.kind)
    }

    /// Whether nothing has changed where the changes of a repair may begin, nor right before.
    fn is_clear(&self, repair: &Repair) -> bool {
        self.changed().saturating_add(LEAD) < self.plan.edit.shifted(fault_of(repair))
    }

    /// Whether a repair would be found here as it was.
    fn is_same(&self, repair: &Repair) -> Result<bool, AllocError>
        requires { HasParse self.now.tables.now self.now.before.now }
    {
        if is_gap(repair) || !self.are_alike() || !self.is_clear(repair) {
            return Ok(false);
        }
        let states = self
            .before
            .states_at(self.alloc, self.tables, Some(repair))?;
        match states {
            Some(states) => Ok(states.as_slice() == self.walk.pile.states()),
            None => Ok(false),
        }
    }

    /// Gives up the old repairs that began before here, and the one that begins here unless it
    /// would be found as it was. Whether it would.
    fn meets(&mut self) -> Result<bool, AllocError>
        requires { HasParse self.old.tables.now self.old.before.now }
        ensures { (self.new.tables ≡ self.old.tables) × (self.new.before ≡ self.old.before) }
    {
        for _ in self.behind..self.before.repairs.len() {
            let Some(repair) = self.before.repairs.get(self.behind) else {
                return Ok(false);
            };
            let place = self.plan.edit.shifted(repair.from);
            if self.walk.next < place {
                return Ok(false);
            }
            if self.walk.next == place && self.is_same(repair)? {
                return Ok(true);
            }
            self.behind = self.behind.saturating_add(1);
        }
        Ok(false)
    }

    /// Whether enough kinds have gone on so that the rest may be as it was.
    fn is_enough(&self) -> bool {
        let may_stay = match self.before.repairs.get(self.behind) {
            Some(repair) => !is_gap(repair) && self.are_alike(),
            None => true,
        };
        may_stay && self.changed().saturating_add(ENOUGH) <= self.walk.next
    }

    /// Goes on up to where the copy goes on as it was, or to the end. Whether it came there.
    fn run(&mut self) -> Result<bool, AllocError>
        requires { HasParse self.old.tables.now self.old.before.now }
    {
        let most = self.walk.most_steps();
        for _ in 0..most {
            if self.meets()? {
                self.is_sure = true;
                return Ok(true);
            }
            if self.is_enough() {
                return Ok(true);
            }
            match self.walk.step()? {
                Step::Ended => {
                    self.behind = self.before.repairs.len();
                    return Ok(true);
                }
                Step::Stuck => return Ok(false),
                Step::Read | Step::Mended => {}
            }
        }
        Ok(false)
    }
}
