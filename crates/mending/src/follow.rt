//! What an edit of the kinds leaves of a mended copy.

ghost use Rattle.std.specs.Prelude.{◌≡◌, List, [], IfOk, OnOk, true};
ghost use Rattle.definitions.specs.Sentences.{IsSentence};
ghost use Rattle.definitions.specs.declared.Kind.{Kind as TokenKind};
ghost use Rattle.mending.specs.Mendings.{HasParse, IsMendingOf};

use crate::edit::Edit;
use crate::kinds::copied;
use crate::mending::Mending;
use crate::pass::{Passed, Plan};
use crate::repair::Repair;
use definitions::Kind;
use remedies::{Pairs, Rank};
use std::alloc::{AllocError, Global};
use std::mem::replace;
use tables::Tables;
use trees::Kinds;

/// A repair behind an edit, which stands behind kind number `old` of the copy and then behind
/// number `new`.
fn moved(repair: Repair, edit: Edit, old: usize, new: usize) -> Repair {
    let on = |number: usize| number.saturating_sub(old).saturating_add(new);
    Repair {
        fault: on(repair.fault),
        at: on(repair.at),
        from: edit.shifted(repair.from),
        ..repair
    }
}

/// The first repairs that stay, those that were found, and those that stay behind the edit, which
/// move from behind kind number `old` of the copy to behind number `new`.
fn joined(
    repairs: Vec<Repair>,
    plan: Plan,
    found: Vec<Repair>,
    behind: usize,
    old: usize,
    new: usize,
) -> Result<Vec<Repair>, AllocError> {
    let mut all = repairs;
    let rest = all.split_off(behind.min(all.len()))?;
    all.truncate(plan.kept);
    for repair in found {
        all.push(repair)?;
    }
    for repair in rest {
        all.push(moved(repair, plan.edit, old, new))?;
    }
    Ok(all)
}

impl Mending {
    /// Whether these are the states at the beginning of a repair, where there is one.
    fn is_as_before(
        &self,
        alloc: Global,
        tables: &Tables,
        repair: Option<&Repair>,
        states: Option<Vec<usize>>,
    ) -> Result<bool, AllocError>
        requires { HasParse tables.now self.now }
    {
        match (repair, self.states_at(alloc, tables, repair)?, states) {
            (None, _, _) => Ok(true),
            (Some(_), Some(one), Some(other)) => Ok(one == other),
            _ => Ok(false),
        }
    }

    /// Puts what was found on the way through an edit into the copy. The repairs of it, if what is
    /// behind the edit would be repaired as it was.
    fn take_over(
        &mut self,
        alloc: Global,
        tables: &Tables,
        plan: Plan,
        passed: Passed,
    ) -> Result<Option<Vec<Repair>>, AllocError>
        requires { HasParse tables.now self.old }
        ensures parse { OnOk result (HasParse tables.now self.new) }
        ensures origin { self.new.origin ≡ self.old.origin }
    {
        let start = plan.start.copy;
        let old = self.place(passed.behind, plan.edit.before(passed.next));
        if old < start || self.copy.len() < old {
            return Ok(None);
        }
        let new = start.saturating_add(passed.made.len());
        let states = self.states_at(alloc, tables, self.repairs.get(passed.behind))?;
        self.replace(alloc, tables, start, old, passed.made)?;
        let first = plan.kept.saturating_add(passed.repairs.len());
        let before = replace(&mut self.repairs, Vec::new(alloc));
        let repairs = joined(before, plan, passed.repairs, passed.behind, old, new)?;
        let stays = self.tree().is_some()
            && (passed.is_sure || self.is_as_before(alloc, tables, repairs.get(first), states)?);
        Ok(stays.then_some(repairs))
    }

    /// Makes the copy that of these kinds, if this can be told from what it was. Whether it could.
    fn catch_up(
        &mut self,
        alloc: Global,
        tables: &Tables,
        ranks: &[Rank],
        kinds: Vec<Kind>,
    ) -> Result<bool, AllocError>
        requires { HasParse tables.now self.old }
        ensures { IfOk result (λ done. done ≡ true
            → IsMendingOf tables.now kinds.items self.new) }
    {
        if self.tree().is_none() || Pairs::of(alloc, ranks.len(), &kinds)? != self.pairs {
            return Ok(false);
        }
        let plan = self.plan(Edit::between(&self.origin, &kinds), kinds.len());
        let Some(passed) = self.pass(alloc, tables, ranks, &kinds, plan)? else {
            return Ok(false);
        };
        self.origin = kinds;
        match self.take_over(alloc, tables, plan, passed)? {
            Some(repairs) => self.settle(alloc, tables, repairs),
            None => Ok(false),
        }
    }

    /// The copy of other kinds that `Mending::whole` makes, made of this one. Where the kinds
    /// differ little from those of this one, it costs what lies near the difference, and a look at
    /// each kind. Refuses for memory alone; then this copy is gone.
    #[tactic(auto, using(crate::proofs::Mended::unrepaired))]
    pub fn follow<K: Kinds>(
        mut self,
        alloc: Global,
        tables: &Tables,
        ranks: &[Rank],
        kinds: &K,
    ) -> Result<Mending, AllocError>
        requires { (old : List TokenKind) × IsMendingOf tables.now old self }
        ensures mended { IfOk result (IsMendingOf tables.now (K.kinds kinds.now)) }
        ensures sentence { IsSentence tables.now.grammar (K.kinds kinds.now)
            → IfOk result (λ m. m.repairs.items ≡ []) }
    {
        if self.catch_up(alloc, tables, ranks, copied(alloc, kinds)?)? {
            return Ok(self);
        }
        Mending::whole(alloc, tables, ranks, kinds)
    }
}
