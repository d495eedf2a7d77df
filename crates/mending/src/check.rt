//! Whether repairs are those of a copy.

ghost use Rattle.std.specs.Prelude.{◌≡◌, ◌+◌, ◌++◌, ◌∷◌, List, All, IfOk, IfSome, drop, false, take, true};
ghost use Rattle.definitions.specs.Trees.{Grammar};
ghost use Rattle.definitions.specs.declared.Kind.{Kind as TokenKind};
ghost use Rattle.remedies.specs.Changes.{changed, passed};
ghost use Rattle.remedies.specs.declared.change.Change.{Change as PlainChange};
ghost use Rattle.tables.specs.Expected.{AreExpected};
ghost use Rattle.mending.specs.Mendings.{HasParse, IsMended, IsMendingOf};
ghost use Rattle.mending.specs.Seams.{DoesNotFollow, IsFaultAt, IsWithin, staged};

use crate::kinds::is_same;
use crate::listed::Listed;
use crate::mending::Mending;
use crate::repair::Repair;
use crate::seam::Seam;
use crate::walk::listed;
use definitions::Kind;
use remedies::Change;
use states::Pile;
use std::alloc::{AllocError, Global};
use tables::Tables;
use trees::Kinds;

/// Up to where two lists of kinds go on alike from a place on, at most up to this kind of those
/// that are mended.
fn along(copy: &[Kind], kinds: &[Kind], from: Seam, to: usize) -> Seam
    requires { IsWithin copy.now kinds.now from }
    ensures within { IsWithin copy.now kinds.now result }
    ensures same { staged copy.now kinds.now result ≡ staged copy.now kinds.now from }
{
    let mut seam = from;
    for _ in from.kind..to {
        let (Some(one), Some(other)) = (copy.get(seam.copy), kinds.get(seam.kind)) else {
            return seam;
        };
        if !is_same(*one, *other) {
            return seam;
        }
        seam = Seam {
            copy: seam.copy + 1,
            kind: seam.kind + 1,
        };
    }
    seam
}

/// The place behind a change, if the copy is what it makes of the kinds.
fn behind_one(copy: &[Kind], kinds: &[Kind], seam: Seam, change: Change) -> Option<Seam>
    requires { IsWithin copy.now kinds.now seam }
    ensures within { IfSome result (IsWithin copy.now kinds.now) }
    ensures made { IfSome result (λ to. (rest : List PlainChange)
        → take to.copy copy.now ++ changed rest (drop to.kind kinds.now)
        ≡ take seam.copy copy.now ++ changed (change ∷ rest) (drop seam.kind kinds.now)) }
    ensures passed { IfSome result (λ to. (rest : List PlainChange)
        → to.kind + passed rest ≡ seam.kind + passed (change ∷ rest)) }
{
    let (mut copy_on, mut kind_on) = (seam.copy, seam.kind);
    match change {
        Change::PutIn(rule) => {
            if !is_same(*copy.get(copy_on)?, Kind::Rule(rule)) {
                return None;
            }
            copy_on += 1;
        }
        Change::LeaveOut => {
            kinds.get(kind_on)?;
            kind_on += 1;
        }
        Change::Keep => {
            if !is_same(*copy.get(copy_on)?, *kinds.get(kind_on)?) {
                return None;
            }
            copy_on += 1;
            kind_on += 1;
        }
    }
    Some(Seam {
        copy: copy_on,
        kind: kind_on,
    })
}

/// The place behind changes, if the copy is what they make of the kinds.
fn behind_changes(copy: &[Kind], kinds: &[Kind], from: Seam, changes: &[Change]) -> Option<Seam>
    requires { IsWithin copy.now kinds.now from }
    ensures within { IfSome result (IsWithin copy.now kinds.now) }
    ensures made { IfSome result (λ to. staged copy.now kinds.now to
        ≡ take from.copy copy.now ++ changed changes.now (drop from.kind kinds.now)) }
    ensures passed { IfSome result (λ to. to.kind ≡ from.kind + passed changes.now) }
{
    let mut seam = from;
    for change in changes {
        seam = behind_one(copy, kinds, seam, *change)?;
    }
    Some(seam)
}

/// Whether two rules, or the end, are the same.
fn is_look(one: Option<usize>, other: Option<usize>) -> bool
    ensures { result ≡ false → one ≡ other → ⊥ }
{
    match (one, other) {
        (Some(one), Some(other)) => one == other,
        (None, None) => true,
        _ => false,
    }
}

/// Whether a rule, or the end, isn't one of these.
fn is_none_of(look: Option<usize>, looks: &[Option<usize>]) -> bool
    ensures { result ≡ true → All (λ other. other ≡ look → ⊥) looks.now }
{
    for other in looks {
        if is_look(*other, look) {
            return false;
        }
    }
    true
}

/// Whether a kind, or the end, is a fault where these may follow.
fn is_fault(kind: Option<Kind>, looks: &[Option<usize>]) -> bool
    ensures { (g : Grammar) (x : List TokenKind) → AreExpected g x looks.now → result ≡ true
        → DoesNotFollow g x kind }
{
    match kind {
        Some(Kind::Rule(rule)) => is_none_of(Some(rule), looks),
        Some(Kind::Invalid) => true,
        None => is_none_of(None, looks),
    }
}

impl Mending {
    /// What may follow the kinds from a place on up to number `fault`, if they go on there and the
    /// kind of this number, or the end, doesn't.
    fn fault_behind(
        &self,
        alloc: Global,
        tables: &Tables,
        seam: Seam,
        fault: usize,
    ) -> Result<Option<Vec<Option<usize>>>, AllocError>
        requires { HasParse tables.now self.now }
        ensures { IfOk result (λ found. IfSome found (λ looks.
            IsFaultAt tables.now.grammar self.now.copy.items self.now.origin.items seam fault
            looks.items)) }
    {
        let Some(kinds) = self.origin.get(seam.kind..fault) else {
            return Ok(None);
        };
        let Some(mut pile) = Pile::at(alloc, tables, &self.store, &self.parse, seam.copy)? else {
            return Ok(None);
        };
        if !pile.read_all(kinds)? {
            return Ok(None);
        }
        let looks = listed(alloc, pile.expected())?;
        let origin = Listed {
            kinds: &self.origin,
        };
        if looks.is_empty() || !is_fault(origin.kind(fault), &looks) {
            return Ok(None);
        }
        Ok(Some(looks))
    }

    /// Adds a repair, if it is the next one behind a place. The place behind it, if it is.
    fn add(
        &mut self,
        alloc: Global,
        tables: &Tables,
        seam: Seam,
        mut repair: Repair,
    ) -> Result<Option<Seam>, AllocError>
        requires parse { HasParse tables.now self.old }
        requires within { IsWithin self.old.copy.items self.old.origin.items seam }
        requires mended { let old = self.old in IsMended tables.now.grammar old.origin.items
            old.repairs.items (staged old.copy.items old.origin.items seam) }
        ensures same { (self.new.copy ≡ self.old.copy) × (self.new.origin ≡ self.old.origin)
            × (self.new.store ≡ self.old.store) × (self.new.parse ≡ self.old.parse) }
        ensures within { let old = self.old in
            IfOk result (λ found. IfSome found (IsWithin old.copy.items old.origin.items)) }
        ensures mended { let old = self.old in IfOk result (λ found. IfSome found (λ to.
            IsMended tables.now.grammar old.origin.items self.new.repairs.items
            (staged old.copy.items old.origin.items to))) }
    {
        let here = along(&self.copy, &self.origin, seam, repair.from);
        if here.copy != repair.at || here.kind != repair.from || repair.fault < repair.at {
            return Ok(None);
        }
        let Some(fault) = repair.from.checked_add(repair.fault - repair.at) else {
            return Ok(None);
        };
        let Some(to) = behind_changes(&self.copy, &self.origin, here, &repair.changes) else {
            return Ok(None);
        };
        let Some(expected) = self.fault_behind(alloc, tables, here, fault)? else {
            return Ok(None);
        };
        if to.kind < fault {
            return Ok(None);
        }
        repair.expected = expected;
        self.repairs.push(repair)?;
        Ok(Some(to))
    }

    /// Takes these repairs, if they are those of the copy, one after the other. Whether they are.
    pub(crate) fn settle(
        &mut self,
        alloc: Global,
        tables: &Tables,
        repairs: Vec<Repair>,
    ) -> Result<bool, AllocError>
        requires { HasParse tables.now self.old }
        ensures mended { IfOk result (λ are. are ≡ true
            → IsMendingOf tables.now self.old.origin.items self.new) }
        ensures origin { self.new.origin ≡ self.old.origin }
    {
        self.repairs = Vec::new(alloc);
        let mut seam = Seam { copy: 0, kind: 0 };
        for repair in repairs {
            match self.add(alloc, tables, seam, repair)? {
                Some(to) => seam = to,
                None => return Ok(false),
            }
        }
        let end = along(&self.copy, &self.origin, seam, self.origin.len());
        if end.copy < self.copy.len() || end.kind < self.origin.len() {
            return Ok(false);
        }
        Ok(true)
    }
}
