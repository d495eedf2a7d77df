//! The kinds before a place, as repairs mend them.

ghost use Rattle.std.specs.Prelude.{◌≡◌, ◌≤◌, ◌∷◌, ◌++◌, List, IfOk, MatchBool, OnOk, drop, length, option_to_list, take};
ghost use Rattle.lexer.specs.Rescans.{significant_kinds};
ghost use Rattle.remedies.specs.declared.change.Change.{Change as PlainChange};
ghost use Rattle.completion.specs.Mended.{EndsInvalid, changed_before, mended_before, repaired_before};

use definitions::Kind;
use lexer::Tokens;
use mending::{Change, Repair};
use std::alloc::{AllocError, Global};

/// What changes make of kinds.
#[derive(Drop)]
struct Made {
    kinds: Vec<Kind>,
    /// The number of the first kind that isn't passed yet.
    passed: usize,
}

/// The kinds of the first `count` tokens that aren't skipped, and one more.
pub fn kinds_before(
    alloc: Global,
    tokens: &Tokens,
    count: usize,
    last: Option<Kind>,
) -> Result<Vec<Kind>, AllocError>
    requires within { count ≤ length tokens.now.items }
    ensures { IfOk result (λ kinds. kinds.items
        ≡ significant_kinds (take count tokens.now.items) ++ option_to_list last) }
{
    let mut kinds = Vec::new(alloc);
    let mut ahead = tokens.items().iter_from(0);
    for _ in 0..count {
        let Some(token) = ahead.next() else {
            unreachable!();
        };
        if !token.is_skipped() {
            kinds.push(token.kind())?;
        }
    }
    if let Some(kind) = last {
        kinds.push(kind)?;
    }
    Ok(kinds)
}

/// Whether the last of the kinds is that of what begins no token.
pub fn ends_invalid(kinds: &[Kind]) -> bool
    ensures { MatchBool result (EndsInvalid kinds.now) (¬ EndsInvalid kinds.now) }
{
    matches!(kinds.last(), Some(Kind::Invalid))
}

/// Makes one change more of the kinds, unless all of them are passed.
fn make_one(kinds: &[Kind], made: &mut Made, change: Change) -> Result<(), AllocError>
    requires { made.old.passed ≤ length kinds.now }
    ensures within { OnOk result (made.new.passed ≤ length kinds.now) }
    ensures made { OnOk result ((rest : List PlainChange)
        → made.new.kinds.items ++ changed_before rest (drop made.new.passed kinds.now)
        ≡ made.old.kinds.items ++ changed_before (change ∷ rest) (drop made.old.passed kinds.now)) }
{
    if made.passed >= kinds.len() {
        return Ok(());
    }
    match change {
        Change::PutIn(rule) => made.kinds.push(Kind::Rule(rule))?,
        Change::LeaveOut => made.passed += 1,
        Change::Keep => {
            made.kinds.push(kinds[made.passed])?;
            made.passed += 1;
        }
    }
    Ok(())
}

/// The kinds before a place after a repair of which they have the fault.
fn repaired(alloc: Global, kinds: &[Kind], repair: &Repair) -> Result<Vec<Kind>, AllocError>
    ensures { IfOk result (λ made. made.items ≡ repaired_before repair.now kinds.now) }
{
    let at = repair.at.min(kinds.len());
    let mut made = Made {
        kinds: Vec::from_slice(alloc, &kinds[..at])?,
        passed: at,
    };
    for change in &repair.changes {
        make_one(kinds, &mut made, *change)?;
    }
    made.kinds.extend_from_slice(&kinds[made.passed..])?;
    Ok(made.kinds)
}

/// The kinds before a place as the repairs of the faults mend them that stand among them.
pub fn mended_before(
    alloc: Global,
    repairs: &[Repair],
    kinds: Vec<Kind>,
) -> Result<Vec<Kind>, AllocError>
    ensures { IfOk result (λ mended. mended.items ≡ mended_before repairs.now kinds.items) }
{
    let mut mended = kinds;
    for repair in repairs {
        if repair.fault >= mended.len() {
            return Ok(mended);
        }
        mended = repaired(alloc, &mended, repair)?;
    }
    Ok(mended)
}
