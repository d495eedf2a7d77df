//! Kinds that are compared and copied.

ghost use Rattle.std.specs.Prelude.{◌≡◌, ◌↔◌, ◌≤◌, ◌++◌, IfOk, drop, length, take, true};

use definitions::Kind;
use std::alloc::{AllocError, Global};
use trees::Kinds;

/// Whether two kinds are the same.
pub(crate) fn is_same(one: Kind, other: Kind) -> bool
    ensures { result ≡ true ↔ one ≡ other }
{
    match (one, other) {
        (Kind::Rule(one), Kind::Rule(other)) => one == other,
        (Kind::Invalid, Kind::Invalid) => true,
        _ => false,
    }
}

/// Whether a list has just these kinds.
pub(crate) fn are_same<K: Kinds>(list: &[Kind], kinds: &K) -> bool
    ensures { result ≡ true ↔ list.now ≡ K.kinds kinds.now }
{
    let count = kinds.len();
    if list.len() != count {
        return false;
    }
    let mut ahead = kinds.ahead(0);
    for k in 0..count {
        let Some(kind) = kinds.next(&mut ahead, k) else {
            unreachable!();
        };
        if !is_same(list[k], kind) {
            return false;
        }
    }
    true
}

/// The kinds as a list.
pub(crate) fn copied<K: Kinds>(alloc: Global, kinds: &K) -> Result<Vec<Kind>, AllocError>
    ensures { IfOk result (λ copy. copy.items ≡ K.kinds kinds.now) }
{
    let count = kinds.len();
    let mut copy = Vec::with_capacity(alloc, count)?;
    let mut ahead = kinds.ahead(0);
    for k in 0..count {
        let Some(kind) = kinds.next(&mut ahead, k) else {
            unreachable!();
        };
        copy.push(kind)?;
    }
    Ok(copy)
}

/// The kinds of a list, of which those from number `from` up to number `to` give way to others.
pub(crate) fn replaced(
    alloc: Global,
    old: &[Kind],
    from: usize,
    to: usize,
    new: &[Kind],
) -> Result<Vec<Kind>, AllocError>
    requires ordered { from ≤ to }
    requires inside { to ≤ length old.now }
    ensures { IfOk result (λ kinds. kinds.items
        ≡ take from old.now ++ (new.now ++ drop to old.now)) }
{
    let mut kinds = Vec::from_slice(alloc, &old[..from])?;
    kinds.extend_from_slice(new)?;
    kinds.extend_from_slice(&old[to..])?;
    Ok(kinds)
}
