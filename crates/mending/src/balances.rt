//! What kinds, and changes of them, open and don't close.

use crate::repair::Repair;
use definitions::Kind;
use remedies::{Balance, Change, Rank};
use std::alloc::{AllocError, Global};

/// The brackets that a kind opens and doesn't close.
fn of_kind(ranks: &[Rank], kind: Kind) -> Balance {
    match kind {
        Kind::Rule(rule) => match ranks.get(rule) {
            Some(rank) => rank.balance,
            None => Balance::EVEN,
        },
        Kind::Invalid => Balance::EVEN,
    }
}

/// The balance of kinds.
pub(crate) fn balance_of(ranks: &[Rank], kinds: &[Kind]) -> Balance {
    let mut balance = Balance::EVEN;
    for kind in kinds {
        balance = balance.with(of_kind(ranks, *kind));
    }
    balance
}

/// What changes of kinds from number `from` on add to the balance.
pub(crate) fn changed_by(
    ranks: &[Rank],
    kinds: &[Kind],
    from: usize,
    changes: &[Change],
) -> Balance {
    let (mut balance, mut next) = (Balance::EVEN, from);
    for change in changes {
        match change {
            Change::PutIn(rule) => balance = balance.with(of_kind(ranks, Kind::Rule(*rule))),
            Change::LeaveOut => {
                if let Some(kind) = kinds.get(next) {
                    balance = balance.without(of_kind(ranks, *kind));
                }
                next = next.saturating_add(1);
            }
            Change::Keep => next = next.saturating_add(1),
        }
    }
    balance
}

/// The balances of kinds: before any repair, and after each of these.
pub(crate) fn balances(
    alloc: Global,
    ranks: &[Rank],
    kinds: &[Kind],
    repairs: &[Repair],
) -> Result<Vec<Balance>, AllocError> {
    let mut balance = balance_of(ranks, kinds);
    let mut balances = Vec::new(alloc);
    balances.push(balance)?;
    for repair in repairs {
        balance = balance.with(changed_by(ranks, kinds, repair.from, &repair.changes));
        balances.push(balance)?;
    }
    Ok(balances)
}
