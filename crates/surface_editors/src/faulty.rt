//! What callers rely on of what editors show of a faulty document: `mending`, and the folds and
//! selections of `outline`.

ghost use Rattle.std.specs.Prelude.{◌≡◌, [], List, IfOk, IfSome};
ghost use Rattle.definitions.specs.Sentences.{IsSentence, IsTreeOf};
ghost use Rattle.definitions.specs.TreeEdits.{plain};
ghost use Rattle.definitions.specs.declared.Kind.{Kind as TokenKind};
ghost use Rattle.mending.specs.Mendings.{IsMendingOf};
ghost use Rattle.tables.specs.Tables.{Sets};
ghost use Rattle.trees.specs.Cells.{tree};
ghost use Rattle.trees.specs.declared.store.Child.{Child};

use definitions::{Kind, Position, Range};
use docs::{Doc, Language};
use mending::{Balance, Change, Listed, Mending, Rank, Repair};
use parser::Parse;
use std::alloc::{AllocError, Global};
use tables::Tables;
use trees::{Kinds, NodeId, Store};

/// `Mending::whole`.
pub fn whole<K: Kinds>(
    alloc: Global,
    tables: &Tables,
    ranks: &[Rank],
    kinds: &K,
) -> Result<Mending, AllocError>
    ensures mended { IfOk result (IsMendingOf tables.now (K.kinds kinds.now)) }
    ensures sentence { IsSentence tables.now.grammar (K.kinds kinds.now)
        → IfOk result (λ m. m.repairs.items ≡ []) }
{
    Mending::whole(alloc, tables, ranks, kinds)
}

/// `Mending::follow`.
pub fn follow<K: Kinds>(
    before: Mending,
    alloc: Global,
    tables: &Tables,
    ranks: &[Rank],
    kinds: &K,
) -> Result<Mending, AllocError>
    requires { (old : List TokenKind) × IsMendingOf tables.now old before }
    ensures mended { IfOk result (IsMendingOf tables.now (K.kinds kinds.now)) }
    ensures sentence { IsSentence tables.now.grammar (K.kinds kinds.now)
        → IfOk result (λ m. m.repairs.items ≡ []) }
{
    before.follow(alloc, tables, ranks, kinds)
}

/// `Listed`.
pub fn listed(kinds: &[Kind]) -> Listed<'_> {
    Listed { kinds }
}

/// `Mending::repairs`.
pub fn repairs(mending: &Mending) -> &[Repair]
    ensures { result.now ≡ mending.now.repairs.items }
{
    mending.repairs()
}

/// `Mending::origins`.
pub fn origins(alloc: Global, mending: &Mending) -> Result<Vec<Option<usize>>, AllocError> {
    mending.origins(alloc)
}

/// `Mending::kinds`.
pub fn kinds(mending: &Mending) -> &[Kind]
    ensures { result.now ≡ mending.now.copy.items }
{
    mending.kinds()
}

/// `Mending::parse`.
pub fn parse(mending: &Mending) -> &Parse
    ensures { result.now ≡ mending.now.parse }
{
    mending.parse()
}

/// `Mending::nodes`.
pub fn nodes(mending: &Mending) -> &Store
    ensures { result.now ≡ mending.now.store }
{
    mending.nodes()
}

/// `Mending::tree`.
pub fn mended_tree(mending: &Mending) -> Option<NodeId>
    ensures { (t : Sets) (kinds : List TokenKind) → IsMendingOf t kinds mending.now
        → IfSome result (λ id. IsTreeOf t.grammar mending.now.copy.items
        (plain (tree mending.now.store (Child.Node id)))) }
{
    mending.tree()
}

/// `Repair`.
pub fn repair(
    repair: Repair,
) -> (
    usize,
    Vec<Option<usize>>,
    usize,
    usize,
    Vec<Change>,
    Vec<Vec<Change>>,
) {
    let Repair {
        fault,
        expected,
        at,
        from,
        changes,
        others,
    } = repair;
    (fault, expected, at, from, changes, others)
}

/// `Change`.
pub fn change(change: Change) -> Option<usize> {
    match change {
        Change::PutIn(rule) => Some(rule),
        Change::LeaveOut | Change::Keep => None,
    }
}

/// `Rank`.
pub fn rank(rank: Rank) -> (u8, u8, bool, Balance) {
    let Rank {
        put_in,
        leave_out,
        is_dear,
        balance,
    } = rank;
    (put_in, leave_out, is_dear, balance)
}

/// `Balance`.
pub fn balance(balance: Balance) -> (i32, i32, i32) {
    let Balance {
        round,
        square,
        curly,
    } = balance;
    (round, square, curly)
}

/// `Balance::EVEN`.
pub fn even() -> Balance {
    Balance::EVEN
}

/// `Balance::with`.
pub fn with(one: Balance, other: Balance) -> Balance {
    one.with(other)
}

/// `Balance::without`.
pub fn without(one: Balance, other: Balance) -> Balance {
    one.without(other)
}

/// `outline::mended_folds`.
pub fn mended_folds(
    alloc: Global,
    language: &Language,
    doc: &Doc,
    mending: &Mending,
) -> Result<Vec<(u32, u32)>, AllocError> {
    outline::mended_folds(alloc, language, doc, mending)
}

/// `outline::mended_selections`.
pub fn mended_selections(
    alloc: Global,
    language: &Language,
    doc: &Doc,
    mending: &Mending,
    positions: &[Position],
) -> Result<Vec<Vec<Range>>, AllocError> {
    outline::mended_selections(alloc, language, doc, mending, positions)
}
