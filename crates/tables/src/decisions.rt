//! The moves of a state.
ghost use Rattle.std.specs.Prelude.{◌≡◌, ◌<◌, ◌+◌, Some, None, Option, ℕ, true, false, All, Contains, IfOk, IfSome, length, slice_index_or, drop, is_some};
ghost use Rattle.definitions.specs.Items.{Move as LrMove, CallsFor, kind_of};
ghost use Rattle.item_sets.specs.declared.item.Item.{Item};
ghost use Rattle.tables.specs.Expected.{in_file_order, rules_with_move};
ghost use Rattle.productions.specs.Lookaheads.{rank};
ghost use Rattle.tables.specs.Rows.{chosen, IsDecided};
ghost use Rattle.item_sets.specs.Sets.{IsItem, item_of};

use crate::expected::Expected;
use crate::moves::{Call, Decision, call_of, decide};
use crate::packed::{PackedRow, Small};
use crate::rows::GotoRow;
use definitions::Symbol;
use item_sets::Item;
use productions::{AugmentedGrammar, Marks, lookahead_at};
use std::alloc::{AllocError, Global};
use std::marker::Model;

/// What to do next.
#[derive(Clone, Copy, Debug, PartialEq, Eq)]
pub enum Move {
    /// Take what is next, and go to this state.
    Shift(usize),
    /// Reduce by the production with this number.
    Reduce(usize),
    /// All kinds are a sentence.
    Accept,
}

/// The number of the first reduction: shifts have the numbers below it.
const FIRST_REDUCTION: usize = 32_768;

impl Small for Move {
    ghost use Rattle.std.specs.Prelude.{◌≡◌, ◌≢◌, ◌<◌, ◌^◌, ℕ, None, IfSome};
    ghost use Rattle.tables.specs.Numbers.{move_of_number};

    ghost meant = { move_of_number };

    fn number(entry: Option<Move>) -> Option<u16>
        ensures is { IfSome result (λ n. move_of_number n ≡ entry) }
        ensures none { result ≡ None → (n : ℕ) → n < 2 ^ 16 → move_of_number n ≢ entry }
    {
        match entry {
            None => Some(0),
            Some(Move::Accept) => Some(1),
            Some(Move::Shift(to)) if to < FIRST_REDUCTION - 2 => Some((to + 2) as u16),
            Some(Move::Reduce(p)) if p < FIRST_REDUCTION => Some((p + FIRST_REDUCTION) as u16),
            Some(_) => None,
        }
    }

    fn entry(number: u16) -> Option<Move>
        ensures { result ≡ move_of_number number }
    {
        let number = number as usize;
        match number {
            0 => None,
            1 => Some(Move::Accept),
            _ if number < FIRST_REDUCTION => Some(Move::Shift(number - 2)),
            _ => Some(Move::Reduce(number - FIRST_REDUCTION)),
        }
    }
}

/// The moves of one state, by the column of what is next: the end, then the token rules.
#[derive(Drop)]
pub struct Moves {
    /// The move in each column, if there is one.
    row: PackedRow<Move>,
}

impl Model for Moves {
    ghost use Rattle.std.specs.Prelude.{List, Option};
    ghost use Rattle.tables.specs.declared.decisions.Move.{Move};

    ghost Value = { List (Option Move) };

    ghost view = { λ a. a.row };
}

/// Two items of a set that call for different moves at a lookahead.
#[derive(Clone, Copy)]
pub struct Clash {
    /// The lookahead, or none at the end.
    pub look: Option<usize>,
    /// The item that was met first.
    pub one: Item,
    /// The other item.
    pub two: Item,
}

/// The moves of a state, or two items that conflict.
#[derive(Drop)]
pub enum Decided {
    /// The moves, where no two items conflict.
    Moves(Moves),
    /// Two items that conflict.
    Clash(Clash),
}

/// The column of the lookahead at which an item calls for a move, if it calls for one.
fn column_of_call(grammar: &AugmentedGrammar, item: Item) -> Option<usize>
    requires { IsItem grammar.now item }
    ensures within { IfSome result (λ k. k < grammar.now.grammar.rules + 1) }
    ensures column { (look : Option ℕ) (move : LrMove)
        → CallsFor (item_of grammar.now.grammar item) (kind_of look) move
        → result ≡ Some (rank look) }
{
    match item.next(grammar) {
        Some(Symbol::Rule(a)) => Some(grammar.column_of(Some(a))),
        Some(Symbol::Nonterminal(_)) => None,
        None => Some(grammar.column_of(item.look)),
    }
}

/// The items that call for a move at some lookahead.
fn callers(
    alloc: Global,
    grammar: &AugmentedGrammar,
    items: &[Item],
) -> Result<Vec<Item>, AllocError>
    requires { All (IsItem grammar.now) items.now }
    ensures known { IfOk result (λ called. All (IsItem grammar.now) called.items) }
    ensures within { IfOk result (λ called. (i : Item) → Contains called.items i
        → Contains items.now i) }
    ensures all { IfOk result (λ called. (i : Item) (look : Option ℕ) (move : LrMove)
        → Contains items.now i → CallsFor (item_of grammar.now.grammar i) (kind_of look) move
        → Contains called.items i) }
{
    let mut called = Vec::new(alloc);
    for item in items {
        if column_of_call(grammar, *item).is_some() {
            called.push(*item)?;
        }
    }
    Ok(called)
}

/// Marks the columns of the lookaheads at which the items call for moves.
fn columns_of_calls(
    alloc: Global,
    grammar: &AugmentedGrammar,
    items: &[Item],
) -> Result<Marks, AllocError>
    requires known { All (IsItem grammar.now) items.now }
    ensures length { IfOk result (λ m. length m ≡ grammar.now.grammar.rules + 1) }
    ensures marked { IfOk result (λ m. (i : Item) (look : Option ℕ) (move : LrMove)
        → Contains items.now i → CallsFor (item_of grammar.now.grammar i) (kind_of look) move
        → slice_index_or m (rank look) false ≡ true) }
{
    let mut marks = Marks::blank(alloc, grammar.lookaheads())?;
    for item in items {
        if let Some(column) = column_of_call(grammar, *item) {
            marks.mark(column);
        }
    }
    Ok(marks)
}

/// The move that all items call for at a lookahead.
fn move_at(row: &GotoRow, look: Option<usize>, call: Call) -> Option<Move>
    requires { IfSome look (λ a. a < length row.now) }
    ensures { result ≡ chosen row.now look call }
{
    match call {
        Call::Shift => match look {
            Some(a) => match row.to(a) {
                Some(to) => Some(Move::Shift(to)),
                None => None,
            },
            None => None,
        },
        Call::Reduce(p) => Some(Move::Reduce(p)),
        Call::Accept => Some(Move::Accept),
    }
}

/// The moves of the state with these items and this row, unless two of the items conflict.
pub fn moves_of(
    alloc: Global,
    grammar: &AugmentedGrammar,
    items: &[Item],
    row: &GotoRow,
) -> Result<Decided, AllocError>
    requires known { All (IsItem grammar.now) items.now }
    requires row { length row.now ≡ grammar.now.grammar.rules + grammar.now.nonterminals }
    ensures { IfOk result (IsDecided grammar.now.grammar items.now row.now) }
{
    let callers = callers(alloc, grammar, items)?;
    let calling = callers.as_slice();
    let called = columns_of_calls(alloc, grammar, calling)?;
    let mut moves = Vec::with_capacity(alloc, grammar.lookaheads())?;
    for column in 0..grammar.lookaheads() {
        if called.has(column) {
            let look = lookahead_at(column);
            match decide(grammar, calling, look) {
                Decision::Nothing => moves.push(None)?,
                Decision::Agreed(call) => moves.push(move_at(row, look, call))?,
                Decision::Conflict(one, two) => {
                    return Ok(Decided::Clash(Clash { look, one, two }));
                }
            }
        } else {
            moves.push(None)?;
        }
    }
    let row = PackedRow::new(alloc, &moves)?;
    Ok(Decided::Moves(Moves { row }))
}

impl Moves {
    /// The token rules that have a move, and the end if it has one.
    pub fn expected(&self) -> Expected<'_>
        requires { 0 < length self.now }
        ensures { result ≡ in_file_order (rules_with_move 0 (drop 1 self.now))
            (is_some (slice_index_or self.now 0 None)) }
    {
        Expected::new(self.row.entries().after_first(), self.row.at(0).is_some())
    }

    /// The move in a column of the row.
    pub fn at(&self, column: usize) -> Option<Move>
        requires { column < length self.now }
        ensures { result ≡ slice_index_or self.now column None }
    {
        self.row.at(column)
    }
}
