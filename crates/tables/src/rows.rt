//! Where the symbols lead from a state.
ghost use Rattle.std.specs.Prelude.{◌≡◌, ◌<◌, ◌≤◌, None, drop, IfOk, length, slice_index_or};

use crate::packed::{PackedRow, Small};
use item_sets::StateNumber;
use std::alloc::{AllocError, Global};
use std::marker::Model;

/// The greatest number of 16 bits.
const GREATEST: usize = 65_535;

/// The states that one state leads to, by the number of the symbol.
#[derive(Drop)]
pub struct GotoRow {
    /// For each number of a symbol the state, if there is one.
    to: Vec<Option<StateNumber>>,
}

impl Model for GotoRow {
    ghost use Rattle.std.specs.Prelude.{List, Option, ℕ};

    ghost Value = { List (Option ℕ) };

    ghost view = { λ a. a.to.items };
}

impl GotoRow {
    /// The row with these entries.
    pub fn new(to: Vec<Option<StateNumber>>) -> GotoRow
        ensures { result ≡ to.items }
    {
        GotoRow { to }
    }

    /// The number of the state that the symbol with this number leads to.
    pub fn to(&self, symbol: usize) -> Option<usize>
        requires { symbol < length self.now }
        ensures { result ≡ slice_index_or self.now symbol None }
    {
        match self.to[symbol] {
            Some(state) => Some(state.index),
            None => None,
        }
    }

    /// Where the nonterminals lead: the entries after those of so many token rules.
    pub fn gotos(&self, alloc: Global, rules: usize) -> Result<Gotos, AllocError>
        requires { rules ≤ length self.now }
        ensures { IfOk result (λ gotos. gotos ≡ drop rules self.now) }
    {
        Ok(Gotos {
            row: PackedRow::new(alloc, &self.to[rules..])?,
        })
    }
}

impl Small for StateNumber {
    ghost use Rattle.std.specs.Prelude.{◌≡◌, ◌≢◌, ◌<◌, ◌^◌, ℕ, None, IfSome};
    ghost use Rattle.tables.specs.Numbers.{state_of_number};

    ghost meant = { state_of_number };

    fn number(entry: Option<StateNumber>) -> Option<u16>
        ensures is { IfSome result (λ n. state_of_number n ≡ entry) }
        ensures none { result ≡ None → (n : ℕ) → n < 2 ^ 16 → state_of_number n ≢ entry }
    {
        match entry {
            None => Some(0),
            Some(state) if state.index < GREATEST => Some((state.index + 1) as u16),
            Some(_) => None,
        }
    }

    fn entry(number: u16) -> Option<StateNumber>
        ensures { result ≡ state_of_number number }
    {
        if number == 0 {
            None
        } else {
            Some(StateNumber {
                index: number as usize - 1,
            })
        }
    }
}

/// The states that the nonterminals lead to from one state.
#[derive(Drop)]
pub struct Gotos {
    /// For each nonterminal the state, if there is one.
    row: PackedRow<StateNumber>,
}

impl Model for Gotos {
    ghost use Rattle.std.specs.Prelude.{List, Option, ℕ};

    ghost Value = { List (Option ℕ) };

    ghost view = { λ a. a.row };
}

impl Gotos {
    /// The number of the state that the nonterminal leads to.
    pub fn to(&self, nonterminal: usize) -> Option<usize>
        requires { nonterminal < length self.now }
        ensures { result ≡ slice_index_or self.now nonterminal None }
    {
        match self.row.at(nonterminal) {
            Some(state) => Some(state.index),
            None => None,
        }
    }
}
