//! The worklist of a closure: nonterminals, each with a lookahead that may follow it.
ghost use Rattle.std.specs.Prelude.{◌≡◌, ◌↔◌, ◌<◌, ◌+◌, ℕ, false, IsTrue, length, slice_index_or, IfOk, OnOk};
ghost use Rattle.productions.specs.Productions.{IsSound};
ghost use Rattle.item_sets.specs.Worklist.{marked, AreEntries, IsGrownBy};

use productions::{AugmentedGrammar, Marks};
use std::alloc::{AllocError, Global};
use std::marker::Model;

/// A nonterminal that is called for, and the column of a lookahead that may follow it.
#[derive(Clone, Copy)]
pub struct Entry {
    /// The number of the nonterminal.
    pub nonterminal: usize,
    /// The column of the lookahead.
    pub column: usize,
}

/// The worklist, in the order in which its entries came up, and as marks.
#[derive(Drop)]
pub struct Worklist<'a> {
    /// The grammar whose nonterminals and lookaheads the entries have.
    grammar: &'a AugmentedGrammar,
    /// In the order in which it came up.
    list: Vec<Entry>,
    /// For each nonterminal the columns of the lookaheads with which it is called for.
    rows: Vec<Marks>,
}

impl<'a> Model for Worklist<'a> {
    ghost use Rattle.item_sets.specs.Worklist.{Entries, AreEntries};

    ghost Value = { Entries };

    ghost view = { λ a. record {
      grammar = a.grammar.now;
      list = a.list.items;
      rows = a.rows.items;
    } };

    ghost invariant = { λ a. AreEntries a.grammar.now a.list.items a.rows.items };
}

impl<'a> Worklist<'a> {
    /// The empty worklist.
    pub fn new(alloc: Global, grammar: &'a AugmentedGrammar) -> Result<Worklist<'a>, AllocError>
        ensures grammar { IfOk result (λ w. w.grammar ≡ grammar.now) }
        ensures sound { IsSound grammar.now }
        ensures blank { IfOk result (λ w. (n k : ℕ) → marked w.rows n k ≡ false) }
    {
        let lookaheads = grammar.lookaheads();
        let mut rows = Vec::new(alloc);
        for _n in 0..grammar.nonterminals() {
            rows.push(Marks::blank(alloc, lookaheads)?)?;
        }
        Ok(Worklist {
            grammar,
            list: Vec::new(alloc),
            rows,
        })
    }

    /// The grammar.
    pub fn grammar(&self) -> &'a AugmentedGrammar
        ensures { result.now ≡ self.now.grammar }
    {
        self.grammar
    }

    /// How many entries there are.
    pub fn len(&self) -> usize
        ensures count { result ≡ length self.now.list }
        ensures entries { AreEntries self.now.grammar self.now.list self.now.rows }
    {
        self.list.len()
    }

    /// The entry with this number.
    pub fn at(&self, i: usize) -> Entry
        requires { i < length self.now.list }
        ensures { result ≡ slice_index_or self.now.list i result }
    {
        self.list[i]
    }

    /// Whether the nonterminal has no entry.
    pub fn has_none(&self, nonterminal: usize) -> bool
        requires { nonterminal < self.now.grammar.nonterminals }
        ensures { IsTrue result ↔ ((k : ℕ) → marked self.now.rows nonterminal k ≡ false) }
    {
        self.rows[nonterminal].is_blank()
    }

    /// Whether the nonterminal has an entry with the lookahead of this column.
    pub fn has(&self, nonterminal: usize, column: usize) -> bool
        requires nonterminal { nonterminal < self.now.grammar.nonterminals }
        requires column { column < self.now.grammar.grammar.rules + 1 }
        ensures { result ≡ marked self.now.rows nonterminal column }
    {
        self.rows[nonterminal].has(column)
    }

    /// Adds a nonterminal with the lookahead of this column, if it is new.
    pub fn insert_new(&mut self, nonterminal: usize, column: usize) -> Result<(), AllocError>
        requires nonterminal { nonterminal < self.old.grammar.nonterminals }
        requires column { column < self.old.grammar.grammar.rules + 1 }
        ensures { OnOk result (IsGrownBy (λ n k. (n ≡ nonterminal) × (k ≡ column))
            self.old self.new) }
    {
        if self.has(nonterminal, column) {
            return Ok(());
        }
        self.list.push(Entry {
            nonterminal,
            column,
        })?;
        self.rows[nonterminal].mark(column);
        Ok(())
    }
}
