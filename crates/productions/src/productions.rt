//! The productions of a grammar.
ghost use Rattle.std.specs.Prelude.{◌≡◌, ◌<◌, OnOk, OnErr, length};
ghost use Rattle.definitions.specs.Trees.{left_of, right_of};
ghost use Rattle.productions.specs.Productions.{no_productions, with_production};

use crate::production_number::ProductionNumber;
use definitions::Symbol;
use std::alloc::{AllocError, Global};
use std::marker::Model;

/// A production: a nonterminal, and the symbols that it may be replaced by.
#[derive(Drop)]
pub struct Production {
    /// The number of the nonterminal.
    pub left: usize,
    /// What it may be replaced by.
    pub right: Vec<Symbol>,
}

impl Model for Production {
    ghost use Rattle.definitions.specs.Trees.{Production as Rule};

    ghost Value = { Rule };

    ghost view = { λ a. record { left = a.left; right = a.right.items } };
}

/// The productions of a grammar in order, its start, and how many rules and nonterminals it has.
#[derive(Drop)]
pub struct Productions {
    /// The number of the start nonterminal.
    start: usize,
    /// How many token and skip rules there are.
    rules: usize,
    /// How many nonterminals there are.
    nonterminals: usize,
    /// The productions in the order in which they were pushed.
    productions: Vec<Production>,
}

impl Model for Productions {
    ghost use Rattle.productions.specs.Productions.{Shape};

    ghost Value = { Shape };

    ghost view = { λ a. record {
      grammar = record {
        start = a.start;
        rules = a.rules;
        productions = a.productions.items;
      };
      nonterminals = a.nonterminals;
    } };
}

impl Productions {
    /// No production yet, of so many token and skip rules and nonterminals, with the number of the
    /// start nonterminal.
    pub fn new(alloc: Global, rules: usize, nonterminals: usize, start: usize) -> Productions
        ensures { result ≡ no_productions rules nonterminals start }
    {
        Productions {
            start,
            rules,
            nonterminals,
            productions: Vec::new(alloc),
        }
    }

    /// Adds the next production. Where memory is refused, none is added.
    pub fn push(&mut self, left: usize, right: Vec<Symbol>) -> Result<(), AllocError>
        ensures added { OnOk result (self.new
            ≡ with_production self.old (record { left = left; right = right.items })) }
        ensures kept { OnErr result (self.new ≡ self.old) }
    {
        self.productions.push(Production { left, right })?;
        Ok(())
    }

    /// The number of the start nonterminal.
    pub fn start(&self) -> usize
        ensures { result ≡ self.now.grammar.start }
    {
        self.start
    }

    /// The number of token and skip rules.
    pub fn rules(&self) -> usize
        ensures { result ≡ self.now.grammar.rules }
    {
        self.rules
    }

    /// The number of nonterminals.
    pub fn nonterminals(&self) -> usize
        ensures { result ≡ self.now.nonterminals }
    {
        self.nonterminals
    }

    /// The number of productions.
    pub fn len(&self) -> usize
        ensures { result ≡ length self.now.grammar.productions }
    {
        self.productions.len()
    }

    /// The left side of a production.
    pub fn left(&self, p: ProductionNumber) -> usize
        requires { p < length self.now.grammar.productions }
        ensures { result ≡ left_of self.now.grammar p }
    {
        self.productions[p.index].left
    }

    /// The right side of a production.
    pub fn right(&self, p: ProductionNumber) -> &[Symbol]
        requires { p < length self.now.grammar.productions }
        ensures { result.now ≡ right_of self.now.grammar p }
    {
        &self.productions[p.index].right
    }
}
