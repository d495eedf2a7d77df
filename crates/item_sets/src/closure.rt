//! The closure of a set of items.
ghost use Rattle.std.specs.Prelude.{◌≡◌, ◌<◌, ◌+◌, ◌↔◌, ℕ, false, Option, Some, List, length, All, IfOk, OnOk, IfSome};
ghost use Rattle.definitions.specs.Trees.{Grammar};
ghost use Rattle.item_sets.specs.declared.item.Item.{Item};
ghost use Rattle.productions.specs.Lookaheads.{lookahead_at};
ghost use Rattle.item_sets.specs.Order.{IsOrdered};
ghost use Rattle.productions.specs.Productions.{IsKnown, IsSound};
ghost use Rattle.item_sets.specs.Sets.{after_dot, IsItem};
ghost use Rattle.item_sets.specs.States.{IsSetOf};
ghost use Rattle.item_sets.specs.Worklist.{marked, AreCalledFor, IsGrownBy, CallFor, IsExpanded, HaveBeginnings};
ghost use Rattle.theory.specs.First.{MayFollow};

use crate::item::Item;
use crate::worklist::{Entry, Worklist};
use definitions::Symbol;
use productions::{AugmentedGrammar, ProductionNumber, lookahead_at};
use std::alloc::{AllocError, Global};

/// The column of a lookahead, where it is one of the grammar's.
fn column_in(grammar: &AugmentedGrammar, lookahead: Option<usize>) -> Option<usize>
    ensures within { IfSome result (λ k. k < grammar.now.grammar.rules + 1) }
    ensures is { IfSome result (λ k. lookahead_at k ≡ lookahead) }
    ensures found { (k : ℕ) → k < grammar.now.grammar.rules + 1 → lookahead_at k ≡ lookahead
        → result ≡ Some k }
{
    match lookahead {
        None => Some(0),
        Some(a) if a < grammar.rules() => Some(a + 1),
        Some(_) => None,
    }
}

/// The only lookahead that may follow these symbols, where they are none or begin with a token
/// rule.
fn only_lookahead(symbols: &[Symbol], lookahead: Option<usize>) -> Option<Option<usize>>
    ensures { IfSome result (λ a. (g : Grammar) (b : Option ℕ)
        → MayFollow g symbols.now lookahead b ↔ (b ≡ a)) }
{
    if symbols.is_empty() {
        return Some(lookahead);
    }
    match symbols[0] {
        Symbol::Rule(a) => Some(Some(a)),
        Symbol::Nonterminal(_) => None,
    }
}

impl<'a> Worklist<'a> {
    /// Adds a nonterminal with this lookahead, where it is one of the grammar's.
    fn insert_with(
        &mut self,
        nonterminal: usize,
        lookahead: Option<usize>,
    ) -> Result<(), AllocError>
        requires { nonterminal < self.old.grammar.nonterminals }
        ensures { OnOk result (IsGrownBy (λ n k. (n ≡ nonterminal) × (lookahead_at k ≡ lookahead))
            self.old self.new) }
    {
        match column_in(self.grammar(), lookahead) {
            Some(column) => self.insert_new(nonterminal, column),
            None => Ok(()),
        }
    }

    /// Adds a nonterminal that stands before these symbols, with each lookahead that may follow
    /// them.
    fn insert_before(
        &mut self,
        nonterminal: usize,
        after: &[Symbol],
        lookahead: Option<usize>,
    ) -> Result<(), AllocError>
        requires nonterminal { nonterminal < self.old.grammar.nonterminals }
        requires known { All (IsKnown self.old.grammar) after.now }
        ensures { OnOk result (IsGrownBy (λ n k. (n ≡ nonterminal)
            × MayFollow self.old.grammar.grammar after.now lookahead (lookahead_at k))
            self.old self.new) }
    {
        if let Some(only) = only_lookahead(after, lookahead) {
            return self.insert_with(nonterminal, only);
        }
        let grammar = self.grammar();
        for column in 0..grammar.lookaheads() {
            if grammar.may_follow(after, lookahead, lookahead_at(column)) {
                self.insert_new(nonterminal, column)?;
            }
        }
        Ok(())
    }

    /// Adds the nonterminal that these symbols begin with.
    fn insert_first(
        &mut self,
        symbols: &[Symbol],
        lookahead: Option<usize>,
    ) -> Result<(), AllocError>
        requires { All (IsKnown self.old.grammar) symbols.now }
        ensures { OnOk result (IsGrownBy (CallFor self.old.grammar.grammar symbols.now lookahead)
            self.old self.new) }
    {
        if symbols.is_empty() {
            return Ok(());
        }
        let (prefix, after) = symbols.split_at(1);
        match prefix[0] {
            Symbol::Rule(_) => Ok(()),
            Symbol::Nonterminal(n) => self.insert_before(n, after, lookahead),
        }
    }

    /// Adds what the productions of an entry's nonterminal begin with.
    fn expand(&mut self, entry: Entry) -> Result<(), AllocError>
        requires { entry.nonterminal < self.old.grammar.nonterminals }
        ensures { OnOk result (IsGrownBy
            (IsExpanded self.old.grammar.grammar entry.nonterminal entry.column)
            self.old self.new) }
    {
        let grammar = self.grammar();
        for p in grammar.of_left(entry.nonterminal) {
            self.insert_first(grammar.right(*p), lookahead_at(entry.column))?;
        }
        Ok(())
    }

    /// Adds the nonterminal after the item's dot.
    fn insert_at_dot(&mut self, item: Item) -> Result<(), AllocError>
        requires { IsItem self.old.grammar item }
        ensures { OnOk result (IsGrownBy
            (CallFor self.old.grammar.grammar (after_dot self.old.grammar.grammar item) item.look)
            self.old self.new) }
    {
        let grammar = self.grammar();
        let start = [Symbol::Nonterminal(grammar.start())];
        let side: &[Symbol] = match item.production {
            None => &start,
            Some(p) => grammar.right(ProductionNumber { index: p }),
        };
        self.insert_first(side.split_at(item.at).1, item.look)
    }

    /// Adds all that the set with this kernel calls for, to an empty worklist.
    fn insert_all(&mut self, kernel: &[Item]) -> Result<(), AllocError>
        requires sound { IsSound self.old.grammar }
        requires blank { (n k : ℕ) → marked self.old.rows n k ≡ false }
        requires items { All (IsItem self.old.grammar) kernel.now }
        ensures grammar { OnOk result (self.new.grammar ≡ self.old.grammar) }
        ensures called { OnOk result (AreCalledFor self.old.grammar kernel.now self.new.rows) }
    {
        for item in kernel {
            self.insert_at_dot(*item)?;
        }
        let mut i = 0;
        while i < self.len() {
            self.expand(self.at(i))?;
            i += 1;
        }
        Ok(())
    }

    /// Adds the items that a production begins with.
    fn add_items(&self, p: ProductionNumber, items: &mut Vec<Item>) -> Result<(), AllocError>
        requires { p < length self.now.grammar.grammar.productions }
        ensures { OnOk result ((kernel : List Item)
            → HaveBeginnings self.now.grammar kernel self.now.rows p 0 items.old.items
            → HaveBeginnings self.now.grammar kernel self.now.rows (p + 1) 0 items.new.items) }
    {
        let grammar = self.grammar();
        let left = grammar.left(p);
        if self.has_none(left) {
            return Ok(());
        }
        for column in 0..grammar.lookaheads() {
            if self.has(left, column) {
                items.push(Item {
                    production: Some(p.index),
                    at: 0,
                    look: lookahead_at(column),
                })?;
            }
        }
        Ok(())
    }

    /// The kernel, then the items that are called for, by production and lookahead.
    fn items(&self, alloc: Global, kernel: &[Item]) -> Result<Vec<Item>, AllocError>
        requires { IsOrdered self.now.grammar kernel.now }
        ensures { IfOk result (λ items. HaveBeginnings self.now.grammar kernel.now self.now.rows
            (length self.now.grammar.grammar.productions) 0 items.items) }
    {
        let mut items = Vec::from_slice(alloc, kernel)?;
        if self.len() == 0 {
            return Ok(items);
        }
        for index in 0..self.grammar().len() {
            self.add_items(ProductionNumber { index }, &mut items)?;
        }
        Ok(items)
    }
}

/// The items of the set with this kernel: the kernel, and all beginnings that it asks for.
pub fn close(
    alloc: Global,
    grammar: &AugmentedGrammar,
    kernel: &[Item],
) -> Result<Vec<Item>, AllocError>
    requires { IsOrdered grammar.now kernel.now }
    ensures { IfOk result (λ items. IsSetOf grammar.now kernel.now items.items) }
{
    let mut worklist = Worklist::new(alloc, grammar)?;
    worklist.insert_all(kernel)?;
    worklist.items(alloc, kernel)
}
