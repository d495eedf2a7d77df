//! A grammar with the added start production, as items are read by it.
ghost use Rattle.std.specs.Prelude.{◌≡◌, ◌<◌, ◌+◌, ◌↔◌, ℕ, Option, IsTrue, IfOk, IfSome, All, AllPairs, Contains, length};
ghost use Rattle.definitions.specs.Trees.{left_of, right_of};
ghost use Rattle.productions.specs.Lookaheads.{rank};
ghost use Rattle.productions.specs.Productions.{IsKnown, IsSound, AreByLeft};
ghost use Rattle.theory.specs.First.{MayFollow};

use crate::bucket::{Bucket, empty_buckets};
use crate::first::First;
use crate::production_number::ProductionNumber;
use crate::productions::Productions;
use definitions::Symbol;
use std::alloc::{AllocError, Global};
use std::marker::Model;

/// A grammar with the added start production, whose right side is the start: its productions by
/// number and by left side, and what its symbols can begin with. A contract sees its productions.
#[derive(Drop)]
pub struct AugmentedGrammar {
    /// The productions of the grammar.
    productions: Productions,
    /// For each nonterminal the numbers of the productions that have it on the left.
    by_left: Vec<Bucket<ProductionNumber>>,
    /// What the symbols can begin with.
    first: First,
}

impl Model for AugmentedGrammar {
    ghost use Rattle.productions.specs.First.{IsAugmented};
    ghost use Rattle.productions.specs.Productions.{Shape};

    ghost Value = { Shape };

    ghost view = { λ a. a.productions };

    ghost invariant = { λ a. IsAugmented a.productions a.by_left.items a.first };
}

/// For each nonterminal, the numbers of the productions that have it on the left.
fn by_left(
    alloc: Global,
    productions: &Productions,
) -> Result<Vec<Bucket<ProductionNumber>>, AllocError>
    requires { IsSound productions.now }
    ensures { IfOk result (λ buckets. AreByLeft productions.now buckets.items) }
{
    let mut buckets = empty_buckets(alloc, productions.nonterminals())?;
    for index in 0..productions.len() {
        let p = ProductionNumber { index };
        let bucket = &mut buckets[productions.left(p)];
        bucket.add(p)?;
    }
    Ok(buckets)
}

impl AugmentedGrammar {
    /// The grammar with these productions. The only refusal is out of memory.
    pub fn of(alloc: Global, productions: Productions) -> Result<AugmentedGrammar, AllocError>
        requires { IsSound productions }
        ensures { IfOk result (λ g. g ≡ productions) }
    {
        let by_left = by_left(alloc, &productions)?;
        let first = First::new(alloc, &productions)?;
        Ok(AugmentedGrammar {
            productions,
            by_left,
            first,
        })
    }

    /// The productions alone.
    pub fn into_productions(self) -> Productions
        ensures { result ≡ self }
    {
        let AugmentedGrammar {
            productions,
            by_left: _,
            first: _,
        } = self;
        productions
    }

    /// The number of the start nonterminal.
    pub fn start(&self) -> usize
        ensures start { result ≡ self.now.grammar.start }
        ensures sound { IsSound self.now }
    {
        self.productions.start()
    }

    /// The number of token and skip rules.
    pub fn rules(&self) -> usize
        ensures rules { result ≡ self.now.grammar.rules }
        ensures sound { IsSound self.now }
    {
        self.productions.rules()
    }

    /// The number of nonterminals.
    pub fn nonterminals(&self) -> usize
        ensures { result ≡ self.now.nonterminals }
    {
        self.productions.nonterminals()
    }

    /// The number of lookaheads: the token rules, and the end.
    pub fn lookaheads(&self) -> usize
        ensures count { result ≡ self.now.grammar.rules + 1 }
        ensures sound { IsSound self.now }
    {
        self.productions.rules() + 1
    }

    /// The column of a lookahead.
    pub fn column_of(&self, lookahead: Option<usize>) -> usize
        requires { IfSome lookahead (λ a. a < self.now.grammar.rules) }
        ensures column { result ≡ rank lookahead }
        ensures within { result < self.now.grammar.rules + 1 }
    {
        // The read opens the invariant.
        let _productions = &self.productions;
        match lookahead {
            None => 0,
            Some(a) => a + 1,
        }
    }

    /// The number of symbols: the token rules, and the nonterminals.
    pub fn symbols(&self) -> usize
        ensures { result ≡ self.now.grammar.rules + self.now.nonterminals }
    {
        self.productions.rules() + self.productions.nonterminals()
    }

    /// The number of productions.
    pub fn len(&self) -> usize
        ensures { result ≡ length self.now.grammar.productions }
    {
        self.productions.len()
    }

    /// The left side of a production.
    pub fn left(&self, p: ProductionNumber) -> usize
        requires { p < length self.now.grammar.productions }
        ensures left { result ≡ left_of self.now.grammar p }
        ensures known { result < self.now.nonterminals }
    {
        self.productions.left(p)
    }

    /// The right side of a production.
    pub fn right(&self, p: ProductionNumber) -> &[Symbol]
        requires { p < length self.now.grammar.productions }
        ensures right { result.now ≡ right_of self.now.grammar p }
        ensures known { All (IsKnown self.now) result.now }
    {
        self.productions.right(p)
    }

    /// The numbers of the productions of a nonterminal, in ascending order, each once.
    pub fn of_left(&self, nonterminal: usize) -> &[ProductionNumber]
        requires { nonterminal < self.now.nonterminals }
        ensures theirs { All (λ p. (p < length self.now.grammar.productions)
            × (left_of self.now.grammar p ≡ nonterminal)) result.now }
        ensures all { (p : ℕ) → p < length self.now.grammar.productions
            → left_of self.now.grammar p ≡ nonterminal → Contains result.now p }
        ensures rising { AllPairs (λ p q. p < q) result.now }
    {
        self.by_left[nonterminal].items()
    }

    /// Whether `a` can follow: it begins the symbols, or they are nullable and `look` is `a`.
    pub fn may_follow(&self, symbols: &[Symbol], look: Option<usize>, a: Option<usize>) -> bool
        requires known { All (IsKnown self.now) symbols.now }
        requires rule { IfSome a (λ b. b < self.now.grammar.rules) }
        ensures { IsTrue result ↔ MayFollow self.now.grammar symbols.now look a }
    {
        self.first.sees(&self.productions, symbols, look, a)
    }
}
