//! Which nonterminals are nullable, and with which token rules they can begin.
ghost use Rattle.std.specs.Prelude.{◌≡◌, ◌<◌, ◌≤◌, ◌↔◌, true, false, [], Option, Some, None, length, All, IsTrue, IfOk, IfSome, slice_index_or};
ghost use Rattle.definitions.specs.declared.Symbol.{Symbol};
ghost use Rattle.productions.specs.First.{nullable_by, begin_by, holds_by, AreTrue, AreClosed, AreFirst, unmarked};
ghost use Rattle.theory.specs.First.{MayFollow};
ghost use Rattle.theory.specs.First.{IsNullable, InFirst};
ghost use Rattle.productions.specs.Productions.{IsSound, IsKnown};

use crate::marks::Marks;
use crate::production_number::ProductionNumber;
use crate::productions::Productions;
use definitions::Symbol;
use std::alloc::{AllocError, Global};
use std::marker::Model;

/// Whether each symbol is a marked nonterminal.
fn are_nullable(productions: &Productions, marks: &Marks, symbols: &[Symbol]) -> bool
    requires known { All (IsKnown productions.now) symbols.now }
    requires marks { length marks.now ≡ productions.now.nonterminals }
    ensures { result ≡ nullable_by marks.now symbols.now }
{
    for s in symbols {
        match *s {
            Symbol::Rule(_) => return false,
            Symbol::Nonterminal(n) => {
                if !marks.has(n) {
                    return false;
                }
            }
        }
    }
    true
}

/// Whether the symbols begin with the token rule, or with a marked nonterminal, after nullable
/// ones.
fn begin(
    productions: &Productions,
    a: usize,
    nullable: &Marks,
    marks: &Marks,
    symbols: &[Symbol],
) -> bool
    requires known { All (IsKnown productions.now) symbols.now }
    requires nullable { length nullable.now ≡ productions.now.nonterminals }
    requires marks { length marks.now ≡ productions.now.nonterminals }
    ensures { result ≡ begin_by a nullable.now marks.now symbols.now }
{
    for s in symbols {
        match *s {
            Symbol::Rule(b) => return a == b,
            Symbol::Nonterminal(n) => {
                if marks.has(n) {
                    return true;
                }
                if !nullable.has(n) {
                    return false;
                }
            }
        }
    }
    false
}

/// Whether the symbols are nullable, or begin with the rule `look`.
fn holds(
    productions: &Productions,
    look: Option<usize>,
    nullable: &Marks,
    marks: &Marks,
    symbols: &[Symbol],
) -> bool
    requires known { All (IsKnown productions.now) symbols.now }
    requires nullable { length nullable.now ≡ productions.now.nonterminals }
    requires marks { length marks.now ≡ productions.now.nonterminals }
    ensures { result ≡ holds_by look nullable.now marks.now symbols.now }
{
    match look {
        None => are_nullable(productions, marks, symbols),
        Some(a) => begin(productions, a, nullable, marks, symbols),
    }
}

/// Marks the left sides of the productions of which it holds, and returns whether one is new.
fn pass(productions: &Productions, look: Option<usize>, nullable: &Marks, marks: &mut Marks) -> bool
    requires sound { IsSound productions.now }
    requires nullable { length nullable.now ≡ productions.now.nonterminals }
    requires marks { length marks.old ≡ productions.now.nonterminals }
    requires are_nullable { AreTrue productions.now.grammar None nullable.now }
    requires held { AreTrue productions.now.grammar look marks.old }
    ensures marks { length marks.new ≡ productions.now.nonterminals }
    ensures held { AreTrue productions.now.grammar look marks.new }
    ensures closed { result ≡ false
        → AreClosed productions.now.grammar look nullable.now marks.new }
    ensures at_most { unmarked marks.new ≤ unmarked marks.old }
    ensures fewer { result ≡ true → unmarked marks.new < unmarked marks.old }
{
    let mut changed = false;
    for index in 0..productions.len() {
        let p = ProductionNumber { index };
        let left = productions.left(p);
        if !marks.has(left) {
            if holds(productions, look, nullable, marks, productions.right(p)) {
                marks.mark(left);
                changed = true;
            }
        }
    }
    changed
}

/// The nonterminals that are nullable, or begin with the rule `look`.
fn fixpoint(
    alloc: Global,
    productions: &Productions,
    look: Option<usize>,
    nullable: &Marks,
) -> Result<Marks, AllocError>
    requires sound { IsSound productions.now }
    requires nullable { length nullable.now ≡ productions.now.nonterminals }
    requires are_nullable { AreTrue productions.now.grammar None nullable.now }
    ensures marks { IfOk result (λ m. length m ≡ productions.now.nonterminals) }
    ensures held { IfOk result (AreTrue productions.now.grammar look) }
    ensures closed { IfOk result (AreClosed productions.now.grammar look nullable.now) }
{
    let mut marks = Marks::blank(alloc, productions.nonterminals())?;
    let mut more = true;
    while more {
        more = pass(productions, look, nullable, &mut marks);
    }
    Ok(marks)
}

/// Which nonterminals are nullable, and for each token rule, which can begin with it.
#[derive(Drop)]
pub struct First {
    /// The nullable nonterminals.
    nullable: Marks,
    /// For each token rule the nonterminals that can begin with it.
    beginning: Vec<Marks>,
}

impl Model for First {
    ghost use Rattle.productions.specs.First.{FirstSets};

    ghost Value = { FirstSets };

    ghost view = { λ a. record { nullable = a.nullable; beginning = a.beginning.items } };
}

impl First {
    /// The sets of a grammar, each as the least that its productions allow.
    pub fn new(alloc: Global, productions: &Productions) -> Result<First, AllocError>
        requires { IsSound productions.now }
        ensures { IfOk result (AreFirst productions.now) }
    {
        let blank = Marks::blank(alloc, productions.nonterminals())?;
        let nullable = fixpoint(alloc, productions, None, &blank)?;
        let mut rows = Vec::new(alloc);
        for a in 0..productions.rules() {
            rows.push(fixpoint(alloc, productions, Some(a), &nullable)?)?;
        }
        Ok(First {
            nullable,
            beginning: rows,
        })
    }

    /// The nullable nonterminals.
    fn nullable(&self) -> &Marks
        ensures { result.now ≡ self.now.nullable }
    {
        &self.nullable
    }

    /// The nonterminals that can begin with this token rule.
    fn beginning(&self, a: usize) -> &Marks
        requires { a < length self.now.beginning }
        ensures { result.now ≡ slice_index_or self.now.beginning a [] }
    {
        &self.beginning[a]
    }

    /// Whether the symbols are nullable.
    fn is_nullable(&self, productions: &Productions, symbols: &[Symbol]) -> bool
        requires first { AreFirst productions.now self.now }
        requires known { All (IsKnown productions.now) symbols.now }
        ensures { IsTrue result ↔ IsNullable productions.now.grammar symbols.now }
    {
        are_nullable(productions, self.nullable(), symbols)
    }

    /// Whether the symbols can begin with this token rule.
    fn begins(&self, productions: &Productions, a: usize, symbols: &[Symbol]) -> bool
        requires first { AreFirst productions.now self.now }
        requires known { All (IsKnown productions.now) symbols.now }
        requires rule { a < productions.now.grammar.rules }
        ensures { IsTrue result ↔ InFirst productions.now.grammar a symbols.now }
    {
        begin(productions, a, self.nullable(), self.beginning(a), symbols)
    }

    /// Whether `a` can follow: it begins the symbols, or they are nullable and `look` is `a`.
    pub fn sees(
        &self,
        productions: &Productions,
        symbols: &[Symbol],
        look: Option<usize>,
        a: Option<usize>,
    ) -> bool
        requires first { AreFirst productions.now self.now }
        requires known { All (IsKnown productions.now) symbols.now }
        requires rule { IfSome a (λ b. b < productions.now.grammar.rules) }
        ensures { IsTrue result ↔ MayFollow productions.now.grammar symbols.now look a }
    {
        let begun = match a {
            None => false,
            Some(b) => self.begins(productions, b, symbols),
        };
        if begun {
            return true;
        }
        if look == a {
            return self.is_nullable(productions, symbols);
        }
        false
    }
}
