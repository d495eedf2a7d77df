//! The tables.
ghost use Rattle.std.specs.Prelude.{◌≡◌, ◌<◌, ◌≤◌, ◌∷◌, ◌++◌, ℕ, List, [], Option, Some, None, MatchOption, IfOk, IfErr, OnOk, length};
ghost use Rattle.definitions.specs.declared.Kind.{Kind};
ghost use Rattle.definitions.specs.declared.Kind.TheVariants.{Rule as Token};
ghost use Rattle.definitions.specs.declared.Symbol.{Symbol};
ghost use Rattle.definitions.specs.declared.Symbol.TheVariants.{Rule as Terminal, Nonterminal};
ghost use Rattle.definitions.specs.Items.{HasItem, HasNoConflict, HasMoreSetsThan};
ghost use Rattle.definitions.specs.Derivations.{IsLr1};
ghost use Rattle.theory.specs.Laws.{HasOneTreeEach};
ghost use Rattle.definitions.specs.Trees.{HasProduction, HaveRoots, Tree};
ghost use Rattle.theory.specs.Machine.{IsStackAfter};
ghost use Rattle.tables.specs.Actions.{AreMade, IsClashAt};
ghost use Rattle.productions.specs.Productions.{IsSound};
ghost use Rattle.item_sets.specs.Collection.{AreStates};
ghost use Rattle.tables.specs.Expected.{AreExpected};
ghost use Rattle.tables.specs.Faults.{IsConflictOf, IsRight, RefutesLr1};
ghost use Rattle.tables.specs.Tables.{IsStateOf, IsAction, IsAccepted};
ghost use Rattle.tables.specs.Decidable.{AreMovesDecided};
ghost use Rattle.tables.specs.declared.tables.TableFault.TheVariants.{Memory};

use crate::conflict::{Conflict, conflict_of};
use crate::decisions::{Move, Moves};
use crate::expected::Expected;
use crate::progress::{ClashAt, Progress, advance};
use crate::rows::Gotos;
use definitions::Kind;
use grammar::Grammar;
use item_sets::States;
use productions::{AugmentedGrammar, ProductionNumber, Productions};
use std::alloc::{AllocError, Global};
use std::marker::Model;
use thiserror::Error;

/// The most sets that a canonical collection may have.
pub const MOST_SETS: usize = 8192;

/// Why there are no tables.
#[derive(Debug, Drop, Error)]
pub enum TableFault {
    /// The canonical collection has more than 8,192 sets.
    #[error("the canonical collection has more than 8,192 sets")]
    TooManySets,
    /// Two items of a set call for different moves.
    #[error("the grammar isn't LR(1)")]
    Conflict(Conflict),
    /// Memory was refused.
    #[error("memory was refused")]
    Memory,
}

impl From<AllocError> for TableFault {
    ghost from_gives = { λ _ e. e ≡ Memory };

    fn from(_: AllocError) -> TableFault {
        TableFault::Memory
    }
}

/// Canonical LR(1) tables of a grammar (Knuth 1965).
#[derive(Drop)]
pub struct Tables {
    /// The productions of the grammar.
    productions: Productions,
    /// Where the nonterminals lead from each state, the first of which is that of the empty
    /// prefix.
    gotos: Vec<Gotos>,
    /// What each state does at each kind that may come next.
    moves: Vec<Moves>,
}

impl Model for Tables {
    ghost use Rattle.tables.specs.Tables.{Sets, seen, AreTables};

    ghost Value = { Sets };

    ghost view = { λ a. seen a.productions.grammar a.gotos.items a.moves.items };

    ghost invariant = { λ a. AreTables a.productions.nonterminals
        (seen a.productions.grammar a.gotos.items a.moves.items) };
}

/// Makes the gotos and the moves of all states. They are refused where there are too many states,
/// or two items conflict.
fn complete(
    alloc: Global,
    grammar: &AugmentedGrammar,
    states: &mut States,
    made: &mut Progress,
) -> Result<(), TableFault>
    requires states { AreStates grammar.now states.old }
    requires made { AreMade grammar.now states.old.kernels made.old }
    requires few { length made.old.gotos ≤ 8192 }
    ensures states { OnOk result (AreStates grammar.now states.new) }
    ensures made { OnOk result (AreMade grammar.now states.new.kernels made.new) }
    ensures all { OnOk result (length made.new.gotos ≡ length states.new.kernels) }
    ensures free { OnOk result (made.new.clash ≡ None) }
    ensures few { OnOk result (HasMoreSetsThan grammar.now.grammar 8192 → ⊥) }
    ensures refused { IfErr result (IsRight grammar.now.grammar 8192) }
{
    while made.len() < states.len() {
        if states.len() > MOST_SETS {
            return Err(TableFault::TooManySets);
        }
        advance(alloc, grammar, states, made)?;
    }
    if let Some(at) = made.clash {
        return Err(conflict_fault(alloc, grammar, states, at));
    }
    Ok(())
}

/// Why there are no tables where two items of a state conflict.
fn conflict_fault(
    alloc: Global,
    grammar: &AugmentedGrammar,
    states: &States,
    at: ClashAt,
) -> TableFault
    requires states { AreStates grammar.now states.now }
    requires clash { IsClashAt grammar.now states.now.kernels at }
    ensures { IsConflictOf grammar.now.grammar result }
{
    match conflict_of(alloc, grammar, states, at) {
        Ok(conflict) => TableFault::Conflict(conflict),
        Err(_) => TableFault::Memory,
    }
}

/// The tables of all states, of which no two items conflict.
fn finish(grammar: AugmentedGrammar, _states: &States, made: Progress) -> Tables
    requires states { AreStates grammar _states.now }
    requires made { AreMade grammar _states.now.kernels made }
    requires all { length made.gotos ≡ length _states.now.kernels }
    requires free { made.clash ≡ None }
    ensures grammar { result.grammar ≡ grammar.grammar }
    ensures free { HasNoConflict grammar.grammar }
{
    Tables {
        productions: grammar.into_productions(),
        gotos: made.gotos,
        moves: made.moves,
    }
}

/// A copy of the productions of a grammar. Refuses for memory alone.
fn copy_productions(alloc: Global, grammar: &Grammar) -> Result<Productions, AllocError>
    ensures grammar { IfOk result (λ p. p.grammar ≡ grammar.now.grammar) }
    ensures sound { IfOk result IsSound }
{
    let (rules, nonterminals) = (grammar.rules(), grammar.nonterminals());
    let mut productions = Productions::new(alloc, rules, nonterminals, grammar.start());
    for p in 0..grammar.productions() {
        let right = Vec::from_slice(alloc, grammar.right(p))?;
        productions.push(grammar.left(p), right)?;
    }
    Ok(productions)
}

/// The tables of a grammar.
fn tables_of(alloc: Global, grammar: AugmentedGrammar) -> Result<Tables, TableFault>
    ensures grammar { IfOk result (λ t. t.grammar ≡ grammar.grammar) }
    ensures free { IfOk result (λ _. HasNoConflict grammar.grammar) }
    ensures few { IfOk result (λ _. HasMoreSetsThan grammar.grammar 8192 → ⊥) }
    ensures refused { IfErr result (IsRight grammar.grammar 8192) }
{
    let mut states = States::new(alloc, &grammar)?;
    let mut made = Progress::new(alloc);
    complete(alloc, &grammar, &mut states, &mut made)?;
    Ok(finish(grammar, &states, made))
}

impl Tables {
    /// The canonical tables of a grammar. A grammar with more than 8,192 sets is refused as
    /// `TooManySets`, one with fewer whose sets have a conflict with one of its conflicts.
    pub fn build(alloc: Global, grammar: &Grammar) -> Result<Tables, TableFault>
        ensures grammar { IfOk result (λ t. t.grammar ≡ grammar.now.grammar) }
        ensures free { IfOk result (λ _. HasNoConflict grammar.now.grammar) }
        ensures lr1 { IfOk result (λ _. IsLr1 grammar.now.grammar) }
        ensures one_tree { IfOk result (λ _. HasOneTreeEach grammar.now.grammar) }
        ensures few { IfOk result (λ _. HasMoreSetsThan grammar.now.grammar 8192 → ⊥) }
        ensures refused { IfErr result (IsRight grammar.now.grammar 8192) }
        ensures refuted { IfErr result (RefutesLr1 grammar.now.grammar) }
    {
        let productions = copy_productions(alloc, grammar)?;
        let augmented = AugmentedGrammar::of(alloc, productions)?;
        tables_of(alloc, augmented)
    }

    /// The state of the empty prefix.
    pub fn start(&self) -> usize
        ensures start { IsStateOf self.now [] result }
        ensures accepted { IsAccepted self.now.grammar }
    {
        // The read opens the invariant.
        let _moves = &self.moves;
        0
    }

    /// The move of a state where this kind, or the end, is next.
    pub fn action(&self, state: usize, look: Option<Kind>) -> Option<Move>
        requires { state < length self.now.moves }
        ensures is { (prefix : List Symbol) → IsStateOf self.now prefix state
            → IsAction self.now.grammar prefix look result }
        ensures shifts { (prefix : List Symbol) (a to : ℕ) → IsStateOf self.now prefix state
            → look ≡ Some (Token a) → result ≡ Some (Move.Shift to)
            → IsStateOf self.now (prefix ++ (Terminal a ∷ [])) to }
    {
        let moves = &self.moves[state];
        match look {
            None => moves.at(0),
            Some(kind) => match kind {
                Kind::Invalid => None,
                Kind::Rule(a) => {
                    if a < self.productions.rules() {
                        moves.at(a + 1)
                    } else {
                        None
                    }
                }
            },
        }
    }

    /// The state that a nonterminal leads to, if some item calls for it there.
    pub fn goto(&self, state: usize, nonterminal: usize) -> Option<usize>
        requires { state < length self.now.moves }
        ensures { (prefix : List Symbol) → IsStateOf self.now prefix state
            → let g = self.now.grammar in
            let next = prefix ++ (Nonterminal nonterminal ∷ []) in
            MatchOption result (HasItem g next → ⊥)
            (λ to. HasItem g next × IsStateOf self.now next to) }
    {
        if nonterminal < self.productions.nonterminals() {
            self.gotos[state].to(nonterminal)
        } else {
            None
        }
    }

    /// What may come next in a state: the token rules in file order, and then the end, with which
    /// some sentence goes on after the kinds that were read. It takes no memory.
    pub fn expects(&self, state: usize) -> Expected<'_>
        requires { state < length self.now.moves }
        ensures { (x : List Kind) (stack : List Tree) (prefix : List Symbol)
            → IsStateOf self.now prefix state
            → IsStackAfter self.now.grammar x stack → HaveRoots self.now.grammar stack prefix
            → AreExpected self.now.grammar x result }
    {
        self.moves[state].expected()
    }

    /// For every prefix with an item, and not for the states alone, it is decided what its items
    /// call for.
    pub fn moves_are_decided(&self)
        ensures { AreMovesDecided self.now.grammar }
    {
        // The read opens the invariant.
        let _gotos = &self.gotos;
    }

    /// The left side of a production, and the length of its right side.
    pub fn production(&self, p: usize) -> (usize, usize)
        requires { p < length self.now.grammar.productions }
        ensures { (right : List Symbol) × HasProduction self.now.grammar p result.0 right
            × (length right ≡ result.1) }
    {
        let p = ProductionNumber { index: p };
        (self.productions.left(p), self.productions.right(p).len())
    }
}
