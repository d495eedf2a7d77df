//! Tables: `tables`.

ghost use Rattle.std.specs.Prelude.{◌≡◌, IfOk, IfErr, ◌∷◌, ◌++◌, ℕ, List, [], Some, ◌<◌, length, MatchOption, ◌↔◌, IsTrue, Bool};
ghost use Rattle.definitions.specs.Items.{HasNoConflict, HasMoreSetsThan, HasItem};
ghost use Rattle.definitions.specs.Derivations.{IsLr1};
ghost use Rattle.theory.specs.Laws.{HasOneTreeEach};
ghost use Rattle.tables.specs.Faults.{IsRight, RefutesLr1};
ghost use Rattle.definitions.specs.declared.Kind.TheVariants.{Rule as Token};
ghost use Rattle.definitions.specs.declared.Symbol.{Symbol};
ghost use Rattle.definitions.specs.declared.Symbol.TheVariants.{Rule as Terminal, Nonterminal};
ghost use Rattle.tables.specs.Tables.{IsStateOf, IsAction, IsAccepted};
ghost use Rattle.definitions.specs.declared.Kind.{Kind};
ghost use Rattle.definitions.specs.Trees.{HaveRoots, Tree, HasProduction, Grammar as Rules};
ghost use Rattle.theory.specs.Machine.{IsStackAfter};
ghost use Rattle.tables.specs.Expected.{AreExpected};
ghost use Rattle.tables.specs.declared.decisions.Move.{Move};
ghost use Rattle.item_sets.specs.declared.item.Item.{Item};
ghost use Rattle.definitions.specs.Sentences.{IsVerdict, Verdict, IsExpected, IsViable};
ghost use Rattle.tables.specs.Decidable.{AreMovesDecided};

use grammar::{Grammar, Kind, Symbol};
use std::alloc::Global;
use tables::{Conflict, Expected, Item, Move, TableFault, Tables};

/// `Tables::build`.
pub fn build(alloc: Global, grammar: &Grammar) -> Result<Tables, TableFault>
    ensures grammar { IfOk result (λ t. t.grammar ≡ grammar.now.grammar) }
    ensures free { IfOk result (λ _. HasNoConflict grammar.now.grammar) }
    ensures lr1 { IfOk result (λ _. IsLr1 grammar.now.grammar) }
    ensures one_tree { IfOk result (λ _. HasOneTreeEach grammar.now.grammar) }
    ensures few { IfOk result (λ _. HasMoreSetsThan grammar.now.grammar 8192 → ⊥) }
    ensures refused { IfErr result (IsRight grammar.now.grammar 8192) }
    ensures refuted { IfErr result (RefutesLr1 grammar.now.grammar) }
{
    Tables::build(alloc, grammar)
}

/// `TableFault`: the conflict, if it is one.
pub fn table_fault(fault: TableFault) -> Option<Conflict> {
    match fault {
        TableFault::Conflict(conflict) => Some(conflict),
        TableFault::TooManySets | TableFault::Memory => None,
    }
}

/// `Conflict`.
pub fn conflict(conflict: Conflict) -> (Vec<Symbol>, Option<usize>, Item, Item) {
    let Conflict {
        prefix,
        look,
        first,
        second,
    } = conflict;
    (prefix, look, first, second)
}

/// `Item`.
pub fn item(item: Item) -> (Option<usize>, usize, Option<usize>) {
    let Item {
        production,
        at,
        look,
    } = item;
    (production, at, look)
}

/// `Move`.
pub fn a_move(made: Move) -> Option<usize> {
    match made {
        Move::Shift(state) => Some(state),
        Move::Reduce(production) => Some(production),
        Move::Accept => None,
    }
}

/// `Tables::action`.
pub fn action(tables: &Tables, state: usize, look: Option<Kind>) -> Option<Move>
    requires { state < length tables.now.moves }
    ensures is { (prefix : List Symbol) → IsStateOf tables.now prefix state
        → IsAction tables.now.grammar prefix look result }
    ensures shifts { (prefix : List Symbol) (a to : ℕ) → IsStateOf tables.now prefix state
        → look ≡ Some (Token a) → result ≡ Some (Move.Shift to)
        → IsStateOf tables.now (prefix ++ (Terminal a ∷ [])) to }
{
    tables.action(state, look)
}

/// `Tables::goto`.
pub fn goto(tables: &Tables, state: usize, nonterminal: usize) -> Option<usize>
    requires { state < length tables.now.moves }
    ensures { (prefix : List Symbol) → IsStateOf tables.now prefix state
        → let g = tables.now.grammar in
        let next = prefix ++ (Nonterminal nonterminal ∷ []) in
        MatchOption result (HasItem g next → ⊥)
        (λ to. HasItem g next × IsStateOf tables.now next to) }
{
    tables.goto(state, nonterminal)
}

/// `Tables::expects`.
pub fn expects(tables: &Tables, state: usize) -> Expected<'_>
    requires { state < length tables.now.moves }
    ensures { (x : List Kind) (stack : List Tree) (prefix : List Symbol)
        → IsStateOf tables.now prefix state
        → IsStackAfter tables.now.grammar x stack → HaveRoots tables.now.grammar stack prefix
        → AreExpected tables.now.grammar x result }
{
    tables.expects(state)
}

/// `Tables::production`.
pub fn production(tables: &Tables, p: usize) -> (usize, usize)
    requires { p < length tables.now.grammar.productions }
    ensures { (right : List Symbol) × HasProduction tables.now.grammar p result.0 right
        × (length right ≡ result.1) }
{
    tables.production(p)
}

/// `Expected`: its items.
pub fn next(expected: &mut Expected<'_>) -> Option<Option<usize>> {
    let item: Option<Option<usize>> = expected.next();
    item
}

/// `Tables::start`.
pub fn start(tables: &Tables) -> usize
    ensures start { IsStateOf tables.now [] result }
    ensures accepted { IsAccepted tables.now.grammar }
{
    tables.start()
}

/// `equal_moves_are_the_same`.
pub fn equal_moves_are_the_same()
    ensures moves { (a b : Move) → IsTrue (⟦<tables::Move as PartialEq>⟧.eq a b) ↔ (a ≡ b) }
    ensures items { (a b : Item) → IsTrue (⟦<tables::Item as PartialEq>⟧.eq a b) ↔ (a ≡ b) }
{
    tables::laws::equal_moves_are_the_same();
}

/// `each_list_has_a_verdict`.
pub fn each_list_has_a_verdict()
    ensures { (g : Rules) → IsAccepted g → AreMovesDecided g → (kinds : List Kind) → (v : Verdict)
        × IsVerdict g kinds v }
{
    tables::laws::each_list_has_a_verdict();
}

/// `each_viable_list_has_expected`.
pub fn each_viable_list_has_expected()
    ensures { (g : Rules) → IsAccepted g → AreMovesDecided g → (x : List Kind) → IsViable g x
        → (rules : List ℕ) × (at_end : Bool) × IsExpected g x rules at_end }
{
    tables::laws::each_viable_list_has_expected();
}
