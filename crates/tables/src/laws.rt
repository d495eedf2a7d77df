//! What is proved of moves and items, and of grammars that have tables, as contracts of functions
//! that do nothing.

ghost use Rattle.std.specs.Prelude.{◌≡◌, ◌↔◌, ℕ, Bool, IsTrue, List};
ghost use Rattle.definitions.specs.declared.Kind.{Kind};
ghost use Rattle.definitions.specs.Sentences.{IsExpected, IsVerdict, IsViable, Verdict};
ghost use Rattle.definitions.specs.Trees.{Grammar};
ghost use Rattle.tables.specs.Decidable.{AreMovesDecided};
ghost use Rattle.tables.specs.Tables.{IsAccepted};
ghost use Rattle.tables.specs.declared.decisions.Move.{Move};
ghost use Rattle.item_sets.specs.declared.item.Item.{Item};

/// Moves and items are equal by `==` exactly where they are the same: no part of them is left out.
pub fn equal_moves_are_the_same()
    ensures moves { (a b : Move) → IsTrue (⟦<crate::Move as PartialEq>⟧.eq a b) ↔ (a ≡ b) }
    ensures items { (a b : Item) → IsTrue (⟦<crate::Item as PartialEq>⟧.eq a b) ↔ (a ≡ b) }
{}

/// For a grammar that has tables, and where the moves of every prefix are decided, each list of
/// kinds has a verdict: a tree, or a fault.
pub fn each_list_has_a_verdict()
    ensures { (g : Grammar) → IsAccepted g → AreMovesDecided g → (kinds : List Kind) → (v : Verdict)
        × IsVerdict g kinds v }
{}

/// For a grammar that has tables, and where the moves of every prefix are decided, each list of
/// kinds with which a sentence begins has a list of what may follow it.
pub fn each_viable_list_has_expected()
    ensures { (g : Grammar) → IsAccepted g → AreMovesDecided g → (x : List Kind) → IsViable g x
        → (rules : List ℕ) × (at_end : Bool) × IsExpected g x rules at_end }
{}
