//! What is proved of the positions, and of matches and faults, as contracts of functions that do
//! nothing.

ghost use Rattle.std.specs.Prelude.{◌≡◌, ◌↔◌, ◌≤◌, ℕ, List, IsTrue, length};
ghost use Rattle.definitions.specs.declared.expression.Expression.{Expression};
ghost use Rattle.definitions.specs.Patterns.{IsPrefix};
ghost use Rattle.definitions.specs.Spelling.{IsWellMade};
ghost use Rattle.dfa.specs.Positions.{CanStandAt};
ghost use Rattle.dfa.specs.declared.automaton.Match.{Match};
ghost use Rattle.dfa.specs.declared.build.DfaFault.{DfaFault};

/// A nonempty text begins a text of a well-made expression exactly where its last character can
/// stand at some position.
pub fn positions_are_of_prefixes()
    ensures prefix { (e : Expression) (p : ℕ) (u : List ℕ) → IsWellMade e → CanStandAt e p u
        → IsPrefix e u }
    ensures stands { (e : Expression) (u : List ℕ) → IsPrefix e u → 1 ≤ length u → (p : ℕ)
        × CanStandAt e p u }
{}

/// Matches and faults are equal by `==` exactly where they are the same: no part of them is left
/// out.
pub fn equal_matches_are_the_same()
    ensures matches { (a b : Match) → IsTrue (⟦<crate::Match as PartialEq>⟧.eq a b) ↔ (a ≡ b) }
    ensures faults { (a b : DfaFault) → IsTrue (⟦<crate::DfaFault as PartialEq>⟧.eq a b) ↔ (a ≡ b) }
{}
