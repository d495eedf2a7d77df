//! What is proved of sums, as contracts of functions that do nothing.

ghost use Rattle.std.specs.Prelude.{◌≡◌, ◌≤◌, ◌↔◌, ◌++◌, ℕ, List, IsTrue};
ghost use Rattle.definitions.specs.Text.{units};
ghost use Rattle.definitions.specs.declared.Unit.TheVariants.{Utf8};
ghost use Rattle.pieces.specs.Sums.{sums_of, joined, most};
ghost use Rattle.pieces.specs.declared.sums.Counts.{Counts};
ghost use Rattle.pieces.specs.declared.sums.Sums.{Sums};
ghost use Rattle.pieces.specs.declared.sums.Units.{Units};

/// The sum of two texts, one after the other, is that of the first joined with that of the second,
/// where both have at most 2^32 - 1 bytes together.
#[tactic(auto, using(crate::proofs::Joins::sums_of_append))]
pub fn sums_join()
    ensures { (s t : List ℕ) → units Utf8 (s ++ t) ≤ most →
        sums_of (s ++ t) ≡ joined (sums_of s) (sums_of t) }
{}

/// Units, counts and sums are equal by `==` exactly where they are the same: no part of them is
/// left out.
pub fn equal_sums_are_the_same()
    ensures units { (a b : Units) → IsTrue (⟦<crate::Units as PartialEq>⟧.eq a b) ↔ (a ≡ b) }
    ensures counts { (a b : Counts) → IsTrue (⟦<crate::Counts as PartialEq>⟧.eq a b) ↔ (a ≡ b) }
    ensures sums { (a b : Sums) → IsTrue (⟦<crate::Sums as PartialEq>⟧.eq a b) ↔ (a ≡ b) }
{}
