//! What is proved of edits and of faults, as contracts of functions that do nothing.

ghost use Rattle.std.specs.Prelude.{◌≡◌, ◌↔◌, ℕ, List, Option, IsTrue};
ghost use Rattle.definitions.specs.Text.{IsText, changed};
ghost use Rattle.definitions.specs.declared.Range.{Range};
ghost use Rattle.definitions.specs.declared.Unit.{Unit as Encoding};
ghost use Rattle.text.specs.declared.document.TextFault.{TextFault as Fault};

/// A text of Unicode scalar values is one after a change too, if what is put in is one, whatever
/// the range.
pub fn changes_keep_texts()
    ensures { (encoding : Encoding) (t : List ℕ) (range : Option Range) (s : List ℕ) → IsText t
        → IsText s → IsText (changed encoding t range s) }
{}

/// Faults of texts are equal by `==` exactly where they are the same.
pub fn equal_faults_are_the_same()
    ensures { (a b : Fault) → IsTrue (⟦<crate::TextFault as PartialEq>⟧.eq a b) ↔ (a ≡ b) }
{}
