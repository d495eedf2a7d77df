//! What is proved of the texts of patterns beside the contract of their reader.

ghost use Rattle.std.specs.Prelude.{◌≡◌, ◌↔◌, ◌<◌, ◌^◌, ℕ, List, None, length};
ghost use Rattle.definitions.specs.declared.expression.Expression.{Expression};
ghost use Rattle.definitions.specs.PatternFaults.{first_fault};
ghost use Rattle.definitions.specs.Patterns.{Matches};
ghost use Rattle.definitions.specs.Spelling.{IsWellMade, Spells};
ghost use Rattle.definitions.specs.Text.{IsText};

/// The text of a pattern has one meaning: all expressions that it spells mean the same texts.
pub fn one_text_has_one_meaning()
    ensures { (t : List ℕ) (e : Expression) (f : Expression) (u : List ℕ) → Spells e t →
        Spells f t → Matches e u ↔ Matches f u }
{}

/// A text has no first fault exactly where it spells a well-made expression. The text is of
/// characters, and fits in memory, as the expression has to.
pub fn texts_without_a_fault_are_spelled()
    ensures { (t : List ℕ) → IsText t → length t < 2 ^ 63 →
        (first_fault t ≡ None) ↔ ((e : Expression) × IsWellMade e × Spells e t) }
{}
