//! Patterns: `patterns`.

ghost use Rattle.std.specs.Prelude.{◌≡◌, ◌≢◌, None, IfOk, IfErr, ◌↔◌, ℕ, List, ◌<◌, ◌^◌, length};
ghost use Rattle.std.specs.Str.{chars};
ghost use Rattle.definitions.specs.Spelling.{IsPattern, Spells, IsWellMade};
ghost use Rattle.definitions.specs.PatternFaults.{first_fault, IsFault};
ghost use Rattle.definitions.specs.declared.expression.PatternCause.TheVariants.{Memory};
ghost use Rattle.definitions.specs.declared.expression.Expression.{Expression};
ghost use Rattle.definitions.specs.contracts.expression.Expression as e;
ghost use Rattle.definitions.specs.Patterns.{Matches};
ghost use Rattle.definitions.specs.Text.{IsText};

use patterns::{Pattern, PatternCause, PatternFault};
use std::alloc::Global;

/// `Pattern::read`.
pub fn read_pattern(alloc: Global, text: &str) -> Result<Pattern, PatternFault>
    ensures pattern { IfOk result (λ p. IsPattern (chars text.now) p) }
    ensures no_fault { IfOk result (λ p. first_fault (chars text.now) ≡ None) }
    ensures fault { IfErr result (λ f. f.cause ≢ Memory → IsFault (chars text.now) f) }
    ensures refused { IfErr result (λ f.
        f.cause ≢ Memory → (e : Expression) → IsPattern (chars text.now) e → ⊥) }
{
    Pattern::read(alloc, text)
}

/// `PatternFault`.
pub fn pattern_fault(fault: PatternFault) -> (usize, PatternCause) {
    let PatternFault { at, cause } = fault;
    (at, cause)
}

/// `PatternCause`.
pub fn pattern_cause(cause: PatternCause) -> u8 {
    match cause {
        PatternCause::Syntax => 1,
        PatternCause::EmptyClass => 2,
        PatternCause::ReversedRange => 3,
        PatternCause::EmptyLiteral => 4,
        PatternCause::MatchesEmpty => 5,
        PatternCause::Memory => 6,
    }
}

/// `one_text_has_one_meaning`.
pub fn one_text_has_one_meaning()
    ensures { (t : List ℕ) (e : Expression) (f : Expression) (u : List ℕ) → Spells e t →
        Spells f t → Matches e u ↔ Matches f u }
{
    patterns::one_text_has_one_meaning();
}

/// `texts_without_a_fault_are_spelled`.
pub fn texts_without_a_fault_are_spelled()
    ensures { (t : List ℕ) → IsText t → length t < 2 ^ 63 →
        (first_fault t ≡ None) ↔ ((e : Expression) × IsWellMade e × Spells e t) }
{
    patterns::texts_without_a_fault_are_spelled();
}
