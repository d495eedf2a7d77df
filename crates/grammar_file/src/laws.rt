//! What is proved of faults, as contracts of functions that do nothing.

ghost use Rattle.std.specs.Prelude.{◌≡◌, ◌↔◌, IsTrue};
ghost use Rattle.grammar_file.specs.Causes.{cause_of};
ghost use Rattle.grammar_file.specs.declared.fault.GrammarCause.{GrammarCause};
ghost use Rattle.grammar_file.specs.declared.fault.GrammarFault.{GrammarFault};
ghost use Rattle.grammar_file.specs.declared.fault.Limit.{Limit};

/// Faults and their causes are equal by `==` exactly where they say the same: no line, name or
/// limit is left out.
pub fn equal_faults_are_the_same()
    ensures limits { (a b : Limit) → IsTrue (⟦<crate::Limit as PartialEq>⟧.eq a b) ↔ (a ≡ b) }
    ensures causes { (a b : GrammarCause) →
        IsTrue (⟦<crate::GrammarCause as PartialEq>⟧.eq a b) ↔ (cause_of a ≡ cause_of b) }
    ensures faults { (a b : GrammarFault) → IsTrue (⟦<crate::GrammarFault as PartialEq>⟧.eq a b)
        ↔ ((a.line ≡ b.line) × IsTrue (⟦<crate::GrammarCause as PartialEq>⟧.eq a.cause b.cause)) }
{}
