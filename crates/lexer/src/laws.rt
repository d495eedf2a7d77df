//! What is proved of tokens, as contracts of functions that do nothing.

ghost use Rattle.std.specs.Prelude.{◌≡◌, ◌↔◌, ℕ, IsTrue, List};
ghost use Rattle.definitions.specs.declared.expression.Expression.{Expression};
ghost use Rattle.definitions.specs.Text.{IsText};
ghost use Rattle.definitions.specs.Tokens.{Token, AreTokens};
ghost use Rattle.dfa.specs.Table.{Table, IsAutomaton};
ghost use Rattle.lexer.specs.declared.sums.ShortKind.{ShortKind};
ghost use Rattle.lexer.specs.declared.sums.Sums.{Sums};
ghost use Rattle.lexer.specs.declared.sums.Token.{Token as Stored};

/// Where the rules have an automaton, each text has a list of tokens.
pub fn each_text_has_tokens()
    ensures { (rules : List Expression) (table : Table) (t : List ℕ) → IsAutomaton rules table →
        IsText t → (tokens : List Token) × AreTokens rules t tokens }
{}

/// Kinds in 16 bits, tokens and sums are equal by `==` exactly where they are the same: no part of
/// them is left out.
pub fn equal_tokens_are_the_same()
    ensures kinds { (a b : ShortKind) →
        IsTrue (⟦<crate::ShortKind as PartialEq>⟧.eq a b) ↔ (a ≡ b) }
    ensures tokens { (a b : Stored) → IsTrue (⟦<crate::Token as PartialEq>⟧.eq a b) ↔ (a ≡ b) }
    ensures sums { (a b : Sums) → IsTrue (⟦<crate::Sums as PartialEq>⟧.eq a b) ↔ (a ≡ b) }
{}
