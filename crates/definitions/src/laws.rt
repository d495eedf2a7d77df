//! What is proved of the definitions, as contracts of functions that do nothing.

ghost use Rattle.std.specs.Prelude.{◌≡◌, ◌↔◌, ◌-◌, ℕ, Bool, List, length, take, drop, IsTrue};
ghost use Rattle.std.specs.Char.{IsScalar};
ghost use Rattle.definitions.specs.declared.Edit.{Edit};
ghost use Rattle.definitions.specs.declared.Kind.{Kind};
ghost use Rattle.definitions.specs.declared.KindSplice.{KindSplice};
ghost use Rattle.definitions.specs.declared.Stats.{Stats};
ghost use Rattle.definitions.specs.declared.Position.{Position};
ghost use Rattle.definitions.specs.declared.Range.{Range};
ghost use Rattle.definitions.specs.declared.Symbol.{Symbol};
ghost use Rattle.definitions.specs.declared.Unit.{Unit as Encoding};
ghost use Rattle.definitions.specs.declared.expression.Expression.{Expression};
ghost use Rattle.definitions.specs.declared.expression.Interval.{Interval};
ghost use Rattle.definitions.specs.declared.expression.PatternCause.{PatternCause};
ghost use Rattle.definitions.specs.declared.expression.PatternFault.{PatternFault};
ghost use Rattle.definitions.specs.Text.{IsCharacter, offset, position};
ghost use Rattle.definitions.specs.Patterns.{is_in_class};
ghost use Rattle.definitions.specs.PatternFaults.{is_nothing};
ghost use Rattle.definitions.specs.Tokens.{Token, Placed, IsToken, AreTokens};
ghost use Rattle.definitions.specs.TokenEdits.{kept_before, plain_splice, rejoin};
ghost use Rattle.definitions.specs.Trees.{Grammar, Tree};
ghost use Rattle.definitions.specs.Sentences.{IsExpected};
ghost use Rattle.definitions.specs.Answers.{AreFolds, IsSelection};
ghost use Rattle.definitions.specs.DocumentNodes.{IsNodeOf};
ghost use Rattle.definitions.specs.Laws.{IsInLine, IsPlace, IsOffsetOf, AreWell, IsTokenEdit};

/// A character is what a `char` holds.
pub fn characters_are_scalars()
    ensures { (c : ℕ) → IsCharacter c ↔ IsScalar c }
{}

/// The offset of a position lies in its line, and is the greatest one before which the line has no
/// more units than the position counts.
pub fn offset_is_greatest()
    ensures { (encoding : Encoding) (t : List ℕ) (p : Position) →
        IsOffsetOf encoding t p (offset encoding t p) }
{}

/// An offset becomes a position and that position the same offset again, for each offset of the
/// text that isn't between a `\r` and its `\n`.
pub fn offset_of_position()
    ensures { (encoding : Encoding) (t : List ℕ) (o : ℕ) → IsInLine t o →
        offset encoding t (position encoding t o) ≡ o }
{}

/// A position that counts whole characters of a line becomes an offset, and that offset the same
/// position again.
pub fn position_of_offset()
    ensures { (encoding : Encoding) (t : List ℕ) (p : Position) → IsPlace encoding t p →
        position encoding t (offset encoding t p) ≡ p }
{}

/// The test for a class with no member is right, where its intervals are of characters and none is
/// reversed.
pub fn empty_class_is_reported()
    ensures { (negated : Bool) (intervals : List Interval) → AreWell intervals →
        IsTrue (is_nothing negated intervals)
        ↔ ((c : ℕ) → IsCharacter c → ¬ IsTrue (is_in_class negated intervals c)) }
{}

/// A text has at most one list of tokens.
pub fn tokens_unique()
    ensures { (rules : List Expression) (t : List ℕ) (xs : List Token) (ys : List Token) →
        AreTokens rules t xs → AreTokens rules t ys → xs ≡ ys }
{}

/// The first token of a text is that of every text that agrees with it up to the token's reach.
pub fn token_is_local()
    ensures { (rules : List Expression) (t : List ℕ) (u : List ℕ) (x : Token) → IsToken rules t x →
        take x.reach t ≡ take x.reach u → IsToken rules u x }
{}

/// The tokens that an edit keeps, before it and from the place of rejoining on, are tokens of both
/// texts.
pub fn kept_tokens_stay()
    ensures kept_before { (rules : List Expression) (t : List ℕ) (s : List ℕ) (e : Edit)
        (old : List Token) (new : List Token) → IsTokenEdit rules t s e old new →
        take (kept_before e old) old ≡ take (kept_before e old) new }
    ensures rest { (rules : List Expression) (t : List ℕ) (s : List ℕ) (e : Edit) (old : List Token)
        (new : List Token) → IsTokenEdit rules t s e old new →
        drop (length old - (length new - rejoin e old new)) old ≡ drop (rejoin e old new) new }
{}

/// A list of kinds has at most one list of expected rules, and may end or not.
pub fn expected_unique()
    ensures rules { (g : Grammar) (x : List Kind) (r : List ℕ) (s : List ℕ) (a : Bool) (b : Bool) →
        IsExpected g x r a → IsExpected g x s b → r ≡ s }
    ensures ends { (g : Grammar) (x : List Kind) (r : List ℕ) (s : List ℕ) (a : Bool) (b : Bool) →
        IsExpected g x r a → IsExpected g x s b → a ≡ b }
{}

/// Trees have at most one list of folds.
pub fn folds_unique()
    ensures { (g : Grammar) (trees : List Tree) (t : List ℕ) (tokens : List Placed)
        (folds : List Bool) (one : List (ℕ × ℕ)) (two : List (ℕ × ℕ)) →
        AreFolds t tokens folds (IsNodeOf g trees) one →
        AreFolds t tokens folds (IsNodeOf g trees) two → one ≡ two }
{}

/// An offset has at most one selection in trees.
pub fn selection_unique()
    ensures { (g : Grammar) (trees : List Tree) (t : List ℕ) (tokens : List Placed) (o : ℕ)
        (one : List (ℕ × ℕ)) (two : List (ℕ × ℕ)) → IsSelection t tokens (IsNodeOf g trees) o one →
        IsSelection t tokens (IsNodeOf g trees) o two → one ≡ two }
{}

/// Plain data (positions, ranges, units, kinds, splices, counts, edits, symbols, intervals, faults
/// of patterns) is equal by `==` exactly where it is the same: no part of it is left out.
pub fn equal_data_is_the_same()
    ensures positions { (a b : Position) →
        IsTrue (⟦<crate::Position as PartialEq>⟧.eq a b) ↔ (a ≡ b) }
    ensures ranges { (a b : Range) → IsTrue (⟦<crate::Range as PartialEq>⟧.eq a b) ↔ (a ≡ b) }
    ensures units { (a b : Encoding) → IsTrue (⟦<crate::Unit as PartialEq>⟧.eq a b) ↔ (a ≡ b) }
    ensures kinds { (a b : Kind) → IsTrue (⟦<crate::Kind as PartialEq>⟧.eq a b) ↔ (a ≡ b) }
    ensures splices { (a b : KindSplice) →
        IsTrue (⟦<crate::KindSplice as PartialEq>⟧.eq a b) ↔ (plain_splice a ≡ plain_splice b) }
    ensures stats { (a b : Stats) → IsTrue (⟦<crate::Stats as PartialEq>⟧.eq a b) ↔ (a ≡ b) }
    ensures edits { (a b : Edit) → IsTrue (⟦<crate::Edit as PartialEq>⟧.eq a b) ↔ (a ≡ b) }
    ensures symbols { (a b : Symbol) → IsTrue (⟦<crate::Symbol as PartialEq>⟧.eq a b) ↔ (a ≡ b) }
    ensures intervals { (a b : Interval) →
        IsTrue (⟦<crate::Interval as PartialEq>⟧.eq a b) ↔ (a ≡ b) }
    ensures causes { (a b : PatternCause) →
        IsTrue (⟦<crate::PatternCause as PartialEq>⟧.eq a b) ↔ (a ≡ b) }
    ensures faults { (a b : PatternFault) →
        IsTrue (⟦<crate::PatternFault as PartialEq>⟧.eq a b) ↔ (a ≡ b) }
{}
