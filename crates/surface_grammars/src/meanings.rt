//! What is proved of the definitions: `definitions` and `theory`.

ghost use Rattle.std.specs.Prelude.{◌↔◌, ℕ, List, ◌≡◌, Bool, IsTrue, take, ◌-◌, length, drop, Option, [], ◌∷◌, ◌++◌, Some, None};
ghost use Rattle.std.specs.Char.{IsScalar};
ghost use Rattle.definitions.specs.Text.{IsCharacter, offset, position};
ghost use Rattle.definitions.specs.declared.Position.{Position};
ghost use Rattle.definitions.specs.declared.Unit.{Unit as Encoding};
ghost use Rattle.definitions.specs.Laws.{IsOffsetOf, IsInLine, IsPlace, AreWell, IsTokenEdit};
ghost use Rattle.definitions.specs.declared.expression.Interval.{Interval};
ghost use Rattle.definitions.specs.Patterns.{is_in_class};
ghost use Rattle.definitions.specs.PatternFaults.{is_nothing};
ghost use Rattle.definitions.specs.declared.expression.Expression.{Expression};
ghost use Rattle.definitions.specs.Tokens.{Token, AreTokens, IsToken, Placed};
ghost use Rattle.definitions.specs.declared.Edit.{Edit};
ghost use Rattle.definitions.specs.TokenEdits.{kept_before, rejoin, plain_splice};
ghost use Rattle.definitions.specs.declared.Kind.{Kind};
ghost use Rattle.definitions.specs.Trees.{Grammar, Tree, HaveRoots, HasDistinctProductions, yield, all_kinds};
ghost use Rattle.definitions.specs.Sentences.{IsExpected, AllProductive, Verdict, IsVerdict, IsViable, IsSentence};
ghost use Rattle.definitions.specs.Answers.{AreFolds, IsSelection};
ghost use Rattle.definitions.specs.DocumentNodes.{IsNodeOf, AreDocumentTrees};
ghost use Rattle.definitions.specs.declared.KindSplice.{KindSplice};
ghost use Rattle.definitions.specs.declared.Stats.{Stats};
ghost use Rattle.definitions.specs.declared.Range.{Range};
ghost use Rattle.definitions.specs.declared.Symbol.{Symbol};
ghost use Rattle.definitions.specs.declared.expression.PatternCause.{PatternCause};
ghost use Rattle.definitions.specs.declared.expression.PatternFault.{PatternFault};
ghost use Rattle.definitions.specs.Items.{Item, IsValid, HasNoConflict};
ghost use Rattle.theory.specs.Closure.{ByRules, IsFirst};
ghost use Rattle.theory.specs.First.{MayFollow};
ghost use Rattle.definitions.specs.Derivations.{IsLr1};
ghost use Rattle.theory.specs.Laws.{HasOneTreeEach, StampsExactly};
ghost use Rattle.definitions.specs.Settled.{IsSettled};
ghost use Rattle.theory.specs.Machine.{IsStackAfter, StackHasMove, look_at, Run};
ghost use Rattle.theory.specs.Reuse.{CanReuse, Goes_on};

/// `characters_are_scalars`.
pub fn characters_are_scalars()
    ensures { (c : ℕ) → IsCharacter c ↔ IsScalar c }
{
    definitions::laws::characters_are_scalars();
}

/// `offset_is_greatest`.
pub fn offset_is_greatest()
    ensures { (encoding : Encoding) (t : List ℕ) (p : Position) →
        IsOffsetOf encoding t p (offset encoding t p) }
{
    definitions::laws::offset_is_greatest();
}

/// `offset_of_position`.
pub fn offset_of_position()
    ensures { (encoding : Encoding) (t : List ℕ) (o : ℕ) → IsInLine t o →
        offset encoding t (position encoding t o) ≡ o }
{
    definitions::laws::offset_of_position();
}

/// `position_of_offset`.
pub fn position_of_offset()
    ensures { (encoding : Encoding) (t : List ℕ) (p : Position) → IsPlace encoding t p →
        position encoding t (offset encoding t p) ≡ p }
{
    definitions::laws::position_of_offset();
}

/// `empty_class_is_reported`.
pub fn empty_class_is_reported()
    ensures { (negated : Bool) (intervals : List Interval) → AreWell intervals →
        IsTrue (is_nothing negated intervals)
        ↔ ((c : ℕ) → IsCharacter c → ¬ IsTrue (is_in_class negated intervals c)) }
{
    definitions::laws::empty_class_is_reported();
}

/// `tokens_unique`.
pub fn tokens_unique()
    ensures { (rules : List Expression) (t : List ℕ) (xs : List Token) (ys : List Token) →
        AreTokens rules t xs → AreTokens rules t ys → xs ≡ ys }
{
    definitions::laws::tokens_unique();
}

/// `token_is_local`.
pub fn token_is_local()
    ensures { (rules : List Expression) (t : List ℕ) (u : List ℕ) (x : Token) → IsToken rules t x →
        take x.reach t ≡ take x.reach u → IsToken rules u x }
{
    definitions::laws::token_is_local();
}

/// `kept_tokens_stay`.
pub fn kept_tokens_stay()
    ensures kept_before { (rules : List Expression) (t : List ℕ) (s : List ℕ) (e : Edit)
        (old : List Token) (new : List Token) → IsTokenEdit rules t s e old new →
        take (kept_before e old) old ≡ take (kept_before e old) new }
    ensures rest { (rules : List Expression) (t : List ℕ) (s : List ℕ) (e : Edit) (old : List Token)
        (new : List Token) → IsTokenEdit rules t s e old new →
        drop (length old - (length new - rejoin e old new)) old ≡ drop (rejoin e old new) new }
{
    definitions::laws::kept_tokens_stay();
}

/// `expected_unique`.
pub fn expected_unique()
    ensures rules { (g : Grammar) (x : List Kind) (r : List ℕ) (s : List ℕ) (a : Bool) (b : Bool) →
        IsExpected g x r a → IsExpected g x s b → r ≡ s }
    ensures ends { (g : Grammar) (x : List Kind) (r : List ℕ) (s : List ℕ) (a : Bool) (b : Bool) →
        IsExpected g x r a → IsExpected g x s b → a ≡ b }
{
    definitions::laws::expected_unique();
}

/// `folds_unique`.
pub fn folds_unique()
    ensures { (g : Grammar) (trees : List Tree) (t : List ℕ) (tokens : List Placed)
        (folds : List Bool) (one : List (ℕ × ℕ)) (two : List (ℕ × ℕ)) →
        AreFolds t tokens folds (IsNodeOf g trees) one →
        AreFolds t tokens folds (IsNodeOf g trees) two → one ≡ two }
{
    definitions::laws::folds_unique();
}

/// `selection_unique`.
pub fn selection_unique()
    ensures { (g : Grammar) (trees : List Tree) (t : List ℕ) (tokens : List Placed) (o : ℕ)
        (one : List (ℕ × ℕ)) (two : List (ℕ × ℕ)) → IsSelection t tokens (IsNodeOf g trees) o one →
        IsSelection t tokens (IsNodeOf g trees) o two → one ≡ two }
{
    definitions::laws::selection_unique();
}

/// `equal_data_is_the_same`.
pub fn equal_data_is_the_same()
    ensures positions { (a b : Position) →
        IsTrue (⟦<definitions::Position as PartialEq>⟧.eq a b) ↔ (a ≡ b) }
    ensures ranges { (a b : Range) → IsTrue (⟦<definitions::Range as PartialEq>⟧.eq a b) ↔ (a ≡ b) }
    ensures units { (a b : Encoding) →
        IsTrue (⟦<definitions::Unit as PartialEq>⟧.eq a b) ↔ (a ≡ b) }
    ensures kinds { (a b : Kind) → IsTrue (⟦<definitions::Kind as PartialEq>⟧.eq a b) ↔ (a ≡ b) }
    ensures splices { (a b : KindSplice) →
        IsTrue (⟦<definitions::KindSplice as PartialEq>⟧.eq a b)
        ↔ (plain_splice a ≡ plain_splice b) }
    ensures stats { (a b : Stats) → IsTrue (⟦<definitions::Stats as PartialEq>⟧.eq a b) ↔ (a ≡ b) }
    ensures edits { (a b : Edit) → IsTrue (⟦<definitions::Edit as PartialEq>⟧.eq a b) ↔ (a ≡ b) }
    ensures symbols { (a b : Symbol) →
        IsTrue (⟦<definitions::Symbol as PartialEq>⟧.eq a b) ↔ (a ≡ b) }
    ensures intervals { (a b : Interval) →
        IsTrue (⟦<definitions::Interval as PartialEq>⟧.eq a b) ↔ (a ≡ b) }
    ensures causes { (a b : PatternCause) →
        IsTrue (⟦<definitions::PatternCause as PartialEq>⟧.eq a b) ↔ (a ≡ b) }
    ensures faults { (a b : PatternFault) →
        IsTrue (⟦<definitions::PatternFault as PartialEq>⟧.eq a b) ↔ (a ≡ b) }
{
    definitions::laws::equal_data_is_the_same();
}

/// `items_by_rules`.
pub fn items_by_rules()
    ensures { (g : Grammar) (prefix : List Symbol) (i : Item) →
        ByRules g prefix i ↔ IsValid g prefix i }
{
    theory::laws::items_by_rules();
}

/// `first_by_rules`.
pub fn first_by_rules()
    ensures { (g : Grammar) → AllProductive g → (symbols : List Symbol) (ts : List Tree) →
        HaveRoots g ts symbols → (look : Option ℕ) (a : Option ℕ) →
        MayFollow g symbols look a ↔ IsFirst g symbols look a }
{
    theory::laws::first_by_rules();
}

/// `no_conflict_lr1`.
pub fn no_conflict_lr1()
    ensures { (g : Grammar) → HasNoConflict g → IsLr1 g }
{
    theory::laws::no_conflict_lr1();
}

/// `lr1_no_conflict`.
pub fn lr1_no_conflict()
    ensures { (g : Grammar) → AllProductive g → HasDistinctProductions g → IsLr1 g →
        HasNoConflict g }
{
    theory::laws::lr1_no_conflict();
}

/// `one_tree_of_used`.
pub fn one_tree_of_used()
    ensures { (g : Grammar) → HasNoConflict g → AllProductive g → HasOneTreeEach g }
{
    theory::laws::one_tree_of_used();
}

/// `verdict_unique`.
pub fn verdict_unique()
    ensures { (g : Grammar) → HasNoConflict g → (x : List Kind) (v : Verdict) (w : Verdict) →
        IsVerdict g x v → IsVerdict g x w → v ≡ w }
{
    theory::laws::verdict_unique();
}

/// `settled_unique`.
pub fn settled_unique()
    ensures exists { (g : Grammar) (x : List Kind) → IsViable g x →
        (lefts : List Tree) × IsSettled g x lefts }
    ensures unique { (g : Grammar) → HasNoConflict g →
        (x : List Kind) (one : List Tree) (two : List Tree) → IsSettled g x one →
        IsSettled g x two → one ≡ two }
{
    theory::laws::settled_unique();
}

/// `document_trees_unique`.
pub fn document_trees_unique()
    ensures { (g : Grammar) → HasNoConflict g →
        (x : List Kind) (v : Verdict) (w : Verdict) (one : List Tree) (two : List Tree) →
        IsVerdict g x v → IsVerdict g x w → AreDocumentTrees g x v one →
        AreDocumentTrees g x w two → one ≡ two }
{
    theory::laws::document_trees_unique();
}

/// `move_iff_viable`.
pub fn move_iff_viable()
    ensures reached { (g : Grammar) (x : List Kind) → IsViable g x →
        (stack : List Tree) × IsStackAfter g x stack }
    ensures moves { (g : Grammar) → HasNoConflict g → AllProductive g →
        (x : List Kind) (stack : List Tree) (k : Kind) → IsStackAfter g x stack →
        StackHasMove g stack (Some k) ↔ IsViable g (x ++ (k ∷ [])) }
{
    theory::laws::move_iff_viable();
}

/// `move_iff_sentence`.
pub fn move_iff_sentence()
    ensures { (g : Grammar) → HasNoConflict g → AllProductive g →
        (x : List Kind) (stack : List Tree) → IsStackAfter g x stack →
        StackHasMove g stack None ↔ IsSentence g x }
{
    theory::laws::move_iff_sentence();
}

/// `reuse_is_run`.
pub fn reuse_is_run()
    ensures { (g : Grammar) → AllProductive g → (stack : List Tree) (t : Tree) (rest : List Kind) →
        CanReuse g stack t rest → Run g (look_at rest None) stack (yield t) (stack ++ (t ∷ [])) }
{
    theory::laws::reuse_is_run();
}

/// `incremental_is_plain`.
pub fn incremental_is_plain()
    ensures { (g : Grammar) → AllProductive g → (input : List Tree) (stack : List Tree) →
        Goes_on g [] input stack [] → Run g None [] (all_kinds input) stack }
{
    theory::laws::incremental_is_plain();
}

/// `stamps_exact`.
pub fn stamps_exact()
    ensures { (g : Grammar) → HasNoConflict g → AllProductive g → StampsExactly g }
{
    theory::laws::stamps_exact();
}
