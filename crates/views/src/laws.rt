//! What is proved of rows, folds and selections, as contracts of functions that do nothing.

ghost use Rattle.std.specs.Prelude.{◌≡◌, ◌≤◌, ◌↔◌, ℕ, Bool, List, length, IsTrue};
ghost use Rattle.definitions.specs.declared.Range.{Range};
ghost use Rattle.definitions.specs.declared.Symbol.{Symbol};
ghost use Rattle.definitions.specs.declared.Unit.{Unit as Encoding};
ghost use Rattle.definitions.specs.Answers.{AreFolds};
ghost use Rattle.definitions.specs.DocumentNodes.{IsNodeOf};
ghost use Rattle.definitions.specs.Tokens.{AreTokens, Placed, Token, kinds};
ghost use Rattle.definitions.specs.Trees.{Grammar, HaveRoots, Tree, all_kinds};
ghost use Rattle.grammar.specs.Grammars.{FileGrammar};
ghost use Rattle.readings.specs.Contents.{IsSelectionOf};
ghost use Rattle.views.specs.declared.rows.Row.{Row};
ghost use Rattle.views.specs.Views.{row_bytes};

/// Two rows are equal by `==` exactly where they have the same name and the same range.
pub fn equal_rows_are_the_same()
    ensures { (a b : Row) →
        IsTrue (⟦<crate::Row<'static> as PartialEq>⟧.eq a b) ↔ (row_bytes a ≡ row_bytes b) }
{}

/// All trees have a list of folds.
pub fn trees_have_folds()
    ensures { (g : Grammar) (trees : List Tree) (t : List ℕ) (tokens : List Placed)
        (folds : List Bool) →
        (pairs : List (ℕ × ℕ)) × AreFolds t tokens folds (IsNodeOf g trees) pairs }
{}

/// Each offset has a selection in trees of the grammar that have no more kinds than there are
/// significant tokens.
pub fn each_offset_has_a_selection()
    ensures { (encoding : Encoding) (file : FileGrammar) (t : List ℕ) (tokens : List Token)
        (trees : List Tree) (symbols : List Symbol) → AreTokens file.patterns t tokens
        → HaveRoots file.grammar trees symbols
        → length (all_kinds trees) ≤ length (kinds file.skips tokens)
        → (o : ℕ) → (ranges : List Range) × IsSelectionOf encoding file t tokens trees o ranges }
{}
