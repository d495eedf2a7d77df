//! What is reported of a text: `views`.

ghost use Rattle.std.specs.Prelude.{◌≡◌, List, IfOk, map, option_map, string_bytes, encode_utf8_all, ◌<◌, length, ◌↔◌, IsTrue, ℕ, Bool, ◌≤◌};
ghost use Rattle.lexer.specs.Rescans.{significant_kinds};
ghost use Rattle.lexer.specs.Tokens.{plain, AreTokensOf};
ghost use Rattle.parser.specs.Parses.{IsParseOf, verdict_in};
ghost use Rattle.trees.specs.Cells.{Cell, tree};
ghost use Rattle.readings.specs.Diagnostics.{IsDiagnosis, in_utf8, stored_diagnostic, shown};
ghost use Rattle.grammar.specs.Grammars.{lexicon_of, FileGrammar};
ghost use Rattle.readings.specs.Contents.{AreFoldsOf, IsSelectionOf};
ghost use Rattle.views.specs.Roots.{trees_of_roots, AreRootsOf};
ghost use Rattle.std.specs.Str.{chars};
ghost use Rattle.definitions.specs.TreeEdits.{plain as plain_tree};
ghost use Rattle.trees.specs.declared.store.Child.{Child};
ghost use Rattle.views.specs.Views.{text_of, row_of, row_bytes, in_utf8 as utf8_of, rows_of, shared_bytes};
ghost use Rattle.views.specs.declared.rows.Row.{Row};
ghost use Rattle.definitions.specs.Answers.{AreFolds};
ghost use Rattle.definitions.specs.DocumentNodes.{IsNodeOf};
ghost use Rattle.definitions.specs.Tokens.{Placed, AreTokens, Token, kinds};
ghost use Rattle.definitions.specs.Trees.{Grammar as Rules, Tree, HaveRoots, all_kinds};
ghost use Rattle.definitions.specs.declared.Range.{Range};
ghost use Rattle.definitions.specs.declared.Symbol.{Symbol};
ghost use Rattle.definitions.specs.declared.Unit.{Unit as Encoding};

use grammar::Grammar;
use lexer::Tokens;
use parser::Parse;
use std::alloc::{AllocError, Global};
use tables::Tables;
use text::{Text, Unit};
use trees::{Child, NodeId, Store};
use views::{Diagnostic, Range, Row};

/// `Diagnostic`.
pub fn diagnostic(found: Diagnostic) -> (Range, String) {
    let Diagnostic { range, message } = found;
    (range, message)
}

/// `views::Row`.
pub fn row(row: Row<'_>) -> (&str, Range) {
    let Row { name, range } = row;
    (name, range)
}

/// `views::diagnostic`.
pub fn diagnostic_of(
    alloc: Global,
    grammar: &Grammar,
    tables: &Tables,
    unit: Unit,
    text: &Text,
    tokens: &Tokens,
    parse: &Parse,
) -> Result<Option<Diagnostic>, AllocError>
    requires tables { tables.now.grammar ≡ grammar.now.grammar }
    requires tokens { AreTokensOf (lexicon_of grammar.now) text.now tokens.now.items }
    requires parse { (cells : List Cell)
        × IsParseOf tables.now (significant_kinds tokens.now.items) cells parse.now }
    ensures reported { IfOk result (λ reported. (cells : List Cell)
        → IsParseOf tables.now (significant_kinds tokens.now.items) cells parse.now
        → IsDiagnosis unit grammar.now text.now (map plain tokens.now.items)
        (verdict_in cells parse.now.verdict) (option_map shown reported)) }
    ensures bytes { IfOk result (λ reported.
        option_map stored_diagnostic reported ≡ option_map in_utf8 (option_map shown reported)) }
{
    views::diagnostic(alloc, grammar, tables, unit, text, tokens, parse)
}

/// `views::folds`.
pub fn folds(
    alloc: Global,
    grammar: &Grammar,
    text: &Text,
    tokens: &Tokens,
    store: &Store,
    roots: &[Child],
) -> Result<Vec<(u32, u32)>, AllocError>
    requires tokens { AreTokensOf (lexicon_of grammar.now) text.now tokens.now.items }
    requires roots { AreRootsOf grammar.now store.now (map plain tokens.now.items) roots.now }
    ensures { IfOk result (λ pairs.
        AreFoldsOf grammar.now text.now (map plain tokens.now.items)
        (trees_of_roots store.now roots.now) pairs.items) }
{
    views::folds(alloc, grammar, text, tokens, store, roots)
}

/// `views::selection`.
pub fn selection(
    alloc: Global,
    unit: Unit,
    text: &Text,
    tokens: &Tokens,
    store: &Store,
    roots: &[Child],
    offset: usize,
) -> Result<Vec<Range>, AllocError>
    requires { (file : FileGrammar) × AreTokensOf (lexicon_of file) text.now tokens.now.items
        × AreRootsOf file store.now (map plain tokens.now.items) roots.now }
    ensures { (file : FileGrammar) → AreTokensOf (lexicon_of file) text.now tokens.now.items
        → AreRootsOf file store.now (map plain tokens.now.items) roots.now
        → IfOk result (λ ranges. IsSelectionOf unit file text.now (map plain tokens.now.items)
        (trees_of_roots store.now roots.now) offset ranges.items) }
{
    views::selection(alloc, unit, text, tokens, store, roots, offset)
}

/// `views::tree_text`.
pub fn tree_text(
    alloc: Global,
    grammar: &Grammar,
    store: &Store,
    root: NodeId,
) -> Result<String, AllocError>
    requires { root.index < length store.now }
    ensures text { IfOk result (λ s.
        chars (string_bytes s)
        ≡ text_of grammar.now (plain_tree (tree store.now (Child.Node root)))) }
    ensures bytes { IfOk result (λ s.
        string_bytes s
        ≡ encode_utf8_all (text_of grammar.now (plain_tree (tree store.now (Child.Node root))))) }
{
    views::tree_text(alloc, grammar, store, root)
}

/// `views::token_rows`.
pub fn token_rows<'a>(
    alloc: Global,
    grammar: &'a Grammar,
    unit: Unit,
    text: &Text,
    tokens: &Tokens,
) -> Result<Vec<Row<'a>>, AllocError>
    ensures rows { IfOk result (λ rows.
        map row_of rows.items ≡ rows_of unit grammar.now text.now tokens.now.items) }
    ensures bytes { IfOk result (λ rows.
        map row_bytes rows.items
        ≡ map utf8_of (rows_of unit grammar.now text.now tokens.now.items)) }
{
    views::token_rows(alloc, grammar, unit, text, tokens)
}

/// `views::shared_rows`.
pub fn shared_rows(
    alloc: Global,
    grammar: &Grammar,
    unit: Unit,
    text: &Text,
    tokens: &Tokens,
) -> Result<Vec<docs::Row>, AllocError>
    ensures { IfOk result (λ rows.
        map shared_bytes rows.items
        ≡ map utf8_of (rows_of unit grammar.now text.now tokens.now.items)) }
{
    views::shared_rows(alloc, grammar, unit, text, tokens)
}

/// `equal_rows_are_the_same`.
pub fn equal_rows_are_the_same()
    ensures { (a b : Row) →
        IsTrue (⟦<views::Row<'static> as PartialEq>⟧.eq a b) ↔ (row_bytes a ≡ row_bytes b) }
{
    views::equal_rows_are_the_same();
}

/// `trees_have_folds`.
pub fn trees_have_folds()
    ensures { (g : Rules) (trees : List Tree) (t : List ℕ) (tokens : List Placed)
        (folds : List Bool) →
        (pairs : List (ℕ × ℕ)) × AreFolds t tokens folds (IsNodeOf g trees) pairs }
{
    views::trees_have_folds();
}

/// `each_offset_has_a_selection`.
pub fn each_offset_has_a_selection()
    ensures { (encoding : Encoding) (file : FileGrammar) (t : List ℕ) (tokens : List Token)
        (trees : List Tree) (symbols : List Symbol) → AreTokens file.patterns t tokens
        → HaveRoots file.grammar trees symbols
        → length (all_kinds trees) ≤ length (kinds file.skips tokens)
        → (o : ℕ) → (ranges : List Range) × IsSelectionOf encoding file t tokens trees o ranges }
{
    views::each_offset_has_a_selection();
}
