//! The lines that can be folded.

ghost use Rattle.std.specs.Prelude.{◌≡◌, ℕ, ◌<◌, ◌≤◌, Bool, false, List, length, map, slice_index_or, IfOk, OnOk, MatchOption, All};
ghost use Rattle.definitions.specs.declared.Symbol.{Symbol};
ghost use Rattle.definitions.specs.Tokens.{is_skipped, placed, significant};
ghost use Rattle.definitions.specs.Trees.{HaveRoots, all_kinds, left_of};
ghost use Rattle.grammar.specs.Grammars.{lexicon_of};
ghost use Rattle.lexer.specs.Tokens.{kind_in, plain, AreTokensOf};
ghost use Rattle.trees.specs.Cells.{AreBelow};
ghost use Rattle.views.specs.Folds.{lines_of, SpanLines, AreAscending, AreSpanned, with_own};
ghost use Rattle.readings.specs.Contents.{AreFoldsOf};
ghost use Rattle.views.specs.Roots.{AreRootsOf, trees_of_roots};

use definitions::Unit;
use grammar::Grammar;
use lexer::Tokens;
use std::alloc::{AllocError, Global};
use text::Text;
use trees::{Child, Children, Store};

/// Siblings that are still to be gone over, and the place of the first one's first token.
#[derive(Drop)]
struct Siblings<'a> {
    children: Children<'a>,
    from: usize,
}

/// The lines that can be folded: for each node of a `fold` symbol that has tokens the line where
/// the first of them starts and the line where the last one ends, where this is a later one. Each
/// pair is listed once, in ascending order. Lines are counted from 0. Refuses for memory alone.
pub fn folds(
    alloc: Global,
    grammar: &Grammar,
    text: &Text,
    tokens: &Tokens,
    store: &Store,
    roots: &[Child],
) -> Result<Vec<(u32, u32)>, AllocError>
    requires tokens { AreTokensOf (lexicon_of grammar.now) text.now tokens.now.items }
    requires roots { AreRootsOf grammar.now store.now (map plain tokens.now.items) roots.now }
    ensures { IfOk result (λ pairs.
        AreFoldsOf grammar.now text.now (map plain tokens.now.items)
        (trees_of_roots store.now roots.now) pairs.items) }
{
    let lines = lines_of(alloc, text, tokens)?;
    let mut pairs = foldable_lines(alloc, grammar, &lines, store, roots)?;
    pairs.sort_unstable();
    pairs.dedup();
    Ok(pairs)
}

/// The first and the last line of each significant token, in order.
fn lines_of(alloc: Global, text: &Text, tokens: &Tokens) -> Result<Vec<(u32, u32)>, AllocError>
    ensures { IfOk result (λ lines. (skips : List Bool) →
        All (λ x. x.skipped ≡ is_skipped skips (kind_in x)) tokens.now.items →
        lines.items
        ≡ lines_of text.now (significant skips (placed 0 (map plain tokens.now.items)))) }
{
    let mut lines = Vec::with_capacity(alloc, tokens.significant())?;
    let mut places = text.places(Unit::Utf16);
    for token in tokens.items().iter_from(0) {
        let first = places.position().line;
        places.advance(token.length() as usize);
        if token.is_skipped() {
            continue;
        }
        lines.push((first, places.position().line))?;
    }
    Ok(lines)
}

/// The lines of the nodes that fold, in some order. Trees on one line are not gone into.
fn foldable_lines(
    alloc: Global,
    grammar: &Grammar,
    lines: &[(u32, u32)],
    store: &Store,
    roots: &[Child],
) -> Result<Vec<(u32, u32)>, AllocError>
    requires ascending { AreAscending lines.now }
    requires below { AreBelow (length store.now) roots.now }
    requires trees { (symbols : List Symbol) ×
        HaveRoots grammar.now.grammar (trees_of_roots store.now roots.now) symbols }
    requires covered { length (all_kinds (trees_of_roots store.now roots.now)) ≤ length lines.now }
    ensures { IfOk result (λ pairs.
        AreSpanned grammar.now.grammar grammar.now.folds lines.now
        (trees_of_roots store.now roots.now) pairs.items) }
{
    let mut pairs = Vec::new(alloc);
    let mut open = Vec::new(alloc);
    open.push(Siblings {
        children: Children::of(roots),
        from: 0,
    })?;
    while let Some(Siblings { mut children, from }) = open.pop() {
        let Some(child) = children.next() else {
            continue;
        };
        let to = from + store.tokens_of(child) as usize;
        open.push(Siblings { children, from: to })?;
        let Child::Node(id) = child else {
            continue;
        };
        let Some(pair) = span(lines, from, to) else {
            continue;
        };
        add_own(grammar, store.production(id), pair, &mut pairs)?;
        open.push(Siblings {
            children: store.children(id),
            from,
        })?;
    }
    Ok(pairs)
}

/// Adds the lines of a node of this production, where its nonterminal folds.
fn add_own(
    grammar: &Grammar,
    production: usize,
    pair: (u32, u32),
    pairs: &mut Vec<(u32, u32)>,
) -> Result<(), AllocError>
    requires { production < length grammar.now.grammar.productions }
    ensures { OnOk result (
        let own = slice_index_or grammar.now.folds (left_of grammar.now.grammar production) false in
        pairs.new.items ≡ with_own own pair pairs.old.items) }
{
    if grammar.is_fold(grammar.left(production)) {
        pairs.push(pair)?;
    }
    Ok(())
}

/// The first and the last line of the tokens from one place up to another, where these are two
/// lines.
fn span(lines: &[(u32, u32)], from: usize, to: usize) -> Option<(u32, u32)>
    requires { to ≤ length lines.now }
    ensures { MatchOption result ((p : ℕ × ℕ) → ¬ SpanLines lines.now from to p)
        (λ p. SpanLines lines.now from to p) }
{
    if from >= to {
        return None;
    }
    let first = lines[from].0;
    let last = lines[to - 1].1;
    if first < last {
        Some((first, last))
    } else {
        None
    }
}
