//! The lines that can be folded in a mended copy.

use crate::marks::{Span, mended_spans};
use crate::nodes::{Nodes, Placed, Places};
use crate::walk::Walk;
use definitions::Symbol;
use docs::{Doc, Language};
use mending::Mending;
use std::alloc::{AllocError, Global};
use trees::Child;

/// The first and last lines of what can be folded in the mended copy of a document, each pair
/// once, in ascending order (LSP 3.17, "Folding Range Request"): of each node of a `fold` symbol
/// the line where its first token starts and the one where its last ends, where that is a later
/// one. What is put in has no width. Lines are counted from 0. The copy is the document's.
///
/// Refuses for memory alone.
pub fn mended_folds(
    alloc: Global,
    language: &Language,
    doc: &Doc,
    mending: &Mending,
) -> Result<Vec<(u32, u32)>, AllocError> {
    let spans = mended_spans(alloc, doc, mending)?;
    let nodes = Nodes::of(language, mending.nodes());
    let mut pairs = Vec::new(alloc);
    let mut from = 0;
    for root in mending.parse().stack() {
        let tree = nodes.placed(*root, from);
        from = tree.places.to;
        add_folds(alloc, nodes, &spans, tree, &mut pairs)?;
    }
    pairs.sort_unstable();
    pairs.dedup();
    Ok(pairs)
}

/// Adds the lines of the nodes that fold in a tree.
fn add_folds(
    alloc: Global,
    nodes: Nodes<'_>,
    spans: &[Span],
    tree: Placed,
    pairs: &mut Vec<(u32, u32)>,
) -> Result<(), AllocError> {
    let mut walk = Walk::over(alloc, nodes, tree)?;
    'trees: for _ in 0..nodes.trees(tree.child) {
        let Some(tree) = walk.next()? else {
            return Ok(());
        };
        if folds(nodes, tree.child)
            && let Some(pair) = lines(spans, tree.places)
        {
            pairs.push(pair)?;
        }
    }
    Ok(())
}

/// Whether a tree is a node of a `fold` symbol.
fn folds(nodes: Nodes<'_>, child: Child) -> bool {
    match nodes.symbol(child) {
        Some(Symbol::Nonterminal(nonterminal)) => nodes.is_fold(nonterminal),
        _ => false,
    }
}

/// The line where the first of these tokens starts and the one where the last ends, if that is a
/// later one.
fn lines(spans: &[Span], places: Places) -> Option<(u32, u32)> {
    let first = spans.get(places.from)?.start.position.line;
    let last = spans.get(places.to.checked_sub(1)?)?.end.position.line;
    if first < last {
        Some((first, last))
    } else {
        None
    }
}
