//! What can be selected in a mended copy.

use crate::marks::{Span, mended_spans};
use crate::nodes::{Nodes, Placed};
use definitions::{Position, Range};
use docs::{Doc, Language};
use mending::Mending;
use std::alloc::{AllocError, Global};
use trees::{Child, Children};

/// How many ranges are returned at most.
const MOST_RANGES: usize = 32;

/// The ranges that can be selected around each of these positions of a document (LSP 3.17,
/// "Selection Range Request"), from inner to outer: those of the nodes of its mended copy that
/// cover it, each once, and that of the whole text. What is put in has no width. Of more than 32
/// they are the first 31 and the last. The copy is the document's.
///
/// Refuses for memory alone.
pub fn mended_selections(
    alloc: Global,
    language: &Language,
    doc: &Doc,
    mending: &Mending,
    positions: &[Position],
) -> Result<Vec<Vec<Range>>, AllocError> {
    let spans = mended_spans(alloc, doc, mending)?;
    let nodes = Nodes::of(language, mending.nodes());
    let mut selections = Vec::with_capacity(alloc, positions.len())?;
    for position in positions {
        let offset = doc.characters().offset(doc.unit(), *position);
        let mut ranges = Vec::new(alloc);
        ranges.push(whole(doc))?;
        add_around(nodes, &spans, mending.parse().stack(), offset, &mut ranges)?;
        selections.push(shortened(alloc, &ranges)?)?;
    }
    Ok(selections)
}

/// The range of the whole text.
fn whole(doc: &Doc) -> Range {
    let (text, unit) = (doc.characters(), doc.unit());
    Range {
        start: text.position(unit, 0),
        end: text.position(unit, text.len()),
    }
}

/// Adds the ranges of the nodes that cover an offset, from outer to inner, each once.
fn add_around(
    nodes: Nodes<'_>,
    spans: &[Span],
    roots: &[Child],
    offset: usize,
    ranges: &mut Vec<Range>,
) -> Result<(), AllocError> {
    let mut next = covering(nodes, spans, Children::of(roots), 0, offset);
    'down: for _ in 0..nodes.count() {
        let Some((tree, span)) = next else {
            return Ok(());
        };
        let Child::Node(id) = tree.child else {
            return Ok(());
        };
        if ranges.last() != Some(&span.range()) {
            ranges.push(span.range())?;
        }
        next = covering(nodes, spans, nodes.children(id), tree.places.from, offset);
    }
    Ok(())
}

/// The one of these siblings that covers an offset. Their first token has the place `from`.
fn covering(
    nodes: Nodes<'_>,
    spans: &[Span],
    siblings: Children<'_>,
    from: usize,
    offset: usize,
) -> Option<(Placed, Span)> {
    let mut at = from;
    for child in siblings {
        let tree = nodes.placed(child, at);
        at = tree.places.to;
        if let Some(span) = span_of(spans, tree)
            && span.start.offset <= offset
            && offset < span.end.offset
        {
            return Some((tree, span));
        }
    }
    None
}

/// What a tree with tokens stands on.
fn span_of(spans: &[Span], tree: Placed) -> Option<Span> {
    if tree.places.is_empty() {
        return None;
    }
    let first = spans.get(tree.places.from)?;
    let last = spans.get(tree.places.to.checked_sub(1)?)?;
    Some(Span {
        start: first.start,
        end: last.end,
    })
}

/// These ranges from inner to outer; of more than 32 the first 31 and the last.
fn shortened(alloc: Global, ranges: &[Range]) -> Result<Vec<Range>, AllocError> {
    let mut short = Vec::new(alloc);
    for range in ranges.iter().skip(1).rev().take(MOST_RANGES - 1) {
        short.push(*range)?;
    }
    if let Some(whole) = ranges.first() {
        short.push(*whole)?;
    }
    Ok(short)
}
