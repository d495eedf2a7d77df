//! What can be selected around an offset.

ghost use Rattle.std.specs.Prelude.{◌≡◌, ◌+◌, ◌<◌, ◌≤◌, ◌^◌, ℕ, Bool, List, [], ◌∷◌, All, length, map, count_by, reverse, IfOk, MatchOption};
ghost use Rattle.std.specs.List.{dedup};
ghost use Rattle.definitions.specs.Answers.{range_of, shortened};
ghost use Rattle.definitions.specs.Tokens.{is_skipped, placed, significant};
ghost use Rattle.definitions.specs.Trees.{all_kinds};
ghost use Rattle.grammar.specs.Grammars.{FileGrammar, lexicon_of};
ghost use Rattle.lexer.specs.Tokens.{kind_in, plain, is_significant, AreTokensOf};
ghost use Rattle.trees.specs.Cells.{AreBelow};
ghost use Rattle.views.specs.Around.{IsAround, IsBranchAround, IsSpanOf, inside, is_same, spans_all};
ghost use Rattle.views.specs.Around as of;
ghost use Rattle.readings.specs.Contents.{IsSelectionOf};
ghost use Rattle.views.specs.Roots.{AreRootsOf, trees_of_roots};

use crate::parts::span_of;
use definitions::{Range, Unit};
use lexer::{MoreThan, Tokens};
use std::alloc::{AllocError, Global};
use text::Text;
use trees::{Child, Children, NodeId, Store};

/// How many ranges are returned at most.
const MOST_RANGES: usize = 32;

/// An offset, as two places among the significant tokens.
#[derive(Clone, Copy)]
struct Point {
    /// How many of them start at or before it.
    reached: usize,
    /// How many of them end at or before it.
    first: usize,
}

/// A branch, and the places of its first significant token and of the one after its last.
#[derive(Clone, Copy)]
struct Branch {
    id: NodeId,
    from: usize,
    to: usize,
}

/// The ranges that can be selected around an offset (LSP 3.17, "Selection Range Request"), from
/// inner to outer: those of the branches that cover it, each once, and that of the whole text.
/// Positions count this unit. Of more than 32 they are the first 31 and the last. Refuses for
/// memory alone.
pub fn selection(
    alloc: Global,
    unit: Unit,
    text: &Text,
    tokens: &Tokens,
    store: &Store,
    roots: &[Child],
    offset: usize,
) -> Result<Vec<Range>, AllocError>
    requires { (file : FileGrammar) × AreTokensOf (lexicon_of file) text.now tokens.now.items
        × AreRootsOf file store.now (map plain tokens.now.items) roots.now }
    ensures { (file : FileGrammar) → AreTokensOf (lexicon_of file) text.now tokens.now.items
        → AreRootsOf file store.now (map plain tokens.now.items) roots.now
        → IfOk result (λ ranges. IsSelectionOf unit file text.now (map plain tokens.now.items)
        (trees_of_roots store.now roots.now) offset ranges.items) }
{
    let whole = (0, text.len());
    let spans = spans_around(alloc, store, roots, point_of(tokens, offset))?;
    let offsets = selection_offsets(alloc, tokens, whole, &spans)?;
    ranges_of(alloc, unit, text, &offsets)
}

/// The two places of an offset.
fn point_of(tokens: &Tokens, offset: usize) -> Point
    ensures around { (file : FileGrammar) (t : List ℕ)
        → AreTokensOf (lexicon_of file) t tokens.now.items → length t ≤ 2 ^ 30
        → IsAround (significant file.skips (placed 0 (map plain tokens.now.items))) offset
        result.reached result.first }
    ensures near { result.reached ≤ result.first + 1 }
{
    let (place, before) = tokens.items().locate(&MoreThan::Characters(offset));
    let first = before.significant as usize;
    let reached = match tokens.token(place) {
        Some(token) if !token.skipped => first + 1,
        _ => first,
    };
    Point { reached, first }
}

/// The places of the branches around an offset, from outer to inner, each once.
fn spans_around(
    alloc: Global,
    store: &Store,
    roots: &[Child],
    point: Point,
) -> Result<Vec<(usize, usize)>, AllocError>
    requires below { AreBelow (length store.now) roots.now }
    requires fits { length (all_kinds (trees_of_roots store.now roots.now)) < 2 ^ 64 }
    requires near { point.reached ≤ point.first + 1 }
    ensures { IfOk result (λ spans. spans.items
        ≡ dedup is_same (spans_all point.reached point.first 0 (trees_of_roots store.now
        roots.now))) }
{
    let mut spans = Vec::new(alloc);
    let mut next = branch_around(store, Children::of(roots), 0, point);
    while let Some(branch) = next {
        spans.push((branch.from, branch.to))?;
        next = branch_around(store, store.children(branch.id), branch.from, point);
    }
    spans.dedup();
    Ok(spans)
}

/// The one of these children that stands around an offset, if it is a branch. Their first token
/// has the place `from`.
fn branch_around(store: &Store, children: Children<'_>, from: usize, point: Point) -> Option<Branch>
    requires below { AreBelow (length store.now) children }
    requires fits { from + length (all_kinds (trees_of_roots store.now children)) < 2 ^ 64 }
    requires near { point.reached ≤ point.first + 1 }
    ensures { MatchOption result
        (spans_all point.reached point.first from (trees_of_roots store.now children.entry) ≡ [])
        (λ branch. IsBranchAround store.now children.entry from point branch) }
{
    let mut start = from;
    for child in children {
        let end = start + store.tokens_of(child) as usize;
        if start < point.reached && point.first < end {
            return branch_at(child, start, end);
        }
        start = end;
    }
    None
}

/// The child at these places, if it is a branch.
fn branch_at(child: Child, from: usize, to: usize) -> Option<Branch>
    ensures { result ≡ of.branch_at child from to }
{
    match child {
        Child::Token(_) => None,
        Child::Node(id) => Some(Branch { id, from, to }),
    }
}

/// The offsets of the whole text, and of these spans if they are others: at most 32, the first and
/// the last 31.
fn selection_offsets(
    alloc: Global,
    tokens: &Tokens,
    whole: (usize, usize),
    spans: &[(usize, usize)],
) -> Result<Vec<(usize, usize)>, AllocError>
    requires { All (IsSpanOf (count_by is_significant tokens.now.items)) spans.now }
    ensures { (skips : List Bool)
        → All (λ x. x.skipped ≡ is_skipped skips (kind_in x)) tokens.now.items
        → let parts = significant skips (placed 0 (map plain tokens.now.items)) in
        IfOk result (λ offsets. offsets.items
        ≡ shortened (whole ∷ inside whole (map (of.offsets_of parts) spans.now))) }
{
    let inner = spans_inside(tokens, whole, spans);
    let last = &inner[inner.len().saturating_sub(MOST_RANGES - 1)..];
    let mut offsets = Vec::new(alloc);
    offsets.push(whole)?;
    for span in last {
        offsets.push(offsets_of(tokens, *span))?;
    }
    Ok(offsets)
}

/// All of these spans but the first one, if that is the whole text.
fn spans_inside<'a>(
    tokens: &Tokens,
    whole: (usize, usize),
    spans: &'a [(usize, usize)],
) -> &'a [(usize, usize)]
    requires { All (IsSpanOf (count_by is_significant tokens.now.items)) spans.now }
    ensures spans { All (IsSpanOf (count_by is_significant tokens.now.items)) result.now }
    ensures inside { (skips : List Bool)
        → All (λ x. x.skipped ≡ is_skipped skips (kind_in x)) tokens.now.items
        → let parts = significant skips (placed 0 (map plain tokens.now.items)) in
        map (of.offsets_of parts) result.now ≡ inside whole (map (of.offsets_of parts) spans.now) }
{
    match spans.split_first() {
        Some((outer, rest)) if whole == offsets_of(tokens, *outer) => rest,
        _ => spans,
    }
}

/// The offsets from the start of a span's first token up to the end of its last one.
fn offsets_of(tokens: &Tokens, span: (usize, usize)) -> (usize, usize)
    requires { IsSpanOf (count_by is_significant tokens.now.items) span }
    ensures { (skips : List Bool)
        → All (λ x. x.skipped ≡ is_skipped skips (kind_in x)) tokens.now.items
        → result ≡ of.offsets_of (significant skips (placed 0 (map plain tokens.now.items))) span }
{
    (
        span_of(tokens, span.0).start,
        span_of(tokens, span.1 - 1).end,
    )
}

/// The ranges of these offsets, in the opposite order.
fn ranges_of(
    alloc: Global,
    unit: Unit,
    text: &Text,
    offsets: &[(usize, usize)],
) -> Result<Vec<Range>, AllocError>
    ensures { IfOk result (λ ranges.
        ranges.items ≡ reverse (map (range_of unit text.now) offsets.now)) }
{
    let mut ranges = Vec::with_capacity(alloc, offsets.len())?;
    for (start, end) in offsets.iter().rev() {
        ranges.push(Range {
            start: text.position(unit, *start),
            end: text.position(unit, *end),
        })?;
    }
    Ok(ranges)
}
