//! The two brackets of a node.

ghost use Rattle.std.specs.Prelude.{◌<◌, ◌≤◌, IfOk, IfSome, length};
ghost use Rattle.hover.specs.Ranges.{AreBrackets};

use crate::pairs::Pairs;
use crate::spans::Span;
use definitions::{Kind, Position, Range};
use docs::{Doc, Language};
use forests::{Branch, Forest, Numbers};
use lexer::MoreThan;
use mending::Mending;
use std::alloc::{AllocError, Global};
use trees::Child;
use views::span_of;

/// The brackets of a node. Positions count the document's unit.
#[derive(Clone, Copy, Debug, PartialEq, Eq)]
pub struct BracketPair {
    pub opening: Range,
    pub closing: Range,
}

/// A token among the parts of a node: its rule, and its place.
#[derive(Clone, Copy)]
struct Part {
    rule: usize,
    place: usize,
}

/// The places of two brackets.
#[derive(Clone, Copy)]
struct Match {
    opening: usize,
    closing: usize,
}

/// The two brackets of a node, where a position of a document is at one of them: parentheses,
/// square brackets or braces that stand in one production, or two words at both ends of one. Of
/// two tokens that touch there each may be one, the later first. Where the text has a fault, the
/// node may also be one of its mended copy, which is the document's; a bracket that is put in
/// there has no width and is none.
///
/// Refuses for memory alone.
pub fn brackets(
    alloc: Global,
    language: &Language,
    doc: &Doc,
    mending: Option<&Mending>,
    position: Position,
) -> Result<Option<BracketPair>, AllocError>
    ensures { IfOk result (λ found.
        IfSome found (AreBrackets doc.now.unit doc.now.text position)) }
{
    let pairs = Pairs::of(alloc, language.grammar())?;
    let at = doc.characters().offset(doc.unit(), position);
    let touching = touching(doc, at);
    let mut found = settled(alloc, doc, &pairs, touching)?;
    if let Some(mending) = mending
        && found.is_none()
    {
        found = mended(alloc, mending, &pairs, touching)?;
    }
    match found {
        Some(found) => Ok(ranges(doc, position, found)),
        None => Ok(None),
    }
}

/// The places of the significant tokens that touch an offset: of one that begins there or goes on,
/// and of one that ends there.
fn touching(doc: &Doc, at: usize) -> [Option<usize>; 2] {
    let tokens = doc.tokens();
    let (place, before) = tokens.items().locate(&MoreThan::Characters(at));
    let significant = before.significant as usize;
    let here = match tokens.token(place) {
        Some(token) if !token.skipped => Some(significant),
        _ => None,
    };
    let last = if before.characters as usize == at && place > 0 {
        tokens.token(place - 1)
    } else {
        None
    };
    let ended = match last {
        Some(token) if !token.skipped => significant.checked_sub(1),
        _ => None,
    };
    [here, ended]
}

/// The brackets of a node of a document, of which one is one of these significant tokens.
fn settled(
    alloc: Global,
    doc: &Doc,
    pairs: &Pairs,
    touching: [Option<usize>; 2],
) -> Result<Option<Match>, AllocError> {
    let forest = Forest::of_document(doc);
    for number in touching.into_iter().flatten() {
        let found = matching(alloc, forest, pairs, number)?;
        if found.is_some() {
            return Ok(found);
        }
    }
    Ok(None)
}

/// The brackets of a node of a mended copy that both stand in the text, and of which one is one of
/// these significant tokens.
fn mended(
    alloc: Global,
    mending: &Mending,
    pairs: &Pairs,
    touching: [Option<usize>; 2],
) -> Result<Option<Match>, AllocError> {
    let (forest, numbers) = (Forest::of_copy(mending), Numbers::of(alloc, mending)?);
    for number in touching.into_iter().flatten() {
        let found = match numbers.place(number) {
            Some(place) => matching(alloc, forest, pairs, place)?,
            None => None,
        };
        if let Some(Match { opening, closing }) = found
            && let Some(opening) = numbers.number(opening)
            && let Some(closing) = numbers.number(closing)
        {
            return Ok(Some(Match { opening, closing }));
        }
    }
    Ok(None)
}

/// The brackets of the innermost node around the token at this place, if it is one of them. Around
/// a token in no node they are those among the trees.
fn matching(
    alloc: Global,
    forest: Forest<'_>,
    pairs: &Pairs,
    place: usize,
) -> Result<Option<Match>, AllocError> {
    let parts = parts_of(alloc, forest, forest.innermost(place))?;
    match_among(alloc, pairs, &parts, place)
}

/// The tokens among the children of a node, or among the trees.
fn parts_of(
    alloc: Global,
    forest: Forest<'_>,
    branch: Option<Branch>,
) -> Result<Vec<Part>, AllocError> {
    let mut parts = Vec::new(alloc);
    let mut place = match branch {
        Some(branch) => branch.from,
        None => 0,
    };
    for child in forest.siblings(branch) {
        if let Child::Token(Kind::Rule(rule)) = child {
            parts.push(Part { rule, place })?;
        }
        place = place.saturating_add(forest.tokens(child));
    }
    Ok(parts)
}

/// The two of these tokens that are brackets of each other, and one of which has this place.
fn match_among(
    alloc: Global,
    pairs: &Pairs,
    parts: &[Part],
    place: usize,
) -> Result<Option<Match>, AllocError> {
    let mut open: Vec<Part> = Vec::new(alloc);
    for part in parts {
        match open.last().copied() {
            Some(begin) if pairs.are(begin.rule, part.rule) => {
                open.pop();
                if begin.place == place || part.place == place {
                    return Ok(Some(Match {
                        opening: begin.place,
                        closing: part.place,
                    }));
                }
            }
            _ => {
                if pairs.open(part.rule) {
                    open.push(*part)?;
                }
            }
        }
    }
    Ok(None)
}

/// The ranges of two tokens, the second after the first, of which the position is at one.
fn ranges(doc: &Doc, position: Position, found: Match) -> Option<BracketPair>
    ensures { IfSome result (AreBrackets doc.now.unit doc.now.text position) }
{
    let opening = span_at(doc, found.opening)?;
    let closing = span_at(doc, found.closing)?;
    let at = doc.characters().offset(doc.unit(), position);
    let is_there = opening.touches(doc, at) || closing.touches(doc, at);
    if !is_there || opening.end > closing.start {
        return None;
    }
    Some(BracketPair {
        opening: opening.range(doc),
        closing: closing.range(doc),
    })
}

/// Where the significant token of this number stands.
fn span_at(doc: &Doc, place: usize) -> Option<Span>
    ensures ordered { IfSome result (λ s. s.start < s.end) }
    ensures within { IfSome result (λ s. s.end ≤ length doc.now.text) }
{
    let tokens = doc.tokens();
    if place >= tokens.significant() {
        return None;
    }
    let part = span_of(tokens, place);
    let (start, end) = (part.start, part.end);
    let span = Span { start, end };
    if start < end && end <= doc.characters().len() {
        Some(span)
    } else {
        None
    }
}
