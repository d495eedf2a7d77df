//! What stands at an offset of a document.

ghost use Rattle.std.specs.Prelude.{◌≡◌, IfSome, IsTrue, length};
ghost use Rattle.definitions.specs.Answers.{range_of};
ghost use Rattle.hover.specs.Ranges.{Touches};

use definitions::Range;
use docs::Doc;
use lexer::{Kind, MoreThan};
use parser::Verdict;
use std::alloc::{AllocError, Global};
use views::span_of;

/// So many characters of a token are looked at, where fewer are shown.
const MOST_CHARACTERS: usize = 1_024;

/// What stands from one offset up to another.
#[derive(Clone, Copy)]
pub(crate) struct Span {
    pub(crate) start: usize,
    pub(crate) end: usize,
}

impl Span {
    /// Whether it lies in the text of a document, and the offset in it or at one of its ends.
    pub(crate) fn touches(self, doc: &Doc, at: usize) -> bool
        ensures { IsTrue result → Touches (length doc.now.text) at self.start self.end }
    {
        self.start <= at && at <= self.end && self.end <= doc.characters().len()
    }

    /// The positions of its ends.
    pub(crate) fn range(self, doc: &Doc) -> Range
        ensures { result ≡ range_of doc.now.unit doc.now.text (self.start, self.end) }
    {
        let (text, unit) = (doc.characters(), doc.unit());
        Range {
            start: text.position(unit, self.start),
            end: text.position(unit, self.end),
        }
    }

    /// The text that stands there, or what it begins with.
    pub(crate) fn text(self, alloc: Global, doc: &Doc) -> Result<String, AllocError> {
        let length = self.end.saturating_sub(self.start).min(MOST_CHARACTERS);
        let mut text = String::new(alloc);
        for character in doc.characters().chars_from(self.start).take(length) {
            text.push(character)?;
        }
        Ok(text)
    }

    /// Whether nothing but blanks stands there.
    pub(crate) fn is_blank(self, doc: &Doc) -> bool {
        let length = self.end.saturating_sub(self.start);
        let mut characters = doc.characters().chars_from(self.start).take(length);
        characters.all(|character| character.is_whitespace())
    }
}

/// A token, and its place among the significant ones, which is that of the next one where it is
/// skipped.
#[derive(Clone, Copy)]
pub(crate) struct Standing {
    pub(crate) span: Span,
    pub(crate) kind: Kind,
    pub(crate) is_skipped: bool,
    pub(crate) place: usize,
}

/// The token that begins at an offset of a document or goes on there; none at its end.
pub(crate) fn token_at(doc: &Doc, at: usize) -> Option<Standing>
    ensures { IfSome result (λ t. Touches (length doc.now.text) at t.span.start t.span.end) }
{
    let tokens = doc.tokens();
    let (place, before) = tokens.items().locate(&MoreThan::Characters(at));
    let token = tokens.token(place)?;
    let start = before.characters as usize;
    let end = start.saturating_add(token.length as usize);
    let span = Span { start, end };
    if !span.touches(doc, at) {
        return None;
    }
    Some(Standing {
        span,
        kind: token.kind(),
        is_skipped: token.skipped,
        place: before.significant as usize,
    })
}

/// What stands at a fault: a token, or nothing at the end.
#[derive(Clone, Copy)]
pub(crate) struct Fault {
    pub(crate) span: Span,
    pub(crate) kind: Option<Kind>,
}

/// The fault of a document, where it has one that touches an offset.
pub(crate) fn fault_at(doc: &Doc, at: usize) -> Option<Fault>
    ensures { IfSome result (λ f. Touches (length doc.now.text) at f.span.start f.span.end) }
{
    let fault = fault_of(doc)?;
    if fault.span.touches(doc, at) {
        Some(fault)
    } else {
        None
    }
}

/// Whether the significant token of this number stands at the first fault of a document or behind
/// it.
pub(crate) fn is_behind_fault(doc: &Doc, number: usize) -> bool {
    matches!(doc.parse().verdict(), Verdict::FaultAt(fault) if fault <= number)
}

/// The fault of a document.
fn fault_of(doc: &Doc) -> Option<Fault> {
    match doc.parse().verdict() {
        Verdict::Tree(_) => None,
        Verdict::FaultAt(k) if k < doc.tokens().significant() => {
            let part = span_of(doc.tokens(), k);
            Some(Fault {
                span: Span {
                    start: part.start,
                    end: part.end,
                },
                kind: Some(part.kind),
            })
        }
        Verdict::FaultAt(_) | Verdict::FaultAtEnd => {
            let end = doc.characters().len();
            Some(Fault {
                span: Span { start: end, end },
                kind: None,
            })
        }
    }
}
