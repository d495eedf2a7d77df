//! Where the significant tokens of a document stand, or the kinds of its mended copy.

ghost use Rattle.std.specs.Prelude.{◌≡◌, All, IfOk, IsTrue};
ghost use Rattle.outline.specs.Symbols.{IsSpan, IsSpot, Lies};

use definitions::{Position, Range, Unit};
use docs::Doc;
use lexer::Tokens;
use mending::Mending;
use parser::{Parse, Verdict};
use std::alloc::{AllocError, Global};
use text::Text;

/// An offset of a text, with its position.
#[derive(Clone, Copy)]
pub(crate) struct Spot {
    pub(crate) offset: usize,
    pub(crate) position: Position,
}

/// What stands between two offsets of a text.
#[derive(Clone, Copy)]
pub(crate) struct Span {
    pub(crate) start: Spot,
    pub(crate) end: Spot,
}

impl Span {
    /// The positions of both ends.
    pub(crate) fn range(self) -> Range
        ensures { result ≡ record { start = self.start.position; end = self.end.position } }
    {
        Range {
            start: self.start.position,
            end: self.end.position,
        }
    }

    /// Whether nothing stands there.
    pub(crate) fn is_empty(self) -> bool {
        self.start.offset == self.end.offset
    }

    /// Whether the other one lies in this one.
    pub(crate) fn has(self, other: Span) -> bool
        ensures { IsTrue result → Lies other self }
    {
        self.start.offset <= other.start.offset
            && other.start.offset <= other.end.offset
            && other.end.offset <= self.end.offset
    }
}

/// The spans of the significant tokens of a document, in order.
pub(crate) fn spans(alloc: Global, doc: &Doc) -> Result<Vec<Span>, AllocError>
    ensures { IfOk result (λ spans. All (IsSpan doc.now.unit doc.now.text) spans.items) }
{
    spans_of(alloc, doc.unit(), doc.characters(), doc.tokens())
}

/// The spans of the kinds of a mended copy, in order: those of tokens, and of what is put in
/// nothing, right behind the kind before it.
pub(crate) fn mended_spans(
    alloc: Global,
    doc: &Doc,
    mending: &Mending,
) -> Result<Vec<Span>, AllocError>
    ensures { IfOk result (λ spans. All (IsSpan doc.now.unit doc.now.text) spans.items) }
{
    let tokens = spans(alloc, doc)?;
    let mut mended = Vec::with_capacity(alloc, tokens.len())?;
    let mut last = start_of(doc);
    for origin in &mending.origins(alloc)? {
        let span = span_from(doc, &tokens, *origin, last);
        mended.push(span)?;
        last = Span {
            start: span.end,
            end: span.end,
        };
    }
    Ok(mended)
}

/// The span of the token with this number, if it is one; of what is put in, nothing behind the
/// last.
fn span_from(doc: &Doc, tokens: &[Span], origin: Option<usize>, last: Span) -> Span
    requires tokens { All (IsSpan doc.now.unit doc.now.text) tokens.now }
    requires last { IsSpan doc.now.unit doc.now.text last }
    ensures { IsSpan doc.now.unit doc.now.text result }
{
    let Some(number) = origin else {
        return last;
    };
    match tokens.get(number) {
        Some(span) => *span,
        None => last,
    }
}

/// Nothing, at the start of a document.
fn start_of(doc: &Doc) -> Span
    ensures { IsSpan doc.now.unit doc.now.text result }
{
    let spot = Spot {
        offset: 0,
        position: doc.characters().position(doc.unit(), 0),
    };
    Span {
        start: spot,
        end: spot,
    }
}

/// The spans of the significant ones of these tokens, in order.
fn spans_of(
    alloc: Global,
    unit: Unit,
    text: &Text,
    tokens: &Tokens,
) -> Result<Vec<Span>, AllocError>
    ensures { IfOk result (λ spans. All (IsSpan unit text.now) spans.items) }
{
    let mut spans = Vec::with_capacity(alloc, tokens.significant())?;
    let mut places = text.places(unit);
    let mut offset = 0usize;
    for token in tokens.items().iter_from(0) {
        let length = token.length() as usize;
        let start = Spot {
            offset,
            position: places.position(),
        };
        places.advance(length);
        offset = offset.saturating_add(length).min(text.len());
        let end = Spot {
            offset,
            position: places.position(),
        };
        if !token.is_skipped() {
            spans.push(Span { start, end })?;
        }
    }
    Ok(spans)
}

/// The fault of a document: how many significant tokens stand before it, and where it begins. Of a
/// text without one it is the end. Of a mended copy it is the one that isn't mended.
#[derive(Clone, Copy)]
pub(crate) struct Fault {
    pub(crate) tokens: usize,
    pub(crate) spot: Spot,
}

/// The fault of a document by its parse, or by that of its mended copy.
pub(crate) fn fault_of(doc: &Doc, parse: &Parse, spans: &[Span]) -> Fault
    requires { All (IsSpan doc.now.unit doc.now.text) spans.now }
    ensures { IsSpot doc.now.unit doc.now.text result.spot }
{
    if let Verdict::FaultAt(tokens) = parse.verdict()
        && let Some(span) = spans.get(tokens)
    {
        return Fault {
            tokens,
            spot: span.start,
        };
    }
    let (text, offset) = (doc.characters(), doc.characters().len());
    let position = text.position(doc.unit(), offset);
    Fault {
        tokens: spans.len(),
        spot: Spot { offset, position },
    }
}
