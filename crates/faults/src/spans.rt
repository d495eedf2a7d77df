//! Where tokens of a document stand.

ghost use Rattle.std.specs.Prelude.{◌≡◌, ◌≤◌, length, map, max, slice_get};
ghost use Rattle.definitions.specs.Answers.{fault_span, range_of};
ghost use Rattle.docs.specs.Docs.{IsCurrent};
ghost use Rattle.docs.specs.Languages.{LanguageData};
ghost use Rattle.lexer.specs.Tokens.{plain};
ghost use Rattle.readings.specs.Contents.{placed_parts};

use definitions::Range;
use docs::Doc;
use std::alloc::{AllocError, Global};
use views::span_of;

/// So many characters of a token are looked at for a message, which shows fewer.
const MOST_CHARACTERS: usize = 1_024;

/// What stands from one offset of a document up to another.
#[derive(Clone, Copy)]
pub(crate) struct Span {
    pub(crate) start: usize,
    pub(crate) end: usize,
}

impl Span {
    /// The positions of both ends.
    pub(crate) fn range(self, doc: &Doc) -> Range
        ensures { result ≡ range_of doc.now.unit doc.now.text (self.start, self.end) }
    {
        let (text, unit) = (doc.characters(), doc.unit());
        Range {
            start: text.position(unit, self.start),
            end: text.position(unit, self.end),
        }
    }

    /// The text that stands there, or what it begins with.
    pub(crate) fn text(self, alloc: Global, doc: &Doc) -> Result<String, AllocError> {
        let length = self.end.saturating_sub(self.start).min(MOST_CHARACTERS);
        let mut text = String::new(alloc);
        for character in doc.characters().chars_from(self.start).take(length) {
            text.push(character)?;
        }
        Ok(text)
    }

    /// Whether it has a part of the other one, or touches it.
    pub(crate) fn touches(self, other: Span) -> bool {
        self.start <= other.end && other.start <= self.end
    }

    /// From where the first one starts up to where the last one ends.
    pub(crate) fn up_to(self, last: Span) -> Span
        ensures { (result.start ≡ self.start) × (result.end ≡ max self.end last.end) }
    {
        Span {
            start: self.start,
            end: self.end.max(last.end),
        }
    }
}

/// What stands between two positions of a document, which may come in either order.
pub(crate) fn span_of_range(doc: &Doc, range: Range) -> Span {
    let (start, end) = doc.characters().span(doc.unit(), Some(range));
    Span { start, end }
}

/// The significant token of this number; past the last one the end of the text.
pub(crate) fn span_of_token(doc: &Doc, number: usize) -> Span
    ensures ordered { result.start ≤ result.end }
    ensures within { result.end ≤ length doc.now.text }
    ensures is { (language : LanguageData) → IsCurrent language doc.now →
        let tokens = placed_parts language.file (map plain doc.now.tokens.items) in
        (result.start, result.end) ≡ fault_span doc.now.text (slice_get tokens number) }
{
    let (tokens, end) = (doc.tokens(), doc.characters().len());
    if number >= tokens.significant() {
        return Span { start: end, end };
    }
    let part = span_of(tokens, number);
    let end = part.end.min(end);
    Span {
        start: part.start.min(end),
        end,
    }
}
