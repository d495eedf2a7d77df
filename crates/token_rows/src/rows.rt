//! Rows of tokens.

ghost use Rattle.std.specs.Prelude.{◌≡◌, All, IfOk};
ghost use Rattle.definitions.specs.Answers.{range_of};
ghost use Rattle.token_rows.specs.Rows.{IsRowOf};

use definitions::{Position, Range};
use docs::{Doc, Language};
use grammar::Grammar;
use lexer::{Kind, MoreThan, PackedToken};
use std::alloc::{AllocError, Global};

/// How many characters of a token are told.
const MOST_CHARACTERS: usize = 60;

/// A token of a document.
#[derive(Debug, Drop)]
pub struct TokenRow {
    /// The name of its rule; `invalid` of what matches none.
    pub name: String,
    /// What it stands on, in the document's unit.
    pub range: Range,
    /// Its text; of more than 60 characters the first 60.
    pub text: String,
    /// Whether tokens of its rule are skipped.
    pub is_skipped: bool,
}

/// The tokens of a document of which a part stands on the lines from one up to another, that one
/// left out, in order. Lines are counted from 0.
///
/// Refuses for memory alone.
pub fn token_rows(
    alloc: Global,
    language: &Language,
    doc: &Doc,
    from: u32,
    to: u32,
) -> Result<Vec<TokenRow>, AllocError>
    ensures { IfOk result (λ rows.
        All (IsRowOf doc.now.unit doc.now.text to) rows.items) }
{
    let mut rows = Vec::new(alloc);
    let (place, mut at) = first_on(doc, from);
    for token in doc.tokens().items().iter_from(place) {
        let end = at.saturating_add(token.length() as usize);
        let range = range_of(doc, at, end);
        if range.start.line >= to {
            return Ok(rows);
        }
        rows.push(TokenRow {
            name: String::from_str(alloc, name_of(language.grammar(), token.kind()))?,
            range,
            text: text_of(alloc, doc, at, *token)?,
            is_skipped: token.is_skipped(),
        })?;
        at = end;
    }
    Ok(rows)
}

/// The place of the first token of which a part stands on a line or below it, and the offset at
/// which it starts.
fn first_on(doc: &Doc, line: u32) -> (usize, usize) {
    let start = Position { line, character: 0 };
    let offset = doc.characters().offset(doc.unit(), start);
    let (place, before) = doc.tokens().items().locate(&MoreThan::Characters(offset));
    (place, before.characters as usize)
}

/// The range from one offset up to another.
fn range_of(doc: &Doc, start: usize, end: usize) -> Range
    ensures { result ≡ range_of doc.now.unit doc.now.text (start, end) }
{
    let (text, unit) = (doc.characters(), doc.unit());
    Range {
        start: text.position(unit, start),
        end: text.position(unit, end),
    }
}

/// The name of a rule.
fn name_of(grammar: &Grammar, kind: Kind) -> &str {
    match kind {
        Kind::Rule(rule) if rule >= grammar.rules() => "",
        _ => grammar.kind_name(kind),
    }
}

/// The text of a token that starts at an offset, or the first characters of it.
fn text_of(
    alloc: Global,
    doc: &Doc,
    start: usize,
    token: PackedToken,
) -> Result<String, AllocError> {
    let length = (token.length() as usize).min(MOST_CHARACTERS);
    let mut text = String::new(alloc);
    for character in doc.characters().chars_from(start).take(length) {
        text.push(character)?;
    }
    Ok(text)
}
