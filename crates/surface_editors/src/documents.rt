//! What callers rely on of what editors show of a document: `outline` and `hover`.

ghost use Rattle.std.specs.Prelude.{All, IfOk, IfSome, map};
ghost use Rattle.docs.specs.Docs.{IsCurrent};
ghost use Rattle.hover.specs.Ranges.{AreBrackets, IsRangeAt};
ghost use Rattle.outline.specs.Nesting.{AreNested};
ghost use Rattle.outline.specs.Symbols.{IsSymbolOf};

use definitions::{Position, Range};
use docs::{Doc, Language};
use hover::{BracketPair, HoverText, Markup};
use mending::Mending;
use outline::OutlineSymbol;
use settings::Settings;
use std::alloc::{AllocError, Global};

/// `OutlineSymbol`.
pub fn symbol(symbol: OutlineSymbol) -> (String, u32, usize, Range, Range) {
    let OutlineSymbol {
        name,
        kind,
        depth,
        range,
        selection,
    } = symbol;
    (name, kind, depth, range, selection)
}

/// `outline::outline`.
pub fn outline(
    alloc: Global,
    language: &Language,
    settings: &Settings,
    doc: &Doc,
    mending: Option<&Mending>,
) -> Result<Vec<OutlineSymbol>, AllocError>
    ensures symbols { IfOk result (λ symbols.
        All (IsSymbolOf settings.now doc.now.unit doc.now.text) symbols.items) }
    ensures nested { IfOk result (λ symbols. AreNested (map (λ s. s.depth) symbols.items)) }
{
    outline::outline(alloc, language, settings, doc, mending)
}

/// `Markup`.
pub fn markup(markup: Markup) -> bool {
    match markup {
        Markup::Plain => false,
        Markup::Markdown => true,
    }
}

/// `HoverText`.
pub fn shown(shown: HoverText) -> (String, Range) {
    let HoverText { text, range } = shown;
    (text, range)
}

/// `hover::hover`.
pub fn hover(
    alloc: Global,
    language: &Language,
    settings: &Settings,
    doc: &Doc,
    mending: Option<&Mending>,
    position: Position,
    markup: Markup,
) -> Result<Option<HoverText>, AllocError>
    requires { IsCurrent language.now doc.now }
    ensures { IfOk result (λ found. IfSome found
        (λ hover. IsRangeAt doc.now.unit doc.now.text position hover.range)) }
{
    hover::hover(alloc, language, settings, doc, mending, position, markup)
}

/// `BracketPair`.
pub fn bracket_pair(pair: BracketPair) -> (Range, Range) {
    let BracketPair { opening, closing } = pair;
    (opening, closing)
}

/// `hover::brackets`.
pub fn brackets(
    alloc: Global,
    language: &Language,
    doc: &Doc,
    mending: Option<&Mending>,
    position: Position,
) -> Result<Option<BracketPair>, AllocError>
    ensures { IfOk result (λ found.
        IfSome found (AreBrackets doc.now.unit doc.now.text position)) }
{
    hover::brackets(alloc, language, doc, mending, position)
}
