//! Examples of what an editor is shown of a document.

use colours::{delta, full};
use completion::{offers_at, texts};
use definitions::Position;
use docs::{Doc, Language, Unit};
use flat_trees::looked_at;
use forests::Forest;
use hover::{Markup, brackets, hover};
use outline::outline;
use settings::{Settings, guess};
use std::alloc::Global;
use token_rows::token_rows;

/// The example of `colours`.
pub fn use_colours(rt: &HostRuntime, alloc: Global, language: &Language) -> Option<()> {
    let palette = [Some(4), Some(7)];
    let doc = Doc::open(alloc, language, Unit::Utf16, 1, "1\n+2").ok()?;
    let before = full(alloc, &palette, &doc).ok()?;
    println!(rt; "{before:?}").ok()?;
    // [0, 0, 1, 4, 0, 1, 0, 1, 7, 0, 0, 1, 1, 4, 0]
    let doc = Doc::open(alloc, language, Unit::Utf16, 2, "1\n\n+2").ok()?;
    let after = full(alloc, &palette, &doc).ok()?;
    let edit = delta(&before, &after)?;
    println!(rt; "{} give way to {:?}", edit.delete_count, edit.numbers).ok()
    // 5 give way to [2, 0, 1, 7, 0]
}

/// The example of `token_rows`.
pub fn use_token_rows(rt: &HostRuntime, alloc: Global, language: &Language) -> Option<()> {
    let doc = Doc::open(alloc, language, Unit::Utf16, 1, "1\n+2").ok()?;
    for row in &token_rows(alloc, language, &doc, 1, 2).ok()? {
        println!(rt; "{} {}", row.name, row.text).ok()?;
    }
    // PLUS +
    // NUM 2
    Some(())
}

/// The example of `forests`.
pub fn use_forests(rt: &HostRuntime, alloc: Global, language: &Language) -> Option<()> {
    let doc = Doc::open(alloc, language, Unit::Utf16, 1, "1+(2)").ok()?;
    let forest = Forest::of_document(&doc);
    let branch = forest.innermost(3)?;
    println!(rt; "the node around the 2 begins at token {}", branch.from).ok()
    // the node around the 2 begins at token 3
}

/// The example of `flat_trees`.
pub fn use_flat_trees(rt: &HostRuntime, alloc: Global, language: &Language) -> Option<()> {
    let doc = Doc::open(alloc, language, Unit::Utf16, 1, "1+2+3").ok()?;
    let position = Position {
        line: 0,
        character: 2,
    };
    let found = looked_at(alloc, language, &doc, None, position, &[]).ok()?;
    let sum = found.nodes.first()?;
    println!(rt; "part {} of {}", found.way.first()?, sum.count).ok()
    // part 2 of 5
}

/// The example of `completion`.
pub fn use_completion(rt: &HostRuntime, alloc: Global, language: &Language) -> Option<()> {
    let settings = guess(alloc, language.grammar()).ok()?;
    let texts = texts(alloc, language.grammar(), &settings).ok()?;
    let doc = Doc::open(alloc, language, Unit::Utf16, 1, "(1 ").ok()?;
    for offer in &offers_at(alloc, language, &texts, &doc, &[], 3)
        .ok()?
        .offers
    {
        println!(rt; "rule {}: {}", offer.rule, offer.text).ok()?;
        // rule 1: +
        // rule 3: )
    }
    Some(())
}

/// The example of `outline`.
pub fn use_outline(
    rt: &HostRuntime,
    alloc: Global,
    language: &Language,
    settings: &Settings,
) -> Option<()> {
    let doc = Doc::open(alloc, language, Unit::Utf16, 1, "12+(3").ok()?;
    for symbol in &outline(alloc, language, settings, &doc, None).ok()? {
        println!(rt; "{} at {}", symbol.name, symbol.selection.start.character).ok()?;
    }
    // 12 at 0
    // 3 at 4
    Some(())
}

/// The example of `hover`.
pub fn use_hover(
    rt: &HostRuntime,
    alloc: Global,
    language: &Language,
    settings: &Settings,
) -> Option<()> {
    let doc = Doc::open(alloc, language, Unit::Utf16, 1, "(1)").ok()?;
    let (line, character) = (0, 1);
    let position = Position { line, character };
    let shown = hover(
        alloc,
        language,
        settings,
        &doc,
        None,
        position,
        Markup::Plain,
    )
    .ok()??;
    println!(rt; "{:?}", shown.text.as_str()).ok()?;
    // "\"1\" number\n\nNUM in Atom in Sum in Atom in Sum"
    let pair = brackets(alloc, language, &doc, None, position).ok()??;
    println!(rt; "up to {}", pair.closing.end.character).ok()
    // up to 3
}
