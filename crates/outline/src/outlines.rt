//! The outline of a document.

ghost use Rattle.std.specs.Prelude.{All, IfOk, map};
ghost use Rattle.outline.specs.Nesting.{AreNested};
ghost use Rattle.outline.specs.Symbols.{IsSymbolOf};

use crate::finder::Finder;
use crate::marks::{fault_of, mended_spans, spans};
use crate::nodes::Nodes;
use crate::open::{OpenNode, open_nodes};
use crate::symbols::OutlineSymbol;
use docs::{Doc, Language};
use grammar::Grammar;
use mending::Mending;
use parser::{Parse, Verdict};
use settings::Settings;
use std::alloc::{AllocError, Global};

/// The symbols of a document, each before those that lie in it. Where the text has a fault, they
/// are those of its mended copy, in which what is put in has no width and is no name; without one,
/// or where that has a fault too, those that stand before it: of a node that isn't closed there
/// yet, if its name is; it ends at the fault, or with its last part. The settings are those of the
/// language, and the copy is the document's.
///
/// Refuses for memory alone.
pub fn outline(
    alloc: Global,
    language: &Language,
    settings: &Settings,
    doc: &Doc,
    mending: Option<&Mending>,
) -> Result<Vec<OutlineSymbol>, AllocError>
    ensures symbols { IfOk result (λ symbols.
        All (IsSymbolOf settings.now doc.now.unit doc.now.text) symbols.items) }
    ensures nested { IfOk result (λ symbols. AreNested (map (λ s. s.depth) symbols.items)) }
{
    let (store, parse, spans) = match mending {
        Some(mending) => (
            mending.nodes(),
            mending.parse(),
            mended_spans(alloc, doc, mending)?,
        ),
        None => (doc.nodes(), doc.parse(), spans(alloc, doc)?),
    };
    let nodes = Nodes::of(language, store);
    let characters = doc.characters().characters(alloc)?;
    let named = named(alloc, language.grammar(), settings)?;
    let open = open_before_fault(alloc, language, nodes, parse)?;
    let finder = Finder {
        alloc,
        doc,
        nodes,
        settings,
        characters: &characters,
        spans: &spans,
        named: &named,
        fault: fault_of(doc, parse, &spans),
    };
    let found = finder.all(parse.stack(), open)?;
    Ok(found.symbols)
}

/// Whether nodes of each production are symbols.
fn named(alloc: Global, grammar: &Grammar, settings: &Settings) -> Result<Vec<bool>, AllocError> {
    let mut named = Vec::with_capacity(alloc, grammar.productions())?;
    for production in 0..grammar.productions() {
        let nonterminal = grammar.left(production);
        named.push(settings.symbols.iter().any(|rule| rule.node == nonterminal))?;
    }
    Ok(named)
}

/// The nodes that are open at the fault of a parse, from inner to outer.
fn open_before_fault(
    alloc: Global,
    language: &Language,
    nodes: Nodes<'_>,
    parse: &Parse,
) -> Result<Vec<OpenNode>, AllocError> {
    match parse.verdict() {
        Verdict::Tree(_) => Ok(Vec::new(alloc)),
        Verdict::FaultAt(_) | Verdict::FaultAtEnd => {
            open_nodes(alloc, language, nodes, parse.stack())
        }
    }
}
