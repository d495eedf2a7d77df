//! What may follow at an offset of a document.

ghost use Rattle.std.specs.Prelude.{◌≡◌, ◌≤◌, ℕ, Bool, List, IfOk, length, map, option_to_list};
ghost use Rattle.docs.specs.Docs.{IsCurrent};
ghost use Rattle.lexer.specs.Tokens.{plain};
ghost use Rattle.tables.specs.Expected.{in_file_order};
ghost use Rattle.completion.specs.Places.{MayFollow, unskipped};

use crate::expected::expected;
use crate::places::tokens_before;
use definitions::Kind;
use docs::{Doc, Language};
use grammar::Grammar;
use mending::Repair;
use std::alloc::{AllocError, Global};
use tables::Expected;

/// The kind, unless it is skipped.
fn unless_skipped(grammar: &Grammar, kind: Option<Kind>) -> Option<Kind>
    ensures { option_to_list result ≡ unskipped grammar.now.skips (option_to_list kind) }
{
    match kind {
        Some(kind) if !grammar.is_skipped(kind) => Some(kind),
        _ => None,
    }
}

/// The rules that may follow at an offset of a document, as the repairs mend it, in file order,
/// and then the end. Refuses for memory alone.
pub fn following<'a>(
    alloc: Global,
    language: &'a Language,
    doc: &Doc,
    repairs: &[Repair],
    offset: usize,
) -> Result<Expected<'a>, AllocError>
    requires current { IsCurrent language.now doc.now }
    requires within { offset ≤ length doc.now.text }
    ensures { let tokens = map plain doc.now.tokens.items in
        IfOk result (λ looks. (rules : List ℕ) × (at_end : Bool)
        × MayFollow language.now.file doc.now.text tokens repairs.now offset rules
        × (looks ≡ in_file_order rules at_end)) }
{
    let (text, tokens) = (doc.characters(), doc.tokens());
    let found = tokens_before(alloc, language.automaton(), text, tokens, offset)?;
    let Some(before) = found else {
        return Ok(Expected::nothing());
    };
    let last = unless_skipped(language.grammar(), before.last);
    expected(alloc, language.tables(), doc, repairs, before.count, last)
}
