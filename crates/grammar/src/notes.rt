//! What a file defines and no derivation from the start uses.

ghost use Rattle.std.specs.Prelude.{◌≡◌, ◌↔◌, ◌&&◌, ◌++◌, ◌∷◌, [], List, true, false, IfOk, OnOk, slice_index_or};
ghost use Rattle.definitions.specs.declared.Symbol.{Symbol};
ghost use Rattle.std.specs.List.{list_any};
ghost use Rattle.definitions.specs.Trees.{Grammar};
ghost use Rattle.definitions.specs.Sentences.{IsUsed};
ghost use Rattle.grammar.specs.Grammars.{FileGrammar};
ghost use Rattle.grammar.specs.Notes.{AreNotes, has_rule, is_rule, is_skip};
ghost use Rattle.grammar.specs.Uses.{AreUsed};

use crate::used::is_marked;
use definitions::Symbol;
use productions::Production;
use std::alloc::{AllocError, Global};

/// Those of the symbols, in order, that are neither skipped nor used, where `marks` has the
/// nonterminals that are.
pub fn notes(
    alloc: Global,
    defined: &[Symbol],
    skips: &[bool],
    productions: &[Production],
    marks: &[bool],
) -> Result<Vec<Symbol>, AllocError>
    ensures { IfOk result (λ notes.
        (f : FileGrammar) → f.skips ≡ skips.now → f.grammar.productions ≡ productions.now →
        AreUsed f.grammar.start productions.now marks.now → AreNotes f defined.now notes.items) }
{
    let mut notes = Vec::new(alloc);
    for symbol in defined {
        add(&mut notes, *symbol, skips, productions, marks)?;
    }
    Ok(notes)
}

/// Adds the symbol where it is neither skipped nor used.
fn add(
    notes: &mut Vec<Symbol>,
    symbol: Symbol,
    skips: &[bool],
    productions: &[Production],
    marks: &[bool],
) -> Result<(), AllocError>
    ensures { OnOk result ((f : FileGrammar) (ss : List Symbol) → f.skips ≡ skips.now →
        f.grammar.productions ≡ productions.now →
        AreUsed f.grammar.start productions.now marks.now → AreNotes f ss notes.old.items →
        AreNotes f (ss ++ symbol ∷ []) notes.new.items) }
{
    if is_skip(symbol, skips) || is_used(symbol, productions, marks) {
        return Ok(());
    }
    notes.push(symbol)?;
    Ok(())
}

fn is_skip(symbol: Symbol, skips: &[bool]) -> bool
    ensures { (f : FileGrammar) → f.skips ≡ skips.now → result ≡ is_skip f symbol }
{
    match symbol {
        Symbol::Rule(rule) => skips.get(rule).copied().unwrap_or(false),
        Symbol::Nonterminal(_) => false,
    }
}

/// Whether some derivation from the start uses the symbol.
fn is_used(symbol: Symbol, productions: &[Production], marks: &[bool]) -> bool
    ensures { (g : Grammar) → g.productions ≡ productions.now →
        AreUsed g.start productions.now marks.now → (result ≡ true) ↔ IsUsed g symbol }
{
    match symbol {
        Symbol::Nonterminal(nonterminal) => is_marked(nonterminal, marks),
        Symbol::Rule(rule) => uses_rule(rule, productions, marks),
    }
}

/// Whether the rule stands on the right side of a production whose left side is marked.
fn uses_rule(rule: usize, productions: &[Production], marks: &[bool]) -> bool
    ensures { result
        ≡ list_any (λ p. slice_index_or marks.now p.left false && has_rule rule p.right)
        productions.now }
{
    productions.iter().any(|production| is_marked(production.left, marks)
        && has_rule(rule, &production.right))
}

fn has_rule(rule: usize, symbols: &[Symbol]) -> bool
    ensures { result ≡ has_rule rule symbols.now }
{
    symbols.iter().any(|symbol| is_rule(rule, *symbol))
}

fn is_rule(rule: usize, symbol: Symbol) -> bool
    ensures { result ≡ is_rule rule symbol }
{
    match symbol {
        Symbol::Rule(other) => other == rule,
        Symbol::Nonterminal(_) => false,
    }
}
