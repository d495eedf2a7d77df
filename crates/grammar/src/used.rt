//! Which symbols some derivation from the start uses.

ghost use Rattle.std.specs.Prelude.{◌≡◌, ◌<◌, IfOk, MatchOption, slice_index_or, false, true, Some, ℕ};
ghost use Rattle.definitions.specs.declared.Symbol.TheVariants.{Nonterminal};
ghost use Rattle.grammar.specs.Marks.{are_marked};
ghost use Rattle.grammar.specs.Uses.{IsSpread, IsUnmarkedIn, IsReached, AreWithin, AreUsed};

use definitions::Symbol;
use productions::Production;
use std::alloc::{AllocError, Global};

/// Whether each nonterminal is used by some derivation from the start.
pub fn mark_used(
    alloc: Global,
    nonterminals: usize,
    start: usize,
    productions: &[Production],
) -> Result<Vec<bool>, AllocError>
    requires start { start < nonterminals }
    requires within { AreWithin productions.now nonterminals }
    ensures { IfOk result (λ marks. AreUsed start productions.now marks.items) }
{
    let mut marks = vec![in alloc; false; nonterminals]?;
    marks[start] = true;
    while let Some(nonterminal) = next(productions, &marks) {
        marks[nonterminal] = true;
    }
    Ok(marks)
}

/// A nonterminal without a mark on the right side of a production whose left side has one.
fn next(productions: &[Production], marks: &[bool]) -> Option<usize>
    ensures { MatchOption result
        (IsSpread productions.now marks.now) (IsReached productions.now marks.now) }
{
    for production in productions {
        if let Some(nonterminal) = next_of(production, marks) {
            return Some(nonterminal);
        }
    }
    None
}

fn next_of(production: &Production, marks: &[bool]) -> Option<usize>
    ensures none { result ≡ None → slice_index_or marks.now production.now.left false ≡ true →
        are_marked marks.now production.now.right ≡ true }
    ensures some { (n : ℕ) → result ≡ Some n →
        (slice_index_or marks.now production.now.left false ≡ true) ×
        IsUnmarkedIn marks.now production.now.right n }
{
    if is_marked(production.left, marks) {
        first_unmarked(&production.right, marks)
    } else {
        None
    }
}

/// The first nonterminal among the symbols that isn't marked.
fn first_unmarked(symbols: &[Symbol], marks: &[bool]) -> Option<usize>
    ensures { MatchOption result
        (are_marked marks.now symbols.now ≡ true) (IsUnmarkedIn marks.now symbols.now) }
{
    for symbol in symbols {
        if let Symbol::Nonterminal(nonterminal) = *symbol
            && !is_marked(nonterminal, marks)
        {
            return Some(nonterminal);
        }
    }
    None
}

/// Whether the nonterminal is marked.
pub fn is_marked(nonterminal: usize, marks: &[bool]) -> bool
    ensures { result ≡ slice_index_or marks.now nonterminal false }
{
    marks.get(nonterminal).copied().unwrap_or(false)
}
