//! Which nonterminals are productive.

ghost use Rattle.std.specs.Prelude.{◌≡◌, ◌<◌, length, IfOk, MatchOption};
ghost use Rattle.grammar.specs.Marks.{is_marked, are_marked, is_ready, IsClosed, IsNext, AreBelow, AreSound, AreComplete};

use definitions::Symbol;
use productions::Production;
use std::alloc::{AllocError, Global};

/// Whether each nonterminal is the root of some tree.
pub fn productive(
    alloc: Global,
    nonterminals: usize,
    productions: &[Production],
) -> Result<Vec<bool>, AllocError>
    requires { AreBelow productions.now nonterminals }
    ensures len { IfOk result (λ marks. length marks.items ≡ nonterminals) }
    ensures sound { IfOk result (λ marks. AreSound productions.now marks.items) }
    ensures complete { IfOk result (λ marks. AreComplete productions.now marks.items) }
{
    let mut marks = vec![in alloc; false; nonterminals]?;
    while let Some(nonterminal) = next(productions, &marks) {
        marks[nonterminal] = true;
    }
    Ok(marks)
}

/// A nonterminal without a mark that has a production over marked symbols alone.
fn next(productions: &[Production], marks: &[bool]) -> Option<usize>
    ensures { MatchOption result
        (IsClosed productions.now marks.now) (IsNext productions.now marks.now) }
{
    for production in productions {
        if is_ready(production, marks) {
            return Some(production.left);
        }
    }
    None
}

fn is_ready(production: &Production, marks: &[bool]) -> bool
    ensures { result ≡ is_ready marks.now production.now }
{
    are_marked(&production.right, marks) && !is_marked(Symbol::Nonterminal(production.left), marks)
}

fn are_marked(symbols: &[Symbol], marks: &[bool]) -> bool
    ensures { result ≡ are_marked marks.now symbols.now }
{
    symbols.iter().all(|symbol| is_marked(*symbol, marks))
}

fn is_marked(symbol: Symbol, marks: &[bool]) -> bool
    ensures { result ≡ is_marked marks.now symbol }
{
    match symbol {
        Symbol::Rule(_) => true,
        Symbol::Nonterminal(nonterminal) => marks.get(nonterminal).copied().unwrap_or(false),
    }
}
