//! The numbers of symbols: the token rules before the nonterminals.
ghost use Rattle.std.specs.Prelude.{◌≡◌, ◌<◌, ◌+◌};
ghost use Rattle.productions.specs.Productions.{IsKnown};
ghost use Rattle.productions.specs.Symbols.{number, symbol_of};

use crate::augmented::AugmentedGrammar;
use definitions::Symbol;

/// The symbol with a number.
pub fn symbol_at(grammar: &AugmentedGrammar, k: usize) -> Symbol
    ensures { result ≡ symbol_of grammar.now.grammar k }
{
    if k < grammar.rules() {
        Symbol::Rule(k)
    } else {
        Symbol::Nonterminal(k - grammar.rules())
    }
}

/// The number of a symbol.
pub fn number_of(grammar: &AugmentedGrammar, symbol: Symbol) -> usize
    requires known { IsKnown grammar.now symbol }
    ensures below { result < grammar.now.grammar.rules + grammar.now.nonterminals }
    ensures number { result ≡ number grammar.now.grammar symbol }
{
    match symbol {
        Symbol::Rule(a) => a,
        Symbol::Nonterminal(n) => grammar.rules() + n,
    }
}
