//! The numbers and names of what a grammar defines.

ghost use Rattle.std.specs.Prelude.{◌<◌, length, IfSome};
ghost use Rattle.grammar.specs.Grammars.{IsKnown};

use definitions::Symbol;
use grammar::{Grammar, Kind};

/// The number of the rule of this name.
pub fn rule_named(grammar: &Grammar, name: &str) -> Option<usize>
    ensures { IfSome result (λ rule. rule < length grammar.now.names) }
{
    (0..grammar.rules()).find(|rule| grammar.kind_name(Kind::Rule(*rule)) == name)
}

/// The number of the nonterminal of this name, which may be a marked word.
pub fn nonterminal_named(grammar: &Grammar, name: &str) -> Option<usize>
    ensures { IfSome result (λ n. n < length grammar.now.nonterminals) }
{
    for nonterminal in 0..grammar.nonterminals() {
        if grammar.nonterminal_name(nonterminal) == name {
            return Some(nonterminal);
        }
    }
    None
}

/// The rule or the nonterminal of this name.
pub fn symbol_named(grammar: &Grammar, name: &str) -> Option<Symbol>
    ensures { IfSome result (IsKnown grammar.now) }
{
    match rule_named(grammar, name) {
        Some(rule) => Some(Symbol::Rule(rule)),
        None => match nonterminal_named(grammar, name) {
            Some(nonterminal) => Some(Symbol::Nonterminal(nonterminal)),
            None => None,
        },
    }
}

/// The name of a symbol; empty where the grammar has none of this number.
pub fn name_of(grammar: &Grammar, symbol: Symbol) -> &str {
    match symbol {
        Symbol::Rule(rule) => grammar.kind_name(Kind::Rule(rule)),
        Symbol::Nonterminal(nonterminal) => nonterminal_name(grammar, nonterminal),
    }
}

/// The name of a nonterminal; empty where the grammar has none of this number.
pub fn nonterminal_name(grammar: &Grammar, nonterminal: usize) -> &str {
    if nonterminal < grammar.nonterminals() {
        grammar.nonterminal_name(nonterminal)
    } else {
        ""
    }
}
