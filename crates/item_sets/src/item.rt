//! The items of sets.
ghost use Rattle.std.specs.Prelude.{◌≡◌, ◌<◌, ◌+◌, ◌^◌, IfSome};
ghost use Rattle.definitions.specs.Derivations.{first};
ghost use Rattle.productions.specs.Productions.{IsKnown};
ghost use Rattle.item_sets.specs.Sets.{IsItem, after_dot};

use definitions::Symbol;
use productions::{AugmentedGrammar, ProductionNumber};

/// An item: its production, where its dot is, and its lookahead. None is the added start
/// production, and the end.
#[derive(Clone, Copy, Debug, PartialEq, Eq, Hash)]
pub struct Item {
    /// The number of the production in file order, from 0.
    pub production: Option<usize>,
    /// How many symbols of the right side are before the dot.
    pub at: usize,
    /// The token rule that may follow.
    pub look: Option<usize>,
}

impl Item {
    /// The symbol after the dot, or none where the dot is at the end.
    pub fn next(self, grammar: &AugmentedGrammar) -> Option<Symbol>
        requires { IsItem grammar.now self }
        ensures next { result ≡ first (after_dot grammar.now.grammar self) }
        ensures known { IfSome result (IsKnown grammar.now) }
        ensures fits { IfSome result (λ s. self.at + 1 < 2 ^ 64) }
    {
        match self.production {
            None => {
                if self.at == 0 {
                    Some(Symbol::Nonterminal(grammar.start()))
                } else {
                    None
                }
            }
            Some(p) => {
                let right = grammar.right(ProductionNumber { index: p });
                if self.at < right.len() {
                    Some(right[self.at])
                } else {
                    None
                }
            }
        }
    }
}
