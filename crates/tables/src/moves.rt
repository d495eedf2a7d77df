//! What a set of items calls for.
ghost use Rattle.std.specs.Prelude.{Some, None, All, Option};
ghost use Rattle.item_sets.specs.declared.item.Item.{Item};
ghost use Rattle.item_sets.specs.Sets.{IsItem};
ghost use Rattle.tables.specs.Moves.{IsCall, IsDecision};

use definitions::Symbol;
use item_sets::Item;
use productions::AugmentedGrammar;

/// What an item calls for.
#[derive(Clone, Copy, Debug, PartialEq, Eq)]
pub enum Call {
    /// To take what is next.
    Shift,
    /// To reduce by the production with this number.
    Reduce(usize),
    /// To accept.
    Accept,
}

/// What the items of a set call for at one lookahead.
#[derive(Clone, Copy, Debug, PartialEq, Eq)]
pub enum Decision {
    /// For no move.
    Nothing,
    /// All that call for a move call for this one.
    Agreed(Call),
    /// Two of them call for different moves.
    Conflict(Item, Item),
}

/// What the item calls for where `look` is next.
pub fn call_of(grammar: &AugmentedGrammar, item: Item, look: Option<usize>) -> Option<Call>
    requires { IsItem grammar.now item }
    ensures { IsCall grammar.now.grammar item look result }
{
    match item.next(grammar) {
        Some(Symbol::Rule(a)) => {
            if look == Some(a) {
                Some(Call::Shift)
            } else {
                None
            }
        }
        Some(Symbol::Nonterminal(_)) => None,
        None => {
            if item.look == look {
                match item.production {
                    None => Some(Call::Accept),
                    Some(p) => Some(Call::Reduce(p)),
                }
            } else {
                None
            }
        }
    }
}

/// What all items call for, or two that call for different moves.
pub fn decide(grammar: &AugmentedGrammar, items: &[Item], look: Option<usize>) -> Decision
    requires { All (IsItem grammar.now) items.now }
    ensures { IsDecision grammar.now.grammar items.now look result }
{
    let mut agreed: Option<Call> = None;
    let mut one = Item {
        production: None,
        at: 0,
        look: None,
    };
    for item in items {
        if let Some(c) = call_of(grammar, *item, look) {
            match agreed {
                None => {
                    agreed = Some(c);
                    one = *item;
                }
                Some(d) => {
                    if c != d {
                        return Decision::Conflict(one, *item);
                    }
                }
            }
        }
    }
    match agreed {
        None => Decision::Nothing,
        Some(c) => Decision::Agreed(c),
    }
}
