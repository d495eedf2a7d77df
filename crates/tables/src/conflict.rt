//! What is reported of a conflict.
ghost use Rattle.std.specs.Prelude.{◌≡◌, ◌≢◌, true, false, IfOk};
ghost use Rattle.tables.specs.Actions.{IsClashAt};
ghost use Rattle.item_sets.specs.Collection.{AreStates};
ghost use Rattle.tables.specs.Reports.{IsEarlier, IsInOrder, Differ, IsReport};
ghost use Rattle.item_sets.specs.Sets.{IsItem, item_of};

use crate::decisions::Clash;
use crate::progress::ClashAt;
use definitions::Symbol;
use item_sets::{Item, States};
use productions::AugmentedGrammar;
use std::alloc::{AllocError, Global};

/// Two items that are valid for a prefix and call for different moves at a lookahead. None is the
/// end. The dot of `first` is at the end of its right side; where both are, its production is the
/// earlier one, the added start production before all.
#[derive(Debug, Drop)]
pub struct Conflict {
    /// Symbols for which both items are valid, which is proved. That they are no more than in any
    /// other prefix of their set is not: the sets are met breadth first, and of several with a
    /// conflict the one that is met first is reported.
    pub prefix: Vec<Symbol>,
    /// The token rule at which both call for a move, or none at the end.
    pub look: Option<usize>,
    /// An item at the end of its right side.
    pub first: Item,
    /// The other item.
    pub second: Item,
}

/// Whether a production comes before another, the added start production before all.
fn is_earlier(one: Option<usize>, two: Option<usize>) -> bool
    requires { one ≢ two }
    ensures yes { result ≡ true → IsEarlier one two }
    ensures no { result ≡ false → IsEarlier two one }
{
    match one {
        None => true,
        Some(p) => match two {
            None => false,
            Some(q) => p < q,
        },
    }
}

/// Whether the first of two items that conflict is to be reported first.
fn is_in_order(grammar: &AugmentedGrammar, clash: Clash) -> bool
    requires one { IsItem grammar.now clash.one }
    requires two { IsItem grammar.now clash.two }
    requires differ { Differ grammar.now.grammar clash }
    ensures yes { result ≡ true
        → IsInOrder (item_of grammar.now.grammar clash.one)
        (item_of grammar.now.grammar clash.two) }
    ensures no { result ≡ false
        → IsInOrder (item_of grammar.now.grammar clash.two)
        (item_of grammar.now.grammar clash.one) }
{
    if clash.one.next(grammar).is_some() {
        return false;
    }
    if clash.two.next(grammar).is_some() {
        return true;
    }
    is_earlier(clash.one.production, clash.two.production)
}

/// The conflict of two items of a state.
pub fn conflict_of(
    alloc: Global,
    grammar: &AugmentedGrammar,
    states: &States,
    at: ClashAt,
) -> Result<Conflict, AllocError>
    requires states { AreStates grammar.now states.now }
    requires clash { IsClashAt grammar.now states.now.kernels at }
    ensures { IfOk result (IsReport grammar.now.grammar) }
{
    let prefix = states.prefix(alloc, grammar, at.state)?;
    let clash = at.clash;
    let (first, second) = if is_in_order(grammar, clash) {
        (clash.one, clash.two)
    } else {
        (clash.two, clash.one)
    };
    Ok(Conflict {
        prefix,
        look: clash.look,
        first,
        second,
    })
}
