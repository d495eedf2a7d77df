//! What a whole text says of the repairs in it.

use crate::balance::Balance;
use crate::pairs::Pairs;
use crate::rank::Rank;

/// What is known of the kinds of a text, by which repairs are chosen.
#[derive(Clone, Copy)]
pub struct Guide<'a> {
    /// The rank of each token rule.
    pub ranks: &'a [Rank],
    /// Which kinds stand side by side.
    pub pairs: &'a Pairs,
    /// The balance of all kinds.
    pub balance: Balance,
}
