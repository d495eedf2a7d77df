//! Which changes are made rather than others that are as good.

use crate::balance::Balance;

/// The ranks of a rule. Of changes that mend a fault as cheaply, and with which as many kinds go
/// on, those with the lowest sum of ranks are made.
#[derive(Clone, Copy, Debug, PartialEq, Eq)]
pub struct Rank {
    /// That of putting the rule's kind in.
    pub put_in: u8,
    /// That of leaving it out.
    pub leave_out: u8,
    /// Whether putting it in costs one change more.
    pub is_dear: bool,
    /// The brackets that the rule's kind opens and doesn't close.
    pub balance: Balance,
}
