//! What mends one fault of kinds: few changes after which the kinds behind it go on, or a gap.
//!
//! `Fault::remedy` searches, from the stacks of the machine at the fault and shortly before it,
//! and the kinds from there on. `Origins` says which kinds of a copy stand for which.
//!
//! Words: a *change* puts a kind in, leaves one out, or lets one stay between others. The *rank*
//! of a rule says what is put in or left out first: a closing bracket or a separator should have a
//! low one of putting it in, and brackets and separators a high one of leaving them out. The
//! *balance* of kinds says how many more brackets of each sort they open than they close.
//! *Strangers* are two kinds of which one at least is in the text often, and which stand side by
//! side once at most.
//!
//! A remedy begins up to two kinds before the fault, and is the cheapest found after which three
//! more kinds, or the end, go on, by what the file `search` says of costs. Where there is none, or
//! fewer than eight kinds go on with the best when the moves run out, as few kinds as can be are
//! left out around the fault up to where three go on; a fault behind them counts as four kinds, or
//! 24 within 32.
//!
//! Limits: the moves that are allowed, twice, 512 places for each number of changes, and 8 lists
//! of changes. In the example `tables` are those of the grammar file in README.md, `ranks` are
//! those of its rules, and `pile` is the stack after `LP NUM`.
//!
//! ```
//! let pairs = Pairs::of(alloc, ranks.len(), &[]).ok()?;
//! let fault = Fault { pile, early: pile, lead: 0, last: None, kinds: &[], most: 2, moves: 2048 };
//! let guide = Guide { ranks, pairs: &pairs, balance: Balance::EVEN };
//! let remedy = fault.remedy(alloc, guide).ok()??;
//! println!(rt; "{:?}", remedy.changes).ok()
//! // [PutIn(3)]
//! ```
#![tactic(auto)]

mod ahead;
mod balance;
mod change;
mod guide;
mod origins;
mod pairs;
mod rank;
mod remedy;
mod resume;
mod search;

pub use ahead::LOOK;
pub use balance::Balance;
pub use change::Change;
pub use guide::Guide;
pub use origins::Origins;
pub use pairs::Pairs;
pub use rank::Rank;
pub use remedy::{Fault, LEAD, Remedy};
