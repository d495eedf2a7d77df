//! What mends the faults of kinds: a copy in which kinds are put in and left out until it is a
//! sentence, for what an editor shows behind the first fault.
//!
//! `Mending::whole` mends kinds, fault after fault, and `follow` makes of a copy that of other
//! kinds. `repairs` says what was done, `kinds` is the copy, `parse` and `nodes` are its parse,
//! and `tree` is its tree, where it is a sentence.
//!
//! Words: a *repair* stands at the first fault of the copy as those before it have left it, and is
//! a list of *changes*: a kind is put in, left out, or stays between others. The *rank* of a rule
//! says what is put in or left out first: a closing bracket or a separator should have a low one
//! of putting it in, and brackets and separators a high one of leaving them out.
//!
//! A repair is what `remedies` finds at its fault; no kind is changed twice.
//!
//! Limits: 256 faults, and those of `remedies`, with twice 32,768 moves at each of the first 16
//! and 2,048 at others. A repair costs these, and the way through the tree of the copy to it;
//! besides, `whole` costs a parse of the copy. After an edit of a few kinds `follow` costs what
//! `whole` costs near it, the ways to the repairs, and a look at each kind; where the edit changes
//! what is open behind it, or the copy is no sentence, it costs what `whole` does. In the example
//! `tables` are those of the grammar file in README.md, and `ranks` are those of its rules.
//!
//! ```
//! let kinds = [Kind::Rule(2), Kind::Rule(0)];
//! let listed = Listed { kinds: &kinds };
//! let mended = Mending::whole(alloc, tables, ranks, &listed).ok()?;
//! let repair = mended.repairs().first()?;
//! println!(rt; "from {} on: {:?}", repair.at, repair.changes).ok()
//! // from 0 on: [Keep, Keep, PutIn(3)]
//! ```
#![tactic(auto)]

mod balances;
mod check;
mod edit;
mod follow;
mod kinds;
mod listed;
mod mending;
mod pass;
mod repair;
mod seam;
mod walk;

pub use listed::Listed;
pub use mending::Mending;
pub use remedies::{Balance, Change, Rank};
pub use repair::Repair;
pub use walk::MOST_FAULTS;
