//! A list of small items that knows the sums of its parts, as a `Seq` does, and takes little more
//! memory than the items themselves: they are stored in runs of up to 64.
//!
//! `Runs::new` is an empty list; `replace` puts items in the place of others. `len`, `get`,
//! `total`, `iter_from` and `locate` are as those of a `Seq`; `total_before` is the sum before a
//! place, and `seq` the runs.
//!
//! Words: a *run* is a node's items, which lie together. The items are `Measured`, and `Copy`:
//! here tokens.
//!
//! Limits: as many items as `usize` counts; at most one run has fewer than 32. `replace`
//! allocates, and after a refusal the list is as before. A call costs the logarithm of the length
//! and a walk in one run; `replace` also costs the new items and the runs that it touches.
//!
//! ```
//! let number = Token {
//!     born: 0,
//!     length: 2,
//!     reach: 3,
//!     short_kind: ShortKind::Rule(0),
//!     skipped: false,
//! };
//! let mut list: Runs<Token> = Runs::new();
//! list.replace(alloc, 0, 0, &[number, number]).ok()?;
//! println!(rt; "{} characters", list.total().characters).ok()?;
//! // 4 characters
//! ```
#![tactic(auto)]

mod counted;
mod cuts;
mod items;
mod list;
mod run;

pub use items::Iter;
pub use list::Runs;
pub use run::Run;
pub use seqtree::{Goal, Measured, Monoid};
