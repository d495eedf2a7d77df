//! Canonical LR(1) tables (Knuth 1965): the move of each state at each lookahead, or a conflict
//! that shows why there are none.
//!
//! `Tables::build` makes the tables of a grammar, or returns a `Conflict`: a prefix, a lookahead,
//! and two items that call there for different moves. `start` is the first state, `action` the
//! move of a state at a lookahead, `goto` the state after a nonterminal, and `expects` all that
//! may come next, in file order and the end last.
//!
//! Words: a *lookahead* is a kind, or `None` for the end; a *state* is a number below that of the
//! sets, and the calls require that it is one.
//!
//! Limits: more than 8,192 sets of items are refused as `TooManySets`. Building costs what the
//! collection of `item_sets` costs; the other calls are one look-up each and don't allocate. An
//! entry of a table takes 16 bits, where the grammar has at most 32,768 productions. In the
//! example `grammar` is read from the grammar file in README.md.
//!
//! ```
//! let tables = Tables::build(alloc, grammar).ok()?;
//! let action = tables.action(tables.start(), Some(Kind::Rule(0)));
//! let shifts = matches!(action, Some(Move::Shift(_)));
//! println!(rt; "a number is shifted: {shifts}").ok()
//! // a number is shifted: true
//! ```
#![tactic(auto)]

mod conflict;
mod decisions;
mod expected;
pub mod laws;
mod moves;
mod packed;
mod progress;
mod rows;
mod tables;

pub use conflict::Conflict;
pub use decisions::Move;
pub use expected::Expected;
pub use item_sets::Item;
pub use tables::{MOST_SETS, TableFault, Tables};
