//! Stacks of the LR(1) machine by their states, without trees: to see what may follow some kinds,
//! and how far others go on.
//!
//! `Pile::at` is the stack after some of the kinds of a parse; `read` reads one more, `read_all`
//! several, and `expected` says what may follow. `Stacks` has many stacks, by number: `push` gives
//! the number of one with a state more, `read` that of the one after a kind, and `may_end` says
//! whether the end may follow.
//!
//! Words: in `Stacks` equal stacks have one number, and share what lies below; 0 is the stack of
//! no kinds. A *move* is a shift, a reduction or an acceptance; `allow` says how many may be made
//! from now on, and where there are no more, nothing goes on.
//!
//! Limits: those of `tables`. `Pile::at` costs the way from the trees of a parse down to a token.
//! A kind costs its moves, and in `Stacks` a search by hash for each; a stack there costs about
//! 100 bytes, and stays as long as they do. In the example `tables` are those of the grammar file
//! in README.md.
//!
//! ```
//! let mut pile = Pile::new(alloc, tables).ok()?;
//! let goes_on = pile.read(Kind::Rule(0)).ok()?;
//! println!(rt; "{goes_on}, then {:?}", pile.expected().next()?).ok()
//! // true, then Some(1)
//! ```
#![tactic(auto)]

mod descent;
mod pile;
mod stacks;

pub use pile::Pile;
pub use stacks::Stacks;
