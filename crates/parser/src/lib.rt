//! LR(1) parsing of the kinds of tokens by canonical tables (Knuth 1965), and its change by an
//! edit.
//!
//! `Parse::whole` parses a list of kinds, and `Parse::change` updates the parse to the kinds after
//! a splice, reusing the old trees that are still right. The input is anything that implements
//! `Kinds`: here a list. `verdict` is `Verdict::Tree`, `FaultAt` with the number of the first kind
//! with which no sentence continues, or `FaultAtEnd`.
//!
//! Words: the *settled trees* (`stack`) are the same in every sentence with the kinds before a
//! fault; `expected` is what may come at it; `counts` says how many nodes there are, and how many
//! the last edit made.
//!
//! Limits: the store has at most 1,024 nodes more than twice the branches of the parse. A change
//! reads few kinds besides those that the splice brings, and doesn't recurse. In the example
//! `tables` are those of the grammar file in README.md, and rule 0 is that of its numbers.
//!
//! ```
//! let kinds = Listed(&[Kind::Rule(0), Kind::Rule(0)]);
//! let mut store = Store::new(alloc);
//! let parse = Parse::whole(alloc, tables, &mut store, &kinds).ok()?;
//! let Verdict::FaultAt(k) = parse.verdict() else {
//!     return None;
//! };
//! println!(rt; "no sentence continues with kind {k}").ok()
//! // no sentence continues with kind 1
//! ```
#![tactic(auto)]

mod compact;
mod input;
pub mod laws;
mod machine;
mod older;
mod parse;
mod prepare;
mod reader;

pub use parse::{Parse, Verdict};
