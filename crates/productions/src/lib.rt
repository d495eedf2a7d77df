//! The productions of a grammar with an added start production, and their FIRST sets: which
//! symbols are nullable, and with which token rules each can begin.
//!
//! `Productions::new` begins the productions, and `push` adds one. `AugmentedGrammar::of` takes
//! them and computes the sets; `may_follow` returns whether a lookahead can come after symbols,
//! `right` and `left` the sides of a production, `of_left` those of a nonterminal, `symbol_at` the
//! symbol of a number, and `lookahead_at` the lookahead of a column. A `Bucket` is a list
//! within a list, and `empty_buckets` makes some.
//!
//! Words: a *rule* is a token rule, by its number; a *lookahead* is a rule, or `None` for the end;
//! its *column* is its place among them, the end first; the *number* of a symbol counts the rules,
//! and after them the nonterminals.
//!
//! Limits: `of` requires that all numbers are below their counts, that each symbol is productive,
//! and that no production is there twice. It goes over the productions at most (rules + 1) *
//! (nonterminals + 1) times to find the sets. `may_follow` costs at most a step for each symbol,
//! and doesn't allocate.
//!
//! ```
//! let (list, number) = (Symbol::Nonterminal(0), Symbol::Rule(0));
//! let mut productions = Productions::new(alloc, 1, 1, 0);
//! productions.push(0, Vec::new(alloc)).ok()?;
//! let longer = Vec::from_slice(alloc, &[list, number]).ok()?;
//! productions.push(0, longer).ok()?;
//! let grammar = AugmentedGrammar::of(alloc, productions).ok()?;
//! let begins = grammar.may_follow(&[list], None, Some(0));
//! println!(rt; "a list can begin with a number: {begins}").ok()
//! // a list can begin with a number: true
//! ```
#![tactic(auto)]

mod augmented;
mod bucket;
mod first;
mod lookahead;
mod marks;
mod production_number;
mod productions;
mod symbols;

pub use augmented::AugmentedGrammar;
pub use bucket::{Bucket, empty_buckets};
pub use lookahead::lookahead_at;
pub use marks::Marks;
pub use production_number::ProductionNumber;
pub use productions::{Production, Productions};
pub use symbols::{number_of, symbol_at};
