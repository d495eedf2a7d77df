//! The grammar of a grammar file: its rules, nonterminals and productions by number, or what is
//! wrong with it.
//!
//! `Grammar::read` reads the text of a file, or returns the first fault with its line
//! (`GrammarFault`, whose `Display` is the text that `lrls` prints after `lrls: `). `patterns`,
//! `kind_name`, `is_skipped`, `nonterminal_name`, `is_fold`, `left`, `right` and `start` return
//! what the file defines, and `notes` the names that no derivation from the start uses.
//!
//! Words: rules, nonterminals and productions have numbers in file order, from 0; those of marked
//! words come last.
//!
//! Limits: those of `grammar_file`. The calls of a `Grammar` after `read` don't allocate, and all
//! except `notes` are a look-up. In the example `SUMS` is the grammar file in README.md.
//!
//! ```
//! let grammar = Grammar::read(alloc, SUMS).ok()?;
//! let name = grammar.kind_name(Kind::Rule(1));
//! println!(rt; "rule 1 is {name}").ok()
//! // rule 1 is PLUS
//! ```
#![tactic(auto)]

mod grammar;
mod notes;
mod numbers;
mod productive;
mod read;
mod unproductive;
mod used;

pub use definitions::{Kind, KindSplice, Symbol};
pub use grammar::{Grammar, Notes};
pub use grammar_file::{GrammarCause, GrammarFault, Limit};
