//! A grammar file, line by line: what its lines say, the names that they define, and the first
//! fault that these show.
//!
//! `read_file` reads the text of a file. If you don't need the lines, call `Grammar::read` of
//! `grammar` instead, which calls it. A `File` has the statements with the numbers of their lines,
//! the names of rules and nonterminals, and the patterns; a `GrammarFault` has the line and the
//! cause of the first fault, and its `Display` is their text.
//!
//! Words: a *statement* is a line that says something; in `lrgrammar 2` a *marked word* is a name
//! with `*`, `+` or `?`, whose productions come after all statements.
//!
//! Limits: a file has at most 65,536 bytes, 256 token and skip rules, 256 nonterminals, 1,024
//! productions, and 16 symbols on a right side. Names are looked up by hash, so reading costs
//! about the length of the file. In the example `SUMS` is the grammar file in README.md.
//!
//! ```
//! let file = read_file(alloc, SUMS).ok()?;
//! let lines = file.statements.len();
//! let atom = file.names.nonterminals.number("Atom");
//! println!(rt; "{lines} statements; Atom is {atom}").ok()
//! // 11 statements; Atom is 1
//! ```
#![tactic(auto)]

mod fault;
mod file;
pub mod laws;
mod meanings;
mod name_set;
mod names;
mod production_set;
mod references;
mod rules;
mod statements;
mod written_out;

pub use fault::{GrammarCause, GrammarFault, Limit};
pub use file::read_file;
pub use grammar_line::Line;
pub use name_set::NameSet;
pub use names::Names;
pub use rules::{RuleName, Rules};
pub use statements::{File, Numbered};
