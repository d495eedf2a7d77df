//! What is reported of a document besides its text: the rows of its tokens, the text of its tree,
//! its fault, the lines that can be folded, and what can be selected.
//!
//! Each call makes one report, from the text, its tokens, its trees and their nodes; `docs` calls
//! them for you. `token_rows` are the names and ranges of all tokens, `tree_text` is the text of a
//! tree, `diagnostic` the fault with its range and message, `folds` are the first and last lines
//! of the nodes that fold, and `selection` the ranges around an offset, from inner to outer.
//!
//! Words: positions count in the *unit* that the caller gives.
//!
//! Limits: a selection has at most 32 ranges. Each call costs the tokens or nodes that it goes
//! over, which is all of them, except for `selection`, and for `diagnostic`, whose message can
//! have the names of all rules. In the example `grammar` is read from the grammar file in
//! README.md, and `tokens` are those of `text`, which is `12`.
//!
//! ```
//! let rows = token_rows(alloc, grammar, Unit::Utf8, text, tokens).ok()?;
//! let row = rows.first()?;
//! println!(rt; "{} up to {}", row.name, row.range.end.character).ok()
//! // NUM up to 2
//! ```
#![tactic(auto)]

mod diagnoses;
mod foldable;
mod laws;
mod parts;
mod rows;
mod selections;
mod tree;

pub use definitions::{Diagnostic, Position, Range};
pub use diagnoses::diagnostic;
pub use foldable::folds;
pub use laws::{each_offset_has_a_selection, equal_rows_are_the_same, trees_have_folds};
pub use parts::{Part, span_of};
pub use rows::{Row, shared_rows, token_rows};
pub use selections::selection;
pub use tree::tree_text;
