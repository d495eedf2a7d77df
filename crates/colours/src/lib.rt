//! The colours of a document's tokens, as numbers that an editor reads (LSP 3.17, "Semantic
//! Tokens").
//!
//! `full` are those of all tokens, and `lines` those on some lines. `delta` is the edit that makes
//! the numbers of now out of those that were sent before: it leaves alone what both begin and end
//! with.
//!
//! Words: a *colour* is the number of a token type in the legend that the client was sent; a
//! *palette* has the colour of each token rule, by its number, or none. A *part* of a token is
//! what of it stands on one line, and has five numbers. Positions and lengths count the document's
//! unit.
//!
//! Limits: those of `docs`. `full` costs the characters and tokens of the text; `lines` a look-up
//! of the first token, and the characters and tokens from there up to the last one on these lines;
//! `delta` the numbers. In the example `language` is loaded from the grammar file in README.md.
//!
//! ```
//! let palette = [Some(4), Some(7)];
//! let doc = Doc::open(alloc, language, Unit::Utf16, 1, "1\n+2").ok()?;
//! let before = full(alloc, &palette, &doc).ok()?;
//! println!(rt; "{before:?}").ok()?;
//! // [0, 0, 1, 4, 0, 1, 0, 1, 7, 0, 0, 1, 1, 4, 0]
//! let doc = Doc::open(alloc, language, Unit::Utf16, 2, "1\n\n+2").ok()?;
//! let after = full(alloc, &palette, &doc).ok()?;
//! let edit = delta(&before, &after)?;
//! println!(rt; "{} give way to {:?}", edit.delete_count, edit.numbers).ok()
//! // 5 give way to [2, 0, 1, 7, 0]
//! ```
#![tactic(auto)]

mod edits;
mod encoder;
mod ranges;
mod steps;
mod whole;

pub use edits::{DataEdit, delta};
pub use ranges::lines;
pub use whole::full;
