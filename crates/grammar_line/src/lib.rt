//! What one line of a grammar file says.
//!
//! `read_line` takes a line of a file of a `Version` and returns a `Line`: a production, a rule
//! with the text of its pattern, `start` or `fold` with a name, nothing, or that it is none of
//! these. `RightWord::read` takes a word of a right side apart, into its name and its `Mark`;
//! `is_reserved` says whether a name is reserved.
//!
//! Words: a *word* is what stands between spaces and tabs; a *name* is an ASCII letter or `_`,
//! then ASCII letters, digits and `_`; a *mark* is `*`, `+` or `?` at the end of a word, in
//! `lrgrammar 2`.
//!
//! No line is too long, and no pattern is read here. A line costs its length.
//!
//! ```
//! let line = read_line(alloc, Version::One, "token NUM = [0-9]+").ok()?;
//! let Line::Rule { name, pattern, .. } = line else {
//!     return None;
//! };
//! println!(rt; "{name} is {pattern}").ok()
//! // NUM is [0-9]+
//! ```
#![tactic(auto)]

mod line;
mod right_word;
mod words;

pub use line::{Line, Version, read_line};
pub use right_word::{Mark, RightWord, is_marked, plain};
pub use words::is_reserved;
