//! The tokens on some lines of a document, as rows that are looked at.
//!
//! `token_rows` has them in order, each with the name of its rule, its range and its text. What
//! the core's `lr/tokens` has of a whole text this has of the lines on a screen.
//!
//! Limits: of a text 60 characters are told. A call costs a look-up of the first token, and of
//! each row a look-up of its positions. In the example `language` is loaded from the grammar file
//! in README.md.
//!
//! ```
//! let doc = Doc::open(alloc, language, Unit::Utf16, 1, "1\n+2").ok()?;
//! for row in &token_rows(alloc, language, &doc, 1, 2).ok()? {
//!     println!(rt; "{} {}", row.name, row.text).ok()?;
//! }
//! // PLUS +
//! // NUM 2
//! ```
#![tactic(auto)]

mod rows;

pub use rows::{TokenRow, token_rows};
