//! The trees of a document or of its mended copy, by the places of their tokens.
//!
//! A `Forest` has the trees that stand on the parser's stack: one where the text is a sentence,
//! and those before its fault where it isn't. `below` and `innermost` go down to the node that has
//! a token. `Numbers` says for which significant tokens of the document the kinds of a mended copy
//! stand (`mending`).
//!
//! Words: the *place* of a token is its number among those of the trees, counted from 0: in a
//! document that of the significant token, in a copy that of the kind.
//!
//! Limits: those of `docs`. `below` costs the children of a node, `innermost` those of the nodes
//! on the way, and `Numbers::of` the kinds of the copy. In the example `language` is loaded from
//! the grammar file in README.md.
//!
//! ```
//! let doc = Doc::open(alloc, language, Unit::Utf16, 1, "1+(2)").ok()?;
//! let forest = Forest::of_document(&doc);
//! let branch = forest.innermost(3)?;
//! println!(rt; "the node around the 2 begins at token {}", branch.from).ok()
//! // the node around the 2 begins at token 3
//! ```
#![tactic(auto)]

mod forest;
mod numbers;

pub use forest::{Branch, Forest};
pub use numbers::Numbers;
