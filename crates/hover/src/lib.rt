//! What an editor shows at a position of a document: what stands there, and the two brackets of a
//! node.
//!
//! `hover` is a text about the fault that is there, with all that was expected, or else about the
//! token: its text, what it is called, and the nodes around it, in plain text or in Markdown (LSP
//! 3.17, "Hover Request"). `brackets` are the two brackets of a node, where one of them is there
//! (LSP 3.17, "Document Highlights Request"). Both take the mended copy of a document with a fault
//! (`mending`), for what stands behind it.
//!
//! Words: a *bracket* is a parenthesis, a square bracket or a brace that stands in one production
//! with its partner, or one of two words at both ends of a production that has a nonterminal
//! between them, as `begin` and `end`. A *run* is nodes of one nonterminal, each in the one before
//! it.
//!
//! Limits: a token's text is cut after 30 characters or at its first line break, and at most 12
//! runs of nodes are named. A call costs a look-up of the token, the nodes on the way down to it,
//! for `brackets` the productions of the grammar, and where the copy is asked the kinds of that.
//! In the example `language` is loaded from the grammar file in README.md, with its `settings`.
//!
//! ```
//! let doc = Doc::open(alloc, language, Unit::Utf16, 1, "(1)").ok()?;
//! let (line, character) = (0, 1);
//! let position = Position { line, character };
//! let shown = hover(alloc, language, settings, &doc, None, position, Markup::Plain).ok()??;
//! println!(rt; "{:?}", shown.text.as_str()).ok()?;
//! // "\"1\" number\n\nNUM in Atom in Sum in Atom in Sum"
//! let pair = brackets(alloc, language, &doc, None, position).ok()??;
//! println!(rt; "up to {}", pair.closing.end.character).ok()
//! // up to 3
//! ```
#![tactic(auto)]

mod chain;
mod hovers;
mod markup;
mod pairs;
mod partners;
mod spans;

pub use hovers::{HoverText, hover};
pub use markup::Markup;
pub use partners::{BracketPair, brackets};
