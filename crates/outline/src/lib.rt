//! The symbols of a document, as an editor's outline shows them (LSP 3.17, "Document Symbols
//! Request").
//!
//! `outline` finds them by the rules of the language's settings, in the tree of the text, or,
//! where that has a fault, in the tree of its mended copy (`mending`). Where there is none, it
//! finds what stands before the fault: in the settled trees, and among the nodes that are still
//! open. `mended_folds` and `mended_selections` are what can be folded and selected in such a
//! copy.
//!
//! Words: a *symbol* is a node that a rule of the settings gives a name and a kind. Its *depth* is
//! the number of symbols that it lies in; each comes before those that lie in it, so the symbol
//! around it is the last one before it of a smaller depth. A node is *open* if the sentences with
//! the tokens before the fault go on with it; where some do and others not, the first production
//! that fits counts.
//!
//! Limits: those of `docs`. A call costs the tokens and the nodes of the text. In the example
//! `language` is loaded from the grammar file in README.md, and by `settings` each `Atom` with a
//! `NUM` is a symbol.
//!
//! ```
//! let doc = Doc::open(alloc, language, Unit::Utf16, 1, "12+(3").ok()?;
//! for symbol in &outline(alloc, language, settings, &doc, None).ok()? {
//!     println!(rt; "{} at {}", symbol.name, symbol.selection.start.character).ok()?;
//! }
//! // 12 at 0
//! // 3 at 4
//! ```
#![tactic(auto)]

mod finder;
mod folds;
mod found;
mod marks;
mod names;
mod nodes;
mod open;
mod outlines;
mod selections;
mod symbols;
mod walk;

pub use folds::mended_folds;
pub use outlines::outline;
pub use selections::mended_selections;
pub use symbols::OutlineSymbol;
