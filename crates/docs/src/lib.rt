//! Documents of a language, with all that is reported on them.
//!
//! `Language::load` makes a language of a grammar file's text, or returns why the file defines
//! none: the first fault of the text, too many states of the automaton, too many sets of the
//! tables, or a conflict. `Doc::open` opens a document of it, with a unit of positions, a version
//! and a text. `change` consumes the document and returns it with one change applied, and
//! `set_version` gives it a version. `text`, `rows`, `tree`, `diagnostic`, `outcome`, `folds`,
//! `selections` and `stats` report on the document. `Pending` takes many changes of a document,
//! and scans and parses those that touch each other together.
//!
//! Words: a document is *current* for the language that it was opened with; the calls that take a
//! language require that one.
//!
//! Limits: a text is refused as `TooLarge` above 1,048,576 bytes of UTF-8. A change costs what it
//! changes of text, tokens and tree. In the example `language` is loaded from the grammar file in
//! README.md.
//!
//! ```
//! if let Ok(doc) = Doc::open(alloc, language, Unit::Utf16, 1, "1+(2")
//!     && let Ok(Some(fault)) = doc.diagnostic(alloc, language)
//!     && let Ok(doc) = doc.change(alloc, language, None, "1+2")
//!     && let Ok(Some(tree)) = doc.tree(alloc, language)
//! {
//!     println!(rt; "{}; then {tree}", fault.message).ok()?;
//!     // unexpected end; expected PLUS, RP; then (Sum (Sum (Atom NUM)) PLUS (Atom NUM))
//! }
//! ```
#![tactic(auto)]

mod doc;
mod language;
pub mod laws;
mod pending;
mod replacing;
mod significant;

pub use definitions::{Diagnostic, Position, Range, Row, Stats, Unit};
pub use doc::{Doc, DocFault, Outcome};
pub use language::{Language, LoadFault};
pub use pending::Pending;
pub use significant::Significant;
