//! The faults of a document in the words of its language, those behind the first one too, and what
//! mends each.
//!
//! `words_of_fault` is the message of the fault that the core has. `mended` is a copy of a faulty
//! document's kinds in which each fault is mended, and `followed` that copy after a change.
//! `behind` are the faults that it has behind the first: each is one if those before it are mended
//! so, and says it. `fixes` are the edits that mend the faults at a range (LSP 3.17, "Code Action
//! Request").
//!
//! Words: what is *put in* is the text of a token, what is *left out* is one. A *fix* is a few of
//! these that mend a fault as cheaply as any, and is *preferred* where the copy is mended so. A
//! rule's *text* is the one that completion offers for it.
//!
//! Limits: those of `mending`; 20 faults are told, and 8 fixes of each. `mended` costs a parse and
//! the search of `mending`, `followed` mostly what is near the change, the other calls what they
//! say. In the example `language` is loaded from the grammar file in README.md, with its
//! `settings` and the `texts` of its rules.
//!
//! ```
//! let doc = Doc::open(alloc, language, Unit::Utf16, 1, "(1 2)+(3 4)").ok()?;
//! let mending = mended(alloc, language, texts, &doc).ok()??;
//! let all = behind(alloc, language, settings, &doc, &mending).ok()?;
//! println!(rt; "{}", all.first()?.message).ok()?;
//! // unexpected "4"; expected ")" or "+"
//! let about = About { alloc, language, settings, texts, doc: &doc, mending: &mending };
//! let fixes = about.fixes(all.first()?.range).ok()?;
//! println!(rt; "{}", fixes.first()?.title).ok()
//! // leave out "4"
//! ```
#![tactic(auto)]

mod copies;
mod edits;
mod fixes;
mod later;
mod scans;
mod signs;
mod spans;
mod steps;
mod words;

pub use copies::{followed, mended, ranks};
pub use edits::TextEdit;
pub use fixes::{About, Fix};
pub use later::{FaultBehind, Note, behind};
pub use words::{Words, words_of_fault};
