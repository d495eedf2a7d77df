//! How an editor is shown what the core answers (LSP 3.17).
//!
//! `Known::show` makes the messages that are sent of the core's answers: each as it is, but for
//! its capabilities, faults, which get the words of the language and those behind them, folds and
//! selections, where a mended copy has others; and of a lost document a message that says what to
//! do. A `Copied` is the mended copy of a document, so that it needn't be made anew for each
//! question.
//!
//! Words: the *core* is the server of the documents, `server::Server`. What is *shown* of a
//! language is the name of its server, the types of tokens, its settings, and the texts of rules.
//!
//! Limits: those of `faults` and `server`. A fault costs its words and, where no copy is kept, a
//! mended copy. In the example `language` is that of the grammar file in README.md, and `shown`
//! what is shown of it.
//!
//! ```
//! let known = Known::new(alloc, language, shown);
//! let replies = Vec::from_array(alloc, [Reply::Null { id: Id::Number(7) }]).ok()?;
//! let about = subject_in(alloc, "").ok()?;
//! let messages = known.show(alloc, replies, "", &about).ok()?;
//! println!(rt; "{}", messages.len()).ok()
//! // 1
//! ```
#![tactic(auto)]

mod faulty;
mod grown;
mod kept;
mod known;
mod losses;
mod showing;
mod shown;

pub use self::shown::Shown;
pub use kept::Kept;
pub use known::Known;
