//! Messages of faults in the texts of a language, in place of the names of its rules. For whoever
//! shows documents of the language in an editor.
//!
//! `message` says what stands at a fault and what was expected there: at most six alternatives,
//! operators together. `related` says all of them with the names of their rules where the message
//! doesn't, `every` lists them, and `found_text` is what stands there alone. `word` is what one
//! rule is called, and `shown` a text of a document as messages show it.
//!
//! Words: what *can be shown* has no control or format character, and no separator but the space
//! (by its general category in Unicode). What was *expected* are rules by their numbers, in file
//! order, and whether the end of the text was.
//!
//! Limits: a text of more than 30 characters is cut. A call costs the texts of the rules that are
//! expected. In the example `grammar` is read from the grammar file in README.md, and `settings`
//! are guessed from it.
//!
//! ```
//! let message = message(alloc, grammar, settings, Found::End, &[0, 2], false).ok()?;
//! println!(rt; "{message}").ok()
//! // unexpected end of the text; expected NUM or "("
//! ```
#![tactic(auto)]

mod alternatives;
mod found;
mod messages;
mod words;

pub use found::{END, Found, found_text, shown};
pub use messages::{every, message, related};
pub use words::word;
