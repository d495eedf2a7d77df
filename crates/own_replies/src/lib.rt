//! The replies to the requests that the core doesn't know (LSP 3.17).
//!
//! `reply` answers one: colours, whole, by lines or as a change, what may follow, the outline,
//! what stands at a place, brackets, what mends faults, the tokens of some lines, nodes of the
//! tree, and what is wrong with a grammar file; or it refuses it. It takes the documents from the
//! core, and what it tells of colours stays in the `Results`, since which changes are asked for.
//!
//! Words: the *core* is the server of the documents, `server::Server`; a *result* is a reply with
//! the colours of a whole document, and its name is its number.
//!
//! Limits: those of `colours`, `completion`, `outline`, `hover`, `faults`, `token_rows`,
//! `flat_trees` and `docs`, whose calls a reply costs. One result is remembered. In the example
//! `known` is a core with an open document `file:///a`, with what is shown of its language.
//!
//! ```
//! let mut results = Results::new();
//! let uri = String::from_str(alloc, "file:///a").ok()?;
//! let request = Own { id: Id::Number(7), asked: Asked::About(uri, Question::Colours) };
//! let Sent::Colours { numbers, .. } = reply(alloc, known, &mut results, request).ok()? else {
//!     return None;
//! };
//! println!(rt; "{numbers:?}").ok()
//! // [0, 0, 1, 19, 0]
//! ```
#![tactic(auto)]

mod grammars;
mod offered;
mod replying;
mod results;
mod ways;

pub use replying::reply;
pub use results::Results;
