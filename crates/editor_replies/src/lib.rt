//! What the editor's server sends (LSP 3.17), and the JSON of each: what the core sends, and what
//! is answered besides, or said of the server's own accord.
//!
//! `to_bytes` writes a `Sent` as compact JSON, with the keys of each object in byte order. Its one
//! error is that memory ran out. It writes part by part: nothing is copied before, and no JSON
//! value is built but for `fixes_value`, `rows_value`, `nodes_value`, `sound_grammar_value` and
//! `faulty_grammar_value`, which are the results of their requests, for the diagnostics behind the
//! first (`behind_value`), and for the parameters of what is said of the server's own accord
//! (`told_value`, `watching_value`, `grammar_diagnostics_value`).
//!
//! Words: what the *core* sends is a `Reply`; a *fault* is shown in the words of a language, with
//! the text that the core has for it kept beside. The *legend* of colours has the types of tokens
//! by their numbers; a result with the colours of a whole document has a *name*, since which
//! changes are asked for.
//!
//! Limits: those of `replies`. A symbol of an outline that lies in more than 64 others is shown as
//! if it lay in 64. A call costs the bytes that it returns, and for an outline besides a look at
//! each symbol for each one that it lies in.
//!
//! ```
//! let sent = Sent::Colours {
//!     id: Id::Number(7),
//!     name: None,
//!     numbers: Vec::from_slice(alloc, &[0, 0, 1, 4, 0]).ok()?,
//! };
//! let bytes = to_bytes(alloc, &sent).ok()?;
//! println!(rt; "{}", str::from_utf8(&bytes).unwrap_or("")).ok()
//! // {"id":7,"jsonrpc":"2.0","result":{"data":[0,0,1,4,0]}}
//! ```
#![tactic(auto)]

mod diagnostics;
mod grammars;
mod numbers;
mod offers;
mod pages;
mod places;
mod remarks;
mod results;
mod sending;
mod sent;
mod symbols;
mod values;

pub use definitions::{Range, Unit};
pub use grammars::{faulty_grammar_value, grammar_diagnostics_value, sound_grammar_value};
pub use pages::{nodes_value, rows_value};
pub use replies::{Id, Reply};
pub use results::{behind_value, fixes_value, told_value, watching_value};
pub use sending::to_bytes;
pub use sent::{Change, Fault, Offered, Sent};
pub use serde_json::Value;
