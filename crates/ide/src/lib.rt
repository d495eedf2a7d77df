//! The server of a language for editors: the core's, with what editors show besides (LSP 3.17).
//!
//! `run` is a whole session, from an `Input` to an `Output`. `Ide::new` and `handle` are for a
//! program that has its own loop: `handle` takes the content of a frame. A message that the core
//! knows is one step of the `server::Server` inside, and what that answers is sent; a request that
//! it doesn't know is answered from the document that it holds: colours, whole, by lines or as a
//! change, what may follow, the outline, what stands at a place, brackets, and what mends faults.
//! So a text is read, scanned and parsed once; of a faulty one a mended copy is parsed.
//!
//! Words: the *palette* has the colour of each rule, the number of a type in the legend of
//! semantic tokens; the *core* is the server inside.
//!
//! Limits: those of `server`. A message of the core costs what it costs there. In the example
//! `SUMS` is the grammar file in README.md.
//!
//! ```
//! let language = Language::load(alloc, SUMS).ok()?;
//! let settings = guess(alloc, language.grammar()).ok()?;
//! let shown = Shown {
//!     name: String::from_str(alloc, "lrls-ide sums").ok()?,
//!     types: &TOKEN_TYPES,
//!     texts: texts(alloc, language.grammar(), &settings).ok()?,
//!     settings,
//! };
//! let mut server = Ide::new(alloc, language, shown);
//! let content = Vec::from_slice(alloc, br#"{"jsonrpc":"2.0","method":"exit"}"#).ok()?;
//! let Sending { messages, stop } = server.handle(alloc, content, &[]).ok()?;
//! println!(rt; "{} messages; status {stop:?}", messages.len()).ok()
//! // 0 messages; status Some(1)
//! ```
#![tactic(auto)]

mod ide;
pub mod laws;
mod looked;
mod sending;
mod stream;

pub use self::ide::Ide;
pub use editor_replies::{Fault, Sent, Value, to_bytes};
pub use looked::{Looked, Notice, Watch, Written};
pub use sending::Sending;
pub use shown::Shown;
pub use stream::run;
