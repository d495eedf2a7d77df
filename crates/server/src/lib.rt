//! The server of a language's documents (LSP 3.17). The contract of `run` is the theorem.
//!
//! `run` is a whole session, from an `Input` to an `Output`: it returns the exit status, or why it
//! ended without one (`RunFault`). `Server::new` and `handle` are for a program that has its own
//! loop: `handle` takes one message, and the `Out` that it returns has the replies and, at `exit`,
//! the status. What a session is, and what is done with each message, is defined in `sessions`.
//!
//! Words: the *phase* of a session is before `initialize`, ready, or after `shutdown`; a document
//! is *lost* where the server no longer has its text.
//!
//! Limits: a server holds at most 64 documents, lost ones included. A message costs what it does
//! to the document that it names, and the look-up of its URI. In the example `SUMS` is the grammar
//! file in README.md.
//!
//! ```
//! let language = Language::load(alloc, SUMS).ok()?;
//! let mut server = Server::new(alloc, language);
//! let message = read(alloc, br#"{"jsonrpc":"2.0","method":"exit"}"#);
//! let out = server.handle(alloc, message).ok()?;
//! println!(rt; "{} replies; status {:?}", out.replies.len(), out.stop).ok()
//! // 0 replies; status Some(1)
//! ```
#![tactic(auto)]

mod answers;
mod changes;
mod documents;
mod entry;
mod notifications;
mod out;
mod question;
mod requests;
mod session;
mod state;
mod stream;

pub use docs::{Doc, DocFault, Language, LoadFault, Outcome, Unit};
pub use session::run;
pub use sessions::{Out, Phase, RunFault};
pub use state::Server;
