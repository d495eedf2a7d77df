//! A core of another language in the place of one, with its documents (LSP 3.17).
//!
//! `reopened` makes a core that is initialized as the old one was, in which the documents that are
//! open there are opened as they are, by the messages that an editor would send. `open_uris` keeps
//! the list of their URIs, which the core doesn't hand out: `opened_by` is the one that a message
//! opens.
//!
//! Words: a *core* is a `server::Server`; a document is *open* where it is there and isn't lost.
//!
//! Limits: those of `server`. A call of `reopened` costs to open each document, of `open_uris` a
//! look-up for each. In the example `old` is a core with an open document `file:///a`, and
//! `language` the one to be served from now on.
//!
//! ```
//! let none = Vec::new(alloc);
//! let uris = open_uris(alloc, old, &none, "file:///a").ok()?;
//! let core = reopened(alloc, old, &uris, Unit::Utf16, language).ok()?;
//! println!(rt; "{} document; {} reply", uris.len(), core.replies.len()).ok()
//! // 1 document; 1 reply
//! ```
#![tactic(auto)]

mod cores;
mod uris;

pub use cores::{Core, reopened};
pub use uris::{open_uris, opened_by};
