//! Messages (JSON-RPC 2.0; LSP 3.17): which message a content is.
//!
//! `read` returns the message that a content is. An `RpcFault` says that a content is no JSON or
//! no message, that a request has an unknown method or invalid parameters, or that memory ran out.
//! What is sent is in `replies`: this crate has its public names too, so a caller needs to know
//! only `rpc`. `text_at`, `uri_at`, `id_of`, `position_at` and `range_of` read parts of messages,
//! for a server that has methods of its own.
//!
//! Words: a `Message` is a request (a `Call` with its `Id`), a notification (a `Note`), or one
//! that is ignored.
//!
//! Limits: numeric ids and versions have 32 bits; a content that is nested deeper than
//! `serde_json` reads counts as no JSON. A call costs the content.
//!
//! ```
//! let content = br#"{"jsonrpc":"2.0","id":7,"method":"shutdown"}"#;
//! let Message::Request(Id::Number(id), _) = read(alloc, content).ok()? else {
//!     return None;
//! };
//! println!(rt; "request {id}").ok()
//! // request 7
//! ```
#![tactic(auto)]

mod fields;
mod laws;
mod message;
mod parts;
mod reading;

pub use definitions::{Diagnostic, Position, Range, Stats, Unit};
pub use fields::text_at;
pub use laws::{each_text_is_unicode, received_exists, received_unique, written_messages_are_read};
pub use message::{Call, Change, Malformed, Message, Note, RpcFault};
pub use parts::{id_of, position_at, range_of, uri_at};
pub use reading::read;
pub use replies::{Id, Log, Loss, Refusal, Reply, Row, to_bytes};
