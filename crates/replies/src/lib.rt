//! What is sent (JSON-RPC 2.0; LSP 3.17): replies, published diagnostics and log messages, and the
//! JSON of each.
//!
//! `to_bytes` writes a `Reply` as compact JSON, with the keys of each object in byte order. Its
//! one error is that memory ran out. It writes the reply part by part: nothing of it is copied
//! before, and no JSON value is built. `send_reply`, `send_id`, `send_integer`, `send_range`,
//! `send_synchronisation` and `unit_name` are for a server that has replies of its own.
//!
//! Words: a `Reply` is a result, an error, published diagnostics or a log message. An `Id` names
//! the request that is answered; a `Refusal` says why it is refused, a `Loss` why a document was
//! lost, and a `Log` what is logged of a notification.
//!
//! Limits: numeric ids and versions have 32 bits. A call costs the bytes that it returns.
//!
//! ```
//! let reply = Reply::Null { id: Id::Number(7) };
//! let bytes = to_bytes(alloc, &reply).ok()?;
//! println!(rt; "{}", str::from_utf8(&bytes).unwrap_or("")).ok()
//! // {"id":7,"jsonrpc":"2.0","result":null}
//! ```
#![tactic(auto)]

mod id;
pub mod laws;
mod notifications;
mod parts;
mod reply;
mod results;
mod sending;

pub use definitions::{Diagnostic, Position, Range, Row, Stats, Unit};
pub use id::Id;
pub use parts::{send_id, send_integer, send_range};
pub use reply::{Log, Loss, Refusal, Reply, unit_name};
pub use results::send_synchronisation;
pub use sending::{send_reply, to_bytes};
