//! What a content asks of the editor's server, and which requests are cancelled (LSP 3.17).
//!
//! `read_content` reads the content of a frame. What the core reads of it is a message of `rpc`;
//! a request that this doesn't know is read once more, as an `Own` one: a `Question` about a
//! document, the text of a grammar file that is to be looked at, or one whose parameters don't
//! fit. From `initialize` it takes what the editor can show, a `Client`. `cancels` has the ids of
//! the requests that the contents of frames cancel, and `question_id` that of a request which can
//! be cancelled.
//!
//! Words: the *core* is the server of the crate `server`; a *question* is a request about a
//! document, of the core's methods or of others.
//!
//! Limits: those of `rpc`; a content of more than 1,024 bytes cancels nothing. A call costs the
//! content, which is read twice where the core doesn't know its method.
//!
//! ```
//! let content = br#"{"id":7,"method":"textDocument/documentSymbol","params":{
//!     "textDocument":{"uri":"file:///a"}},"jsonrpc":"2.0"}"#;
//! let content = Vec::from_slice(alloc, content).ok()?;
//! let Content { own, .. } = read_content(alloc, Phase::Ready(Unit::Utf16), content).ok()?;
//! let Own { asked, .. } = own?;
//! let Asked::About(uri, Question::Outline) = asked else {
//!     return None;
//! };
//! println!(rt; "the outline of {uri}").ok()
//! // the outline of file:///a
//! ```
#![tactic(auto)]

mod asked;
mod cancelling;
mod client;
mod content;
mod subject;

pub use asked::{Asked, Question};
pub use cancelling::{cancels, copy_of, is_cancelled};
pub use client::Client;
pub use content::{Content, Own, question_id, read_content};
pub use rpc::{Id, Message, Position, Range, RpcFault, Unit};
pub use sessions::Phase;
pub use subject::{Subject, subject_in, subject_of};
