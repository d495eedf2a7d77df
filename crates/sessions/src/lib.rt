//! Sessions: what a server does with each message, and what holds in every session (LSP 3.17;
//! JSON-RPC 2.0).
//!
//! The definitions are `Step`, the step on one message, `Run`, the steps on the contents of
//! frames, and `Session`, from the bytes that are read to the bytes that are written. `server` has
//! the server that makes these steps, and the loop.
//!
//! Nothing here runs but the types of what `server` returns (`Out`, `Phase`, `RunFault`): the
//! functions of `laws` are theorems, with empty bodies. Call one in a proof, or in code that needs
//! its fact. `every_answer_is_fresh` says that each answer is that of a fresh server on the text,
//! `each_text_is_its_edits` that each text is the result of its edits, and
//! `each_document_is_alone` that what is sent about a document depends on the messages about it,
//! the phase at each, the room for it where it is opened, and whether memory was refused in its
//! changes.
//!
//! Words: the *phase* of a session is before `initialize`, ready, or after `shutdown`.
//!
//! ```
//! each_text_is_its_edits();
//! let phase = Phase::Ready(Unit::Utf16);
//! println!(rt; "{phase:?}").ok()
//! // Ready(Utf16)
//! ```
#![tactic(auto)]

mod fault;
pub mod laws;
mod out;
mod phase;

pub use fault::RunFault;
pub use out::Out;
pub use phase::Phase;
