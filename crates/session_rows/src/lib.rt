//! Worked sessions. Each is a function that runs its bytes; what is written, and how the session
//! ends, follows from the contract of `run`, and from laws of the crates below.
//!
//! A session may also end because a device gave out or memory was refused: an `Input` can be read
//! so many times, and then fails, and bytes that are written take memory. What was written until
//! then is a prefix of the session's bytes.
#![tactic(auto)]

mod any_session;
mod few_bytes;
mod memory;
mod typed;

pub use any_session::promised;
pub use few_bytes::{cut_short, no_json, then_no_frame, two_lengths};
pub use memory::{Ran, over, over_input};
pub use typed::{typed_in, typing};
