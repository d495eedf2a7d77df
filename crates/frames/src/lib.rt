//! The base protocol of LSP 3.17: contents in frames, from bytes that come in any pieces, and back
//! to bytes.
//!
//! `Decoder::new` comes first; then `feed` takes bytes as they come, and returns the frames that
//! they complete. After the first fault each `feed` returns that fault again; `finish` says
//! whether the stream may end here. `write_frame` writes a content's frame to an `Output`.
//! `ReadInput` and `WriteOutput` make devices of std's readers and writers.
//!
//! Words: a *frame* is a header part and a content of as many bytes as its `Content-Length` says.
//!
//! Limits: a header part has at most 4,096 bytes, and a content at most 16,777,216. A `feed` costs
//! the size of the piece, and of the rest of a frame that it completes; where it leaves no bytes
//! to keep, the decoder keeps no room for any. `write_frame` doesn't allocate.
//!
//! ```
//! let mut decoder = Decoder::new(alloc);
//! let frames = decoder.feed(alloc, b"Content-Length: 2\r\n\r\n{}").ok()?;
//! let (count, may_end) = (frames.len(), decoder.finish().is_ok());
//! println!(rt; "{count} frame; may end here: {may_end}").ok()?;
//! // 1 frame; may end here: true
//! ```
#![tactic(auto)]

mod decoder;
mod fault;
mod header;
mod laws;
mod sink;
mod source;
mod write;

pub use decoder::{Decoder, Frame};
pub use fault::{DeviceFault, FrameFault};
pub use laws::{
    equal_faults_are_the_same, first_fault_decides, one_split, shortest_header_part, streams_go_on,
};
pub use sink::{Output, WriteOutput};
pub use source::{Input, ReadInput};
pub use write::write_frame;
