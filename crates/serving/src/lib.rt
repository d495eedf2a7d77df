//! `lrls serve`: from the bytes of a grammar file and what comes in to what goes out and the exit
//! status.
//!
//! `serve` loads the language of the file, and serves it by `server::run`; where the file defines
//! none, nothing is read or written, and what is to be printed is returned. So its contract is the
//! theorem of the whole command, with nothing between the file's bytes and the session.
//!
//! Words: `Served` is what came of it: how the session `Ended`, or what is `Refused` of the file.
//!
//! Limits: those of `commands` and `server`. In the example `SUMS` is the grammar file in
//! README.md; the input is a whole session, and the output a list of bytes.
//!
//! ```
//! let session = b"Content-Length: 33\r\n\r\n{\"jsonrpc\":\"2.0\",\"method\":\"exit\"}";
//! let mut input = ReadInput::new(session.as_slice());
//! let mut written = Vec::new(alloc);
//! let mut output = WriteOutput::new(&mut written);
//! match serve(alloc, SUMS.as_bytes(), &mut input, &mut output).ok()? {
//!     Served::Ended(outcome) => println!(rt; "{outcome:?}").ok(),
//!     Served::Refused(printed) => println!(rt; "status {}", printed.status).ok(),
//! }
//! // Ok(1)
//! ```
#![tactic(auto)]

mod served;

pub use commands::Printed;
pub use served::{Served, serve};
pub use server::RunFault;
