//! What the commands of the program `lrls` do, over the bytes of files.
//!
//! `load` makes the language from the bytes of a grammar file, or returns what to print of its
//! fault. `check` and `parse` return what their commands print. `words` reads the words after the
//! program's name: what they ask for (`Words`), or `None` if they are no command of the program, a
//! request for help included. `Fault` is why the program ends with a fault: its `Display` is the
//! line on standard error, and `status` the exit status.
//!
//! Words: `Printed` is what goes to standard output and standard error, in bytes, and the exit
//! status, 2 where the command line or the grammar was refused.
//!
//! Limits: those of the crates below, and each call refuses for memory alone. `clap` reads the
//! words, so an option or a word that begins with `-` is none, and `--` ends the options. `parse`
//! opens the text as a document, so it costs a whole scan and parse. In the example `SUMS` is the
//! grammar file in README.md.
//!
//! ```
//! let language = load(alloc, SUMS.as_bytes()).ok()?.ok()?;
//! let printed = parse(alloc, &language, b"1 2").ok()?;
//! let line = str::from_utf8(&printed.out).unwrap_or("");
//! println!(rt; "status {}: {}", printed.status, line.trim_end()).ok()
//! // status 1: 0:2-0:3: unexpected NUM; expected PLUS, end
//! ```
#![tactic(auto)]

mod asked;
mod command_line;
mod conflicts;
mod fault;
mod printed;
mod status;
mod tasks;
mod texts;

pub use asked::Words;
pub use command_line::words;
pub use fault::Fault;
pub use printed::Printed;
pub use tasks::{check, load, parse};
