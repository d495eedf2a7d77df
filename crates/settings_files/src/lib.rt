//! The settings file of a language (docs/IDE.md): TOML that says what its grammar doesn't.
//!
//! `read` takes settings from a file, with the guess of `settings` for each table that isn't
//! there. `grammar_of` is the grammar file that a settings file names, and `to_toml` writes
//! settings as a file.
//!
//! Words: those of `settings`. A `SettingsFault` says what is wrong with a file, and where.
//!
//! Limits: those of a grammar. `read` costs the file, and for each of its names the names of the
//! grammar. In the example `grammar` is read from the grammar file in README.md.
//!
//! ```
//! let settings = read(alloc, grammar, "[colours]\nNUM = \"number\"\n").ok()?;
//! let number = settings.colours.first().copied()??;
//! println!(rt; "NUM has the type of number {number}").ok()
//! // NUM has the type of number 19
//! ```
#![tactic(auto)]

mod faults;
mod names;
mod reading;
mod symbols;
mod writing;

pub use faults::{Mistake, Place, SettingsFault};
pub use reading::{grammar_of, read};
pub use settings::Settings;
pub use writing::to_toml;
