//! The exit statuses.

/// All went well, and a text is a sentence.
pub const SUCCESS: u8 = 0;

/// A text has a fault, or something failed that isn't of the command line or the grammar.
pub const FAILURE: u8 = 1;

/// The command line or the grammar is refused.
pub const REFUSAL: u8 = 2;
