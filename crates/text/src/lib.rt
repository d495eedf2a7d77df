//! The text of a document: characters, offsets and positions, edits and their limit.
//!
//! `Text::open` takes a text; `replace` edits it by offsets, and `span` gives those of a range of
//! positions, as a client sends it, or of the whole text where the range is `None`. `at`,
//! `chars_from`, `characters` and `to_string` return characters, `position` and `offset` convert
//! places, and `places` is a walk along the text for many positions in ascending order.
//!
//! Words: an *offset* counts characters from 0; a *position* is a line and a count of units in it
//! (LSP 3.17, "Position").
//!
//! Limits: a text has at most 1,048,576 bytes of UTF-8; an edit that would exceed this is refused
//! as `TextFault::TooLarge`, and the text stays as before. An edit costs the pieces that it
//! touches and the new characters.
//!
//! ```
//! let mut text = Text::open(alloc, "1+2").ok()?;
//! let (from, to) = text.span(Unit::Utf16, None);
//! text.replace(alloc, from, to, "1\n2").ok()?;
//! let place = text.position(Unit::Utf16, 2);
//! println!(rt; "offset 2 is on line {}", place.line).ok()?;
//! // offset 2 is on line 1
//! ```
#![tactic(auto)]

mod characters;
mod document;
mod laws;
mod places;

pub use characters::Chars;
pub use definitions::{Position, Range, Unit};
pub use document::{LONGEST_TEXT, Text, TextFault};
pub use laws::{changes_keep_texts, equal_faults_are_the_same};
pub use places::Places;
