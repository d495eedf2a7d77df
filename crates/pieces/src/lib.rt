//! Pieces of texts, and their sums for lines and positions: a `Seq` of pieces is a text whose
//! parts know what they add up to.
//!
//! `of_text` returns the sum of a text, and `join` that of two texts, one after the other.
//! `Pieces` is a text in pieces: `position` and `offset` convert offsets to positions and back,
//! `cut_at` returns what is before and after an offset, and `replace` puts a text in the place of
//! pieces. A text alone is cut into pieces by `cut_up` of `seqtree`.
//!
//! Words: the *sum* of a text is its characters, bytes and line breaks, and the units after the
//! last break, in UTF-8, UTF-16 and UTF-32.
//!
//! Limits: a piece has 1 to 1,024 bytes of UTF-8, and `Pieces` have at most 2^30; sums are exact
//! up to 4,294,967,295. A look-up takes steps logarithmic in the number of pieces, and a walk in
//! one piece.
//!
//! ```
//! let text = String::from_str(alloc, "1+\n2").ok()?;
//! let pieces: Vec<Piece> = cut_up(alloc, text).ok()?;
//! println!(rt; "{} piece", pieces.len()).ok()?;
//! // 1 piece
//! if let Sums::Filled(sums) = of_text("1+\n2") {
//!     println!(rt; "{} break", sums.breaks).ok()?;
//! }
//! // 1 break
//! ```
#![tactic(auto)]

mod laws;
mod look_up;
mod piece;
mod places;
mod sums;

pub use definitions::{Position, Unit};
pub use laws::{equal_sums_are_the_same, sums_join};
pub use piece::{LONGEST_PIECE, Piece, SHORTEST_OF_SEVERAL, join_three};
pub use places::{Cut, Pieces};
pub use sums::{AfterCharacter, AfterPosition, Counts, Sums, Units, of_character, of_text};
