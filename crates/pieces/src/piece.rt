//! A piece of a text.

ghost use Rattle.std.specs.Prelude.{◌≡◌, ◌≤◌, ◌++◌, length, IfOk, string_bytes};
ghost use Rattle.std.specs.Str.{chars};
ghost use Rattle.pieces.specs.Sums.{sums_of};

use crate::sums::{Sums, of_text};
use seqtree::{Chunk, Measured};
use std::alloc::{AllocError, Global};
use std::marker::Model;

/// The most bytes that a piece may have in UTF-8.
pub const LONGEST_PIECE: usize = 1_024;

/// The fewest bytes that a piece has where a text is cut into several: a half, and up to 3 bytes
/// less, where a character lies across the middle.
pub const SHORTEST_OF_SEVERAL: usize = 509;

/// A part of a text: its characters, of at least one byte and at most [`LONGEST_PIECE`] in UTF-8,
/// and their sum.
#[derive(Drop)]
pub struct Piece {
    text: String,
    sums: Sums,
}

impl Model for Piece {
    ghost use Rattle.std.specs.Prelude.{List, ℕ, string_bytes};
    ghost use Rattle.std.specs.Str.{chars};
    ghost use Rattle.pieces.specs.Pieces.{IsPiece};

    ghost Value = { List ℕ };

    ghost view = { λ p. chars (string_bytes p.text) };

    ghost invariant = { λ p. IsPiece (string_bytes p.text) p.sums };
}

impl Piece {
    /// The characters in UTF-8.
    pub fn text(&self) -> &str
        ensures characters { chars result.now ≡ self.now }
        ensures some { 1 ≤ length result.now }
        ensures few { length result.now ≤ LONGEST_PIECE }
        ensures longest { LONGEST_PIECE ≡ 1024 }
    {
        self.text.as_str()
    }
}

impl Measured for Piece {
    ghost use Rattle.pieces.specs.Sums.{sums_of};

    type Sum = Sums;

    ghost measure = { sums_of };

    fn sum(&self) -> Sums {
        self.sums
    }
}

impl Chunk for Piece {
    ghost use Rattle.std.specs.Prelude.{string_bytes};
    ghost use Rattle.std.specs.Str.{chars};
    ghost use Rattle.definitions.specs.Text.{units};
    ghost use Rattle.definitions.specs.declared.Unit.TheVariants.{Utf8};
    ghost use Rattle.pieces.specs.Laws.{bytes_measure};
    ghost use Rattle.pieces.specs.declared.piece.TheConstants.{LONGEST_PIECE, SHORTEST_OF_SEVERAL};

    type Item = char;

    type Items = String;

    const SHORTEST: usize = SHORTEST_OF_SEVERAL;

    const LONGEST: usize = LONGEST_PIECE;

    ghost SHORTEST = { SHORTEST_OF_SEVERAL };

    ghost LONGEST = { LONGEST_PIECE };

    ghost items = { λ piece. piece };

    ghost list = { λ whole. chars (string_bytes whole) };

    ghost size = { units Utf8 };

    ghost laws = { bytes_measure };

    fn size(whole: &String) -> usize {
        whole.as_str().len()
    }

    fn before(&self, alloc: Global, back: String) -> Result<String, AllocError> {
        let both = join_three(alloc, self.text(), back.as_str(), "")?;
        Ok(both)
    }

    fn after(&self, alloc: Global, prefix: String) -> Result<String, AllocError> {
        let both = join_three(alloc, prefix.as_str(), self.text(), "")?;
        Ok(both)
    }

    fn cut_off(whole: &mut String, most: usize) -> Result<Piece, AllocError> {
        let text = whole.as_str();
        let at = text.ceil_char_boundary(text.len() - most);
        let text = whole.split_off(at)?;
        let sums = of_text(text.as_str());
        Ok(Piece { text, sums })
    }
}

/// Three texts, one after another. Refuses for memory alone.
pub fn join_three(
    alloc: Global,
    prefix: &str,
    middle: &str,
    back: &str,
) -> Result<String, AllocError>
    ensures { IfOk result (λ text.
        chars (string_bytes text) ≡ chars prefix.now ++ chars middle.now ++ chars back.now) }
{
    let mut text = String::from_str(alloc, prefix)?;
    text.push_str(middle)?;
    text.push_str(back)?;
    Ok(text)
}
