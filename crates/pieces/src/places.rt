//! Places in a text that is a list of pieces.

ghost use Rattle.std.specs.Prelude.{◌≡◌, ◌+◌, ◌*◌, ◌<◌, ◌≤◌, ◌^◌, ◌++◌, ℕ, List, [], length, take, drop, slice_index, string_bytes, OnOk, OnErr};
ghost use Rattle.std.specs.Str.{chars};
ghost use Rattle.definitions.specs.Text.{units};
ghost use Rattle.definitions.specs.declared.Unit.TheVariants.{Utf8};
ghost use Rattle.pieces.specs.Pieces.{text_in};
ghost use Rattle.pieces.specs.Sums.{sums_of};
ghost use Rattle.pieces.specs.Places.{IsCut};

use crate::piece::{Piece, SHORTEST_OF_SEVERAL};
use crate::sums::{AfterCharacter, Sums};
use seqtree::{Chunks, Measured, Seq};
use std::alloc::{AllocError, Global};
use std::marker::Model;

/// A text in pieces, of at most 2^30 bytes in UTF-8. The pieces are few: at most one has less than
/// [`SHORTEST_OF_SEVERAL`] bytes.
#[derive(Drop)]
pub struct Pieces {
    chunks: Chunks<Piece>,
}

impl Model for Pieces {
    ghost use Rattle.std.specs.Prelude.{List, ℕ, ◌≤◌, ◌^◌};
    ghost use Rattle.definitions.specs.Text.{units};
    ghost use Rattle.definitions.specs.declared.Unit.TheVariants.{Utf8};
    ghost use Rattle.pieces.specs.Pieces.{text_in};

    ghost Value = { List (List ℕ) };

    ghost view = { λ p. p.chunks };

    ghost invariant = { λ p. units Utf8 (text_in p.chunks) ≤ 2 ^ 30 };
}

/// Where a text in pieces is cut in two.
#[derive(Clone, Copy)]
pub struct Cut<'a> {
    /// How many pieces lie whole before the cut.
    pub piece: usize,
    /// How many bytes lie before the cut.
    pub bytes: usize,
    /// What lies before the cut of the piece that comes next, or nothing where none does.
    pub prefix: &'a str,
    /// What lies after the cut of that piece. It has at least one character.
    pub back: &'a str,
}

impl Pieces {
    /// The empty text, in no piece. Takes no memory.
    pub fn new() -> Self
        ensures { result ≡ [] }
    {
        Pieces {
            chunks: Chunks::new(),
        }
    }

    /// The pieces, in order.
    pub fn seq(&self) -> &Seq<Piece>
        ensures same { result.now ≡ self.now }
        ensures fits { units Utf8 (text_in result.now) ≤ 2 ^ 30 }
        ensures few { SHORTEST_OF_SEVERAL * length result.now
            ≤ units Utf8 (text_in result.now) + SHORTEST_OF_SEVERAL }
        ensures shortest { SHORTEST_OF_SEVERAL ≡ 509 }
    {
        self.chunks.seq()
    }

    /// Puts a text in the place of the pieces from `from` up to `to`, or to the end. Takes all
    /// memory before it changes anything, and refuses for memory alone; after a refusal the pieces
    /// are as before.
    pub fn replace(
        &mut self,
        alloc: Global,
        from: usize,
        to: usize,
        text: String,
    ) -> Result<(), AllocError>
        requires ordered { from ≤ to }
        requires in_range { from ≤ length self.old }
        requires fits { units Utf8 (text_in (take from self.old) ++ chars (string_bytes text)
            ++ text_in (drop to self.old)) ≤ 2 ^ 30 }
        ensures text { OnOk result (text_in self.new
            ≡ text_in (take from self.old) ++ chars (string_bytes text)
            ++ text_in (drop to self.old)) }
        ensures unchanged { OnErr result (self.new ≡ self.old) }
    {
        self.chunks.replace(alloc, from, to, text)?;
        Ok(())
    }

    /// Cuts the text in two at an offset, and at its end where the offset is past it. The steps
    /// are a logarithm, and one walk over a piece that isn't ASCII.
    pub fn cut_at(&self, offset: usize) -> Cut<'_>
        ensures { IsCut self.now offset result }
    {
        let pieces = self.seq();
        let found = pieces.find(&AfterCharacter { offset });
        let before_place = bytes_in(found.before);
        let Some(piece) = found.item else {
            return Cut {
                piece: found.place,
                bytes: before_place,
                prefix: "",
                back: "",
            };
        };
        let (prefix, back) = split(piece, offset - characters_in(found.before));
        Cut {
            piece: found.place,
            bytes: before_place + prefix.len(),
            prefix,
            back,
        }
    }

    /// The character at an offset. The steps are those of `cut_at`.
    pub fn character(&self, offset: usize) -> char
        requires { offset < length (text_in self.now) }
        ensures { result ≡ slice_index (text_in self.now) offset }
    {
        let Some(c) = self.cut_at(offset).back.chars().next() else {
            unreachable!()
        };
        c
    }

    /// How many characters the text has.
    pub fn characters(&self) -> usize
        ensures { result ≡ length (text_in self.now) }
    {
        characters_in(self.seq().total())
    }

    /// How many bytes the text has in UTF-8.
    pub fn bytes(&self) -> usize
        ensures { result ≡ units Utf8 (text_in self.now) }
    {
        bytes_in(self.seq().total())
    }
}

/// How many characters a part with this sum has.
fn characters_in(sums: Sums) -> usize
    ensures { (t : List ℕ) → sums ≡ sums_of t → result ≡ length t }
{
    match sums {
        Sums::Empty => 0,
        Sums::Filled(counts) => counts.characters as usize,
    }
}

/// How many bytes a part with this sum has.
fn bytes_in(sums: Sums) -> usize
    ensures { (t : List ℕ) → sums ≡ sums_of t → result ≡ units Utf8 t }
{
    match sums {
        Sums::Empty => 0,
        Sums::Filled(counts) => counts.bytes as usize,
    }
}

/// Splits a piece after its first `count` characters.
fn split(piece: &Piece, count: usize) -> (&str, &str)
    requires { count ≤ length piece.now }
    ensures prefix { chars result.0.now ≡ take count piece.now }
    ensures back { chars result.1.now ≡ drop count piece.now }
    ensures bytes { length result.0.now ≡ units Utf8 (take count piece.now) }
{
    piece.text().split_at(prefix_bytes(piece, count))
}

/// How many bytes the first `count` characters of a piece have.
fn prefix_bytes(piece: &Piece, count: usize) -> usize
    requires { count ≤ length piece.now }
    ensures { result ≡ units Utf8 (take count piece.now) }
{
    let text = piece.text();
    if characters_in(piece.sum()) == text.len() {
        return count;
    }
    let mut rest = text.chars();
    for _ in 0..count {
        let _ = rest.next();
    }
    text.len() - rest.as_str().len()
}
