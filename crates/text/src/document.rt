//! The text of a document.

ghost use Rattle.std.specs.Prelude.{◌≡◌, ◌+◌, ◌*◌, ◌<◌, ◌≤◌, ◌↔◌, ◌++◌, ℕ, List, length, drop, slice_index, Err, IfOk, OnOk, OnErr, string_bytes, encode_utf8_all};
ghost use Rattle.std.specs.List.{concat};
ghost use Rattle.std.specs.Str.{chars};
ghost use Rattle.definitions.specs.Text.{IsText, edit, changed};
ghost use Rattle.definitions.specs.Text as of;

use crate::characters::Chars;
use crate::places::Places;
use definitions::{Position, Range, Unit};
use pieces::{Piece, Pieces, SHORTEST_OF_SEVERAL, join_three};
use seqtree::Seq;
use std::alloc::{AllocError, Global};
use std::marker::Model;
use thiserror::Error;

/// The most bytes that a text may have in UTF-8.
pub const LONGEST_TEXT: usize = 1_048_576;

/// Why a text was not taken.
#[derive(Clone, Copy, Debug, PartialEq, Eq, Error)]
pub enum TextFault {
    /// The text would have more than [`LONGEST_TEXT`] bytes.
    #[error("the text would have more than 1,048,576 bytes in UTF-8")]
    TooLarge,
    /// Memory was refused.
    #[error("memory was refused")]
    Memory,
}

impl From<AllocError> for TextFault {
    ghost use Rattle.text.specs.declared.document.TextFault.TheVariants.{Memory};

    ghost from_gives = { λ _ e. e ≡ Memory };

    fn from(_: AllocError) -> TextFault {
        TextFault::Memory
    }
}

/// The text of a document (LSP 3.17, "Text Documents"): its characters, of at most
/// [`LONGEST_TEXT`] bytes in UTF-8.
///
/// Offsets count characters, and positions count lines and units (LSP 3.17, "Position"). The text
/// lies in pieces, so that an edit costs the pieces that it touches, the new characters, and the
/// logarithm of the length.
#[derive(Drop)]
pub struct Text {
    pieces: Pieces,
}

impl Model for Text {
    ghost use Rattle.std.specs.Prelude.{List, ℕ};
    ghost use Rattle.pieces.specs.Pieces.{text_in};
    ghost use Rattle.text.specs.Stored.{IsStored};

    ghost Value = { List ℕ };

    ghost view = { λ t. text_in t.pieces };

    ghost invariant = { λ t. IsStored t.pieces };
}

impl Text {
    /// The text with the characters of `text`.
    ///
    /// `TooLarge` exactly where `text` has more than [`LONGEST_TEXT`] bytes.
    pub fn open(alloc: Global, text: &str) -> Result<Text, TextFault>
        ensures opened { IfOk result (λ opened. opened ≡ chars text.now) }
        ensures limit { LONGEST_TEXT ≡ 1048576 }
        ensures too_large { (result ≡ Err TextFault.TooLarge) ↔ (LONGEST_TEXT < length text.now) }
    {
        if text.len() > LONGEST_TEXT {
            return Err(TextFault::TooLarge);
        }
        let mut pieces = Pieces::new();
        pieces.replace(alloc, 0, 0, String::from_str(alloc, text)?)?;
        Ok(Text { pieces })
    }

    /// Puts `new` in the place of the characters from offset `a` up to offset `b`.
    ///
    /// `TooLarge` exactly where the text would have more than [`LONGEST_TEXT`] bytes. After a
    /// refusal the text is as before.
    pub fn replace(&mut self, alloc: Global, a: usize, b: usize, new: &str) -> Result<(), TextFault>
        requires ordered { a ≤ b }
        requires in_range { b ≤ length self.old }
        ensures edited { OnOk result (self.new ≡ edit self.old a b (chars new.now)) }
        ensures unchanged { OnErr result (self.new ≡ self.old) }
        ensures too_large { (result ≡ Err TextFault.TooLarge)
            ↔ (LONGEST_TEXT < length (encode_utf8_all (edit self.old a b (chars new.now)))) }
    {
        let start = self.pieces.cut_at(a);
        let end = self.pieces.cut_at(b);
        let kept = start.bytes + (self.bytes() - end.bytes);
        if new.len() > LONGEST_TEXT - kept {
            return Err(TextFault::TooLarge);
        }
        let text = join_three(alloc, start.prefix, new, end.back)?;
        let (from, to) = (start.piece, end.piece + 1);
        self.pieces.replace(alloc, from, to, text)?;
        Ok(())
    }

    /// What a change of a document takes away (LSP 3.17, "TextDocumentContentChangeEvent"): the
    /// offsets of the range in ascending order, since its ends may stand in either order, or those
    /// of the whole text where there is none.
    pub fn span(&self, unit: Unit, range: Option<Range>) -> (usize, usize)
        ensures is { result ≡ of.span unit self.now range }
        ensures edits { (s : List ℕ) →
            changed unit self.now range s ≡ edit self.now result.0 result.1 s }
        ensures ordered { result.0 ≤ result.1 }
        ensures in_range { result.1 ≤ length self.now }
    {
        match range {
            None => (0, self.len()),
            Some(range) => {
                let start = self.offset(unit, range.start);
                let end = self.offset(unit, range.end);
                (start.min(end), start.max(end))
            }
        }
    }

    /// The offset of a position (LSP 3.17, "Position"): past the end of a line it is the end of
    /// the line, past the last line the end of the text, and between the units of one character
    /// the start of that character.
    pub fn offset(&self, unit: Unit, position: Position) -> usize
        ensures is { result ≡ of.offset unit self.now position }
        ensures within { result ≤ length self.now }
    {
        self.pieces.offset(unit, position)
    }

    /// The position of an offset (LSP 3.17, "Position"). Between a `\r` and its `\n` it is the end
    /// of the line, and past the end of the text the end of the text.
    pub fn position(&self, unit: Unit, offset: usize) -> Position
        ensures { result ≡ of.position unit self.now offset }
    {
        self.pieces.position(unit, offset)
    }

    /// A walk over the text, from its start, that returns positions as it goes.
    pub fn places(&self, unit: Unit) -> Places<'_>
        ensures { result ≡ record { text = self.now; offset = 0; unit = unit } }
    {
        Places::new(self.pieces.seq(), unit)
    }

    /// How many characters the text has.
    pub fn len(&self) -> usize
        ensures count { result ≡ length self.now }
        ensures few { result ≤ LONGEST_TEXT }
        ensures characters { IsText self.now }
    {
        self.pieces.characters()
    }

    /// How many bytes the text has in UTF-8, at most [`LONGEST_TEXT`].
    pub fn bytes(&self) -> usize
        ensures count { result ≡ length (encode_utf8_all self.now) }
        ensures few { result ≤ LONGEST_TEXT }
    {
        self.pieces.bytes()
    }

    /// The character at an offset. The steps are a logarithm of the length, and those within one
    /// piece.
    pub fn at(&self, offset: usize) -> char
        requires { offset < length self.now }
        ensures { result ≡ slice_index self.now offset }
    {
        self.pieces.character(offset)
    }

    /// The characters from an offset on, none from the end of the text on.
    pub fn chars_from(&self, offset: usize) -> Chars<'_>
        ensures { result ≡ drop offset self.now }
    {
        let cut = self.pieces.cut_at(offset);
        Chars::new(cut.back, self.pieces.seq().iter_from(cut.piece + 1))
    }

    /// All characters, one after another, for readers that go by offsets through the whole text.
    pub fn characters(&self, alloc: Global) -> Result<Vec<char>, AllocError>
        ensures { IfOk result (λ characters. characters.items ≡ self.now) }
    {
        let mut characters = Vec::with_capacity(alloc, self.len())?;
        for piece in self.pieces().iter_from(0) {
            add_characters(&mut characters, piece.text())?;
        }
        Ok(characters)
    }

    /// The whole text in UTF-8.
    pub fn to_string(&self, alloc: Global) -> Result<String, AllocError>
        ensures { IfOk result (λ string. string_bytes string ≡ encode_utf8_all self.now) }
    {
        let mut string = String::with_capacity(alloc, self.bytes())?;
        for piece in self.pieces.seq().iter_from(0) {
            string.push_str(piece.text())?;
        }
        Ok(string)
    }

    /// The pieces of the text, in order. They are few: but for one, each has at least
    /// [`SHORTEST_OF_SEVERAL`] bytes.
    pub fn pieces(&self) -> &Seq<Piece>
        ensures text { concat result.now ≡ self.now }
        ensures few { SHORTEST_OF_SEVERAL * length result.now
            ≤ length (encode_utf8_all self.now) + SHORTEST_OF_SEVERAL }
    {
        self.pieces.seq()
    }
}

/// Puts the characters of a text after those of a list.
fn add_characters(characters: &mut Vec<char>, text: &str) -> Result<(), AllocError>
    ensures { OnOk result (characters.new.items ≡ characters.old.items ++ chars text.now) }
{
    for c in text.chars() {
        characters.push(c)?;
    }
    Ok(())
}
