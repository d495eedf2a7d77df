//! A walk over a text that returns positions as it goes.

ghost use Rattle.std.specs.Prelude.{◌≡◌, ◌∷◌, ◌+◌, ◌<◌, ◌≤◌, ◌^◌, ℕ, List, length, min, drop, slice_get};
ghost use Rattle.pieces.specs.Pieces.{text_in};
ghost use Rattle.definitions.specs.Text as of;
ghost use Rattle.text.specs.Places.{Place};

use crate::characters::Chars;
use definitions::{Position, Unit};
use pieces::Piece;
use seqtree::Seq;
use std::marker::Model;

/// An offset of a text, from its start on, and its position (LSP 3.17, "Position").
///
/// To go on by so many characters takes as many steps, so that the positions of a whole text are
/// found in one pass.
#[derive(Drop)]
pub struct Places<'a> {
    pieces: &'a Seq<Piece>,
    /// The characters from the offset on.
    ahead: Chars<'a>,
    offset: usize,
    unit: Unit,
    position: Position,
}

impl<'a> Model for Places<'a> {
    ghost use Rattle.pieces.specs.Pieces.{text_in};
    ghost use Rattle.text.specs.Places.{Place, IsPlaced};

    ghost Value = { Place };

    ghost view = { λ p. record { text = text_in p.pieces.now; offset = p.offset; unit = p.unit } };

    ghost invariant = { λ p. IsPlaced (text_in p.pieces.now) p.ahead p.offset p.unit p.position };
}

impl<'a> Places<'a> {
    /// The start of a text.
    pub(crate) fn new(pieces: &'a Seq<Piece>, unit: Unit) -> Places<'a>
        requires { length (text_in pieces.now) < 2 ^ 29 }
        ensures { result ≡ record { text = text_in pieces.now; offset = 0; unit = unit } }
    {
        Places {
            pieces,
            ahead: Chars::new("", pieces.iter_from(0)),
            offset: 0,
            unit,
            position: Position {
                line: 0,
                character: 0,
            },
        }
    }

    /// The position of the offset. Between a `\r` and its `\n` it is the end of the line.
    pub fn position(&self) -> Position
        ensures { result ≡ of.position self.now.unit self.now.text self.now.offset }
    {
        self.position
    }

    /// Goes `n` characters on, or to the end of the text where fewer are left.
    pub fn advance(&mut self, n: usize)
        ensures text { self.new.text ≡ self.old.text }
        ensures unit { self.new.unit ≡ self.old.unit }
        ensures offset { self.new.offset ≡ min (self.old.offset + n) (length self.old.text) }
    {
        for _ in 0..n {
            let Some(c) = self.ahead.next() else {
                return;
            };
            self.position = position_after(self.unit, c, self.ahead.peek(), self.position);
            self.offset += 1;
        }
    }
}

/// The position after a character, which is at `position`, before the next one.
fn position_after(unit: Unit, c: char, next: Option<char>, position: Position) -> Position
    requires line { position.line < 2 ^ 29 }
    requires character { position.character < 2 ^ 31 }
    ensures { (text : List ℕ) (i : ℕ) (rest : List ℕ) →
        drop i text ≡ c ∷ rest → next ≡ slice_get rest 0 →
        position ≡ of.position unit text i → result ≡ of.position unit text (i + 1) }
{
    if is_break_end(c, next) {
        return Position {
            line: position.line + 1,
            character: 0,
        };
    }
    if c == '\r' {
        return position;
    }
    Position {
        line: position.line,
        character: position.character + units_of(unit, c),
    }
}

/// Whether a line break ends after a character, before the next one.
fn is_break_end(c: char, next: Option<char>) -> bool
    ensures { (rest : List ℕ) → next ≡ slice_get rest 0 → result ≡ of.ends_break c rest }
{
    c == '\n' || (c == '\r' && next != Some('\n'))
}

/// The units of a character.
fn units_of(unit: Unit, c: char) -> u32
    ensures is { result ≡ of.unit unit c }
    ensures few { result ≤ 4 }
{
    match unit {
        Unit::Utf8 => c.len_utf8() as u32,
        Unit::Utf16 => c.len_utf16() as u32,
        Unit::Utf32 => 1,
    }
}
