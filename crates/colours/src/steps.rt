//! A walk along a text that counts positions as it goes, and keeps where the lines end that it
//! leaves.

ghost use Rattle.std.specs.Prelude.{◌≡◌, ◌+◌, ◌<◌, ◌≤◌, ◌^◌, ◌∷◌, ℕ, List, All, IsTrue, false, IfOk, OnOk, drop, length, min, take};
ghost use Rattle.definitions.specs.Text as of;
ghost use Rattle.colours.specs.Parts.{line_end};
ghost use Rattle.colours.specs.Steps.{IsPlain, behind, line_at};

use definitions::{Position, Unit};
use std::alloc::{AllocError, Global};
use std::marker::Model;
use text::{Chars, Text};

/// An offset of a text and its position (LSP 3.17, "Position").
///
/// Characters in ASCII that end no line are looked at many in a row, and to go on over these takes
/// one step.
#[derive(Drop)]
pub(crate) struct Steps<'a> {
    text: &'a Text,
    unit: Unit,
    offset: usize,
    position: Position,
    /// How many characters from the offset on are plain.
    plain: usize,
    /// The character behind those, none at the end of the text.
    next: Option<char>,
    /// The characters behind that one.
    ahead: Chars<'a>,
    /// A line on which the walk was.
    first: u32,
    /// How many units the lines from that one up to the present one have.
    ends: Vec<u32>,
}

impl<'a> Model for Steps<'a> {
    ghost use Rattle.std.specs.Prelude.{◌+◌, length};
    ghost use Rattle.colours.specs.Steps.{IsStep, Step};

    ghost Value = { Step };

    ghost view = { λ s. record {
      text = s.text.now;
      unit = s.unit;
      offset = s.offset;
      first = s.first;
      last = s.first + length s.ends.items;
    } };

    ghost invariant = { λ s. IsStep s.text.now s.unit s.offset s.position s.plain s.next s.ahead
        s.first s.ends.items };
}

impl<'a> Steps<'a> {
    /// The walk that begins at an offset of a text.
    pub(crate) fn new(alloc: Global, text: &'a Text, unit: Unit, offset: usize) -> Steps<'a>
        requires { offset ≤ length text.now }
        ensures text { result.text ≡ text.now }
        ensures unit { result.unit ≡ unit }
        ensures offset { result.offset ≡ offset }
        ensures last { result.last ≡ line_at result }
    {
        // A text is so short that its lines and units are counted exactly.
        let _length = text.len();
        let position = text.position(unit, offset);
        let mut ahead = text.chars_from(offset);
        let (plain, next) = look(&mut ahead);
        Steps {
            text,
            unit,
            offset,
            position,
            plain,
            next,
            ahead,
            first: position.line,
            ends: Vec::new(alloc),
        }
    }

    /// The position of the offset. Between a `\r` and its `\n` it is the end of the line.
    pub(crate) fn position(&self) -> Position
        ensures { result ≡ of.position self.now.unit self.now.text self.now.offset }
    {
        self.position
    }

    /// How many units a line has, of those that the walk has left since it last knew of none.
    pub(crate) fn end_of(&self, line: u32) -> u32
        requires from { self.now.first ≤ line }
        requires to { line < self.now.last }
        ensures { result ≡ line_end self.now.unit self.now.text line }
    {
        self.ends[(line - self.first) as usize]
    }

    /// Goes `n` characters on, or to the end of the text where fewer are left.
    pub(crate) fn advance(&mut self, n: usize) -> Result<(), AllocError>
        requires { self.old.last ≡ line_at self.old }
        ensures text { self.new.text ≡ self.old.text }
        ensures unit { self.new.unit ≡ self.old.unit }
        ensures offset { OnOk result
            (self.new.offset ≡ min (self.old.offset + n) (length self.old.text)) }
        ensures first { self.new.first ≤ line_at self.old }
        ensures last { OnOk result (self.new.last ≡ line_at self.new) }
    {
        if n <= self.plain {
            self.plain -= n;
            self.offset += n;
            self.position = after_plain(self.position, n);
            return Ok(());
        }
        self.advance_far(n)
    }

    /// The same past characters that aren't known to be plain.
    #[cold]
    #[inline(never)]
    fn advance_far(&mut self, n: usize) -> Result<(), AllocError>
        ensures text { self.new.text ≡ self.old.text }
        ensures unit { self.new.unit ≡ self.old.unit }
        ensures offset { OnOk result
            (self.new.offset ≡ min (self.old.offset + n) (length self.old.text)) }
        ensures first { self.new.first ≡ line_at self.old }
        ensures last { OnOk result (self.new.last ≡ line_at self.new) }
    {
        self.begin();
        let mut left = n;
        while left > 0 {
            let count = self.go_on(left)?;
            if count == 0 {
                return Ok(());
            }
            left -= count;
        }
        Ok(())
    }

    /// Forgets where lines end.
    fn begin(&mut self)
        ensures text { self.new.text ≡ self.old.text }
        ensures unit { self.new.unit ≡ self.old.unit }
        ensures offset { self.new.offset ≡ self.old.offset }
        ensures first { self.new.first ≡ line_at self.old }
        ensures last { self.new.last ≡ line_at self.old }
        ensures within { self.old.offset ≤ length self.old.text }
    {
        self.first = self.position.line;
        self.ends.clear();
    }

    /// Goes some characters on, at most this many, and returns how many. These are none only at
    /// the end of the text.
    fn go_on(&mut self, most: usize) -> Result<usize, AllocError>
        requires some { 0 < most }
        requires last { self.old.last ≡ line_at self.old }
        ensures text { self.new.text ≡ self.old.text }
        ensures unit { self.new.unit ≡ self.old.unit }
        ensures first { self.new.first ≡ self.old.first }
        ensures offset { IfOk result (λ count. self.new.offset ≡ self.old.offset + count) }
        ensures within { OnOk result (self.new.offset ≤ length self.old.text) }
        ensures most { IfOk result (λ count. count ≤ most) }
        ensures end { IfOk result (λ count. count ≡ 0 → length self.old.text ≤ self.old.offset) }
        ensures last { OnOk result (self.new.last ≡ line_at self.new) }
    {
        if self.plain > 0 {
            let count = self.plain.min(most);
            self.plain -= count;
            self.offset += count;
            self.position = after_plain(self.position, count);
            return Ok(count);
        }
        let Some(c) = self.next else {
            return Ok(0);
        };
        (self.plain, self.next) = look(&mut self.ahead);
        self.offset += 1;
        if !ends_break(c, is_before_feed(self.plain, self.next)) {
            self.position = after(self.unit, c, self.position);
            return Ok(1);
        }
        let end = self.position.character;
        self.position = Position {
            line: self.position.line + 1,
            character: 0,
        };
        self.ends.push(end)?;
        Ok(1)
    }
}

/// Whether a character is in ASCII and no part of a line break. It is true of nearly all; a tab is
/// left out for a shorter test.
fn is_plain(c: char) -> bool
    ensures { IsTrue result → IsPlain c }
{
    c.is_ascii() && c > '\r'
}

/// Goes over the plain characters that come next, as far as they lie together, and the one behind
/// them. How many they are, and that one.
fn look(ahead: &mut Chars<'_>) -> (usize, Option<char>)
    ensures plain { All IsPlain (take result.0 ahead.old) }
    ensures within { result.0 ≤ length ahead.old }
    ensures behind { drop result.0 ahead.old ≡ behind result.1 ahead.new }
{
    let plain = ahead.pass(|c| is_plain(c));
    (plain, ahead.next())
}

/// Whether `\n` comes next, where so many plain characters come, and then another one.
fn is_before_feed(plain: usize, next: Option<char>) -> bool
    ensures { (rest ahead : List ℕ) → All IsPlain (take plain rest)
        → drop plain rest ≡ behind next ahead → result ≡ of.begins_with 10 rest }
{
    plain == 0 && next == Some('\n')
}

/// Whether a line break ends after a character, which `\n` may follow.
fn ends_break(c: char, before_feed: bool) -> bool
    ensures { (rest : List ℕ) → before_feed ≡ of.begins_with 10 rest
        → result ≡ of.ends_break c rest }
{
    c == '\n' || (c == '\r' && !before_feed)
}

/// The position after so many plain characters.
fn after_plain(position: Position, count: usize) -> Position
    requires { position.character + count < 2 ^ 32 }
    ensures { result
        ≡ record { line = position.line; character = position.character + count } }
{
    Position {
        line: position.line,
        character: position.character + count as u32,
    }
}

/// The position after a character after which no line break ends.
fn after(unit: Unit, c: char, position: Position) -> Position
    requires { position.character < 2 ^ 31 }
    ensures { (text rest : List ℕ) (i : ℕ) → drop i text ≡ c ∷ rest
        → of.ends_break c rest ≡ false → position ≡ of.position unit text i
        → result ≡ of.position unit text (i + 1) }
{
    if c == '\r' {
        return position;
    }
    Position {
        line: position.line,
        character: position.character + units_of(unit, c),
    }
}

/// The units of a character.
fn units_of(unit: Unit, c: char) -> u32
    ensures is { result ≡ of.unit unit c }
    ensures few { result ≤ 4 }
{
    match unit {
        Unit::Utf8 => c.len_utf8() as u32,
        Unit::Utf16 => c.len_utf16() as u32,
        Unit::Utf32 => 1,
    }
}
