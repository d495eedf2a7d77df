//! What a part of a text adds up to, so that positions and offsets are looked up.

ghost use Rattle.std.specs.Prelude.{◌≡◌, ◌≤◌, [], ◌∷◌, length};
ghost use Rattle.std.specs.Str.{IsAscii, chars};
ghost use Rattle.pieces.specs.Sums.{sums_of, most, units_joined, count_of, counts_joined, later_breaks, after_joined, no_units, units_of, ascii_units, shown_units, HaveRoom, is_none, line_sums};

use definitions::{Position, Unit};
use seqtree::{Goal, Monoid};

/// How many units characters have, in each unit of a position.
#[derive(Clone, Copy, Debug, PartialEq, Eq)]
pub struct Units {
    pub utf8: u32,
    pub utf16: u32,
    pub utf32: u32,
}

impl Units {
    /// The units of these characters and of others after them.
    fn with(self, others: Units) -> Units
        ensures { result ≡ units_joined self others }
    {
        Units {
            utf8: self.utf8.saturating_add(others.utf8),
            utf16: self.utf16.saturating_add(others.utf16),
            utf32: self.utf32.saturating_add(others.utf32),
        }
    }

    /// The units of these characters and of one after them.
    fn with_character(self, c: char) -> Units
        requires { HaveRoom self c }
        ensures { result ≡ units_joined self (units_of c) }
    {
        if c < '\u{80}' {
            return Units {
                utf8: self.utf8 + 1,
                utf16: self.utf16 + 1,
                utf32: self.utf32 + 1,
            };
        }
        Units {
            utf8: self.utf8 + c.len_utf8() as u32,
            utf16: self.utf16 + c.len_utf16() as u32,
            utf32: self.utf32 + 1,
        }
    }

    /// Whether there are none.
    fn is_none(self) -> bool
        ensures { result ≡ is_none self }
    {
        self.utf8 == 0 && self.utf16 == 0 && self.utf32 == 0
    }

    /// How many there are in one unit.
    pub fn of(self, unit: Unit) -> u32
        ensures { result ≡ count_of unit self }
    {
        match unit {
            Unit::Utf8 => self.utf8,
            Unit::Utf16 => self.utf16,
            Unit::Utf32 => self.utf32,
        }
    }
}

/// What the characters of a part of a text add up to. A `\r` at its end is no break yet, since a
/// `\n` may come next.
#[derive(Clone, Copy, Debug, PartialEq, Eq)]
pub struct Counts {
    /// How many characters.
    pub characters: u32,
    /// How many bytes in UTF-8.
    pub bytes: u32,
    /// How many line breaks, but for a `\r` at its end.
    pub breaks: u32,
    /// The units after the last of these breaks, but for a `\r` at its end.
    pub units_after: Units,
    /// Whether it begins with `\n`.
    pub begins_with_feed: bool,
    /// Whether it ends with `\r`.
    pub ends_with_return: bool,
}

/// The sum of a part of a text.
#[derive(Clone, Copy, Debug, PartialEq, Eq)]
pub enum Sums {
    /// Of no character.
    Empty,
    /// Of at least one.
    Filled(Counts),
}

impl Counts {
    /// The counts of this part and of one after it.
    fn with(self, other: Counts) -> Counts
        ensures { result ≡ counts_joined self other }
    {
        let later = self.later_breaks(other);
        Counts {
            characters: self.characters.saturating_add(other.characters),
            bytes: self.bytes.saturating_add(other.bytes),
            breaks: self.breaks.saturating_add(later),
            units_after: units_after(later, self.units_after, other.units_after),
            begins_with_feed: self.begins_with_feed,
            ends_with_return: other.ends_with_return,
        }
    }

    /// How many breaks end after this part, where the other one follows.
    fn later_breaks(self, other: Counts) -> u32
        ensures { result ≡ later_breaks self other }
    {
        if self.ends_with_return && !other.begins_with_feed {
            return 1u32.saturating_add(other.breaks);
        }
        other.breaks
    }
}

/// The units after the last break of two parts, where so many breaks end after the first part.
#[tactic(auto, using(crate::specs::Laws::after_later))]
fn units_after(later: u32, first: Units, second: Units) -> Units
    ensures { result ≡ after_joined later first second }
{
    if later == 0 {
        first.with(second)
    } else {
        second
    }
}

impl Monoid for Sums {
    ghost use Rattle.pieces.specs.declared.sums.Sums.TheVariants.{Empty};
    ghost use Rattle.pieces.specs.Sums.{joined};
    ghost use Rattle.pieces.specs.Laws.{sums_laws};

    ghost empty = { Empty };

    ghost op = { joined };

    ghost laws = { sums_laws };

    fn zero() -> Sums {
        Sums::Empty
    }

    fn join(&self, other: &Sums) -> Sums {
        match (*self, *other) {
            (Sums::Empty, sum) => sum,
            (sum, Sums::Empty) => sum,
            (Sums::Filled(a), Sums::Filled(b)) => Sums::Filled(a.with(b)),
        }
    }
}

/// The sum of one character.
#[tactic(auto, using(crate::proofs::Joins::sums_of_one))]
pub fn of_character(c: char) -> Sums
    ensures { result ≡ sums_of (c ∷ []) }
{
    Sums::Filled(Counts {
        characters: 1,
        bytes: c.len_utf8() as u32,
        breaks: if c == '\n' { 1 } else { 0 },
        units_after: shown_units(c),
        begins_with_feed: c == '\n',
        ends_with_return: c == '\r',
    })
}

/// The sum of the characters of `text`.
pub fn of_text(text: &str) -> Sums
    requires { length text.now ≤ most }
    ensures { result ≡ sums_of (chars text.now) }
{
    if text.is_ascii() {
        return of_ascii(text.as_bytes());
    }
    let mut sums = Sums::Empty;
    let mut line = no_units();
    for c in text.chars() {
        if c == '\n' || c == '\r' {
            sums = sums.join(&of_line(line)).join(&of_character(c));
            line = no_units();
        } else {
            line = line.with_character(c);
        }
    }
    sums.join(&of_line(line))
}

/// The sum of a text of ASCII, of which each byte is a character.
fn of_ascii(text: &[u8]) -> Sums
    requires ascii { IsAscii text.now }
    requires few { length text.now ≤ most }
    ensures { result ≡ sums_of text.now }
{
    let mut sums = Sums::Empty;
    let mut line = 0;
    for &byte in text {
        // Nearly each byte is above both, so that one comparison is enough.
        if byte <= b'\r' && (byte == b'\n' || byte == b'\r') {
            sums = sums
                .join(&of_line(ascii_units(line)))
                .join(&of_character(byte as char));
            line = 0;
        } else {
            line += 1;
        }
    }
    sums.join(&of_line(ascii_units(line)))
}

/// The sum of characters with these units, of which none is a `\r` or a `\n`.
fn of_line(units: Units) -> Sums
    ensures { result ≡ line_sums units }
{
    if units.is_none() {
        return Sums::Empty;
    }
    Sums::Filled(Counts {
        characters: units.utf32,
        bytes: units.utf8,
        breaks: 0,
        units_after: units,
        begins_with_feed: false,
        ends_with_return: false,
    })
}

/// The units of so many characters of ASCII.
fn ascii_units(count: u32) -> Units
    ensures { result ≡ ascii_units count }
{
    Units {
        utf8: count,
        utf16: count,
        utf32: count,
    }
}

/// The units of no character.
fn no_units() -> Units
    ensures { result ≡ no_units }
{
    Units {
        utf8: 0,
        utf16: 0,
        utf32: 0,
    }
}

/// The units that a character alone counts for in its line: a `\r` and a `\n` count for none.
fn shown_units(c: char) -> Units
    ensures { result ≡ shown_units c }
{
    if c == '\n' || c == '\r' {
        return no_units();
    }
    Units {
        utf8: c.len_utf8() as u32,
        utf16: c.len_utf16() as u32,
        utf32: 1,
    }
}

/// Looks for the part that holds the character at this offset.
#[derive(Clone, Copy)]
pub struct AfterCharacter {
    pub offset: usize,
}

impl Goal<Sums> for AfterCharacter {
    ghost use Rattle.pieces.specs.Sums.{is_after_character};
    ghost use Rattle.pieces.specs.Laws.{after_character_stays};

    ghost reaches = { is_after_character };

    ghost stays = { after_character_stays };

    fn reached(&self, sum: &Sums) -> bool {
        match sum {
            Sums::Empty => false,
            Sums::Filled(counts) => self.offset < counts.characters as usize,
        }
    }
}

/// Looks for the first part that goes on past this position: where a later line begins in it, or
/// where its characters of the line have more units.
#[derive(Clone, Copy)]
pub struct AfterPosition {
    pub unit: Unit,
    pub position: Position,
}

impl Goal<Sums> for AfterPosition {
    ghost use Rattle.pieces.specs.Sums.{is_after_position};
    ghost use Rattle.pieces.specs.Laws.{after_position_stays};

    ghost reaches = { is_after_position };

    ghost stays = { after_position_stays };

    fn reached(&self, sum: &Sums) -> bool {
        let Sums::Filled(counts) = *sum else {
            return false;
        };
        let line = self.position.line;
        // A count that is full no longer tells lines apart.
        let same = counts.breaks == line && line < u32::MAX;
        line < counts.breaks || (same && self.position.character < counts.units_after.of(self.unit))
    }
}
