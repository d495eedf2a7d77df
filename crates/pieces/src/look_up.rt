//! Positions and offsets, looked up in a text that is a list of pieces.

ghost use Rattle.std.specs.Prelude.{◌≡◌, ◌-◌, ◌≤◌, ◌^◌, ◌↔◌, ℕ, IsTrue, ◌&&◌, ◌==◌, if◌then◌else◌, List, [], ◌∷◌, ◌++◌, length, take, drop};
ghost use Rattle.pieces.specs.Pieces.{text_in};
ghost use Rattle.std.specs.Str.{chars};
ghost use Rattle.definitions.specs.Text.{units, begins_with, line_feed};
ghost use Rattle.definitions.specs.Text as of;
ghost use Rattle.definitions.specs.declared.Unit.{Unit as Encoding};
ghost use Rattle.definitions.specs.declared.Unit.TheVariants.{Utf8};
ghost use Rattle.pieces.specs.Sums.{sums_of, end_before_feed};
ghost use Rattle.pieces.specs.Prefixes.{prefix_of, goes_on, with_ones, room, IsPast};

use crate::places::Pieces;
use crate::sums::{AfterCharacter, AfterPosition, Sums};
use definitions::{Position, Unit};

impl Pieces {
    /// The position of an offset (LSP 3.17, "Position"). Between a `\r` and its `\n` it is the end
    /// of the line, and past the end of the text the end of the text.
    pub fn position(&self, unit: Unit, offset: usize) -> Position
        ensures { result ≡ of.position unit (text_in self.now) offset }
    {
        let pieces = self.seq();
        let found = pieces.find(&AfterCharacter { offset });
        let prefix = Prefix::new(unit, found.before);
        let Some(piece) = found.item else {
            return prefix.position(false);
        };
        let (prefix, before_feed) = prefix.with_first(
            unit,
            piece.text(),
            offset - prefix.characters as usize,
        );
        prefix.position(before_feed)
    }

    /// The offset of a position (LSP 3.17, "Position"): past the end of a line it is the end of
    /// the line, past the last line the end of the text, and between the units of one character
    /// the start of that character.
    pub fn offset(&self, unit: Unit, position: Position) -> usize
        ensures is { result ≡ of.offset unit (text_in self.now) position }
        ensures within { result ≤ length (text_in self.now) }
    {
        let pieces = self.seq();
        let found = pieces.find(&AfterPosition { unit, position });
        let prefix = Prefix::new(unit, found.before);
        let Some(piece) = found.item else {
            return prefix.end_in_line(position.line);
        };
        prefix.offset_in(unit, piece.text(), position)
    }
}

/// What is known of a prefix of a text.
#[derive(Clone, Copy)]
struct Prefix {
    /// How many characters it has.
    characters: u32,
    /// The position of its end, where a `\n` comes next: a `\r` at its end is no break there.
    end: Position,
    /// Whether it ends with `\r`.
    ends_with_return: bool,
}

impl Prefix {
    /// The prefix with this sum.
    fn new(unit: Unit, sums: Sums) -> Prefix
        ensures { (s : List ℕ) → sums ≡ sums_of s → result ≡ prefix_of unit s }
    {
        let Sums::Filled(counts) = sums else {
            return Prefix {
                characters: 0,
                end: Position {
                    line: 0,
                    character: 0,
                },
                ends_with_return: false,
            };
        };
        Prefix {
            characters: counts.characters,
            end: Position {
                line: counts.breaks,
                character: counts.units_after.of(unit),
            },
            ends_with_return: counts.ends_with_return,
        }
    }

    /// This prefix and the character after it.
    fn with(self, unit: Unit, c: char) -> Prefix
        ensures { (s : List ℕ) → units Utf8 (s ++ c ∷ []) ≤ 2 ^ 30 → self ≡ prefix_of unit s →
            result ≡ prefix_of unit (s ++ c ∷ []) }
    {
        if self.goes_on(c) {
            return self.with_ones(1);
        }
        Prefix {
            characters: self.characters.saturating_add(1),
            end: self.end_with(unit, c),
            ends_with_return: c == '\r',
        }
    }

    /// Whether a character after this prefix stands in its last line, with one unit in each
    /// encoding.
    fn goes_on(self, c: char) -> bool
        ensures { result ≡ goes_on self c }
    {
        c > '\r' && c < '\u{80}' && !self.ends_with_return
    }

    /// This prefix and so many characters after it that stand in its last line and have one unit
    /// each.
    fn with_ones(self, count: u32) -> Prefix
        ensures { (unit : Encoding) (s : List ℕ) → units Utf8 s ≤ 2 ^ 30 →
            with_ones self count ≡ prefix_of unit s → result ≡ prefix_of unit s }
    {
        Prefix {
            characters: self.characters.saturating_add(count),
            end: Position {
                line: self.end.line,
                character: self.end.character.saturating_add(count),
            },
            ends_with_return: self.ends_with_return,
        }
    }

    /// How many such characters may follow before it is past a position. It is not past it itself.
    fn room(self, position: Position) -> u32
        ensures { result ≡ room self position }
    {
        if self.end.line == position.line {
            return position.character.saturating_sub(self.end.character);
        }
        u32::MAX
    }

    /// The position of the end of this prefix and the character after it, where a `\n` comes next.
    fn end_with(self, unit: Unit, c: char) -> Position
        ensures { (s : List ℕ) → units Utf8 (s ++ c ∷ []) ≤ 2 ^ 30 → self ≡ prefix_of unit s →
            result ≡ end_before_feed unit (s ++ c ∷ []) }
    {
        let before = self.position(c == '\n');
        if c == '\n' {
            return Position {
                line: before.line.saturating_add(1),
                character: 0,
            };
        }
        if c == '\r' {
            return before;
        }
        Position {
            line: before.line,
            character: before.character.saturating_add(units_of(unit, c)),
        }
    }

    /// The position of its end, where a `\n` comes next or not.
    fn position(self, before_feed: bool) -> Position
        ensures { (unit : Encoding) (s r : List ℕ) → units Utf8 s ≤ 2 ^ 30 →
            self ≡ prefix_of unit s → before_feed ≡ begins_with line_feed r →
            result ≡ of.position unit (s ++ r) (length s) }
    {
        if self.ends_with_return && !before_feed {
            return Position {
                line: self.end.line.saturating_add(1),
                character: 0,
            };
        }
        self.end
    }

    /// This prefix and the first `count` characters after it, and whether a `\n` comes next.
    fn with_first(self, unit: Unit, text: &str, count: usize) -> (Prefix, bool)
        ensures prefix { (s : List ℕ) → units Utf8 (s ++ chars text.now) ≤ 2 ^ 30 →
            self ≡ prefix_of unit s → result.0 ≡ prefix_of unit (s ++ take count (chars text.now)) }
        ensures feed { result.1 ≡ begins_with line_feed (drop count (chars text.now)) }
    {
        let mut prefix = self;
        let mut left = count;
        let mut ones = 0;
        for c in text.chars() {
            if left == 0 {
                return (prefix.with_ones(ones), c == '\n');
            }
            left -= 1;
            if ones < u32::MAX && prefix.goes_on(c) {
                ones += 1;
                continue;
            }
            prefix = prefix.with_ones(ones).with(unit, c);
            ones = 0;
        }
        (prefix.with_ones(ones), false)
    }

    /// The offset of a position that this prefix is not past, and this prefix with `text` after it
    /// is.
    fn offset_in(self, unit: Unit, text: &str, position: Position) -> usize
        ensures { (s r : List ℕ) → units Utf8 (s ++ chars text.now) ≤ 2 ^ 30 →
            self ≡ prefix_of unit s → ¬ IsPast position (end_before_feed unit s) →
            IsPast position (end_before_feed unit (s ++ chars text.now)) →
            result ≡ of.offset unit (s ++ chars text.now ++ r) position }
    {
        let mut prefix = self;
        let mut room = self.room(position);
        // Such characters are counted alone, since nearly each one is of them.
        let mut ones = 0;
        for c in text.chars() {
            if ones < room && prefix.goes_on(c) {
                ones += 1;
                continue;
            }
            let here = prefix.with_ones(ones);
            let longer = here.with(unit, c);
            if longer.is_past(position) {
                return here.end_in_line(position.line);
            }
            prefix = longer;
            room = longer.room(position);
            ones = 0;
        }
        prefix.with_ones(ones).end_in_line(position.line)
    }

    /// Whether its end is past a position.
    fn is_past(self, position: Position) -> bool
        ensures { IsTrue result ↔ IsPast position self.end }
    {
        let end = self.end;
        position.line < end.line
            || (position.line == end.line && position.character < end.character)
    }

    /// The offset of its end, or the one before where it ends with the `\r` of this line.
    fn end_in_line(self, line: u32) -> usize
        ensures { result ≡ self.characters
            - (if self.ends_with_return && self.end.line == line then 1 else 0) }
    {
        let characters = self.characters as usize;
        if self.ends_with_return && self.end.line == line {
            return characters.saturating_sub(1);
        }
        characters
    }
}

/// The units of a character.
fn units_of(unit: Unit, c: char) -> u32
    ensures { result ≡ of.unit unit c }
{
    match unit {
        Unit::Utf8 => c.len_utf8() as u32,
        Unit::Utf16 => c.len_utf16() as u32,
        Unit::Utf32 => 1,
    }
}
