//! Checks that tests share, and steps: what is asked of a text and done with it, one after
//! another.

use std::alloc::Global;
use std::process::Abort;
use text::{Position, Range, Text, Unit};

#[derive(Clone, Copy)]
pub enum Step<'a> {
    /// Offsets, and the line and the character of each one's position.
    Positions(Unit, &'a [(usize, u32, u32)]),
    /// Offsets, the line of each one's position, and its character in UTF-8, UTF-16 and UTF-32.
    InEachUnit(&'a [(usize, u32, u32, u32, u32)]),
    /// Lines and characters, and the offset of each.
    Offsets(Unit, &'a [(u32, u32, usize)]),
    /// The lines and characters that a walk comes to, by so many characters at once.
    Walk(Unit, usize, &'a [(u32, u32)]),
    /// Puts a piece between two characters of a line, which makes this text.
    Change(u32, (u32, u32), &'a str, &'a str),
}

pub fn at(line: u32, character: u32) -> Position {
    Position { line, character }
}

/// This holds.
pub fn expect(rt: &impl Abort, holds: bool, what: &str) {
    assert!(rt; holds, "{what}");
}

/// This holds at a place.
pub fn expect_at(rt: &impl Abort, holds: bool, at: usize) {
    assert!(rt; holds, "at {at}");
}

/// An open text.
pub fn open(rt: &impl Abort, alloc: Global, whole: &str) -> Text {
    Text::open(alloc, whole).expect(rt, "a text")
}

/// The whole text is this.
pub fn expect_text(rt: &impl Abort, alloc: Global, text: &Text, wanted: &str) {
    let whole = text.to_string(alloc).expect(rt, "memory");
    expect(rt, whole.as_str() == wanted, wanted);
}

/// Whether these are the characters of a text from an offset on.
pub fn has_characters(text: &Text, from: usize, wanted: &[char]) -> bool {
    let mut characters = text.chars_from(from);
    for c in wanted {
        if characters.next() != Some(*c) {
            return false;
        }
    }
    characters.next() == None
}

fn check_positions(rt: &impl Abort, text: &Text, unit: Unit, rows: &[(usize, u32, u32)]) {
    for &(offset, line, character) in rows {
        let position = at(line, character);
        expect_at(rt, text.position(unit, offset) == position, offset);
    }
}

fn check_each_unit(rt: &impl Abort, text: &Text, rows: &[(usize, u32, u32, u32, u32)]) {
    for &(offset, line, utf8, utf16, utf32) in rows {
        check_positions(rt, text, Unit::Utf8, &[(offset, line, utf8)]);
        check_positions(rt, text, Unit::Utf16, &[(offset, line, utf16)]);
        check_positions(rt, text, Unit::Utf32, &[(offset, line, utf32)]);
    }
}

fn check_offsets(rt: &impl Abort, text: &Text, unit: Unit, rows: &[(u32, u32, usize)]) {
    for &(line, character, offset) in rows {
        let position = at(line, character);
        expect_at(rt, text.offset(unit, position) == offset, offset);
    }
}

fn check_walk(rt: &impl Abort, text: &Text, unit: Unit, count: usize, rows: &[(u32, u32)]) {
    let mut places = text.places(unit);
    for &(line, character) in rows {
        let position = at(line, character);
        expect(rt, places.position() == position, "a place");
        places.advance(count);
    }
}

fn change(
    rt: &impl Abort,
    alloc: Global,
    text: &mut Text,
    start: Position,
    end: Position,
    piece: &str,
) {
    let range = Some(Range { start, end });
    let (from, to) = text.span(Unit::Utf16, range);
    text.replace(alloc, from, to, piece).expect(rt, "a change");
}

pub fn check_steps(rt: &impl Abort, alloc: Global, text: &mut Text, steps: &[Step<'_>]) {
    for step in steps {
        match *step {
            Step::Positions(unit, rows) => check_positions(rt, text, unit, rows),
            Step::InEachUnit(rows) => check_each_unit(rt, text, rows),
            Step::Offsets(unit, rows) => check_offsets(rt, text, unit, rows),
            Step::Walk(unit, count, rows) => check_walk(rt, text, unit, count, rows),
            Step::Change(line, (from, to), piece, edited) => {
                change(rt, alloc, text, at(line, from), at(line, to), piece);
                expect_text(rt, alloc, text, edited);
            }
        }
    }
}

/// Opens a text, and goes through the steps.
pub fn check(rt: &impl Abort, alloc: Global, opened: &str, steps: &[Step<'_>]) {
    let mut text = open(rt, alloc, opened);
    check_steps(rt, alloc, &mut text, steps);
}
