//! Texts, their positions and their edits.

use crate::checks::{Step, at, check, expect, expect_text, has_characters, open};
use std::alloc::Global;
use std::process::Abort;
use text::{LONGEST_TEXT, Range, Text, TextFault, Unit};

/// So many times the character.
pub fn filled(rt: &impl Abort, alloc: Global, c: char, count: usize) -> String {
    let mut text = String::new(alloc);
    for _ in 0..count {
        text.push(c).expect(rt, "memory");
    }
    text
}

/// An open text of so many times the character.
pub fn text_of(rt: &impl Abort, alloc: Global, c: char, count: usize) -> Text {
    let text = filled(rt, alloc, c, count);
    open(rt, alloc, text.as_str())
}

#[test]
fn breaks_apart_are_two_and_together_one(rt: HostRuntime) {
    const STEPS: &[Step<'static>] = &[
        Step::Positions(Unit::Utf16, &[(2, 1, 0), (3, 1, 1), (4, 2, 0), (5, 2, 1)]),
        Step::Change(1, (0, 1), "", "1\r\n2"),
        Step::Positions(Unit::Utf16, &[(1, 0, 1), (2, 0, 1), (3, 1, 0), (4, 1, 1)]),
    ];
    check(&rt, rt.alloc(), "1\rX\n2", STEPS);
}

/// A range within a character that counts two is at its start.
fn check_wide(rt: &impl Abort, alloc: Global, opened: &str, edited: &str) {
    let steps = [
        Step::Positions(Unit::Utf16, &[(0, 0, 0), (1, 0, 2), (2, 0, 3)]),
        Step::Change(0, (1, 1), "5", edited),
        Step::Positions(Unit::Utf16, &[(1, 0, 1), (2, 0, 3)]),
    ];
    check(rt, alloc, opened, &steps);
}

#[test]
fn characters_past_the_first_plane_count_two(rt: HostRuntime) {
    check_wide(&rt, rt.alloc(), "\u{10000}1", "5\u{10000}1");
    check_wide(&rt, rt.alloc(), "\u{1f600}1", "5\u{1f600}1");
    check_wide(&rt, rt.alloc(), "\u{10ffff}1", "5\u{10ffff}1");
}

#[test]
fn a_walk_returns_each_position(rt: HostRuntime) {
    const PLACES: &[(u32, u32)] = &[(0, 0), (0, 1), (0, 1), (1, 0), (1, 2), (1, 3), (1, 3)];
    const STEPS: &[Step<'static>] = &[
        Step::Walk(Unit::Utf16, 1, PLACES),
        Step::Walk(Unit::Utf16, 4, &[(0, 0), (1, 2)]),
    ];
    check(&rt, rt.alloc(), "1\r\n\u{1f600}2", STEPS);
}

const TOO_LARGE: Option<TextFault> = Some(TextFault::TooLarge);

/// Why a text of so many times the character is refused.
fn refusal(rt: &impl Abort, alloc: Global, c: char, count: usize) -> Option<TextFault> {
    let text = filled(rt, alloc, c, count);
    Text::open(alloc, text.as_str()).err()
}

/// Puts so many times `1` in the place of a range, and returns why that is refused.
fn put_ones(
    rt: &impl Abort,
    alloc: Global,
    text: &mut Text,
    range: Option<Range>,
    count: usize,
) -> Option<TextFault> {
    let piece = filled(rt, alloc, '1', count);
    let (from, to) = text.span(Unit::Utf16, range);
    text.replace(alloc, from, to, piece.as_str()).err()
}

/// Each row is a range, how many times `1` it gives way to, why that is refused, and how many
/// bytes there are after it.
fn check_bytes(rt: &impl Abort, alloc: Global, text: &mut Text) {
    let start = at(0, 0);
    let prefix = Some(Range { start, end: start });
    for (range, count, wanted, bytes) in [
        (prefix, 1, None, 1_048_576),
        (prefix, 1, TOO_LARGE, 1_048_576),
        (None, 1, None, 1),
        (None, 1_048_577, TOO_LARGE, 1),
    ] {
        let fault = put_ones(rt, alloc, text, range, count);
        expect(rt, fault == wanted, "a refusal");
        expect(rt, text.bytes() == bytes, "bytes");
    }
}

#[test]
fn a_text_may_have_so_many_bytes(rt: HostRuntime) {
    let fault = refusal(&rt, rt.alloc(), '1', 1_048_577);
    expect(&rt, fault == TOO_LARGE, "a refusal");
    let mut text = text_of(&rt, rt.alloc(), '1', 1_048_575);
    check_bytes(&rt, rt.alloc(), &mut text);
}

/// How many of the first characters give way to a piece, why that is refused, and how many
/// characters there are after it.
type Replacement = (usize, &'static str, Option<TextFault>, usize);

/// Edits a text of as many bytes as may be, which it has after the edit too.
fn check_replacement(rt: &impl Abort, alloc: Global, text: &mut Text, row: Replacement) {
    let (removed, piece, wanted, count) = row;
    assert!(rt; removed <= text.len());
    let fault = text.replace(alloc, 0, removed, piece).err();
    expect(rt, fault == wanted, piece);
    expect(rt, text.len() == count, "characters");
    expect(rt, text.bytes() == LONGEST_TEXT, "bytes");
}

fn check_full_text(rt: &impl Abort, alloc: Global, text: &mut Text) {
    expect(rt, text.len() == 262_144, "characters");
    expect(rt, text.bytes() == LONGEST_TEXT, "bytes");
    check_replacement(rt, alloc, text, (1, "12345", TOO_LARGE, 262_144));
    check_replacement(rt, alloc, text, (1, "\u{e9}12", None, 262_146));
    check_replacement(rt, alloc, text, (0, "1", TOO_LARGE, 262_146));
}

#[test]
fn the_limit_counts_bytes_and_not_characters(rt: HostRuntime) {
    let fault = refusal(&rt, rt.alloc(), '\u{e9}', 524_289);
    expect(&rt, fault == TOO_LARGE, "a refusal");
    let mut text = text_of(&rt, rt.alloc(), '\u{1f600}', 262_144);
    check_full_text(&rt, rt.alloc(), &mut text);
}

/// Puts `bc` in the place of the second and the third of six characters, of ten bytes.
fn replace_two(rt: &impl Abort, alloc: Global, text: &mut Text) {
    expect(rt, text.bytes() == 10, "bytes");
    assert!(rt; text.len() == 6);
    text.replace(alloc, 1, 3, "bc").expect(rt, "an edit");
}

/// Checks the characters of `abc`, a line feed, a face and `z`.
fn check_characters(rt: &impl Abort, alloc: Global, text: &Text) {
    let characters = text.characters(alloc).expect(rt, "memory");
    expect(rt, characters.len() == 6, "six characters");
    expect(rt, characters.get(4) == Some(&'\u{1f600}'), "a face");
}

/// Checks the last two of them.
fn check_last_two(rt: &impl Abort, text: &Text) {
    assert!(rt; 4 < text.len());
    expect(rt, text.at(4) == '\u{1f600}', "a face");
    expect(rt, has_characters(text, 4, &['\u{1f600}', 'z']), "two");
    expect(rt, has_characters(text, 7, &[]), "none past the end");
}

#[test]
fn each_call_answers(rt: HostRuntime) {
    let mut text = open(&rt, rt.alloc(), "a\u{e9}\r\n\u{1f600}z");
    replace_two(&rt, rt.alloc(), &mut text);
    expect_text(&rt, rt.alloc(), &text, "abc\n\u{1f600}z");
    check_characters(&rt, rt.alloc(), &text);
    check_last_two(&rt, &text);
}

#[test]
fn offsets_and_positions_of_a_text(rt: HostRuntime) {
    const OFFSETS: &[(u32, u32, usize)] = &[
        (0, 2, 2),
        (0, 9, 3),
        (1, 1, 4),
        (1, 2, 5),
        (1, 9, 6),
        (2, 0, 6),
    ];
    const STEPS: &[Step<'static>] = &[
        Step::Offsets(Unit::Utf16, OFFSETS),
        Step::Positions(Unit::Utf16, &[(3, 0, 3), (4, 1, 0), (6, 1, 3), (99, 1, 3)]),
    ];
    check(&rt, rt.alloc(), "abc\n\u{1f600}z", STEPS);
}
