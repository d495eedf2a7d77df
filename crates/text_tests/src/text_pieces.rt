//! Pieces of texts, and what they add up to.

use crate::checks::{Step, check_steps, expect, open};
use crate::documents::filled;
use pieces::{Counts, Piece, Sums, Units, of_text};
use seqtree::{Measured, Monoid, cut_up};
use std::alloc::Global;
use std::process::Abort;
use text::{Text, Unit};

/// As many characters, bytes and breaks, and nothing after the last break.
fn ended(characters: u32, bytes: u32, breaks: u32) -> Sums {
    Sums::Filled(Counts {
        characters,
        bytes,
        breaks,
        units_after: Units {
            utf8: 0,
            utf16: 0,
            utf32: 0,
        },
        begins_with_feed: false,
        ends_with_return: false,
    })
}

/// Two pieces, the first of 605 bytes.
fn check_two_pieces(rt: &impl Abort, pieces: &[Piece]) {
    assert!(rt; pieces.len() == 2);
    expect(rt, pieces[0].text().len() == 605, "the first piece");
    expect(
        rt,
        pieces[1].sum() == ended(151, 598, 1),
        "the second piece",
    );
}

#[test]
fn texts_are_cut_at_borders_of_characters(rt: HostRuntime) {
    let faces = filled(&rt, rt.alloc(), '\u{1F600}', 300);
    let text = format!(in rt.alloc(); "x{faces}\r\n").expect(&rt, "memory");
    let pieces: Vec<Piece> = cut_up(rt.alloc(), text).expect(&rt, "memory");
    check_two_pieces(&rt, pieces.as_slice());
}

/// A `\r` and a `\n` in two pieces are one break.
#[test]
fn sums_join_over_a_line_end(rt: HostRuntime) {
    let joined = of_text("a\r").join(&of_text("\n"));
    expect(&rt, joined == ended(3, 3, 1), "one break");
}

/// A line of 600 characters, and then `\u{1F600}a`, `\u{E9}` and `b` with 602 more in three lines.
fn three_lines(rt: &impl Abort, alloc: Global) -> String {
    let before = filled(rt, alloc, 'x', 600);
    let after = filled(rt, alloc, 'x', 602);
    format!(in alloc; "{before}\n\u{1F600}a\r\n\u{E9}\rb{after}").expect(rt, "memory")
}

/// The first break after the face is in two pieces.
fn expect_border(rt: &impl Abort, text: &Text) {
    let first = text.pieces().get(0).expect(rt, "a piece");
    expect(rt, first.text().ends_with("a\r"), "a border");
}

/// Goes through the steps on the three lines.
fn check_three_lines(rt: &impl Abort, alloc: Global, steps: &[Step<'_>]) {
    let lines = three_lines(rt, alloc);
    let mut text = open(rt, alloc, lines.as_str());
    expect_border(rt, &text);
    check_steps(rt, alloc, &mut text, steps);
}

/// Offsets around the border, the line of each, and its character in each unit.
const POSITIONS: &[(usize, u32, u32, u32, u32)] = &[
    (601, 1, 0, 0, 0),
    (602, 1, 4, 2, 1),
    (603, 1, 5, 3, 2),
    (604, 1, 5, 3, 2),
    (605, 2, 0, 0, 0),
    (606, 2, 2, 1, 1),
    (607, 3, 0, 0, 0),
    (608, 3, 1, 1, 1),
    (1210, 3, 603, 603, 603),
    (1211, 3, 603, 603, 603),
];

#[test]
fn positions_over_a_border(rt: HostRuntime) {
    check_three_lines(&rt, rt.alloc(), &[Step::InEachUnit(POSITIONS)]);
}

/// Lines and characters, and the offset of each in UTF-16. Some are past the ends of lines,
/// between the units of a character, and past the last line.
const UTF16_OFFSETS: &[(u32, u32, usize)] = &[
    (1, 1, 601),
    (1, 2, 602),
    (2, 0, 605),
    (2, 9, 606),
    (3, 0, 607),
    (3, 999, 1210),
    (4, 0, 1210),
];

#[test]
fn offsets_over_a_border(rt: HostRuntime) {
    const STEPS: &[Step<'static>] = &[
        Step::Offsets(Unit::Utf8, &[(1, 3, 601), (1, 4, 602), (2, 1, 605)]),
        Step::Offsets(Unit::Utf16, UTF16_OFFSETS),
        Step::Offsets(Unit::Utf32, &[(1, 1, 602), (1, 9, 603)]),
    ];
    check_three_lines(&rt, rt.alloc(), STEPS);
}
