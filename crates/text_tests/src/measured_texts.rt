//! Texts as measured lists of pieces: what pieces could change of the cases of a text.

ghost use Rattle.std.specs.Prelude.{◌<◌, ◌≤◌, length};

use crate::checks::{Step, at, check, expect, expect_at, has_characters, open};
use crate::documents::{filled, text_of};
use std::alloc::Global;
use std::process::Abort;
use text::{Text, Unit};

#[test]
fn positions_count_the_unit_that_is_asked_for(rt: HostRuntime) {
    const ENDS: &[(usize, u32, u32, u32, u32)] = &[
        (0, 0, 0, 0, 0),
        (1, 0, 2, 1, 1),
        (2, 0, 6, 3, 2),
        (3, 0, 7, 4, 3),
    ];
    const STEPS: &[Step<'static>] = &[
        Step::InEachUnit(ENDS),
        Step::Offsets(Unit::Utf8, &[(0, 0, 0), (0, 2, 1), (0, 6, 2), (0, 7, 3)]),
        Step::Offsets(Unit::Utf16, &[(0, 0, 0), (0, 1, 1), (0, 3, 2), (0, 4, 3)]),
        Step::Offsets(Unit::Utf32, &[(0, 0, 0), (0, 1, 1), (0, 2, 2), (0, 3, 3)]),
        Step::Walk(Unit::Utf8, 1, &[(0, 0), (0, 2), (0, 6), (0, 7)]),
        Step::Walk(Unit::Utf16, 1, &[(0, 0), (0, 1), (0, 3), (0, 4)]),
        Step::Walk(Unit::Utf32, 1, &[(0, 0), (0, 1), (0, 2), (0, 3)]),
    ];
    check(&rt, rt.alloc(), "\u{e9}\u{1f600}z", STEPS);
}

/// Whether the break after the first `n` characters is one, and ends line 0.
fn breaks_after(text: &Text, n: u32) -> bool {
    let count = n as usize;
    text.position(Unit::Utf16, count + 1) == at(0, n)
        && text.position(Unit::Utf16, count + 2) == at(1, 0)
        && text.offset(Unit::Utf16, at(1, 0)) == count + 2
}

/// The text of a line and what stands after it.
fn text_after(rt: &impl Abort, alloc: Global, line: &str, following: &str) -> Text {
    let text = format!(in alloc; "{line}{following}").expect(rt, "memory");
    open(rt, alloc, text.as_str())
}

/// Puts a line feed before the last character of a text, which is the second one after `n`.
fn join_break(rt: &impl Abort, alloc: Global, text: &mut Text, n: u32) {
    let last = n as usize + 1;
    assert!(rt; text.len() == last + 1);
    text.replace(alloc, last, last, "\n").expect(rt, "an edit");
}

/// A line of `n` characters, and a break that an edit makes of two.
fn joined(rt: &impl Abort, alloc: Global, line: &str, n: u32) -> Text {
    let mut text = text_after(rt, alloc, line, "\ry");
    join_break(rt, alloc, &mut text, n);
    text
}

fn expect_break(rt: &impl Abort, text: Text, n: u32) {
    expect_at(rt, breaks_after(&text, n), n as usize);
}

#[test]
fn a_break_after_any_number_of_letters(rt: HostRuntime) {
    let alloc = rt.alloc();
    let mut line = String::new(alloc);
    for n in 0u32..2_101 {
        expect_break(&rt, text_after(&rt, alloc, &line, "\r\ny"), n);
        expect_break(&rt, joined(&rt, alloc, &line, n), n);
        line.push('x').expect(&rt, "memory");
    }
}

#[test]
fn a_break_over_the_border_of_pieces(rt: HostRuntime) {
    let alloc = rt.alloc();
    // The last piece has 1,024 bytes, so it begins with the line feed.
    let after = filled(&rt, alloc, 'y', 1_023);
    let following = format!(in alloc; "\r\n{after}").expect(&rt, "memory");
    let mut line = filled(&rt, alloc, 'x', 508);
    for n in 508u32..600 {
        expect_break(&rt, text_after(&rt, alloc, &line, &following), n);
        line.push('x').expect(&rt, "memory");
    }
}

/// Numbers that look random, by a linear congruence.
#[derive(Drop)]
struct Numbers {
    state: u64,
}

impl Numbers {
    fn new() -> Numbers {
        Numbers { state: 1 }
    }

    /// A number less than `n`.
    fn below(&mut self, n: usize) -> usize
        requires { 0 < n }
        ensures { result < n }
    {
        self.state = self
            .state
            .wrapping_mul(6_364_136_223_846_793_005)
            .wrapping_add(1_442_695_040_888_963_407);
        (self.state >> 33) as usize % n
    }
}

/// Puts the characters of a text after the others.
fn push_text(rt: &impl Abort, characters: &mut Vec<char>, text: &str) {
    for c in text.chars() {
        characters.push(c).expect(rt, "memory");
    }
}

/// Puts `new` in the place of the characters from `a` up to `b`.
fn edit_list(rt: &impl Abort, characters: &mut Vec<char>, a: usize, b: usize, new: &str)
    requires ordered { a ≤ b }
    requires in_range { b ≤ length characters.old.items }
{
    let after = characters.split_off(b).expect(rt, "memory");
    characters.truncate(a);
    push_text(rt, characters, new);
    characters.extend_from_slice(&after).expect(rt, "memory");
}

/// Whether a text and a list have the same hundred characters, from the 50th before a place on.
fn agree_around(text: &Text, wanted: &[char], place: usize) -> bool {
    let from = place.saturating_sub(50);
    let to = wanted.len().min(from.saturating_add(100));
    let mut characters = text.chars_from(from);
    for c in &wanted[from.min(to)..to] {
        if characters.next() != Some(*c) {
            return false;
        }
    }
    true
}

/// 600 times two characters.
fn long_line(rt: &impl Abort, alloc: Global) -> String {
    let mut line = String::new(alloc);
    for _ in 0..600 {
        line.push_str("\u{e9}z").expect(rt, "memory");
    }
    line
}

/// Makes an edit at a random place of a text and of its characters, and sees that they are the
/// same on both sides of each end of what it put in.
fn edit_both(
    rt: &impl Abort,
    alloc: Global,
    numbers: &mut Numbers,
    texts: &[&str; 6],
    text: &mut Text,
    wanted: &mut Vec<char>,
) {
    let len = wanted.len();
    assert!(rt; text.len() == len, "as many characters");
    let a = numbers.below(len + 1);
    let b = a + numbers.below((len - a).min(500) + 1);
    let new = texts[numbers.below(6)];
    text.replace(alloc, a, b, new).expect(rt, "an edit");
    edit_list(rt, wanted, a, b, new);
    expect_at(rt, agree_around(text, wanted, a), a);
    expect_at(rt, agree_around(text, wanted, text.len() - (len - b)), b);
}

/// Makes ten thousand edits of a text and of its characters.
fn edit_in_turn(
    rt: &impl Abort,
    alloc: Global,
    texts: &[&str; 6],
    text: &mut Text,
    wanted: &mut Vec<char>,
) {
    let mut numbers = Numbers::new();
    for _ in 0..10_000 {
        edit_both(rt, alloc, &mut numbers, texts, text, wanted);
    }
}

fn check_random_edits(rt: &impl Abort, alloc: Global, texts: &[&str; 6]) {
    let mut text = open(rt, alloc, "");
    let mut wanted = Vec::new(alloc);
    edit_in_turn(rt, alloc, texts, &mut text, &mut wanted);
    expect(rt, has_characters(&text, 0, &wanted), "the same at the end");
}

#[test]
fn random_edits_are_those_of_a_list(rt: HostRuntime) {
    let line = long_line(&rt, rt.alloc());
    let texts = ["", "x", "\r", "\n", "\u{1f600}", line.as_str()];
    check_random_edits(&rt, rt.alloc(), &texts);
}

/// Makes an edit of one character, after which the text has about as many as may be.
fn edit_anywhere(rt: &impl Abort, alloc: Global, numbers: &mut Numbers, text: &mut Text) {
    let len = text.len();
    let (a, removed, new) = if len > 1_048_000 {
        (numbers.below(len), 1, "")
    } else {
        (numbers.below(len + 1), 0, "y")
    };
    text.replace(alloc, a, a + removed, new)
        .expect(rt, "an edit");
}

fn edit_all_over(rt: &impl Abort, alloc: Global, text: &mut Text) {
    let mut numbers = Numbers::new();
    for _ in 0..100_000 {
        edit_anywhere(rt, alloc, &mut numbers, text);
    }
}

#[test]
fn pieces_stay_few(rt: HostRuntime) {
    let mut text = text_of(&rt, rt.alloc(), 'x', 1_048_576);
    expect(&rt, text.pieces().len() == 1_024, "pieces");
    edit_all_over(&rt, rt.alloc(), &mut text);
    expect(&rt, text.pieces().len() / 4 <= 1_024, "few pieces");
}
