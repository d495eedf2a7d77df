//! Hovers, and the brackets of nodes.

use crate::grammars::{SCRIPT, SCRIPT_SETTINGS, document, language};
use definitions::{Position, Range};
use docs::{Doc, Language};
use hover::{HoverText, Markup, brackets, hover};
use settings::Settings;
use std::alloc::Global;
use std::process::Abort;

/// A text of one line, a place in it, and what is shown there: the plain text, and the characters
/// that it is about. The text is empty where nothing is shown.
type Row = (&'static str, u32, &'static str, (u32, u32));

const LET: &str = "let x = f(1); // done";

const HOVERS: [Row; 17] = [
    (
        LET,
        0,
        "\"let\" keyword\n\nLET in Statement in Statement* in Program",
        (0, 3),
    ),
    (
        LET,
        2,
        "\"let\" keyword\n\nLET in Statement in Statement* in Program",
        (0, 3),
    ),
    (LET, 3, "", (0, 0)),
    (
        LET,
        4,
        "\"x\" a name, variable\n\nNAME in Statement in Statement* in Program",
        (4, 5),
    ),
    (
        LET,
        10,
        "\"1\" a number, number\n\nNUMBER in Atom in Postfix in Sign in Product in Sum in Test \
         in Both in Expression in Expressions in Expressions? in Postfix in Sign in .. 10 more",
        (10, 11),
    ),
    (
        LET,
        12,
        "\";\"\n\nSEMICOLON in Statement in Statement* in Program",
        (12, 13),
    ),
    (
        LET,
        20,
        "\"// done\" comment\n\nCOMMENT, skipped: it is in no node",
        (14, 21),
    ),
    (LET, 21, "", (0, 0)),
    (LET, 99, "", (0, 0)),
    (
        "x = - - 1;",
        8,
        "\"1\" a number, number\n\nNUMBER in Atom in Postfix in Sign (3 times) in Product in Sum \
         in Test in Both in Expression in Statement in Statement* in Program",
        (8, 9),
    ),
    (
        "let = 1;",
        4,
        "unexpected \"=\"\n\nExpected here:\n- a name (NAME)",
        (4, 5),
    ),
    (
        "let = 1;",
        5,
        "unexpected \"=\"\n\nExpected here:\n- a name (NAME)",
        (4, 5),
    ),
    (
        "let x",
        5,
        "unexpected end of the text\n\nExpected here:\n- \";\" (SEMICOLON)\n- \"=\" (ASSIGN)",
        (5, 5),
    ),
    ("let x", 4, "\"x\" a name, variable\n\nNAME", (4, 5)),
    (
        "let ? y",
        4,
        "unexpected \"?\", which begins no token\n\nExpected here:\n- a name (NAME)",
        (4, 5),
    ),
    ("let ? y", 6, "\"y\" a name, variable\n\nNAME", (6, 7)),
    ("let ? ?", 6, "\"?\", which begins no token", (6, 7)),
];

/// The same as Markdown.
const MARKDOWN: [Row; 3] = [
    (
        "x = a * 2;",
        6,
        "**\"\\*\"** operator\n\nTIMES in Product in Sum in Test in Both in Expression in Statement \
         in Statement\\* in Program",
        (6, 7),
    ),
    (
        "let = 1;",
        4,
        "**unexpected \"\\=\"**\n\nExpected here:\n- a name \\(NAME\\)",
        (4, 5),
    ),
    (
        "let x; // [a](b) <i> `_` & \\",
        9,
        "**\"// \\[a\\]\\(b\\) \\<i\\> \\`\\_\\` \\& \\\\\"** comment\n\nCOMMENT, skipped: it is in no node",
        (7, 28),
    ),
];

/// The place of a character on the first line.
fn place(character: u32) -> Position {
    Position { line: 0, character }
}

fn check_shown(rt: &impl Abort, shown: &HoverText, row: &Row) {
    let (_, _, text, (from, to)) = *row;
    assert!(rt; shown.text.as_str() == text, "{:?}", shown.text);
    let range = Range {
        start: place(from),
        end: place(to),
    };
    assert!(rt; shown.range == range, "{:?}", shown.range);
}

fn check(
    rt: &impl Abort,
    alloc: Global,
    language: &Language,
    settings: &Settings,
    markup: Markup,
    row: &Row,
) {
    let doc = document(rt, alloc, language, row.0);
    let at = place(row.1);
    match hover(alloc, language, settings, &doc, None, at, markup).expect(rt, "memory") {
        Some(shown) => check_shown(rt, &shown, row),
        None => assert!(rt; row.2.is_empty(), "{}", row.2),
    }
}

#[test]
fn hovers_say_what_stands_there(rt: HostRuntime) {
    let alloc = rt.alloc();
    let (script, settings) = language(&rt, alloc, SCRIPT, SCRIPT_SETTINGS);
    for row in &HOVERS {
        check(&rt, alloc, &script, &settings, Markup::Plain, row);
    }
    for row in &MARKDOWN {
        check(&rt, alloc, &script, &settings, Markup::Markdown, row);
    }
}

/// Blocks between words.
const BLOCKS: &str = r##"lrgrammar 2
token BEGIN = [bB] [eE] [gG] [iI] [nN]
token END = "end"
token DOT = "."
token NAME = [a-z]+
skip BLANK = [ \n]+
start Block
Block = BEGIN Item* END
Item = NAME
Item = DOT NAME DOT
Item = Block
"##;

/// A text, a place on its first line, and the ranges of the two brackets, if there are some.
type Pair = (&'static str, u32, Option<([u32; 4], [u32; 4])>);

/// Texts of `SCRIPT`.
const PAIRS: [Pair; 12] = [
    ("fn f() {}", 4, Some(([0, 4, 0, 5], [0, 5, 0, 6]))),
    ("fn f() {}", 5, Some(([0, 4, 0, 5], [0, 5, 0, 6]))),
    ("fn f() {}", 6, Some(([0, 4, 0, 5], [0, 5, 0, 6]))),
    ("fn f() {\n}", 7, Some(([0, 7, 0, 8], [1, 0, 1, 1]))),
    ("x = [1, [2]];", 8, Some(([0, 8, 0, 9], [0, 10, 0, 11]))),
    ("x = [1, [2]];", 12, Some(([0, 4, 0, 5], [0, 11, 0, 12]))),
    ("f(1); f(", 8, None),
    ("f(1); f(", 1, Some(([0, 1, 0, 2], [0, 3, 0, 4]))),
    ("foo();", 1, None),
    ("f(1); g(2); ?", 8, Some(([0, 7, 0, 8], [0, 9, 0, 10]))),
    ("fn f() {", 4, Some(([0, 4, 0, 5], [0, 5, 0, 6]))),
    ("fn f() {", 8, None),
];

/// Texts of `BLOCKS`.
const WORDS: [Pair; 5] = [
    (
        "begin a Begin b end end",
        2,
        Some(([0, 0, 0, 5], [0, 20, 0, 23])),
    ),
    (
        "begin a Begin b end end",
        13,
        Some(([0, 8, 0, 13], [0, 16, 0, 19])),
    ),
    (
        "begin a Begin b end end",
        23,
        Some(([0, 0, 0, 5], [0, 20, 0, 23])),
    ),
    ("begin a end", 6, None),
    ("begin .a. end", 6, None),
];

fn numbers(range: Range) -> [u32; 4] {
    let (start, end) = (range.start, range.end);
    [start.line, start.character, end.line, end.character]
}

fn check_pair(rt: &impl Abort, alloc: Global, language: &Language, row: &Pair) {
    let (text, character, wanted) = *row;
    let doc: Doc = document(rt, alloc, language, text);
    let found = brackets(alloc, language, &doc, None, place(character)).expect(rt, "memory");
    let ranges = match found {
        Some(pair) => Some((numbers(pair.opening), numbers(pair.closing))),
        None => None,
    };
    assert!(rt; ranges == wanted, "{text:?} at {character}: {ranges:?}");
}

#[test]
fn brackets_are_of_one_node(rt: HostRuntime) {
    let alloc = rt.alloc();
    let (script, _) = language(&rt, alloc, SCRIPT, SCRIPT_SETTINGS);
    for row in &PAIRS {
        check_pair(&rt, alloc, &script, row);
    }
    let (blocks, _) = language(&rt, alloc, BLOCKS, "");
    for row in &WORDS {
        check_pair(&rt, alloc, &blocks, row);
    }
}
