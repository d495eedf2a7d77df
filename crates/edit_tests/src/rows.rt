//! Worked edits, with the counts of what they make.

ghost use Rattle.std.specs.Prelude.{◌+◌};
ghost use Rattle.grammar.specs.Grammars.{lexicon_of};
ghost use Rattle.lexer.specs.Tokens.{AreTokensOf};
ghost use Rattle.lexer.specs.Rescans.{significant_kinds};
ghost use Rattle.parser.specs.Parses.{IsParseOf};

use crate::document::{Change, Document, Ending, apply, ending_of, load, open};
use docs::Language;
use std::alloc::Global;
use std::process::Abort;
use worked::{LISTS, SUMS};

/// How many tokens and branches there are, how many of them the last edit made, and what is
/// reported.
#[derive(Clone, Copy, PartialEq, Eq)]
struct Outcome {
    tokens: usize,
    scanned: usize,
    branches: usize,
    built: usize,
    ending: Ending,
}

/// The number of an edit, the edit, and what is expected: the counts of tokens, of those scanned,
/// of branches and of those built, and what is reported.
type Row<'a> = (
    u64,
    (usize, usize, &'a str),
    (usize, usize, usize, usize),
    Ending,
);

fn outcome_of(document: &Document) -> Outcome {
    let (branches, built) = document.parse.counts();
    Outcome {
        tokens: document.tokens.count(),
        scanned: document.tokens.scanned(),
        branches,
        built,
        ending: ending_of(&document.parse),
    }
}

/// Makes the edit of a row, and checks the expected counts.
fn check_row(
    rt: &impl Abort,
    alloc: Global,
    language: &Language,
    document: &mut Document,
    row: &Row<'_>,
)
    requires tokens { let d = document.old in
        AreTokensOf (lexicon_of language.now.file) d.text d.tokens.items }
    requires parse { IsParseOf language.now.tables (significant_kinds document.old.tokens.items)
        document.old.store document.old.parse }
    ensures tokens { let d = document.new in
        AreTokensOf (lexicon_of language.now.file) d.text d.tokens.items }
    ensures parse { IsParseOf language.now.tables (significant_kinds document.new.tokens.items)
        document.new.store document.new.parse }
{
    let (number, (at, removed, piece), counts, ending) = *row;
    let edit = Change {
        at,
        removed,
        piece,
        number,
    };
    apply(rt, alloc, language, document, &edit);
    let (tokens, scanned, branches, built) = counts;
    let awaited = Outcome {
        tokens,
        scanned,
        branches,
        built,
        ending,
    };
    assert!(rt; outcome_of(document) == awaited, "edit {number}");
}

/// Opens a text and makes the edits of the rows in turn.
fn check(rt: &impl Abort, alloc: Global, language: &Language, text: &str, rows: &[Row<'_>]) {
    let mut document = open(rt, alloc, language, text);
    'rows: for row in rows {
        check_row(rt, alloc, language, &mut document, row);
    }
}

/// The same, by the rules of a grammar file.
fn check_by(rt: &impl Abort, alloc: Global, file: &str, text: &str, rows: &[Row<'_>]) {
    let language = load(rt, alloc, file);
    check(rt, alloc, &language, text, rows);
}

/// Sums, and an edit of each.
const EDITED_SUMS: &[(&str, Row<'static>)] = &[
    ("1+2", (1, (1, 0, " "), (4, 2, 4, 0), Ending::Tree)),
    ("1+ 2", (1, (3, 0, "3+"), (6, 3, 6, 3), Ending::Tree)),
    ("(1", (1, (2, 0, ")"), (3, 2, 4, 4), Ending::Tree)),
    ("(1+2", (1, (4, 0, ")"), (5, 2, 6, 4), Ending::Tree)),
    ("(1)", (1, (2, 1, ""), (2, 1, 0, 0), Ending::FaultAtEnd)),
    ("1+2+3", (1, (5, 0, "4"), (5, 1, 6, 0), Ending::Tree)),
    ("1+2+3", (1, (5, 0, "+4"), (7, 3, 8, 4), Ending::Tree)),
    ("1+2+3", (1, (0, 0, "9"), (5, 1, 6, 0), Ending::Tree)),
    ("1+2+3", (1, (4, 1, ""), (4, 1, 4, 0), Ending::FaultAtEnd)),
    ("1+2", (1, (1, 0, ""), (3, 1, 4, 0), Ending::Tree)),
];

#[test]
fn edits_of_sums(rt: HostRuntime) {
    for (text, row) in EDITED_SUMS {
        check_by(&rt, rt.alloc(), SUMS, text, &[*row]);
    }
}

#[test]
fn edits_of_lists(rt: HostRuntime) {
    const ROWS: &[Row<'static>] = &[
        (1, (0, 0, "\""), (4, 1, 0, 0), Ending::FaultAt(0)),
        (2, (6, 0, "\""), (1, 1, 3, 3), Ending::Tree),
        (3, (6, 1, ""), (4, 4, 0, 0), Ending::FaultAt(0)),
    ];
    check_by(&rt, rt.alloc(), LISTS, "ab cd", ROWS);
}

/// A fault, edits after and before it, and the fault mended: what stands before the fault is kept,
/// and what stands after it is built once it is mended.
#[test]
fn faulty_and_back(rt: HostRuntime) {
    const ROWS: &[Row<'static>] = &[
        (1, (0, 0, ")"), (6, 1, 0, 0), Ending::FaultAt(0)),
        (2, (0, 1, ""), (5, 0, 6, 6), Ending::Tree),
        (3, (4, 0, "+"), (6, 2, 4, 0), Ending::FaultAt(4)),
        (4, (6, 0, "+4"), (8, 3, 4, 0), Ending::FaultAt(4)),
        (5, (0, 0, "5+"), (10, 2, 6, 4), Ending::FaultAt(6)),
        (6, (6, 1, ""), (9, 1, 10, 4), Ending::Tree),
    ];
    check_by(&rt, rt.alloc(), SUMS, "1+2+3", ROWS);
}

/// Only a number above every stamp of the nodes keeps what stands, whatever the last edit's number
/// was.
#[test]
fn numbers_that_are_no_new_ones(rt: HostRuntime) {
    const SPACE: (usize, usize, &str) = (1, 0, " ");
    const ROWS: &[Row<'static>] = &[
        (7, SPACE, (4, 2, 4, 0), Ending::Tree),
        (7, SPACE, (4, 2, 4, 0), Ending::Tree),
        (3, SPACE, (4, 2, 4, 0), Ending::Tree),
        (3, (6, 0, "+3"), (6, 3, 6, 4), Ending::Tree),
        (3, SPACE, (6, 2, 6, 6), Ending::Tree),
        (2, SPACE, (6, 2, 6, 6), Ending::Tree),
        (4, SPACE, (6, 2, 6, 0), Ending::Tree),
    ];
    check_by(&rt, rt.alloc(), SUMS, "1+2", ROWS);
}

/// A hundred thousand times the same character, after others.
fn repeated(rt: &impl Abort, alloc: Global, prefix: &str, c: char) -> String {
    let mut text = String::from_str(alloc, prefix).expect(rt, "memory");
    for _ in 0..100_000 {
        text.push(c).expect(rt, "memory");
    }
    text
}

/// So deep a tree is built and gone over without recursion.
#[test]
fn deep_trees(rt: HostRuntime) {
    let alloc = rt.alloc();
    let opening = repeated(&rt, alloc, "", '(');
    let closing = repeated(&rt, alloc, "1", ')');
    let edit = (100_000, 0, closing.as_str());
    let mended = (1, edit, (200_001, 100_002, 200_002, 200_002), Ending::Tree);
    check_by(&rt, alloc, SUMS, &opening, &[mended]);
}
