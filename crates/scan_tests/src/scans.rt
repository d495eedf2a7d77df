//! The tokens of worked texts, and what edits change of them.

ghost use Rattle.std.specs.Prelude.{◌≡◌, ◌<◌, drop, length};
ghost use Rattle.std.specs.Str.{chars};
ghost use Rattle.grammar.specs.Grammars.{lexicon_of};
ghost use Rattle.lexer.specs.Tokens.{AreTokensOf};

use grammar::Grammar;
use lexer::{Edit, Kind, KindSplice, Scanner, Source, Tokens, Whole};
use std::alloc::Global;
use std::cell::Cell;
use std::process::Abort;
use text::{Chars, Text};
use worked::{LETTERS, LISTS, SUMS};

const NUM: Kind = Kind::Rule(0);

const PLUS: Kind = Kind::Rule(1);

const RP: Kind = Kind::Rule(3);

/// The scanner of a grammar file.
fn load(rt: &impl Abort, alloc: Global, text: &str) -> Scanner {
    let grammar = Grammar::read(alloc, text).expect(rt, "a grammar");
    Scanner::new(alloc, grammar).expect(rt, "a scanner")
}

/// The tokens of a whole text.
fn scan(rt: &impl Abort, alloc: Global, scanner: &Scanner, text: &Text) -> Tokens
    ensures { AreTokensOf (lexicon_of scanner.now) text.now result.items }
{
    let _length = text.len();
    let (grammar, automaton) = (scanner.grammar(), scanner.automaton());
    Tokens::scan(alloc, grammar, automaton, &Whole(text)).expect(rt, "tokens")
}

/// A text whose reads are counted.
#[derive(Drop)]
struct Counted<'a> {
    whole: Whole<'a>,
    reads: Cell<usize>,
}

impl<'a> Source for Counted<'a> {
    type Ahead = Chars<'a>;

    ghost text = { λ s. s.whole.0.now };

    ghost in_window = { λ s i. i < length s.whole.0.now };

    ghost is_before = { λ s i ahead. ahead ≡ drop i s.whole.0.now };

    fn len(&self) -> usize {
        self.whole.len()
    }

    fn get(&self, i: usize) -> char {
        self.reads.set(self.reads.get().saturating_add(1));
        self.whole.get(i)
    }

    fn ahead(&self, i: usize) -> Chars<'a> {
        self.whole.ahead(i)
    }

    fn next(&self, ahead: &mut Chars<'a>, i: usize) -> char {
        self.reads.set(self.reads.get().saturating_add(1));
        self.whole.next(ahead, i)
    }

    ghost inside = { λ s i h. h };
}

/// An edit of a text, and what is expected: its number, the characters that give way to a piece,
/// how many tokens are scanned for it and how many there are after it, and the splice of kinds.
type Step<'a> = (
    u64,
    (usize, usize, &'a str),
    (usize, usize),
    (usize, usize, &'a [Kind]),
);

/// What a rescan answers, and how many characters it read.
#[derive(Drop)]
struct Rescan {
    splice: KindSplice,
    reads: usize,
}

/// How many characters a piece has.
fn count(rt: &impl Abort, alloc: Global, piece: &str) -> usize
    ensures { result ≡ length (chars piece.now) }
{
    Text::open(alloc, piece).expect(rt, "a piece").len()
}

/// Makes the edit of a step, and brings the tokens to the text.
fn change(
    rt: &impl Abort,
    alloc: Global,
    scanner: &Scanner,
    text: &mut Text,
    tokens: &mut Tokens,
    step: &Step<'_>,
) -> Rescan
    requires tokens { AreTokensOf (lexicon_of scanner.now) text.old tokens.old.items }
    ensures { AreTokensOf (lexicon_of scanner.now) text.new tokens.new.items }
{
    let (number, (at, removed, piece), _, _) = *step;
    let length = text.len();
    assert!(rt; at <= length && removed <= length - at);
    text.replace(alloc, at, at + removed, piece)
        .expect(rt, "an edit");
    let _after = text.len();
    let edit = Edit {
        at,
        removed,
        inserted: count(rt, alloc, piece),
        number,
    };
    let source = Counted {
        whole: Whole(text),
        reads: Cell::new(0),
    };
    let (grammar, automaton) = (scanner.grammar(), scanner.automaton());
    let splice = tokens
        .rescan(alloc, grammar, automaton, &source, edit)
        .expect(rt, "a rescan");
    let reads = source.reads.get();
    Rescan { splice, reads }
}

/// This holds.
fn expect(rt: &impl Abort, holds: bool, what: &str) {
    assert!(rt; holds, "{what}");
}

/// This holds at a place.
fn expect_at(rt: &impl Abort, holds: bool, at: usize) {
    assert!(rt; holds, "at {at}");
}

/// How many tokens have this stamp.
fn born_by(tokens: &Tokens, number: u64) -> usize {
    let mut count: usize = 0;
    for i in 0..tokens.count() {
        if let Some(token) = tokens.token(i) {
            if token.born == number {
                count = count.saturating_add(1);
            }
        }
    }
    count
}

/// Checks the expected counts of a step.
fn check_rescan(rt: &impl Abort, tokens: &Tokens, splice: &KindSplice, step: &Step<'_>) {
    let (number, _, (scanned, count), (from, to, kinds)) = *step;
    expect(rt, tokens.scanned() == scanned, "tokens scanned");
    expect(rt, born_by(tokens, number) == scanned, "tokens born");
    expect(rt, tokens.count() == count, "tokens");
    expect(rt, (splice.from, splice.to) == (from, to), "kinds removed");
    expect(rt, splice.kinds.as_slice() == kinds, "kinds put in");
}

/// Makes the edit of a step, checks the expected counts, and returns how many characters were
/// read.
fn check_step(
    rt: &impl Abort,
    alloc: Global,
    scanner: &Scanner,
    text: &mut Text,
    tokens: &mut Tokens,
    step: &Step<'_>,
) -> usize
    requires tokens { AreTokensOf (lexicon_of scanner.now) text.old tokens.old.items }
    ensures { AreTokensOf (lexicon_of scanner.now) text.new tokens.new.items }
{
    let rescan = change(rt, alloc, scanner, text, tokens, step);
    check_rescan(rt, tokens, &rescan.splice, step);
    rescan.reads
}

/// What is known after the steps: how many characters were read for the last one, and in how many
/// runs the tokens lie.
type Ending = (usize, usize);

/// Opens a text, and makes the edits of the steps in turn.
fn check(
    rt: &impl Abort,
    alloc: Global,
    scanner: &Scanner,
    open: &str,
    steps: &[Step<'_>],
) -> Ending {
    let mut text = Text::open(alloc, open).expect(rt, "a text");
    let mut tokens = scan(rt, alloc, scanner, &text);
    let mut reads = 0;
    'steps: for step in steps {
        reads = check_step(rt, alloc, scanner, &mut text, &mut tokens, step);
    }
    (reads, tokens.items().seq().len())
}

/// The same, by the rules of a grammar file.
fn check_by(rt: &impl Abort, alloc: Global, file: &str, open: &str, steps: &[Step<'_>]) -> Ending {
    let scanner = load(rt, alloc, file);
    check(rt, alloc, &scanner, open, steps)
}

/// A token: its name, length, reach and start.
type Row = (&'static str, u32, u32, usize);

/// Whether token `i` is this, and has stamp 0.
fn is_row(grammar: &Grammar, tokens: &Tokens, i: usize, row: Row) -> bool {
    let Some(token) = tokens.token(i) else {
        return false;
    };
    let name = grammar.kind_name(token.kind());
    (name, token.length, token.reach, tokens.start_of(i)) == row && token.born == 0
}

/// Whether the tokens are these.
fn are_rows(grammar: &Grammar, tokens: &Tokens, rows: &[Row]) -> bool {
    for (i, row) in rows.iter().enumerate() {
        if !is_row(grammar, tokens, i, *row) {
            return false;
        }
    }
    tokens.count() == rows.len() && tokens.scanned() == rows.len()
}

/// Whether the tokens of a text are these.
fn has_tokens(rt: &impl Abort, alloc: Global, scanner: &Scanner, text: &str, rows: &[Row]) -> bool {
    let text = Text::open(alloc, text).expect(rt, "a text");
    let tokens = scan(rt, alloc, scanner, &text);
    are_rows(scanner.grammar(), &tokens, rows)
}

/// So many times the same characters.
fn repeated(rt: &impl Abort, alloc: Global, piece: &str, count: usize) -> String {
    let mut text = String::new(alloc);
    for _ in 0..count {
        text.push_str(piece).expect(rt, "memory");
    }
    text
}

/// Checks the tokens of a text by the rules of a grammar file.
fn check_tokens(rt: &impl Abort, alloc: Global, file: &str, text: &str, rows: &[Row]) {
    let scanner = load(rt, alloc, file);
    let has_tokens = has_tokens(rt, alloc, &scanner, text, rows);
    expect(rt, has_tokens, text);
}

/// Each row is a grammar file, a text, and its tokens.
const SCANS: &[(&str, &str, &[Row])] = &[
    (
        SUMS,
        "1 +\r\n2",
        &[
            ("NUM", 1, 2, 0),
            ("WS", 1, 2, 1),
            ("PLUS", 1, 2, 2),
            ("WS", 2, 3, 3),
            ("NUM", 1, 2, 5),
        ],
    ),
    (SUMS, "", &[]),
    (LISTS, "\r\n", &[("invalid", 1, 1, 0), ("invalid", 1, 1, 1)]),
    (
        LETTERS,
        "abd",
        &[("A", 1, 3, 0), ("B", 1, 2, 1), ("D", 1, 2, 2)],
    ),
];

#[test]
fn scans_whole_texts(rt: HostRuntime) {
    for (file, text, rows) in SCANS {
        check_tokens(&rt, rt.alloc(), file, text, rows);
    }
}

/// Numbers, blanks and pluses in turn.
fn check_tokens_in_turn(rt: &impl Abort, grammar: &Grammar, tokens: &Tokens) {
    expect(rt, tokens.count() == 4500, "tokens");
    for (i, token) in tokens.items().iter_from(0).enumerate() {
        let name = ["NUM", "WS", "PLUS"][i % 3];
        expect_at(rt, grammar.kind_name(token.kind()) == name, i);
    }
}

/// From the second token on, pluses and numbers in turn.
fn check_kinds_in_turn(rt: &impl Abort, grammar: &Grammar, tokens: &Tokens) {
    let mut count: usize = 1;
    for kind in tokens.kinds_from(1) {
        let name = ["NUM", "PLUS"][count % 2];
        expect_at(rt, grammar.kind_name(kind) == name, count);
        count = count.saturating_add(1);
    }
    expect(rt, count == 3000, "kinds");
    expect(
        rt,
        tokens.kinds_from(3000).next().is_none(),
        "no more kinds",
    );
}

/// Scans 1,500 times `1 +`.
fn check_with_kinds(rt: &impl Abort, alloc: Global, scanner: &Scanner, text: &str) {
    let text = Text::open(alloc, text).expect(rt, "a text");
    let tokens = scan(rt, alloc, scanner, &text);
    check_tokens_in_turn(rt, scanner.grammar(), &tokens);
    check_kinds_in_turn(rt, scanner.grammar(), &tokens);
}

/// More tokens than are put into the list at once.
#[test]
fn scans_a_long_text_with_its_kinds(rt: HostRuntime) {
    let text = repeated(&rt, rt.alloc(), "1 +", 1500);
    let sums = load(&rt, rt.alloc(), SUMS);
    check_with_kinds(&rt, rt.alloc(), &sums, &text);
}

/// Checks the tokens of two numbers with a plus between them, and blanks around the plus.
fn check_significant(rt: &impl Abort, tokens: &Tokens) {
    expect(rt, tokens.items().len() == 5, "tokens");
    assert!(rt; tokens.significant() == 3);
    let places = [tokens.place(0), tokens.place(1), tokens.place(2)];
    expect(rt, places == [0, 2, 4], "their places");
}

fn check_spaced(rt: &impl Abort, alloc: Global, scanner: &Scanner) {
    let text = Text::open(alloc, "1 +\r\n2").expect(rt, "a text");
    let tokens = scan(rt, alloc, scanner, &text);
    check_significant(rt, &tokens);
}

#[test]
fn shows_the_significant_tokens(rt: HostRuntime) {
    let sums = load(&rt, rt.alloc(), SUMS);
    check_spaced(&rt, rt.alloc(), &sums);
}

/// Texts, and an edit of each.
const EDITED_SUMS: &[(&str, Step<'static>)] = &[
    ("1+2", (7, (1, 0, " "), (2, 4), (0, 0, &[]))),
    ("1+ 2", (7, (3, 0, "3+"), (3, 6), (2, 2, &[NUM, PLUS]))),
    ("1+2+3", (7, (0, 0, ")"), (1, 6), (0, 0, &[RP]))),
    (")1+2+3", (7, (0, 1, ""), (0, 5), (0, 1, &[]))),
    ("(1)", (7, (2, 1, ""), (1, 2), (1, 3, &[NUM]))),
    ("1+2+3", (7, (5, 0, "4"), (1, 5), (4, 4, &[]))),
    (
        "1+2+3",
        (7, (5, 0, "+4"), (3, 7), (4, 5, &[NUM, PLUS, NUM])),
    ),
    ("1+2+3", (7, (0, 0, "9"), (1, 5), (0, 0, &[]))),
    ("1+2+3", (7, (4, 1, ""), (1, 4), (3, 5, &[PLUS]))),
];

#[test]
fn rescans_sums(rt: HostRuntime) {
    for (open, step) in EDITED_SUMS {
        check_by(&rt, rt.alloc(), SUMS, open, &[*step]);
    }
}

#[test]
fn rescans_by_reach(rt: HostRuntime) {
    const STEPS: &[Step<'static>] = &[(7, (2, 1, "c"), (1, 1), (0, 3, &[Kind::Rule(0)]))];
    check_by(&rt, rt.alloc(), LETTERS, "abd", STEPS);
}

#[test]
fn rescans_what_was_rescanned(rt: HostRuntime) {
    const WORDS: &[Kind] = &[Kind::Invalid, Kind::Rule(1), Kind::Rule(1)];
    const STEPS: &[Step<'static>] = &[
        (7, (0, 0, "\""), (1, 4), (0, 0, &[Kind::Invalid])),
        (8, (6, 0, "\""), (1, 1), (0, 3, &[Kind::Rule(0)])),
        (9, (6, 1, ""), (4, 4), (0, 1, WORDS)),
    ];
    check_by(&rt, rt.alloc(), LISTS, "ab cd", STEPS);
}

#[test]
fn reads_few_characters(rt: HostRuntime) {
    const STEPS: &[Step<'static>] = &[(7, (50_000, 0, "9"), (2, 100_000), (49_999, 49_999, &[]))];
    let open = repeated(&rt, rt.alloc(), "1+", 50_000);
    let (reads, _) = check_by(&rt, rt.alloc(), SUMS, &open, STEPS);
    expect(&rt, 0 < reads && reads < 100, "few reads");
}

/// Three runs of 64 tokens, of each of which 28 are taken away: none is so short that it is joined
/// with another. The plus before them is scanned again, since its reach meets the edit.
#[test]
fn tokens_lie_in_few_runs(rt: HostRuntime) {
    const STEPS: &[Step<'static>] = &[
        (7, (144, 28, ""), (1, 164), (143, 172, &[PLUS])),
        (8, (80, 28, ""), (1, 136), (79, 108, &[PLUS])),
        (9, (16, 28, ""), (1, 108), (15, 44, &[PLUS])),
    ];
    let open = repeated(&rt, rt.alloc(), "1+", 96);
    let (_, before) = check_by(&rt, rt.alloc(), SUMS, &open, &[]);
    let (_, after) = check_by(&rt, rt.alloc(), SUMS, &open, STEPS);
    expect(&rt, (before, after) == (3, 3), "three runs");
}

/// So many words in quotes.
fn quoted_words(rt: &impl Abort, alloc: Global, count: usize) -> String {
    let words = repeated(rt, alloc, "a ", count);
    format!(in alloc; "\"{words}\"").expect(rt, "memory")
}

/// The kinds that they have once the quote after them is taken away.
fn kinds_of_words(rt: &impl Abort, alloc: Global, count: usize) -> Vec<Kind> {
    let mut kinds = vec![in alloc; Kind::Invalid].expect(rt, "memory");
    for _ in 0..count {
        kinds.push(Kind::Rule(1)).expect(rt, "memory");
    }
    kinds
}

/// The quote after the words is taken away, so that each of them is a token again.
#[test]
fn rescans_ten_thousand_tokens(rt: HostRuntime) {
    let open = quoted_words(&rt, rt.alloc(), 5_000);
    let kinds = kinds_of_words(&rt, rt.alloc(), 5_000);
    let step = (
        7,
        (10_001, 1, ""),
        (10_001, 10_001),
        (0, 1, kinds.as_slice()),
    );
    check_by(&rt, rt.alloc(), LISTS, &open, &[step]);
}

/// Faces are a rule's; other characters outside the first plane are no rule's.
#[test]
fn scans_characters_outside_the_first_plane(rt: HostRuntime) {
    const FILE: &str = "lrgrammar 1\ntoken FACE = [\\u{1F600}-\\u{1F64F}]+\nstart S\nS = FACE\n";
    const ROWS: &[Row] = &[
        ("FACE", 2, 3, 0),
        ("invalid", 1, 1, 2),
        ("FACE", 1, 2, 3),
        ("invalid", 1, 1, 4),
    ];
    let text = "\u{1f600}\u{1f64f}\u{10000}\u{1f601}\u{10ffff}";
    check_tokens(&rt, rt.alloc(), FILE, text, ROWS);
    let long = repeated(&rt, rt.alloc(), "\u{1f600}", 262_144);
    let rows = &[("FACE", 262_144, 262_145, 0)];
    check_tokens(&rt, rt.alloc(), FILE, &long, rows);
}
