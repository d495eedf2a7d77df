//! The lines of grammar files.

use grammar_file::{File, GrammarFault, read_file};
use std::alloc::Global;

const SUMS: &str = r#"lrgrammar 1
# sums
token NUM = [0-9]+
skip WS = [ ]+

start Sum
Sum = Sum NUM
Sum = NUM
"#;

/// After its line, a right side with marked words is written out: each such word is a nonterminal.
const MARKED: &str = r#"lrgrammar 2
token A = "a"
token B = "b"
start S
S = A* B?
"#;

/// What is known of a file: how many statements, patterns and defined names it has, its
/// nonterminals, and the names of nonterminal 0 and of rule 1.
#[derive(Clone, Copy)]
struct Shown<'a> {
    counts: (usize, usize, usize),
    nonterminals: &'a [&'a str],
    nonterminal: &'a str,
    rule: &'a str,
}

fn shows(outcome: &Result<File<'_>, GrammarFault>, shown: &Shown<'_>) -> bool {
    let Ok(file) = outcome else {
        return false;
    };
    let names = &file.names;
    (
        file.statements.len(),
        file.patterns.len(),
        file.defined.len(),
    ) == shown.counts
        && names.nonterminals.as_slice() == shown.nonterminals
        && (
            names.nonterminals.number(shown.nonterminal),
            names.rules.number(shown.rule),
        ) == (0, 1)
}

/// Whether a file that is read has this.
fn reads(alloc: Global, text: &str, shown: &Shown<'_>) -> Result<bool, GrammarFault> {
    let outcome = read_file(alloc, text);
    let is_shown = shows(&outcome, shown);
    outcome.and(Ok(is_shown))
}

#[test]
fn reads_lines_and_writes_out_marked_words(rt: HostRuntime) {
    let sums = Shown {
        counts: (5, 2, 3),
        nonterminals: &["Sum"],
        nonterminal: "Sum",
        rule: "WS",
    };
    let marked = Shown {
        counts: (8, 2, 3),
        nonterminals: &["S", "A*", "B?"],
        nonterminal: "S",
        rule: "B",
    };
    for (text, shown) in [(SUMS, sums), (MARKED, marked)] {
        let outcome = reads(rt.alloc(), text, &shown);
        assert!(rt; matches!(outcome, Ok(true)), "at {text}");
    }
}

/// The line of the first fault that lines and names show, and 99 where there is none.
fn line_at_fault(alloc: Global, text: &str) -> usize {
    match read_file(alloc, text).err() {
        Some(fault) => fault.line,
        None => 99,
    }
}

#[test]
fn shows_the_line_at_fault(rt: HostRuntime) {
    let alloc = rt.alloc();
    let rows = [
        (SUMS, 99),
        ("lrgrammar 3\n", 1),
        ("lrgrammar 2\n", 0),
        ("lrgrammar 1\n", 0),
        ("lrgrammar 1\n\nstart\n", 3),
        ("lrgrammar 1\nstart S\nS = X\n", 3),
        ("lrgrammar 1\nstart A\nA = A\n", 99),
    ];
    for (file, line) in rows {
        assert!(rt; line_at_fault(alloc, file) == line, "at {file}");
    }
}
