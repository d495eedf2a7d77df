//! The rows of tokens, and the text of a tree. `tests/program` has long texts and deep trees.

use grammar::Grammar;
use lexer::{Kind, Scanner, Tokens, Whole};
use std::alloc::{AllocError, Global};
use std::process::Abort;
use text::{LONGEST_TEXT, Text, Unit};
use trees::{Child, NodeId, Store};
use views::{Range, token_rows, tree_text};
use worked::{LISTS, SUMS};

/// The rows of a text's tokens, a line for each.
fn rows(rt: &impl Abort, alloc: Global, file: &str, text: &str) -> String {
    let grammar = Grammar::read(alloc, file).expect(rt, "a grammar");
    let scanner = Scanner::new(alloc, grammar).expect(rt, "a scanner");
    let text = Text::open(alloc, text).expect(rt, "a text");
    let count = text.len();
    prove!(count <= LONGEST_TEXT);
    let (grammar, automaton) = (scanner.grammar(), scanner.automaton());
    let tokens = Tokens::scan(alloc, grammar, automaton, &Whole(&text)).expect(rt, "tokens");
    let rows = token_rows(alloc, grammar, Unit::Utf16, &text, &tokens).expect(rt, "rows");
    let mut lines = String::new(alloc);
    for row in &rows {
        let line = line(alloc, row.name, row.range).expect(rt, "memory");
        lines.push_str(line.as_str()).expect(rt, "memory");
    }
    lines
}

fn line(alloc: Global, name: &str, range: Range) -> Result<String, AllocError> {
    let Range { start, end } = range;
    let (from, first) = (start.line, start.character);
    let (to, last) = (end.line, end.character);
    format!(in alloc; "{name} {from}:{first} {to}:{last};")
}

#[test]
fn rows_of_all_tokens(rt: HostRuntime) {
    let alloc = rt.alloc();
    let cases = [
        (
            SUMS,
            "1 +\r\n2",
            "NUM 0:0 0:1;WS 0:1 0:2;PLUS 0:2 0:3;WS 0:3 1:0;NUM 1:0 1:1;",
        ),
        // a token may end within a break
        (LISTS, "\r\n", "invalid 0:0 0:0;invalid 0:0 1:0;"),
        (SUMS, "", ""),
        // characters outside the first plane count two
        (SUMS, "\u{1f600}1", "invalid 0:0 0:2;NUM 0:2 0:3;"),
        (SUMS, "\u{10000}1", "invalid 0:0 0:2;NUM 0:2 0:3;"),
        (SUMS, "\u{10ffff}1", "invalid 0:0 0:2;NUM 0:2 0:3;"),
        (SUMS, "\u{ffff}1", "invalid 0:0 0:1;NUM 0:1 0:2;"),
        (
            LISTS,
            "\"\u{10000}\r\u{10ffff}\" a",
            "STR 0:0 1:3;WS 1:3 1:4;W 1:4 1:5;",
        ),
    ];
    for (file, text, wanted) in cases {
        assert!(rt;
            rows(&rt, alloc, file, text).as_str() == wanted,
            "at {text}"
        );
    }
}

const NUMBER: Child = Child::Token(Kind::Rule(0));

const PLUS: Child = Child::Token(Kind::Rule(1));

/// The tree of `1+2`.
fn sum(alloc: Global, store: &mut Store) -> Result<NodeId, AllocError> {
    let first = store.branch(alloc, 2, &[NUMBER], 0)?;
    let left = store.branch(alloc, 1, &[Child::Node(first)], 0)?;
    let second = store.branch(alloc, 2, &[NUMBER], 0)?;
    store.branch(alloc, 0, &[Child::Node(left), PLUS, Child::Node(second)], 0)
}

#[test]
fn text_of_a_sum(rt: HostRuntime) {
    let alloc = rt.alloc();
    let grammar = Grammar::read(alloc, SUMS).expect(&rt, "a grammar");
    let mut store = Store::new(alloc);
    let root = sum(alloc, &mut store).expect(&rt, "memory");
    assert!(rt; root.index < store.len());
    let text = tree_text(alloc, &grammar, &store, root).expect(&rt, "a text");
    assert!(rt; text.as_str() == "(Sum (Sum (Atom NUM)) PLUS (Atom NUM))");
}
