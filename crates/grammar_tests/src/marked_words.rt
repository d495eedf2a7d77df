//! What grammar files define in which words of right sides have marks. `tests/program` has those
//! that are refused, and notes.

use crate::grammars::{check_productions, read_both};
use grammar::Symbol;
use std::alloc::Global;
use std::process::Abort;

/// Two rules and the start of a file of version 2.
const HEAD: &str = "lrgrammar 2\ntoken A = \"a\"\ntoken B = \"b\"\nstart S\n";

/// The file with these lines has these nonterminals, and productions with these sides.
fn check(
    rt: &impl Abort,
    alloc: Global,
    lines: &str,
    names: &[&str],
    sides: &[(usize, &[Symbol])],
) {
    let grammar = read_both(rt, alloc, HEAD, lines);
    for (number, name) in names.iter().enumerate() {
        assert!(rt; number < grammar.nonterminals());
        assert!(rt; grammar.nonterminal_name(number) == *name, "at {number}");
    }
    check_productions(rt, &grammar, sides);
}

#[test]
fn numbers_marked_words_after_the_lines(rt: HostRuntime) {
    let (t, any, maybe) = (
        Symbol::Nonterminal(1),
        Symbol::Nonterminal(2),
        Symbol::Nonterminal(3),
    );
    let sides: [(usize, &[Symbol]); 6] = [
        (0, &[any, t, maybe]),
        (1, &[maybe, any]),
        (2, &[]),
        (2, &[any, Symbol::Rule(0)]),
        (3, &[]),
        (3, &[Symbol::Rule(1)]),
    ];
    let names = ["S", "T", "A*", "B?"];
    check(&rt, rt.alloc(), "S = A* T B?\nT = B? A*\n", &names, &sides);
}

#[test]
fn repeats_once_or_more(rt: HostRuntime) {
    let (again, rule) = (Symbol::Nonterminal(1), Symbol::Rule(0));
    let sides: [(usize, &[Symbol]); 3] = [(0, &[again]), (1, &[rule]), (1, &[again, rule])];
    check(&rt, rt.alloc(), "S = A+\n", &["S", "A+"], &sides);
}
