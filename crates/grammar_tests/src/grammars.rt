//! What the grammar of a worked file has. `tests/program` has the files that are refused.

use grammar::{Grammar, Kind, Symbol};
use std::alloc::Global;
use std::process::Abort;
use worked::SUMS;

/// The grammar of a file that is given in two parts.
pub fn read_both(rt: &impl Abort, alloc: Global, prefix: &str, lines: &str) -> Grammar {
    let file = format!(in alloc; "{prefix}{lines}").expect(rt, "memory");
    Grammar::read(alloc, &file).expect(rt, "a grammar")
}

/// The productions are these: each has a left side and a right side.
pub fn check_productions(rt: &impl Abort, grammar: &Grammar, sides: &[(usize, &[Symbol])]) {
    assert!(rt; grammar.productions() == sides.len());
    for (production, (left, right)) in sides.iter().enumerate() {
        assert!(rt; production < grammar.productions());
        assert!(rt; grammar.left(production) == *left, "at {production}");
        assert!(rt; grammar.right(production) == *right, "at {production}");
    }
}

fn check_names_and_marks(rt: &impl Abort, grammar: &Grammar) {
    for (rule, name, is_skipped) in [(1, "PLUS", false), (3, "RP", false), (4, "WS", true)] {
        let kind = Kind::Rule(rule);
        let shown = (grammar.kind_name(kind), grammar.is_skipped(kind));
        assert!(rt; shown == (name, is_skipped), "at {rule}");
    }
    for (number, name, is_fold) in [(0, "Sum", false), (1, "Atom", true)] {
        assert!(rt; number < grammar.nonterminals());
        let shown = (grammar.nonterminal_name(number), grammar.is_fold(number));
        assert!(rt; shown == (name, is_fold), "at {number}");
    }
}

fn check_sums(rt: &impl Abort, grammar: &Grammar) {
    assert!(rt; (grammar.rules(), grammar.patterns().len()) == (5, 5));
    assert!(rt; (grammar.nonterminals(), grammar.start()) == (2, 0));
    let (sum, atom) = (Symbol::Nonterminal(0), Symbol::Nonterminal(1));
    let sides: [(usize, &[Symbol]); 4] = [
        (0, &[sum, Symbol::Rule(1), atom]),
        (0, &[atom]),
        (1, &[Symbol::Rule(0)]),
        (1, &[Symbol::Rule(2), sum, Symbol::Rule(3)]),
    ];
    check_productions(rt, grammar, &sides);
    assert!(rt; grammar.notes().next() == None);
}

#[test]
fn shows_counts_names_marks_and_symbols_of_sums(rt: HostRuntime) {
    let grammar = read_both(&rt, rt.alloc(), SUMS, "");
    check_names_and_marks(&rt, &grammar);
    check_sums(&rt, &grammar);
}

#[test]
fn notes_what_is_not_used(rt: HostRuntime) {
    let grammar = read_both(&rt, rt.alloc(), SUMS, "token DOT = \".\"\n");
    let mut notes = grammar.notes();
    assert!(rt; (notes.next(), notes.next()) == (Some("DOT"), None));
}
