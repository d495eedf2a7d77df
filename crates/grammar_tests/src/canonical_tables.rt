//! The moves of the tables of sums. `tests/program` has the files that have a conflict or too many
//! sets.

ghost use Rattle.std.specs.Prelude.{◌<◌, List};
ghost use Rattle.definitions.specs.declared.Symbol.{Symbol as GrammarSymbol};
ghost use Rattle.tables.specs.Tables.{IsStateOf};

use definitions::Kind;
use grammar::Grammar;
use std::alloc::Global;
use std::process::Abort;
use tables::{Move, Tables};
use worked::SUMS;

fn tables(rt: &impl Abort, alloc: Global, text: &str) -> Tables {
    let grammar = Grammar::read(alloc, text).expect(rt, "a grammar");
    Tables::build(alloc, &grammar).expect(rt, "tables")
}

/// The state that a token rule which is shifted leads to.
fn shift(rt: &impl Abort, tables: &Tables, state: usize, rule: usize) -> usize
    requires { (prefix : List GrammarSymbol) × IsStateOf tables.now prefix state }
    ensures { (prefix : List GrammarSymbol) × IsStateOf tables.now prefix result }
{
    match tables.action(state, Some(Kind::Rule(rule))) {
        Some(Move::Shift(to)) => to,
        _ => panic!(rt; "no shift"),
    }
}

/// Just these may come next in a state of the tables of sums.
fn expects(rt: &impl Abort, alloc: Global, tables: &Tables, state: usize, wanted: &[Option<usize>])
    requires { (prefix : List GrammarSymbol) × IsStateOf tables.now prefix state }
{
    let mut looks = Vec::new(alloc);
    for look in tables.expects(state) {
        looks.push(look).expect(rt, "memory");
    }
    assert!(rt; looks.as_slice() == wanted);
}

fn check_expected(rt: &impl Abort, alloc: Global, tables: &Tables) {
    let start = tables.start();
    let number = shift(rt, tables, start, 0);
    let open = shift(rt, tables, start, 2);
    let inner = shift(rt, tables, open, 0);
    let operand = [Some(0), Some(2)];
    expects(rt, alloc, tables, start, &operand);
    expects(rt, alloc, tables, open, &operand);
    expects(rt, alloc, tables, number, &[Some(1), None]);
    expects(rt, alloc, tables, inner, &[Some(1), Some(3)]);
}

/// The moves of a state: each row is a lookahead and its move.
fn moves(rt: &impl Abort, tables: &Tables, state: usize, rows: &[(Option<Kind>, Option<Move>)])
    requires { (prefix : List GrammarSymbol) × IsStateOf tables.now prefix state }
{
    for (look, wanted) in rows {
        assert!(rt; tables.action(state, *look) == *wanted);
    }
}

fn check_moves(rt: &impl Abort, tables: &Tables) {
    let start = tables.start();
    moves(
        rt,
        tables,
        start,
        &[(None, None), (Some(Kind::Invalid), None)],
    );
    for (nonterminal, is_there) in [(0, true), (1, true), (7, false)] {
        assert!(rt; tables.goto(start, nonterminal).is_some() == is_there);
    }
    let number = shift(rt, tables, start, 0);
    let reduced = Some(Move::Reduce(2));
    let rows = [
        (None, reduced),
        (Some(Kind::Rule(1)), reduced),
        (Some(Kind::Rule(3)), None),
    ];
    moves(rt, tables, number, &rows);
}

#[test]
fn moves_in_sums_and_what_they_go_on_with(rt: HostRuntime) {
    let tables = tables(&rt, rt.alloc(), SUMS);
    check_moves(&rt, &tables);
    check_expected(&rt, rt.alloc(), &tables);
}
