//! Parses of worked kinds, of grammars of sums and of lists. `tests/program` has a deep one.

ghost use Rattle.std.specs.Prelude.{⊤, ◌<◌, List};
ghost use Rattle.definitions.specs.declared.Kind.{Kind as TokenKind};
ghost use Rattle.trees.specs.Cells.{Cell};
ghost use Rattle.parser.specs.Parses.{IsParseOf};

use definitions::Kind;
use grammar::Grammar;
use parser::{Parse, Verdict};
use std::alloc::Global;
use std::process::Abort;
use tables::Tables;
use trees::{Child, Kinds, NodeId, Store};
use worked::{LISTS, SUMS};

const NUM: Kind = Kind::Rule(0);

const PLUS: Kind = Kind::Rule(1);

const LP: Kind = Kind::Rule(2);

#[derive(Drop)]
struct Listed<'a> {
    kinds: &'a [Kind],
}

impl<'a> Kinds for Listed<'a> {
    type Ahead = ();

    ghost kinds = { λ s. s.kinds.now };

    ghost is_before = { λ s k ahead. ⊤ };

    fn len(&self) -> usize {
        self.kinds.len()
    }

    fn kind(&self, k: usize) -> Option<Kind> {
        self.kinds.get(k).copied()
    }

    fn ahead(&self, _k: usize) {}

    fn next(&self, _ahead: &mut (), k: usize) -> Option<Kind> {
        self.kind(k)
    }
}

fn tables(rt: &impl Abort, alloc: Global, text: &str) -> Tables {
    let grammar = Grammar::read(alloc, text).expect(rt, "a grammar");
    Tables::build(alloc, &grammar).expect(rt, "tables")
}

/// The first nodes of a store, by their numbers.
fn node(index: usize) -> Child {
    Child::Node(NodeId { index })
}

/// Edit 0 has made this node, of this production and over these children.
fn assert_node(
    rt: &impl Abort,
    store: &Store,
    index: usize,
    production: usize,
    children: &[Child],
) {
    let id = NodeId { index };
    assert!(rt; index < store.len());
    let shown = (
        store.production(id),
        store.born(id),
        store.children(id).count(),
    );
    assert!(rt; shown == (production, 0, children.len()));
    for (k, child) in children.iter().enumerate() {
        assert!(rt; store.child(id, k) == Some(*child));
    }
}

/// Which of the five token rules, and whether the end, may stand at the fault.
fn expected(rt: &impl Abort, alloc: Global, tables: &Tables, parse: &Parse) -> Vec<Option<usize>>
    requires { (kinds : List TokenKind) × (cells : List Cell)
        × IsParseOf tables.now kinds cells parse.now }
{
    let mut looks = Vec::new(alloc);
    for look in parse.expected(tables) {
        looks.push(look).expect(rt, "memory");
    }
    looks
}

/// What a parse returns where it stops: the verdict, the stack, and the rules that may follow.
#[derive(Clone, Copy)]
struct Stop<'a> {
    verdict: Verdict,
    stack: &'a [Child],
    looks: &'a [Option<usize>],
}

/// A parse stops so.
fn assert_stop(rt: &impl Abort, alloc: Global, tables: &Tables, parse: &Parse, stop: &Stop<'_>)
    requires { (kinds : List TokenKind) × (cells : List Cell)
        × IsParseOf tables.now kinds cells parse.now }
{
    assert!(rt; (parse.verdict(), parse.stack()) == (stop.verdict, stop.stack));
    let looks = expected(rt, alloc, tables, parse);
    assert!(rt; looks.as_slice() == stop.looks);
}

/// The parse of these kinds stops so.
fn stops(rt: &impl Abort, alloc: Global, tables: &Tables, kinds: &[Kind], stop: &Stop<'_>) {
    let mut store = Store::new(alloc);
    let parse = Parse::whole(alloc, tables, &mut store, &Listed { kinds }).expect(rt, "a parse");
    assert_stop(rt, alloc, tables, &parse, stop);
}

/// The parses of these kinds of sums stop so.
fn sums_stop(rt: &impl Abort, alloc: Global, rows: &[(&[Kind], Stop<'_>)]) {
    let tables = tables(rt, alloc, SUMS);
    for (kinds, stop) in rows {
        stops(rt, alloc, &tables, kinds, stop);
    }
}

/// Numbers and parentheses.
const OPERAND: &[Option<usize>] = &[Some(0), Some(2)];

#[test]
fn parses_of_sums_stop_at_the_end(rt: HostRuntime) {
    let tree = Stop {
        verdict: Verdict::Tree(NodeId { index: 3 }),
        stack: &[node(3)],
        looks: &[],
    };
    let nothing = Stop {
        verdict: Verdict::FaultAtEnd,
        stack: &[],
        looks: OPERAND,
    };
    let open = Stop {
        verdict: Verdict::FaultAtEnd,
        stack: &[Child::Token(LP), Child::Token(NUM)],
        looks: &[Some(1), Some(3)],
    };
    let rows: [(&[Kind], Stop<'_>); 3] = [
        (&[NUM, PLUS, NUM], tree),
        (&[], nothing),
        (&[LP, NUM], open),
    ];
    sums_stop(&rt, rt.alloc(), &rows);
}

#[test]
fn parses_of_sums_stop_at_the_first_fault(rt: HostRuntime) {
    let second = Stop {
        verdict: Verdict::FaultAt(1),
        stack: &[Child::Token(NUM)],
        looks: &[Some(1), None],
    };
    let invalid = Stop {
        verdict: Verdict::FaultAt(2),
        stack: &[node(1), Child::Token(PLUS)],
        looks: OPERAND,
    };
    let rows: [(&[Kind], Stop<'_>); 2] = [
        (&[NUM, NUM], second),
        (&[NUM, PLUS, Kind::Invalid, PLUS], invalid),
    ];
    sums_stop(&rt, rt.alloc(), &rows);
}

/// Parses these kinds as edit 0 after the nodes that a store has, and compares how many branches
/// there are and how many of them were built, which are all.
fn parse_whole(
    rt: &impl Abort,
    alloc: Global,
    file: &str,
    store: &mut Store,
    kinds: &[Kind],
    branches: usize,
) -> Verdict {
    let tables = tables(rt, alloc, file);
    let parse = Parse::whole(alloc, &tables, store, &Listed { kinds }).expect(rt, "a parse");
    assert!(rt; (parse.counts(), parse.number()) == ((branches, branches), 0));
    parse.verdict()
}

#[test]
fn the_nodes_of_a_sum(rt: HostRuntime) {
    let mut store = Store::new(rt.alloc());
    parse_whole(&rt, rt.alloc(), SUMS, &mut store, &[NUM, PLUS, NUM], 4);
    assert_node(&rt, &store, 0, 2, &[Child::Token(NUM)]);
    assert_node(&rt, &store, 1, 1, &[node(0)]);
    assert_node(&rt, &store, 2, 2, &[Child::Token(NUM)]);
    assert_node(&rt, &store, 3, 0, &[node(1), Child::Token(PLUS), node(2)]);
}

#[test]
fn older_nodes_stay(rt: HostRuntime) {
    let mut store = Store::new(rt.alloc());
    let older = store.branch(rt.alloc(), 7, &[], 9).expect(&rt, "memory");
    parse_whole(&rt, rt.alloc(), SUMS, &mut store, &[NUM], 2);
    assert!(rt; store.len() == 3);
    assert!(rt; older.index < store.len());
    assert!(rt; store.born(older) == 9);
}

#[test]
fn a_list_of_no_items_is_a_branch(rt: HostRuntime) {
    let mut store = Store::new(rt.alloc());
    let verdict = parse_whole(&rt, rt.alloc(), LISTS, &mut store, &[], 1);
    assert!(rt; verdict == Verdict::Tree(NodeId { index: 0 }));
    assert_node(&rt, &store, 0, 0, &[]);
}
