//! Mended copies of worked kinds of sums. `bench/mending` has real texts.

use crate::ranks::{CLOSING, NAME, OPENING, SIGN, WORD, begun};
use definitions::Kind;
use grammar::Grammar;
use mending::{Balance, Change, Listed, Mending, Rank};
use std::alloc::Global;
use std::process::Abort;
use tables::Tables;
use worked::SUMS;

const NUM: Kind = Kind::Rule(0);

const PLUS: Kind = Kind::Rule(1);

const LP: Kind = Kind::Rule(2);

const RP: Kind = Kind::Rule(3);

/// The rank of what is put in first, and left out as anything else is.
const FIRST: Rank = Rank {
    put_in: 0,
    leave_out: 1,
    is_dear: false,
    balance: Balance::EVEN,
};

/// A sign and a closing parenthesis are put in rather than a number, and that rather than an
/// opening one; each is left out as any other.
const RANKS: &[Rank] = &[NAME, FIRST, WORD, FIRST];

/// Kinds, the number of the fault that is mended, how it is from the first kind on that doesn't
/// stay, and the copy.
type Row<'a> = (&'a [Kind], usize, &'a [Change], &'a [Kind]);

/// The kinds have one fault, which is mended so by these ranks, and the copy is whole.
fn assert_mended_by(
    rt: &impl Abort,
    alloc: Global,
    tables: &Tables,
    ranks: &[Rank],
    row: &Row<'_>,
) {
    let (kinds, fault, changes, copy) = *row;
    let mended = Mending::whole(alloc, tables, ranks, &Listed { kinds }).expect(rt, "a mending");
    assert!(rt; mended.repairs().len() == 1);
    let repair = &mended.repairs()[0];
    assert!(rt; repair.fault == fault && repair.at <= fault && repair.from == repair.at);
    assert!(rt; begun(&repair.changes) == changes, "{:?}", repair);
    assert!(rt; mended.kinds() == copy);
    assert!(rt; mended.tree().is_some());
}

/// The kinds have one fault, which is mended so, and the copy is whole.
fn assert_mended(rt: &impl Abort, alloc: Global, tables: &Tables, row: &Row<'_>) {
    assert_mended_by(rt, alloc, tables, RANKS, row);
}

fn sums(rt: &impl Abort, alloc: Global) -> Tables {
    let grammar = Grammar::read(alloc, SUMS).expect(rt, "a grammar");
    Tables::build(alloc, &grammar).expect(rt, "tables")
}

#[test]
fn one_fault_is_mended(rt: HostRuntime) {
    let put_in = |rule| Change::PutIn(rule);
    let rows: [Row<'_>; 6] = [
        (&[NUM, NUM], 1, &[put_in(1)], &[NUM, PLUS, NUM]),
        (&[LP, NUM], 2, &[put_in(3)], &[LP, NUM, RP]),
        (&[NUM, RP], 1, &[Change::LeaveOut], &[NUM]),
        (
            &[NUM, PLUS, PLUS, NUM],
            2,
            &[Change::LeaveOut],
            &[NUM, PLUS, NUM],
        ),
        (
            &[NUM, PLUS, Kind::Invalid, NUM],
            2,
            &[Change::LeaveOut],
            &[NUM, PLUS, NUM],
        ),
        (&[], 0, &[put_in(0)], &[NUM]),
    ];
    let tables = sums(&rt, rt.alloc());
    for row in &rows {
        assert_mended(&rt, rt.alloc(), &tables, row);
    }
}

#[test]
fn brackets_and_separators_are_left_out_last(rt: HostRuntime) {
    let signs = [NAME, SIGN, OPENING, CLOSING];
    let separators = [NAME, CLOSING, OPENING, CLOSING];
    let put_in = |rule| Change::PutIn(rule);
    let rows: [(&[Rank], Row<'_>); 3] = [
        (
            &separators,
            (
                &[NUM, PLUS, PLUS, NUM],
                2,
                &[put_in(0)],
                &[NUM, PLUS, NUM, PLUS, NUM],
            ),
        ),
        (
            &signs,
            (
                &[LP, NUM, RP, NUM, RP],
                3,
                &[put_in(1), put_in(2)],
                &[LP, NUM, RP, PLUS, LP, NUM, RP],
            ),
        ),
        (
            &signs,
            (
                &[NUM, PLUS, LP, RP],
                3,
                &[put_in(0)],
                &[NUM, PLUS, LP, NUM, RP],
            ),
        ),
    ];
    let tables = sums(&rt, rt.alloc());
    for (ranks, row) in &rows {
        assert_mended_by(&rt, rt.alloc(), &tables, ranks, row);
    }
}

#[test]
fn faults_close_together_are_mended_as_one(rt: HostRuntime) {
    let kinds = [LP, NUM, RP, Kind::Invalid, PLUS, Kind::Invalid];
    let changes = [Change::LeaveOut; 3];
    let copy = [LP, NUM, RP];
    let tables = sums(&rt, rt.alloc());
    assert_mended(&rt, rt.alloc(), &tables, &(&kinds, 3, &changes, &copy));
}

#[test]
fn what_no_few_changes_mend_is_left_out(rt: HostRuntime) {
    let none = Kind::Invalid;
    let kinds = [
        NUM, none, none, none, none, none, none, PLUS, NUM, PLUS, NUM,
    ];
    let changes = [Change::LeaveOut; 6];
    let copy = [NUM, PLUS, NUM, PLUS, NUM];
    let tables = sums(&rt, rt.alloc());
    assert_mended(&rt, rt.alloc(), &tables, &(&kinds, 1, &changes, &copy));
}

#[test]
fn a_fault_soon_behind_costs_more_than_a_few_kinds(rt: HostRuntime) {
    let none = Kind::Invalid;
    let kinds = [
        NUM, none, none, none, none, none, none, PLUS, NUM, PLUS, none, PLUS, NUM, PLUS, NUM,
    ];
    let changes = [Change::LeaveOut; 10];
    let copy = [NUM, PLUS, NUM, PLUS, NUM];
    let tables = sums(&rt, rt.alloc());
    assert_mended(&rt, rt.alloc(), &tables, &(&kinds, 1, &changes, &copy));
}

#[test]
fn a_sentence_has_no_repair(rt: HostRuntime) {
    let kinds = [LP, NUM, RP];
    let tables = sums(&rt, rt.alloc());
    let listed = Listed { kinds: &kinds };
    let mended = Mending::whole(rt.alloc(), &tables, RANKS, &listed).expect(&rt, "a mending");
    assert!(rt; mended.repairs().is_empty());
    assert!(rt; mended.kinds() == kinds.as_slice());
    assert!(rt; mended.tree().is_some());
}

#[test]
fn three_faults_are_mended_one_after_another(rt: HostRuntime) {
    let sum = [NUM, PLUS, NUM, PLUS, NUM, PLUS, NUM, PLUS];
    let mut kinds = Vec::new(rt.alloc());
    for _ in 0..3 {
        for _ in 0..6 {
            kinds.extend_from_slice(&sum).expect(&rt, "memory");
        }
        kinds.push(RP).expect(&rt, "memory");
    }
    kinds.push(NUM).expect(&rt, "memory");
    let tables = sums(&rt, rt.alloc());
    let listed = Listed { kinds: &kinds };
    let mended = Mending::whole(rt.alloc(), &tables, RANKS, &listed).expect(&rt, "a mending");
    assert!(rt; mended.repairs().len() == 3);
    for (number, repair) in mended.repairs().iter().enumerate() {
        assert!(rt;
            repair.changes.as_slice() == [Change::LeaveOut].as_slice(),
            "at {number}"
        );
    }
    assert!(rt; mended.tree().is_some());
}
