//! Mended copies of kinds in which what stands around a fault says how it is mended.

use crate::ranks::{CLOSING, CURLY, NAME, OPENING, SIGN, WORD, begun, closing, opening};
use definitions::Kind;
use grammar::Grammar;
use mending::{Change, Listed, Mending, Rank};
use std::alloc::Global;
use std::process::Abort;
use tables::Tables;

/// Values with names, and blocks whose beginning looks like one without a name.
const STYLES: &str = r#"lrgrammar 2
token NAME = [a-z]+
token VALUE = [0-9]+
token COLON = ":"
token SEMICOLON = ";"
token LB = "{"
token RB = "}"
start Text
Text = Item*
Item = NAME COLON VALUE SEMICOLON
Item = COLON NAME LB Item* RB
"#;

/// Types with a word, or a name, before a block.
const TYPES: &str = r#"lrgrammar 2
token TYPE = "type"
token RECORD = "record"
token NAME = [a-z]+
token SEMICOLON = ";"
token LB = "{"
token RB = "}"
start Text
Text = Item*
Item = TYPE RECORD LB NAME SEMICOLON RB
Item = TYPE NAME LB NAME SEMICOLON RB
"#;

/// A list of values in brackets.
const LISTS: &str = r#"lrgrammar 2
token VALUE = [0-9]+
token COMMA = ","
token LB = "["
token RB = "]"
start List
List = LB Values RB
Values = VALUE
Values = Values COMMA VALUE
"#;

/// Types of fields and of types, with their names behind.
const FIELDS: &str = r#"lrgrammar 2
token TYPE = "type"
token NAME = [a-z]+
token SEMICOLON = ";"
token LB = "{"
token RB = "}"
start Text
Text = Item*
Item = TYPE LB Field* RB NAME SEMICOLON
Field = NAME NAME SEMICOLON
Field = Item
"#;

/// The first of these kinds so many times, then others, and the first again as often.
fn among(
    rt: &impl Abort,
    alloc: Global,
    first: &[usize],
    times: usize,
    others: &[usize],
) -> Vec<Kind> {
    let mut kinds = Vec::new(alloc);
    for number in 0..times.saturating_mul(2) {
        let between = if number == times { others } else { &[] };
        for rule in between.iter().chain(first) {
            kinds.push(Kind::Rule(*rule)).expect(rt, "memory");
        }
    }
    kinds
}

/// The kinds of a language have one fault, which is mended so, from the first kind on that doesn't
/// stay.
fn assert_mended(
    rt: &impl Abort,
    alloc: Global,
    language: &str,
    ranks: &[Rank],
    kinds: &[Kind],
    changes: &[Change],
) {
    let grammar = Grammar::read(alloc, language).expect(rt, "a grammar");
    let tables = Tables::build(alloc, &grammar).expect(rt, "tables");
    let mended = Mending::whole(alloc, &tables, ranks, &Listed { kinds }).expect(rt, "a mending");
    assert!(rt; mended.repairs().len() == 1, "{:?}", mended.repairs());
    assert!(rt;
        begun(&mended.repairs()[0].changes) == changes,
        "{:?}",
        mended.repairs()
    );
    assert!(rt; mended.tree().is_some());
}

#[test]
fn a_change_may_begin_before_the_fault(rt: HostRuntime) {
    let alloc = rt.alloc();
    let ranks = [NAME, NAME, CLOSING, CLOSING, opening(CURLY), closing(CURLY)];
    let kinds = among(&rt, alloc, &[0, 2, 1, 3], 3, &[2, 1, 3]);
    let changes = [Change::PutIn(0), Change::Keep];
    assert_mended(&rt, alloc, STYLES, &ranks, &kinds, &changes);
}

#[test]
fn strangers_are_brought_together_last(rt: HostRuntime) {
    let alloc = rt.alloc();
    let ranks = [WORD, WORD, NAME, SIGN, opening(CURLY), closing(CURLY)];
    let (whole, faulty) = ([0, 1, 4, 2, 3, 5], [0, 4, 2, 3, 5]);
    for (times, rule) in &[(1, 2), (10, 1)] {
        let kinds = among(&rt, alloc, &whole, *times, &faulty);
        let changes = [Change::PutIn(*rule)];
        assert_mended(&rt, alloc, TYPES, &ranks, &kinds, &changes);
    }
}

#[test]
fn of_changes_that_come_to_the_same_the_cheapest_is_told(rt: HostRuntime) {
    let alloc = rt.alloc();
    let ranks = [NAME, CLOSING, OPENING, CLOSING];
    let kinds = [2, 0, 1, 0, 1, 0, 0, 3].map(Kind::Rule);
    assert_mended(&rt, alloc, LISTS, &ranks, &kinds, &[Change::PutIn(1)]);
}

#[test]
fn a_partner_is_put_in_before_the_fault(rt: HostRuntime) {
    let alloc = rt.alloc();
    let ranks = [WORD, NAME, CLOSING, opening(CURLY), closing(CURLY)];
    let whole = [0, 3, 1, 1, 2, 1, 1, 2, 4, 1, 2];
    let faulty = [0, 3, 1, 1, 2, 1, 1, 2, 1, 2];
    let kinds = among(&rt, alloc, &whole, 30, &faulty);
    let changes = [Change::PutIn(4), Change::Keep];
    assert_mended(&rt, alloc, FIELDS, &ranks, &kinds, &changes);
}
