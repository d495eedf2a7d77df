//! Lists of numbers with the greatest of each part, against plain vectors.

ghost use Rattle.std.specs.Prelude.{max, nat_le};
ghost use Rattle.text_tests.specs.Maxima.{max_left_unit, max_right_unit, max_assoc, max_stays};

use crate::checks::{expect, expect_at};
use seqtree::{Goal, Measured, Monoid, Seq, Slots};
use std::alloc::Global;
use std::process::Abort;

#[derive(Clone, Copy, PartialEq, Eq)]
struct Greatest {
    value: u32,
}

impl Monoid for Greatest {
    ghost empty = { record { value = 0 } };

    ghost op = { λ a b. record { value = max a.value b.value } };

    ghost laws = { record { left_unit = λ x i. record { value = max_left_unit x.value i }; right_unit = λ x i. record { value = max_right_unit x.value i }; assoc = λ x y z i. record { value = max_assoc x.value y.value z.value i } } };

    fn zero() -> Greatest {
        Greatest { value: 0 }
    }

    fn join(&self, other: &Greatest) -> Greatest {
        Greatest {
            value: self.value.max(other.value),
        }
    }
}

#[derive(Clone, Copy, PartialEq, Eq)]
struct Number {
    value: u32,
}

impl Measured for Number {
    type Sum = Greatest;

    ghost measure = { λ n. record { value = n.value } };

    fn sum(&self) -> Greatest {
        Greatest { value: self.value }
    }
}

/// The first number that is at least this one.
#[derive(Clone, Copy)]
struct AtLeast {
    value: u32,
}

impl Goal<Greatest> for AtLeast {
    ghost reaches = { λ goal sum. nat_le goal.value sum.value };

    ghost stays = { λ goal s r h. max_stays goal.value s.value r.value h };

    fn reached(&self, sum: &Greatest) -> bool {
        self.value <= sum.value
    }
}

fn slots_of(rt: &impl Abort, alloc: Global, values: &[u32]) -> Slots<Number> {
    let mut numbers = Vec::new(alloc);
    for value in values {
        numbers.push(Number { value: *value }).expect(rt, "memory");
    }
    Slots::make(alloc, numbers).expect(rt, "memory")
}

/// Puts the items in the place of `from..to`, and returns how many were removed.
fn put(
    rt: &impl Abort,
    seq: &mut Seq<Number>,
    from: usize,
    to: usize,
    items: Slots<Number>,
) -> usize {
    let len = seq.len();
    let more = items.len();
    assert!(rt; from <= to && to <= len && len < 1_000_000 && more < 1_000_000);
    seq.replace(from, to, items).len()
}

/// The list of 3, 1, 4, 1, 5, 9, 2 and 6.
fn digits(rt: &impl Abort, alloc: Global) -> Seq<Number> {
    let mut seq = Seq::new();
    expect(rt, seq.len() == 0, "no numbers");
    expect(rt, seq.height() == 0, "no height");
    let items = slots_of(rt, alloc, &[3, 1, 4, 1, 5, 9, 2, 6]);
    let removed = put(rt, &mut seq, 0, 0, items);
    expect(rt, removed == 0, "none is removed");
    seq
}

/// The first number that is at least this one is here, and this is the greatest of those before
/// it.
fn check_located(rt: &impl Abort, seq: &Seq<Number>, value: u32, at: usize, before: u32) {
    let found = seq.locate(&AtLeast { value });
    let wanted = (at, Greatest { value: before });
    expect_at(rt, found == wanted, value as usize);
}

/// The number at a place.
fn number_at(seq: &Seq<Number>, at: usize) -> Option<u32> {
    Some(seq.get(at)?.value)
}

fn check_digits(rt: &impl Abort, seq: &Seq<Number>) {
    expect(rt, seq.len() == 8, "eight numbers");
    expect(rt, seq.height() == 4, "the height");
    expect(rt, seq.total().value == 9, "the greatest");
    expect(rt, number_at(seq, 4) == Some(5), "the fifth number");
    expect(rt, number_at(seq, 8) == None, "no ninth number");
    check_located(rt, seq, 5, 4, 4);
    check_located(rt, seq, 10, 8, 9);
}

#[test]
fn each_call_answers(rt: HostRuntime) {
    let seq = digits(&rt, rt.alloc());
    check_digits(&rt, &seq);
}

/// These two numbers stand side by side from a place on.
fn check_pair(rt: &impl Abort, seq: &Seq<Number>, from: usize, first: u32, second: u32) {
    let mut rest = seq.iter_from(from);
    let (first, second) = (Number { value: first }, Number { value: second });
    expect(rt, rest.next() == Some(&first), "the first number");
    expect(rt, rest.next() == Some(&second), "the second number");
}

#[test]
fn a_part_is_replaced(rt: HostRuntime) {
    let mut seq = digits(&rt, rt.alloc());
    let items = slots_of(&rt, rt.alloc(), &[7]);
    let removed = put(&rt, &mut seq, 4, 6, items);
    expect(&rt, removed == 2, "two are removed");
    check_pair(&rt, &seq, 3, 1, 7);
}

/// The next number of a simple generator.
fn random(state: u64) -> u64 {
    state
        .wrapping_mul(6_364_136_223_846_793_005)
        .wrapping_add(1_442_695_040_888_963_407)
}

/// The list of the first numbers, each put at a place that looks random.
fn put_in_turn(rt: &impl Abort, alloc: Global, count: u32) -> Seq<Number> {
    let mut seq = Seq::new();
    let mut state = 1;
    for i in 0..count {
        state = random(state);
        let at = (state >> 33) as usize % (i as usize + 1);
        put(rt, &mut seq, at, at, slots_of(rt, alloc, &[i]));
    }
    seq
}

/// A walk from this place meets each item after it, and returns where it ends.
fn end_of_walk(rt: &impl Abort, seq: &Seq<Number>, from: usize) -> usize {
    let mut at = from;
    for number in seq.iter_from(from) {
        expect_at(rt, Some(number) == seq.get(at), at);
        at = at.saturating_add(1);
    }
    at
}

#[test]
fn a_walk_from_each_place_meets_each_item(rt: HostRuntime) {
    let seq = put_in_turn(&rt, rt.alloc(), 100);
    for from in 0..102 {
        let end = end_of_walk(&rt, &seq, from);
        expect_at(&rt, end == from.max(100), from);
    }
}

#[test]
fn a_list_of_ten_thousand_stays_low(rt: HostRuntime) {
    let seq = put_in_turn(&rt, rt.alloc(), 10_000);
    expect(&rt, seq.len() == 10_000, "numbers");
    expect(&rt, seq.height() <= 20, "the height");
    expect(&rt, seq.total().value == 9_999, "the greatest");
}
