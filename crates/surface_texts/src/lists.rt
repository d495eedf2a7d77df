//! Lists of measured items: `seqtree` and `runs`.

ghost use Rattle.std.specs.Prelude.{◌≡◌, [], length, slice_get, option_copied, drop, ◌*◌, ◌^◌, ◌<◌, ◌≤◌, ℕ, IsTrue, false, ◌+◌, take, IfOk, ◌++◌, ◌-◌};
ghost use Rattle.seqtree.specs.Monoid.{total};
ghost use Rattle.seqtree.specs.Tree.{digits};
ghost use Rattle.seqtree.specs.Chunks.{AreCut};
ghost use Rattle.runs.specs.Runs.{flattened};
ghost use Rattle.std.specs.Prelude.{max, nat_le};
ghost use Rattle.surface_texts.specs.Maxima.{max_left_unit, max_right_unit, max_assoc, max_stays};

use runs::{Run, Runs};
use seqtree::{Chunk, Found, Goal, Iter, Measured, Monoid, Seq, Slots};
use std::alloc::{AllocError, Global};

/// `Monoid`: `zero` and `join`.
pub fn monoid<M: Monoid>(one: &M) -> M
    ensures { result ≡ M.op one.now M.empty }
{
    one.join(&M::zero())
}

/// `Measured`: `Sum` and `sum`.
pub fn measured<T: Measured>(item: &T) -> T::Sum
    ensures { result ≡ T.measure item.now }
{
    item.sum()
}

/// `Goal`: `reached`.
pub fn goal<S: Monoid, G: Goal<S>>(goal: &G, sum: &S) -> bool
    ensures { result ≡ G.reaches goal.now sum.now }
{
    goal.reached(sum)
}

/// `Seq::new`.
pub fn new<T: Measured>() -> Seq<T>
    ensures { result ≡ [] }
{
    Seq::new()
}

/// `Seq::len`.
pub fn len<T: Measured>(list: &Seq<T>) -> usize
    ensures { result ≡ length list.now }
{
    list.len()
}

/// `Seq::get`.
pub fn get<T: Measured>(list: &Seq<T>, i: usize) -> Option<&T>
    ensures { option_copied result ≡ slice_get list.now i }
{
    list.get(i)
}

/// `Seq::total`.
pub fn total<T: Measured>(list: &Seq<T>) -> T::Sum
    ensures { result ≡ total T.Sum.empty T.Sum.op T.measure list.now }
{
    list.total()
}

/// `Seq::iter_from`.
pub fn iter_from<T: Measured>(list: &Seq<T>, i: usize) -> Iter<'_, T>
    ensures { result ≡ drop i list.now }
{
    list.iter_from(i)
}

/// `Seq::height`.
pub fn height<T: Measured>(list: &Seq<T>) -> u8
    ensures low { result ≤ 2 * digits (length list.now) }
    ensures high { length list.now < 2 ^ result }
{
    list.height()
}

/// `Seq::locate`.
pub fn locate<T: Measured, G: Goal<T::Sum>>(list: &Seq<T>, goal: &G) -> (usize, T::Sum)
    ensures within { result.0 ≤ length list.now }
    ensures before { result.1 ≡ total T.Sum.empty T.Sum.op T.measure (take result.0 list.now) }
    ensures not_before { (k : ℕ) → k < result.0 →
        G.reaches goal.now (total T.Sum.empty T.Sum.op T.measure (take (k + 1) list.now))
        ≡ false }
    ensures reached { result.0 < length list.now →
        IsTrue (G.reaches goal.now (total T.Sum.empty T.Sum.op T.measure
        (take (result.0 + 1) list.now))) }
{
    list.locate(goal)
}

/// `Seq::find`.
pub fn find<'a, T: Measured, G: Goal<T::Sum>>(list: &'a Seq<T>, goal: &G) -> Found<'a, T>
    ensures within { result.place ≤ length list.now }
    ensures before { result.before
        ≡ total T.Sum.empty T.Sum.op T.measure (take result.place list.now) }
    ensures not_before { (k : ℕ) → k < result.place →
        G.reaches goal.now (total T.Sum.empty T.Sum.op T.measure (take (k + 1) list.now))
        ≡ false }
    ensures reached { result.place < length list.now →
        IsTrue (G.reaches goal.now (total T.Sum.empty T.Sum.op T.measure
        (take (result.place + 1) list.now))) }
    ensures item { option_copied result.item ≡ slice_get list.now result.place }
{
    list.find(goal)
}

/// `Slots::make`.
pub fn make<T: Measured>(alloc: Global, items: Vec<T>) -> Result<Slots<T>, AllocError>
    ensures { IfOk result (λ s. s ≡ items.items) }
{
    Slots::make(alloc, items)
}

/// `Seq::replace`.
pub fn replace<T: Measured>(list: &mut Seq<T>, from: usize, to: usize, items: Slots<T>) -> Slots<T>
    requires ordered { from ≤ to }
    requires in_range { to ≤ length list.old }
    requires fits { length list.old - (to - from) + length items < 2 ^ 64 }
    ensures list { list.new ≡ take from list.old ++ items ++ drop to list.old }
    ensures removed { result ≡ drop from (take to list.old) }
{
    list.replace(from, to, items)
}

/// Numbers, with the greatest of them, as lists may hold them.
#[derive(Clone, Copy, PartialEq, Eq)]
struct Greatest {
    value: u32,
}

impl Monoid for Greatest {
    ghost empty = { record { value = 0 } };

    ghost op = { λ a b. record { value = max a.value b.value } };

    ghost laws = { record { left_unit = λ x i. record { value = max_left_unit x.value i }; right_unit = λ x i. record { value = max_right_unit x.value i }; assoc = λ x y z i. record { value = max_assoc x.value y.value z.value i } } };

    fn zero() -> Greatest {
        Greatest { value: 0 }
    }

    fn join(&self, other: &Greatest) -> Greatest {
        Greatest {
            value: self.value.max(other.value),
        }
    }
}

#[derive(Clone, Copy, PartialEq, Eq)]
struct Number {
    value: u32,
}

impl Measured for Number {
    type Sum = Greatest;

    ghost measure = { λ n. record { value = n.value } };

    fn sum(&self) -> Greatest {
        Greatest { value: self.value }
    }
}

/// The first number that is at least this one.
#[derive(Clone, Copy)]
struct AtLeast {
    value: u32,
}

impl Goal<Greatest> for AtLeast {
    ghost reaches = { λ goal sum. nat_le goal.value sum.value };

    ghost stays = { λ goal s r h. max_stays goal.value s.value r.value h };

    fn reached(&self, sum: &Greatest) -> bool {
        self.value <= sum.value
    }
}

/// `Iter`: its items.
pub fn next<'a, T: Measured>(items: &mut Iter<'a, T>) -> Option<&'a T> {
    let item: Option<&'a T> = items.next();
    item
}

/// `cut_up`.
pub fn cut_up<C: Chunk>(alloc: Global, items: C::Items) -> Result<Vec<C>, AllocError>
    ensures { IfOk result (λ chunks.
        AreCut C.items C.size C.SHORTEST C.LONGEST (C.list items) chunks.items) }
{
    seqtree::cut_up(alloc, items)
}

/// `Runs::seq`.
pub fn seq<T: Measured + Copy>(list: &Runs<T>) -> &Seq<Run<T>>
    ensures items { flattened result.now ≡ list.now }
    ensures counted { length list.now < 2 ^ 64 }
    ensures few { 32 * length result.now ≤ length list.now + 32 }
    ensures enough { length list.now ≤ 64 * length result.now }
{
    list.seq()
}
