//! Stores of trees.

ghost use Rattle.std.specs.Prelude.{⊤, ◌<◌, length};

use crate::checks::{expect, expect_at, expect_in, expect_len};
use std::alloc::{AllocError, Global};
use std::process::Abort;
use trees::{Child, Children, Kind, Kinds, NodeId, Store};

const NUMBER: Child = Child::Token(Kind::Rule(0));

const PLUS: Child = Child::Token(Kind::Rule(1));

const GREATEST: u64 = 18_446_744_073_709_551_615;

/// The tree of `1+2` in the grammar of sums: its second number was made by edit 6, the rest by
/// edit 5.
fn sum(rt: &impl Abort, alloc: Global, store: &mut Store) -> [NodeId; 4] {
    let first = store.branch(alloc, 2, &[NUMBER], 5).expect(rt, "memory");
    let left = store
        .branch(alloc, 1, &[Child::Node(first)], 5)
        .expect(rt, "memory");
    let second = store.branch(alloc, 2, &[NUMBER], 6).expect(rt, "memory");
    let whole = store
        .branch(alloc, 0, &[Child::Node(left), PLUS, Child::Node(second)], 6)
        .expect(rt, "memory");
    [first, left, second, whole]
}

/// A node has this production, edit that made it, count of tokens and size.
fn expect_label(rt: &impl Abort, store: &Store, id: NodeId, label: (usize, u64, u64, u64))
    ensures { id.index < length store.now }
{
    expect_in(rt, store, id);
    let (production, born) = (store.production(id), store.born(id));
    let (tokens, size) = (store.tokens(id), store.size(id));
    expect_at(rt, (production, born, tokens, size) == label, id.index);
}

/// The first two children of a node.
fn first_two(store: &Store, id: NodeId) -> (Option<Child>, Option<Child>)
    requires { id.index < length store.now }
{
    (store.child(id, 0), store.child(id, 1))
}

/// A node has this label, and these as its first two children.
fn check_node(
    rt: &impl Abort,
    store: &Store,
    id: NodeId,
    label: (usize, u64, u64, u64),
    children: (Option<Child>, Option<Child>),
) {
    expect_label(rt, store, id, label);
    expect_at(rt, first_two(store, id) == children, id.index);
}

fn check_nodes(rt: &impl Abort, store: &Store, [first, left, second, whole]: [NodeId; 4]) {
    let number = (Some(NUMBER), None);
    check_node(rt, store, first, (2, 5, 1, 1), number);
    check_node(
        rt,
        store,
        left,
        (1, 5, 1, 2),
        (Some(Child::Node(first)), None),
    );
    check_node(rt, store, second, (2, 6, 1, 1), number);
    let children = (Some(Child::Node(left)), Some(PLUS));
    check_node(rt, store, whole, (0, 6, 3, 4), children);
}

/// A walk comes to each child of a node.
fn check_walk(rt: &impl Abort, store: &Store, id: NodeId)
    requires { id.index < length store.now }
{
    for (k, child) in store.children(id).enumerate() {
        expect_at(rt, store.child(id, k) == Some(child), k);
    }
}

/// A child, which is a token or a node of the store, has so many tokens and nodes.
fn check_child(rt: &impl Abort, store: &Store, child: Child, counts: (u64, u64)) {
    if let Child::Node(id) = child {
        expect_in(rt, store, id);
    }
    let found = (store.tokens_of(child), store.size_of(child));
    expect(rt, found == counts, "a child");
}

/// What a store has of the children of a whole sum, and of nodes and tokens as children.
fn check_children(rt: &impl Abort, store: &Store, whole: NodeId, second: NodeId) {
    let last = Some(Child::Node(second));
    expect_in(rt, store, whole);
    expect(rt, store.child(whole, 2) == last, "the third child");
    expect(rt, store.child(whole, 3) == None, "no fourth child");
    let far = store.child(whole, 18_446_744_073_709_551_615);
    expect(rt, far == None, "no child there");
    expect(rt, store.children(whole).count() == 3, "three children");
    expect(rt, store.children(whole).next_back() == last, "last");
    check_walk(rt, store, whole);
    check_child(rt, store, PLUS, (1, 0));
    check_child(rt, store, Child::Node(whole), (3, 4));
}

fn check_sum(rt: &impl Abort, alloc: Global, store: &mut Store) {
    expect_len(rt, store, 0);
    let nodes = sum(rt, alloc, store);
    expect_len(rt, store, 4);
    check_nodes(rt, store, nodes);
    let [_, _, second, whole] = nodes;
    check_children(rt, store, whole, second);
}

#[test]
fn branches_over_tokens_and_nodes(rt: HostRuntime) {
    let mut store = Store::new(rt.alloc());
    check_sum(&rt, rt.alloc(), &mut store);
    let last = Children::of(&[PLUS, NUMBER]).next_back();
    expect(&rt, last == Some(NUMBER), "the last of two");
}

#[test]
fn an_empty_production_is_a_branch_of_no_token(rt: HostRuntime) {
    let mut store = Store::new(rt.alloc());
    let id = store.branch(rt.alloc(), 0, &[], 0).expect(&rt, "memory");
    expect_label(&rt, &store, id, (0, 0, 0, 1));
    expect(&rt, store.child(id, 0) == None, "no child");
}

/// Cuts a store of a sum, and makes a node in the place of one that it lost.
fn check_cuts(
    rt: &impl Abort,
    alloc: Global,
    store: &mut Store,
    [first, left, second, _]: [NodeId; 4],
) {
    store.truncate(4);
    expect_len(rt, store, 4);
    store.truncate(2);
    expect_len(rt, store, 2);
    expect_label(rt, store, left, (1, 5, 1, 2));
    let child = Some(Child::Node(first));
    expect(rt, store.child(left, 0) == child, "its child");
    let again = store
        .branch(alloc, 3, &[Child::Node(left), PLUS], 7)
        .expect(rt, "memory");
    expect(rt, again == second, "the same number");
    expect_label(rt, store, again, (3, 7, 2, 3));
    store.truncate(0);
    expect_len(rt, store, 0);
}

#[test]
fn a_cut_keeps_the_first_nodes(rt: HostRuntime) {
    let mut store = Store::new(rt.alloc());
    let nodes = sum(&rt, rt.alloc(), &mut store);
    check_cuts(&rt, rt.alloc(), &mut store, nodes);
}

/// Whether node `k` of those that double may have so many tokens and nodes.
fn may_be_counts(k: u64, counts: (u64, u64)) -> bool {
    match k {
        1 => counts == (4, 3),
        62 => counts == (9_223_372_036_854_775_808, 9_223_372_036_854_775_807),
        63.. => counts == (GREATEST, GREATEST),
        _ => true,
    }
}

/// Makes nodes of which each stands twice below the next one, so that the numbers double. The last
/// one is above all others.
fn check_doubling(rt: &impl Abort, alloc: Global, store: &mut Store) -> NodeId {
    let mut last = store
        .branch(alloc, 0, &[NUMBER, NUMBER], 0)
        .expect(rt, "memory");
    for k in 1..70u64 {
        expect_in(rt, store, last);
        last = store
            .branch(alloc, 0, &[Child::Node(last), Child::Node(last)], k)
            .expect(rt, "memory");
        expect_in(rt, store, last);
        let counts = (store.tokens(last), store.size(last));
        expect_at(rt, may_be_counts(k, counts), k as usize);
    }
    last
}

/// Compacts a store to such nodes, of which each stays one.
fn check_shared(rt: &impl Abort, alloc: Global, store: &mut Store) {
    let _dropped = store.branch(alloc, 1, &[PLUS], 0).expect(rt, "memory");
    let last = check_doubling(rt, alloc, store);
    expect_len(rt, store, 71);
    expect_in(rt, store, last);
    let mut roots = [last];
    store.compact(alloc, &mut roots).expect(rt, "memory");
    let [last] = roots;
    expect_len(rt, store, 70);
    expect_label(rt, store, last, (0, 69, GREATEST, GREATEST));
    expect(rt, store.child(last, 0) == store.child(last, 1), "shared");
}

#[test]
fn counts_stop_at_the_greatest_number(rt: HostRuntime) {
    let mut store = Store::new(rt.alloc());
    let _last = check_doubling(&rt, rt.alloc(), &mut store);
}

#[test]
fn compacting_keeps_shared_nodes_shared(rt: HostRuntime) {
    let mut store = Store::new(rt.alloc());
    check_shared(&rt, rt.alloc(), &mut store);
}

/// Makes a branch over a number and a token of this kind.
fn check_kind(rt: &impl Abort, alloc: Global, store: &mut Store, kind: Kind) {
    let last = Child::Token(kind);
    let id = store
        .branch(alloc, 1, &[NUMBER, last], 2)
        .expect(rt, "memory");
    expect_label(rt, store, id, (1, 2, 2, 1));
    let children = (Some(NUMBER), Some(last));
    expect(rt, first_two(store, id) == children, "its children");
    expect(rt, store.child(id, 2) == None, "no third child");
    expect(rt, store.children(id).count() == 2, "two children");
    expect(rt, store.children(id).last() == Some(last), "last");
}

/// Makes a branch whose production and whose edit have this number.
fn check_number(rt: &impl Abort, alloc: Global, store: &mut Store, number: u64) {
    let id = store
        .branch(alloc, number as usize, &[PLUS], number)
        .expect(rt, "memory");
    let label = (number as usize, number, 1, 1);
    expect_label(rt, store, id, label);
    expect(rt, store.child(id, 0) == Some(PLUS), "its child");
}

const KINDS: &[Kind] = &[
    Kind::Invalid,
    Kind::Rule(2_147_483_646),
    Kind::Rule(2_147_483_647),
    Kind::Rule(18_446_744_073_709_551_615),
];

/// Numbers on both sides of what 16 and 32 bits hold.
#[test]
fn kinds_and_productions_of_any_number(rt: HostRuntime) {
    let mut store = Store::new(rt.alloc());
    for kind in KINDS {
        check_kind(&rt, rt.alloc(), &mut store, *kind);
    }
    for number in [65_535, 65_536, 4_294_967_295, 4_294_967_296, GREATEST] {
        check_number(&rt, rt.alloc(), &mut store, number);
    }
}

/// Makes a branch of six tokens, or fails to and leaves the store.
fn check_branch(rt: &impl Abort, alloc: Global, store: &mut Store, k: u64) {
    let before = store.len();
    match store.branch(alloc, 1, &[NUMBER; 6], k) {
        Ok(id) => assert!(rt; (id.index, store.len()) == (before, before + 1)),
        Err(AllocError) => expect_len(rt, store, before),
    }
}

/// Each node has six tokens.
fn check_tokens(rt: &impl Abort, store: &Store) {
    for index in 0..store.len() {
        expect_at(rt, store.tokens(NodeId { index }) == 6, index);
    }
}

/// That a refused branch leaves the store as it was is proved (`Store::branch`).
#[test]
fn each_branch_keeps_the_nodes_before_it(rt: HostRuntime) {
    let mut store = Store::new(rt.alloc());
    for k in 0..20u64 {
        check_branch(&rt, rt.alloc(), &mut store, k);
        check_tokens(&rt, &store);
    }
    expect(&rt, store.len() >= 19, "nodes");
}

/// Checks a root over the second number, a plus and the first number's sum.
fn check_root(rt: &impl Abort, store: &Store, root: NodeId) {
    expect_label(rt, store, root, (0, 7, 3, 4));
    expect(rt, store.child(root, 1) == Some(PLUS), "a plus");
    let under = (store.child(root, 0), store.child(root, 2));
    let (Some(Child::Node(second)), Some(Child::Node(left))) = under else {
        panic!(rt; "no node");
    };
    expect_label(rt, store, second, (2, 6, 1, 1));
    expect(rt, store.child(second, 0) == Some(NUMBER), "its token");
    expect_label(rt, store, left, (1, 5, 1, 2));
}

/// Compacts a store of a sum to roots that share a node, of which one stands twice. The node over
/// both is below none. What is shared stays one.
fn check_compaction(
    rt: &impl Abort,
    alloc: Global,
    store: &mut Store,
    [_, left, second, _]: [NodeId; 4],
) {
    expect_in(rt, store, left);
    expect_in(rt, store, second);
    let children = [Child::Node(second), PLUS, Child::Node(left)];
    let other = store.branch(alloc, 0, &children, 7).expect(rt, "memory");
    expect_in(rt, store, left);
    expect_in(rt, store, other);
    let mut roots = [other, left, other];
    store.compact(alloc, &mut roots).expect(rt, "memory");
    let [other, left, again] = roots;
    expect_len(rt, store, 4);
    expect(rt, again == other, "one tree");
    check_root(rt, store, other);
    expect_label(rt, store, left, (1, 5, 1, 2));
    store.compact(alloc, &mut []).expect(rt, "memory");
    expect_len(rt, store, 0);
}

#[test]
fn compacting_keeps_the_trees_of_the_roots(rt: HostRuntime) {
    let mut store = Store::new(rt.alloc());
    let nodes = sum(&rt, rt.alloc(), &mut store);
    check_compaction(&rt, rt.alloc(), &mut store, nodes);
}

/// Makes two trees that share no node, with nodes of no tree before, between and after theirs. One
/// of their nodes has a production that takes more than 16 bits.
fn make_apart(rt: &impl Abort, alloc: Global, store: &mut Store) -> [NodeId; 2] {
    let _before = store.branch(alloc, 4, &[PLUS], 1).expect(rt, "memory");
    let [_, _, _, whole] = sum(rt, alloc, store);
    let _between = store.branch(alloc, 4, &[PLUS], 2).expect(rt, "memory");
    expect_in(rt, store, whole);
    let wide = store
        .branch(alloc, 70_000, &[PLUS, Child::Node(whole)], 7)
        .expect(rt, "memory");
    let other = store.branch(alloc, 2, &[NUMBER], 8).expect(rt, "memory");
    let _after = store.branch(alloc, 4, &[PLUS], 9).expect(rt, "memory");
    [other, wide]
}

/// The nodes of the two trees are in order.
fn check_in_order(rt: &impl Abort, store: &Store) {
    expect_len(rt, store, 6);
    let [first, left, second, whole, wide, other] = [0, 1, 2, 3, 4, 5].map(|index| NodeId {
        index,
    });
    check_nodes(rt, store, [first, left, second, whole]);
    let children = (Some(PLUS), Some(Child::Node(whole)));
    check_node(rt, store, wide, (70_000, 7, 4, 5), children);
    expect_label(rt, store, other, (2, 8, 1, 1));
}

/// Compacts a store to the two trees. The nodes keep their order.
fn check_order_after_compaction(rt: &impl Abort, alloc: Global, store: &mut Store) {
    let [other, wide] = make_apart(rt, alloc, store);
    expect_in(rt, store, wide);
    expect_in(rt, store, other);
    let mut roots = [other, wide];
    store.compact(alloc, &mut roots).expect(rt, "memory");
    let [other, wide] = roots;
    expect(rt, (other.index, wide.index) == (5, 4), "the last nodes");
    check_in_order(rt, store);
}

#[test]
fn compacting_keeps_the_order(rt: HostRuntime) {
    let mut store = Store::new(rt.alloc());
    check_order_after_compaction(&rt, rt.alloc(), &mut store);
}

/// Compacts a store to a node over nine times the same, of which one is left.
fn check_compaction_of_one(rt: &impl Abort, alloc: Global, store: &mut Store, whole: NodeId) {
    expect_in(rt, store, whole);
    let last = store
        .branch(alloc, 3, &[Child::Node(whole); 9], 8)
        .expect(rt, "memory");
    let _dropped = store.branch(alloc, 2, &[NUMBER], 9).expect(rt, "memory");
    expect_in(rt, store, last);
    let mut roots = [last];
    store.compact(alloc, &mut roots).expect(rt, "memory");
    expect_len(rt, store, 5);
    let [root] = roots;
    expect_label(rt, store, root, (3, 8, 27, 37));
}

/// That a refused compaction changes nothing is proved (`Store::compact`).
#[test]
fn a_node_that_stands_nine_times_stays_one(rt: HostRuntime) {
    let mut store = Store::new(rt.alloc());
    let [_, _, _, whole] = sum(&rt, rt.alloc(), &mut store);
    check_compaction_of_one(&rt, rt.alloc(), &mut store, whole);
}

/// Kinds in a vector.
#[derive(Drop)]
struct Row {
    kinds: Vec<Kind>,
}

impl Kinds for Row {
    type Ahead = ();

    ghost kinds = { λ r. r.kinds.items };

    ghost is_before = { λ r k ahead. ⊤ };

    fn len(&self) -> usize {
        self.kinds.len()
    }

    fn kind(&self, k: usize) -> Option<Kind> {
        self.kinds.get(k).copied()
    }

    fn ahead(&self, _k: usize) {}

    fn next(&self, _ahead: &mut (), k: usize) -> Option<Kind> {
        self.kind(k)
    }
}

fn count_invalid<K: Kinds>(kinds: &K) -> usize {
    (0..kinds.len())
        .filter(|k| kinds.kind(*k) == Some(Kind::Invalid))
        .count()
}

#[test]
fn kinds_of_a_row(rt: HostRuntime) {
    let kinds = vec![in rt.alloc(); Kind::Rule(2), Kind::Invalid, Kind::Rule(0)];
    let row = Row {
        kinds: kinds.expect(&rt, "memory"),
    };
    let shown = (row.len(), row.kind(2), row.kind(3));
    expect(&rt, shown == (3, Some(Kind::Rule(0)), None), "a row");
    expect(&rt, count_invalid(&row) == 1, "an invalid kind");
    let read = (row.next(&mut row.ahead(1), 1), row.next(&mut (), 3));
    expect(&rt, read == (Some(Kind::Invalid), None), "kinds to come");
}
