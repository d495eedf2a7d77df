//! Nodes with few and with many children, and numbers of more than 16 or 32 bits.

ghost use Rattle.std.specs.Prelude.{◌<◌, length};
ghost use Rattle.trees.specs.Cells.{AreBelow, IsBelow};

use crate::checks::{expect, expect_at, expect_in, expect_len};
use std::alloc::Global;
use std::process::Abort;
use trees::{Child, Children, Kind, NodeId, Store};

const PLUS: Child = Child::Token(Kind::Rule(1));

/// A token that has no number of 32 bits.
const LARGE: Child = Child::Token(Kind::Rule(2_147_483_647));

/// A node: its production, the edit that made it, how many children it has, and the last one.
type Row = (usize, u64, usize, Child);

const ROWS: &[Row] = &[
    (1, 2, 0, PLUS),
    (1, 2, 1, PLUS),
    (1, 2, 4, PLUS),
    (1, 2, 5, PLUS),
    (1, 2, 16, PLUS),
    (1, 2, 40, PLUS),
    (1, 2, 3, LARGE),
    (1, 2, 16, LARGE),
    (65_535, 4_294_967_295, 4, PLUS),
    (65_536, 2, 4, PLUS),
    (65_536, 2, 5, PLUS),
    (1, 4_294_967_296, 4, PLUS),
    (1, 4_294_967_296, 5, PLUS),
];

/// Child number `k` of so many, where the first and the last are these.
fn child_at(first: Child, count: usize, last: Child, k: usize) -> Child
    requires { k < count }
{
    if k + 1 == count {
        last
    } else if k == 0 {
        first
    } else {
        Child::Token(Kind::Rule(k))
    }
}

/// Stops the test unless the child is a token, or a node of the store.
fn check_child(rt: &impl Abort, store: &Store, child: Child)
    ensures { IsBelow (length store.now) child }
{
    if let Child::Node(id) = child {
        expect_in(rt, store, id);
    }
}

/// Stops the test unless each child is a token, or a node of the store.
fn check_children(rt: &impl Abort, store: &Store, children: Children<'_>)
    ensures { AreBelow (length store.now) children.entry }
{
    for child in children {
        check_child(rt, store, child);
    }
}

/// Makes the node of a row. If it has more than one child, the first one is a node.
fn make(
    rt: &impl Abort,
    alloc: Global,
    store: &mut Store,
    (production, born, count, last): Row,
) -> Child {
    let leaf = store.branch(alloc, 2, &[PLUS], 9).expect(rt, "memory");
    let mut children = Vec::new(alloc);
    for k in 0..count {
        let child = child_at(Child::Node(leaf), count, last, k);
        children.push(child).expect(rt, "memory");
    }
    check_children(rt, store, Children::of(&children));
    let id = store.branch(alloc, production, &children, born);
    Child::Node(id.expect(rt, "memory"))
}

/// Makes the nodes of all rows, and one over them.
fn make_all(rt: &impl Abort, alloc: Global, store: &mut Store) -> NodeId {
    let mut made = Vec::new(alloc);
    for row in ROWS {
        made.push(make(rt, alloc, store, *row)).expect(rt, "memory");
    }
    check_children(rt, store, Children::of(&made));
    store.branch(alloc, 0, &made, 10).expect(rt, "memory")
}

/// The first child is a node over a plus, if there are more.
fn check_first(rt: &impl Abort, store: &Store, first: Option<Child>, count: usize) {
    if let Some(Child::Node(leaf)) = first {
        expect_in(rt, store, leaf);
        let shown = (store.production(leaf), store.born(leaf));
        expect(rt, shown == (2, 9), "the first child");
    } else {
        expect(rt, count < 2, "no node is the first child");
    }
}

/// Each child of a node is what it is to be, where the first one is this.
fn check_in_order(rt: &impl Abort, store: &Store, id: NodeId, first: Child, rest: (usize, Child))
    requires { id.index < length store.now }
{
    let (count, last) = rest;
    for (k, child) in store.children(id).enumerate() {
        expect_at(rt, store.child(id, k) == Some(child), k);
        let is_awaited = k < count && child == child_at(first, count, last, k);
        expect_at(rt, is_awaited, k);
    }
}

/// The same from the last child on.
fn check_reversed(rt: &impl Abort, store: &Store, id: NodeId, first: Child, rest: (usize, Child))
    requires { id.index < length store.now }
{
    let (count, last) = rest;
    let mut left = store.children(id);
    for k in 0..count {
        let back = child_at(first, count, last, count - 1 - k);
        expect_at(rt, left.next_back() == Some(back), k);
    }
}

fn check_row(rt: &impl Abort, store: &Store, id: NodeId, (production, born, count, last): Row) {
    expect_in(rt, store, id);
    let shown = (store.production(id), store.born(id), store.tokens(id));
    expect(rt, shown == (production, born, count as u64), "a node");
    let first = store.child(id, 0);
    check_first(rt, store, first, count);
    expect(rt, store.children(id).count() == count, "children");
    expect(rt, store.child(id, count) == None, "no child after them");
    let first = first.unwrap_or(PLUS);
    check_in_order(rt, store, id, first, (count, last));
    check_reversed(rt, store, id, first, (count, last));
}

/// The child of a node with this number, which is a node.
fn node_below(rt: &impl Abort, store: &Store, root: NodeId, k: usize) -> NodeId {
    expect_in(rt, store, root);
    let Some(Child::Node(id)) = store.child(root, k) else {
        panic!(rt; "no node");
    };
    id
}

/// Below a root are the nodes of all rows.
fn check_all(rt: &impl Abort, store: &Store, root: NodeId) {
    for (k, row) in ROWS.iter().enumerate() {
        check_row(rt, store, node_below(rt, store, root, k), *row);
    }
}

#[test]
fn children_of_nodes_of_each_form(rt: HostRuntime) {
    let mut store = Store::new(rt.alloc());
    let root = make_all(&rt, rt.alloc(), &mut store);
    check_all(&rt, &store, root);
}

/// Compacts a store to one tree, and to the same tree twice, which is still one.
fn check_compaction(rt: &impl Abort, alloc: Global, store: &mut Store) {
    let root = make_all(rt, alloc, store);
    expect_in(rt, store, root);
    let mut roots = [root];
    store.compact(alloc, &mut roots).expect(rt, "memory");
    let [root] = roots;
    expect_len(rt, store, 25);
    check_all(rt, store, root);
    expect_in(rt, store, root);
    let mut roots = [root, root];
    store.compact(alloc, &mut roots).expect(rt, "memory");
    let [first, second] = roots;
    expect_len(rt, store, 25);
    expect(rt, first == second, "one tree");
    check_all(rt, store, first);
}

#[test]
fn compacting_keeps_nodes_of_each_form(rt: HostRuntime) {
    let mut store = Store::new(rt.alloc());
    check_compaction(&rt, rt.alloc(), &mut store);
}
