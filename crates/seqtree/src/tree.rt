//! An AVL tree whose nodes hold one item each, and move without memory.
ghost use Rattle.std.specs.Prelude.{◌≡◌, ℕ, ◌+◌, ◌^◌, ◌<◌, ◌≤◌, max, length, ◌∷◌, [], ◌++◌, slice_get, option_copied, IfOk};
ghost use Rattle.seqtree.specs.Tree.{items_of, height_of, DifferByAtMost, IsLow};
ghost use Rattle.seqtree.specs.Monoid.{total};
ghost use Rattle.seqtree.specs.Goal.{IsLeast};

use crate::found::Found;
use crate::{Goal, Measured, Monoid};
use std::alloc::{AllocError, Global};
use std::marker::Model;

/// A tree that may be empty.
pub type Tree<T> = Option<Box<Node<T>>>;

/// A node with one item between the items of its sides.
#[derive(Drop)]
pub struct Node<T: Measured> {
    /// The items before its own.
    pub left: Tree<T>,
    /// Its own item.
    pub item: T,
    /// How many items it has with its sides.
    len: usize,
    /// How many nodes stand on the longest way down, its own included.
    tall: u8,
    /// The sum of all these items.
    all: T::Sum,
    /// The items after its own.
    pub right: Tree<T>,
}

impl<T: Measured> Model for Node<T> {
    ghost use Rattle.std.specs.Prelude.{ℕ, List, length, ◌++◌, ◌∷◌};
    ghost use Rattle.seqtree.specs.Tree.{items_of, height_of, IsNode};

    ghost Value = { List T × ℕ };

    ghost view = { λ a. (items_of a.left ++ a.item ∷ items_of a.right, a.tall) };

    ghost invariant = { λ a.
        IsNode T.Sum.empty T.Sum.op T.measure a.left a.right a.item a.len a.tall a.all };

    ghost size = { λ d. length d.0 };

    ghost use Rattle.seqtree.specs.Falls.{depth_le-length};

    ghost size_decreases = { λ a h. depth_le-length T T.Sum T.Measured T.Sum.Monoid
        a.left a.right a.item a.len a.tall a.all };
}

/// How many items a tree has.
pub fn count<T: Measured>(tree: &Tree<T>) -> usize
    ensures len { result ≡ length (items_of tree.now) }
{
    match tree {
        None => 0,
        Some(node) => {
            let node: &Node<T> = node;
            node.len
        }
    }
}

/// How many nodes stand on the longest way down.
pub fn height<T: Measured>(tree: &Tree<T>) -> u8
    ensures is { result ≡ height_of tree.now }
    ensures low { IsLow (height_of tree.now) (length (items_of tree.now)) }
    ensures high { length (items_of tree.now) < 2 ^ result }
    ensures small { result ≤ 128 }
{
    match tree {
        None => 0,
        Some(node) => {
            let node: &Node<T> = node;
            node.tall
        }
    }
}

/// The sum of a tree's items.
pub fn sum_of<T: Measured>(tree: &Tree<T>) -> T::Sum
    ensures { result ≡ total T.Sum.empty T.Sum.op T.measure (items_of tree.now) }
{
    let zero = T::Sum::zero();
    match tree {
        None => zero,
        Some(node) => {
            let node: &Node<T> = node;
            zero.join(&node.all)
        }
    }
}

/// The sum of the items of a left side and, after them, of what has this sum.
fn sum_with_left<T: Measured>(left: &Tree<T>, sum: T::Sum) -> T::Sum
    ensures { result ≡ T.Sum.op (total T.Sum.empty T.Sum.op T.measure (items_of left.now)) sum }
{
    match left {
        None => sum,
        Some(node) => {
            let node: &Node<T> = node;
            node.all.join(&sum)
        }
    }
}

/// The sum of what has this sum and, after it, of the items of a right side.
fn sum_with_right<T: Measured>(sum: T::Sum, right: &Tree<T>) -> T::Sum
    ensures { result ≡ T.Sum.op sum (total T.Sum.empty T.Sum.op T.measure (items_of right.now)) }
{
    match right {
        None => sum,
        Some(node) => {
            let node: &Node<T> = node;
            sum.join(&node.all)
        }
    }
}

/// Takes a tree apart: its left side, its root alone, and its right side.
pub fn open<T: Measured>(mut tree: Box<Node<T>>) -> (Tree<T>, Box<Node<T>>, Tree<T>)
    ensures items { tree.value.0 ≡ items_of result.0 ++ result.1.value.0 ++ items_of result.2 }
    ensures one { length result.1.value.0 ≡ 1 }
    ensures height { tree.value.1 ≡ max (height_of result.0) (height_of result.2) + 1 }
    ensures balanced { DifferByAtMost 1 (height_of result.0) (height_of result.2) }
    ensures fits { length tree.value.0 < 2 ^ 64 }
{
    let node: &mut Node<T> = &mut tree;
    let left = node.left.take();
    let right = node.right.take();
    node.len = 1;
    node.tall = 1;
    node.all = node.item.sum();
    (left, tree, right)
}

/// Puts two trees to the sides of a single node.
pub fn fork<T: Measured>(left: Tree<T>, mut root: Box<Node<T>>, right: Tree<T>) -> Box<Node<T>>
    requires one { length root.value.0 ≡ 1 }
    requires balanced { DifferByAtMost 1 (height_of left) (height_of right) }
    requires fits { length (items_of left) + 1 + length (items_of right) < 2 ^ 64 }
    ensures items { result.value.0 ≡ items_of left ++ root.value.0 ++ items_of right }
    ensures height { result.value.1 ≡ max (height_of left) (height_of right) + 1 }
{
    let node: &mut Node<T> = &mut root;
    node.len = count(&left) + 1 + count(&right);
    node.tall = height(&left).max(height(&right)) + 1;
    node.all = sum_with_right(sum_with_left(&left, node.item.sum()), &right);
    node.left = left;
    node.right = right;
    root
}

/// Puts two trees to the sides of a single node, and rotates once or twice where one is two levels
/// higher.
fn balance<T: Measured>(left: Tree<T>, root: Box<Node<T>>, right: Tree<T>) -> Box<Node<T>>
    requires one { length root.value.0 ≡ 1 }
    requires nearly { DifferByAtMost 2 (height_of left) (height_of right) }
    requires fits { length (items_of left) + 1 + length (items_of right) < 2 ^ 64 }
    ensures items { result.value.0 ≡ items_of left ++ root.value.0 ++ items_of right }
    ensures not_lower { max (height_of left) (height_of right) ≤ result.value.1 }
    ensures one_higher { result.value.1 ≤ max (height_of left) (height_of right) + 1 }
    ensures settled { DifferByAtMost 1 (height_of left) (height_of right) →
        result.value.1 ≡ max (height_of left) (height_of right) + 1 }
{
    let (l, r) = (height(&left), height(&right));
    if l > r + 1 {
        lean_left(left, root, right)
    } else if r > l + 1 {
        lean_right(left, root, right)
    } else {
        fork(left, root, right)
    }
}

/// The same where the left side is two levels higher.
fn lean_left<T: Measured>(left: Tree<T>, root: Box<Node<T>>, right: Tree<T>) -> Box<Node<T>>
    requires one { length root.value.0 ≡ 1 }
    requires two_higher { height_of left ≡ height_of right + 2 }
    requires fits { length (items_of left) + 1 + length (items_of right) < 2 ^ 64 }
    ensures items { result.value.0 ≡ items_of left ++ root.value.0 ++ items_of right }
    ensures not_lower { height_of left ≤ result.value.1 }
    ensures one_higher { result.value.1 ≤ height_of left + 1 }
{
    let Some(left) = left else { unreachable!() };
    let (x, j, y) = open(left);
    if height(&x) >= height(&y) {
        return fork(x, j, Some(fork(y, root, right)));
    }
    let Some(y) = y else { unreachable!() };
    let (u, i, v) = open(y);
    fork(Some(fork(x, j, u)), i, Some(fork(v, root, right)))
}

/// The same where the right side is two levels higher.
fn lean_right<T: Measured>(left: Tree<T>, root: Box<Node<T>>, right: Tree<T>) -> Box<Node<T>>
    requires one { length root.value.0 ≡ 1 }
    requires two_higher { height_of right ≡ height_of left + 2 }
    requires fits { length (items_of left) + 1 + length (items_of right) < 2 ^ 64 }
    ensures items { result.value.0 ≡ items_of left ++ root.value.0 ++ items_of right }
    ensures not_lower { height_of right ≤ result.value.1 }
    ensures one_higher { result.value.1 ≤ height_of right + 1 }
{
    let Some(right) = right else { unreachable!() };
    let (x, j, y) = open(right);
    if height(&y) >= height(&x) {
        return fork(Some(fork(left, root, x)), j, y);
    }
    let Some(x) = x else { unreachable!() };
    let (u, i, v) = open(x);
    fork(Some(fork(left, root, u)), i, Some(fork(v, j, y)))
}

/// Joins two trees with a single node between them.
pub fn join<T: Measured>(left: Tree<T>, root: Box<Node<T>>, right: Tree<T>) -> Box<Node<T>>
    requires one { length root.value.0 ≡ 1 }
    requires fits { length (items_of left) + 1 + length (items_of right) < 2 ^ 64 }
    ensures items { result.value.0 ≡ items_of left ++ root.value.0 ++ items_of right }
    ensures not_lower { max (height_of left) (height_of right) ≤ result.value.1 }
    ensures one_higher { result.value.1 ≤ max (height_of left) (height_of right) + 1 }
{
    let (l, r) = (height(&left), height(&right));
    if l > r + 1 {
        let Some(left) = left else { unreachable!() };
        let (x, j, y) = open(left);
        let y = join(y, root, right);
        balance(x, j, Some(y))
    } else if r > l + 1 {
        let Some(right) = right else { unreachable!() };
        let (x, j, y) = open(right);
        let x = join(left, root, x);
        balance(Some(x), j, y)
    } else {
        fork(left, root, right)
    }
}

/// Takes the first item off a tree.
fn pop_first<T: Measured>(tree: Box<Node<T>>) -> (Box<Node<T>>, Tree<T>)
    ensures items { tree.value.0 ≡ result.0.value.0 ++ items_of result.1 }
    ensures one { length result.0.value.0 ≡ 1 }
{
    let (left, root, right) = open(tree);
    match left {
        None => (root, right),
        Some(left) => {
            let (first, rest) = pop_first(left);
            (first, Some(join(rest, root, right)))
        }
    }
}

/// Joins two trees.
pub fn append<T: Measured>(left: Tree<T>, right: Tree<T>) -> Tree<T>
    requires fits { length (items_of left) + length (items_of right) < 2 ^ 64 }
    ensures items { items_of result ≡ items_of left ++ items_of right }
{
    match right {
        None => left,
        Some(right) => {
            let (first, rest) = pop_first(right);
            Some(join(left, first, rest))
        }
    }
}

/// Cuts a tree before the item at `at`.
pub fn split<T: Measured>(tree: Tree<T>, at: usize) -> (Tree<T>, Tree<T>)
    requires { at ≤ length (items_of tree) }
    ensures items { items_of tree ≡ items_of result.0 ++ items_of result.1 }
    ensures len { length (items_of result.0) ≡ at }
{
    match tree {
        None => (None, None),
        Some(tree) => {
            let (left, root, right) = open(tree);
            let n = count(&left);
            if at <= n {
                let (left, middle) = split(left, at);
                (left, Some(join(middle, root, right)))
            } else {
                let (middle, right) = split(right, at - n - 1);
                (Some(join(left, root, middle)), right)
            }
        }
    }
}

/// The item at `at`.
pub fn get<T: Measured>(tree: &Tree<T>, at: usize) -> Option<&T>
    ensures { option_copied result ≡ slice_get (items_of tree.now) at }
{
    match tree {
        None => None,
        Some(node) => {
            let node: &Node<T> = node;
            let n = count(&node.left);
            if at < n {
                get(&node.left, at)
            } else if at == n {
                Some(&node.item)
            } else {
                get(&node.right, at - n - 1)
            }
        }
    }
}

/// A tree of one item.
pub fn single<T: Measured>(alloc: Global, item: T) -> Result<Box<Node<T>>, AllocError>
    ensures { IfOk result (λ b. b.value.0 ≡ item ∷ []) }
{
    let all = item.sum();
    let node = Node {
        left: None,
        item,
        len: 1,
        tall: 1,
        all,
        right: None,
    };
    Ok(Box::new(alloc, node)?)
}

/// Takes the last items off a vector, so many, and makes a tree of them. Refuses for memory alone.
pub fn last<T: Measured>(
    alloc: Global,
    items: &mut Vec<T>,
    count: usize,
) -> Result<Tree<T>, AllocError>
    requires { count ≤ length items.old.items }
    ensures list { IfOk result (λ t. items.new.items ++ items_of t ≡ items.old.items) }
    ensures count { IfOk result (λ t. length (items_of t) ≡ count) }
{
    if count == 0 {
        return Ok(None);
    }
    let after = count / 2;
    let right = last(alloc, items, after)?;
    let Some(item) = items.pop() else {
        unreachable!()
    };
    let root = single(alloc, item)?;
    let left = last(alloc, items, count - 1 - after)?;
    Ok(Some(join(left, root, right)))
}

/// The item at which the sum reaches the goal, if there is one, how many go before it, and their
/// sum.
pub fn find<'a, T: Measured, G: Goal<T::Sum>>(tree: &'a Tree<T>, goal: &G) -> Found<'a, T>
    ensures least { IsLeast T.Sum.empty T.Sum.op T.measure
        (G.reaches goal.now) T.Sum.empty (items_of tree.now) result.place result.before }
    ensures item { option_copied result.item ≡ slice_get (items_of tree.now) result.place }
{
    // Read for the proof: so many items fit.
    let _all = count(tree);
    let mut below = tree;
    let mut before = T::Sum::zero();
    let mut at = 0;
    while let Some(node) = below {
        let node: &Node<T> = node;
        let at_root = before.join(&sum_of(&node.left));
        if goal.reached(&at_root) {
            below = &node.left;
            continue;
        }
        let past_root = at_root.join(&node.item.sum());
        let n = count(&node.left);
        if goal.reached(&past_root) {
            return Found {
                place: at + n,
                before: at_root,
                item: Some(&node.item),
            };
        }
        before = past_root;
        at = at + n + 1;
        below = &node.right;
    }
    Found {
        place: at,
        before,
        item: get(tree, at),
    }
}
