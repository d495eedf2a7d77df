//! The input of the machine after an edit: what a splice leaves of the old trees, with the new
//! kinds in their place.

ghost use Rattle.std.specs.Prelude.{◌≡◌, ◌+◌, ◌<◌, ◌≤◌, ◌++◌, ◌∷◌, [], ℕ, List, length, map, take, slice_get, IfOk, IfSome, MatchOption};
ghost use Rattle.definitions.specs.declared.Kind.{Kind};
ghost use Rattle.definitions.specs.Nodes.{place_of};
ghost use Rattle.definitions.specs.Trees.{Grammar};
ghost use Rattle.definitions.specs.TokenEdits.{plain_splice, spliced};
ghost use Rattle.trees.specs.declared.store.Child.TheVariants.{Token};
ghost use Rattle.trees.specs.Cells.{AreBelow, all_trees, most};
ghost use Rattle.theory.specs.Reuse.{IsPrepared};
ghost use Rattle.parser.specs.Cuts.{IsSplitAt, kinds_in};
ghost use Rattle.parser.specs.Machine.{plain_of};
ghost use Rattle.parser.specs.Input.{input_of, IsInput};
ghost use Rattle.parser.specs.Run.{MoveFrom};
ghost use Rattle.parser.specs.Stamps.{AreOlder};

use crate::input::Input;
use definitions::{Kind, KindSplice};
use std::alloc::{AllocError, Global};
use trees::{Child, Children, Store};

/// How many of the children, from the first one on, stand whole among the first `n` kinds, and how
/// many of these kinds are left after them.
fn count_whole(store: &Store, children: &[Child], n: u64) -> (usize, u64)
    requires below { AreBelow (length store.now) children.now }
    requires countable { place_of (plain_of store.now children.now) ≤ most }
    ensures within { result.0 ≤ length children.now }
    ensures left { place_of (plain_of store.now (take result.0 children.now)) + result.1 ≡ n }
    ensures next { IfSome (slice_get children.now result.0) (λ c. result.1 < kinds_in store.now c) }
{
    let mut left = n;
    let mut whole = 0;
    for child in children {
        let count = store.tokens_of(*child);
        if count > left {
            break;
        }
        left -= count;
        whole += 1;
    }
    (whole, left)
}

/// The next of the children, and where none is left, of the trees.
fn take_next(children: &mut Children<'_>, trees: &mut Input) -> Option<Child>
    ensures { MatchOption result
        ((children.old ++ trees.old ≡ []) × (children.new ++ trees.new ≡ []))
        (λ c. children.old ++ trees.old ≡ c ∷ (children.new ++ trees.new)) }
{
    match children.next() {
        Some(child) => Some(child),
        None => trees.take(),
    }
}

/// Takes the trees of the first `n` kinds away, and returns them, and how many of the `n` kinds
/// there weren't. A tree that has kinds on both sides is opened.
fn take_prefix(
    alloc: Global,
    store: &Store,
    trees: &mut Input,
    n: u64,
) -> Result<(Vec<Child>, u64), AllocError>
    requires below { AreBelow (length store.now) trees.old }
    requires countable { place_of (plain_of store.now trees.old) ≤ most }
    ensures cut { IfOk result (λ r. IsSplitAt store.now n trees.old r.0.items trees.new) }
    ensures left { IfOk result (λ r. place_of (plain_of store.now r.0.items) + r.1 ≡ n) }
    ensures used_up { IfOk result (λ r. 0 < r.1 → trees.new ≡ []) }
{
    let mut taken = Vec::new(alloc);
    let mut left = n;
    // The children of the node that was opened last stand before the trees.
    let mut children = Children::of(&[]);
    'kinds: while left > 0 {
        let Some(child) = take_next(&mut children, trees) else {
            break;
        };
        let count = store.tokens_of(child);
        if count <= left {
            left -= count;
            taken.push(child)?;
        } else if let Child::Node(id) = child {
            trees.put_all(children)?;
            children = store.children(id);
        }
    }
    trees.put_all(children)?;
    Ok((taken, left))
}

/// Puts the kinds before the list.
fn put_kinds(trees: &mut Input, kinds: &[Kind]) -> Result<(), AllocError>
    ensures { IfOk result (λ _. trees.new ≡ map Token kinds.now ++ trees.old) }
{
    'kinds: for i in 0..kinds.len() {
        trees.put(Child::Token(kinds[kinds.len() - 1 - i]))?;
    }
    Ok(())
}

/// The old trees, with the new kinds in the place of what the splice takes away. Of the trees that
/// it touches only the parts that it leaves are there.
pub fn prepare(
    alloc: Global,
    store: &Store,
    old: &[Child],
    splice: &KindSplice,
) -> Result<Input, AllocError>
    requires below { AreBelow (length store.now) old.now }
    requires countable { place_of (plain_of store.now old.now) ≤ most }
    requires ordered { splice.now.from ≤ splice.now.to }
    ensures input { let change = plain_splice splice.now in
        (g : Grammar) (kinds : List Kind) → IsInput g store.now old.now kinds 0
        → splice.now.to ≤ length kinds
        → IfOk result (λ input. IsInput g store.now input (spliced change kinds) 0) }
    ensures prepared { let change = plain_splice splice.now in
        let trees = plain_of store.now old.now in
        (kinds : List Kind)
        → IfOk result (λ input. IsPrepared change trees (input_of store.now input kinds 0)) }
    ensures older { (number : ℕ) → AreOlder number (all_trees store.now old.now)
        → IfOk result (λ input. AreOlder number (all_trees store.now input)) }
    ensures moved { let change = plain_splice splice.now in IfOk result
        (λ input. MoveFrom change (all_trees store.now old.now) (all_trees store.now input)) }
{
    let mut input = Input::new(alloc);
    if splice.from == splice.to && splice.kinds.is_empty() {
        input.put_all(Children::of(old))?;
        return Ok(input);
    }
    let (whole, left) = count_whole(store, old, splice.from as u64);
    input.put_all(Children::of(&old[whole..]))?;
    let (prefix, missing) = take_prefix(alloc, store, &mut input, left)?;
    if missing == 0 {
        take_prefix(alloc, store, &mut input, (splice.to - splice.from) as u64)?;
        put_kinds(&mut input, &splice.kinds)?;
    }
    input.put_all(Children::of(&prefix))?;
    input.put_all(Children::of(&old[..whole]))?;
    Ok(input)
}
