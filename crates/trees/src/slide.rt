//! Compaction in place: the nodes of some trees are marked, and slide down over the others.

ghost use Rattle.std.specs.Prelude.{◌≡◌, ◌≤◌, [], length, map, List, IfOk};
ghost use Rattle.trees.specs.declared.store.Child.{Child as PlainChild};
ghost use Rattle.trees.specs.Cells.{AreBelow, IsStore, tree, trees_from};
ghost use Rattle.trees.specs.Compaction.{nodes, sizes};
ghost use Rattle.trees.specs.Slides.{mark_all, owed, rank, renamed, AreMarked, AreRanks, IsClosed, IsMarked};

use crate::children::Children;
use crate::node::Node;
use crate::store::{Child, NodeId};
use std::alloc::{AllocError, Global};

/// Marks the nodes among the children.
fn mark(children: Children<'_>, marks: &mut [bool])
    requires { AreBelow (length marks.old) children }
    ensures { marks.new ≡ mark_all marks.old children.entry }
{
    for child in children {
        if let Child::Node(id) = child {
            marks[id.index] = true;
        }
    }
}

/// Marks what is below the marked nodes, from the last node on.
fn mark_below(stored: &[Node], marks: &mut [bool])
    requires store { IsStore stored.now }
    requires long { length marks.old ≡ length stored.now }
    ensures long { length marks.new ≡ length stored.now }
    ensures kept { (children : List PlainChild) → AreMarked marks.old children
        → AreMarked marks.new children }
    ensures closed { IsClosed stored.now marks.new }
    ensures few { rank marks.new (length marks.new)
        ≤ owed (length stored.now) (trees_from [] stored.now) marks.old }
{
    let mut i = stored.len();
    while i > 0 {
        i -= 1;
        if marks[i] {
            mark(stored[i].children(), marks);
        }
    }
}

/// Marks the nodes of the trees of these roots.
pub fn marked(alloc: Global, stored: &[Node], roots: &[NodeId]) -> Result<Vec<bool>, AllocError>
    requires store { IsStore stored.now }
    requires below { AreBelow (length stored.now) (nodes roots.now) }
    ensures long { IfOk result (λ marks. length marks.items ≡ length stored.now) }
    ensures roots { IfOk result (λ marks. AreMarked marks.items (nodes roots.now)) }
    ensures closed { IfOk result (λ marks. IsClosed stored.now marks.items) }
    ensures few { IfOk result (λ marks.
        rank marks.items (length marks.items) ≤ sizes stored.now (nodes roots.now)) }
{
    let mut marks = Vec::from_elem(alloc, false, stored.len())?;
    for root in roots {
        marks[root.index] = true;
    }
    mark_below(stored, &mut marks);
    Ok(marks)
}

/// For each mark how many are set before it, which is the new name of a marked node.
pub fn ranks(alloc: Global, marks: &[bool]) -> Result<Vec<usize>, AllocError>
    ensures { IfOk result (λ ranks. AreRanks marks.now ranks.items) }
{
    let mut ranks = Vec::with_capacity(alloc, marks.len())?;
    let mut count = 0;
    for mark in marks {
        ranks.push(count)?;
        if *mark {
            count += 1;
        }
    }
    Ok(ranks)
}

/// Moves each marked node to its rank, with the ranks of its children for their names, and forgets
/// the others.
pub fn slide(stored: &mut Vec<Node>, marks: &[bool], ranks: &[usize])
    requires store { IsStore stored.old.items }
    requires long { length marks.now ≡ length stored.old.items }
    requires closed { IsClosed stored.old.items marks.now }
    requires ranks { AreRanks marks.now ranks.now }
    ensures store { IsStore stored.new.items }
    ensures count { length stored.new.items ≡ rank marks.now (length marks.now) }
    ensures trees { (child : PlainChild) → IsMarked marks.now child
        → tree stored.new.items (renamed ranks.now child) ≡ tree stored.old.items child }
{
    let mut next = 0;
    for i in 0..marks.len() {
        if marks[i] {
            stored.swap(next, i);
            stored[next].rename(ranks);
            next += 1;
        }
    }
    stored.truncate(next);
}

/// Gives the roots the names of their ranks.
pub fn rename_roots(roots: &mut [NodeId], ranks: &[usize])
    requires { AreBelow (length ranks.now) (nodes roots.old) }
    ensures { nodes roots.new ≡ map (renamed ranks.now) (nodes roots.old) }
{
    for root in roots.iter_mut() {
        root.index = ranks[root.index];
    }
}
