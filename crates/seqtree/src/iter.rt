//! The items of a list, one after another.
ghost use Rattle.std.specs.Prelude.{⊤, ◌≡◌, ◌∷◌, ◌++◌, drop, length};
ghost use Rattle.std.specs.Iterator.{at_most, YieldsFirstRef};
ghost use Rattle.seqtree.specs.Tree.{items_of};
ghost use Rattle.seqtree.specs.Parts.{part_items, items_ahead, AreParts, IsPart};

use crate::Measured;
use crate::stack::Stack;
use crate::tree::{self, Node, Tree};
use std::alloc::AllocError;
use std::marker::Model;

/// What is left of a tree after its first items.
pub struct Part<'a, T: Measured> {
    tree: &'a Tree<T>,
    /// How many of its first items are left out.
    skipped: usize,
}

impl<'a, T: Measured> Clone for Part<'a, T> {
    ghost is_clone = { λ part copy. copy ≡ part };

    ghost is_infallible = { λ _. ⊤ };

    fn clone(&self) -> Result<Self, AllocError> {
        Ok(*self)
    }
}

impl<'a, T: Measured> Copy for Part<'a, T> {}

/// The items of a list from one place on. What is left lies in parts, the next one on top, so that
/// no way down the tree is gone twice: a walk of n items takes a number of steps that grows with
/// n, and no memory.
#[derive(Drop)]
pub struct Iter<'a, T: Measured> {
    /// What is left, the next part on top.
    parts: Stack<Part<'a, T>>,
}

impl<'a, T: Measured> Model for Iter<'a, T> {
    ghost use Rattle.std.specs.Prelude.{List};
    ghost use Rattle.seqtree.specs.Parts.{items_ahead, AreParts};

    ghost Value = { List T };

    ghost view = { λ a. items_ahead a.parts };

    ghost invariant = { λ a. AreParts 0 a.parts };
}

impl<'a, T: Measured> Iter<'a, T> {
    /// The items of a tree but for the first ones.
    pub fn new(tree: &'a Tree<T>, skipped: usize) -> Self
        ensures { result ≡ drop skipped (items_of tree.now) }
    {
        let whole = Part { tree, skipped };
        let mut parts = Stack::new(whole);
        // Read for the proof: no tree is higher than the stack.
        let _low = tree::height(tree);
        if skipped < tree::count(tree) {
            parts.push(whole);
        }
        Iter { parts }
    }
}

impl<'a, T: Measured> Iterator for Iter<'a, T> {
    type Item = &'a T;

    ghost next_gives = { YieldsFirstRef (λ s. s) };

    ghost remaining = { λ s. at_most (length s) };

    fn next(&mut self) -> Option<&'a T> {
        let part = self.parts.pop()?;
        Some(first_of(&mut self.parts, part))
    }
}

/// The first item of a part. What comes after it goes onto the stack.
fn first_of<'a, T: Measured>(parts: &mut Stack<Part<'a, T>>, part: Part<'a, T>) -> &'a T
    requires parts { AreParts 0 parts.old }
    requires part { IsPart (length parts.old) part }
    ensures items { part_items part.entry ++ items_ahead parts.old
        ≡ result.now ∷ items_ahead parts.new }
    ensures parts { AreParts 0 parts.new }
{
    let Part { tree, mut skipped } = part;
    let mut below = tree;
    loop {
        let Some(node) = below else { unreachable!() };
        let node: &Node<T> = node;
        let before = tree::count(&node.left);
        if skipped == before {
            if before + 1 < tree::count(below) {
                parts.push(Part {
                    tree: &node.right,
                    skipped: 0,
                });
            }
            return &node.item;
        }
        if skipped < before {
            parts.push(Part {
                tree: below,
                skipped: before,
            });
            below = &node.left;
        } else {
            skipped -= before + 1;
            below = &node.right;
        }
    }
}
