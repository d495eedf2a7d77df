//! A walk over a tree and the trees in it.

use crate::nodes::{Nodes, Placed};
use std::alloc::{AllocError, Global};
use trees::Child;

/// A walk over a tree and the trees in it that have tokens, each before those in it.
#[derive(Drop)]
pub(crate) struct Walk<'a> {
    nodes: Nodes<'a>,
    /// The trees that are still to be gone over, the next one last.
    open: Vec<Placed>,
}

impl<'a> Walk<'a> {
    /// The walk over this tree.
    pub(crate) fn over(
        alloc: Global,
        nodes: Nodes<'a>,
        root: Placed,
    ) -> Result<Walk<'a>, AllocError> {
        let mut open = Vec::new(alloc);
        open.push(root)?;
        Ok(Walk { nodes, open })
    }

    /// The next tree; none after the last one.
    pub(crate) fn next(&mut self) -> Result<Option<Placed>, AllocError> {
        let Some(tree) = self.open.pop() else {
            return Ok(None);
        };
        if let Child::Node(id) = tree.child {
            let mut to = tree.places.to;
            for child in self.nodes.children(id).rev() {
                let placed = self.nodes.placed_before(child, to);
                to = placed.places.from;
                if !placed.places.is_empty() {
                    self.open.push(placed)?;
                }
            }
        }
        Ok(Some(tree))
    }
}
